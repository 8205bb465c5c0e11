// The chain of sections: headers and payloads alternate until the payload runs out exactly. Where a section runs past its end, there is no
// count: an `Option`, since it takes two registers, and half as much stack at each step as a `Result`, which is handed back in memory.
ghost use Rattle.std.specs.Prelude.{◌≡◌, false, ◌+◌, ◌*◌, ◌<◌, ◌≤◌, length, drop};
ghost use mathlib.Core.List.{flatten};
ghost use Rattle.sections.specs.Section.{sections_of, overrun};
ghost use Rattle.sections.specs.Stage.{chain_count, payload_count};

// How long a section is, by its first byte: four bytes of header, and four for each payload frame.
pub fn section_length(first: u8) -> usize
    ensures { result ≡ 4 + 4 * first }
{
    4 + 4 * first as usize
}

// The chain check at a section's header. The sections counted so far are handed along, so that nothing is left to do behind a call.
#[cycle(header_step_payload_step)]
pub fn header_step(rest: &[u8], count: usize) -> Option<usize>
    requires { count + length rest.now ≤ 508 }
    ensures { result ≡ chain_count rest.now count }
{
    if rest.is_empty() {
        return Some(count);
    }
    if rest.len() < 4 {
        return None;
    }
    let size = 4 * rest[0] as usize;
    payload_step(&rest[4..], size, count + 1)
}

// The chain check at a section's payload of `size` bytes; that section is counted.
#[cycle(header_step_payload_step)]
fn payload_step(rest: &[u8], size: usize, count: usize) -> Option<usize>
    requires { count + length rest.now ≤ 508 }
    ensures { result ≡ payload_count rest.now size count }
{
    if rest.len() < size {
        return None;
    }
    header_step(&rest[size..], count)
}

// The payload from section k on: one section is dropped, and number k - 1 is asked for in the rest.
pub fn from_section(rest: &[u8], k: usize) -> &[u8]
    requires k_bound { k < 127 }
    requires k_in_bounds { (k < length (sections_of rest.now)) × (overrun rest.now ≡ false) }
    ensures { result.now ≡ flatten (drop k (sections_of rest.now)) }
{
    if k == 0 {
        return rest;
    }
    from_section(&rest[section_length(rest[0])..], k - 1)
}
