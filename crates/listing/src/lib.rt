// A recording as text: a line for each record.
#![tactic(auto)]

ghost use Rattle.std.specs.Prelude.{◌≡◌, length, take};
ghost use Rattle.basics.specs.Output.{written_as};
ghost use Rattle.listing.specs.Line.{line_written, line_after};
ghost use Rattle.listing.specs.Listing.{listed_of, listed_after};

mod all;
mod write;

use basics::{Refusal, Written};
use record::Header;

// The most bytes of a recording that are listed.
pub const MOST: usize = 65536;

// Room for every output: a line has at most 9/4 as many bytes as its record's stream (law `line-room`).
pub const ROOM: usize = 147456;

// Writes a record's line to the start of `out`. A refusal leaves every byte of `out` as it was.
pub fn line(header: Header, payload: &[u8], out: &mut [u8]) -> Written
    ensures value { result ≡ line_written (record { header = header; payload = payload.now }) (length out.old) }
    ensures out_after { out.new ≡ line_after (record { header = header; payload = payload.now }) out.old }
{
    Written::from(written_line(header, payload, out))
}

// The same, before it is made C's answer.
fn written_line(header: Header, payload: &[u8], out: &mut [u8]) -> Result<usize, Refusal>
    ensures value { written_as result ≡ line_written (record { header = header; payload = payload.now }) (length out.old) }
    ensures out_after { out.new ≡ line_after (record { header = header; payload = payload.now }) out.old }
{
    // Two digits for each payload byte: without room for them, the line's length could exceed a usize.
    if out.len() / 2 < payload.len() {
        return Err(Refusal::OutputTooShort);
    }
    let kind = stream::kind_of(header.version);
    let head = write::head_length(kind, header.command);
    let end = head + write::payload_text_length(payload);
    if out.len() <= end {
        return Err(Refusal::OutputTooShort);
    }
    write::head(kind, header, out);
    write::payload(payload, &mut out[head..]);
    basics::copy(b"\n", &mut out[end..]);
    Ok(end + 1)
}

// Writes what the lister prints for a recording to the start of `out`: the listing, or `too long`.
// 5: `out` has fewer than ROOM bytes; then every byte of it stays as it was.
pub fn list(input: &[u8], out: &mut [u8]) -> Written
    ensures value { result ≡ listed_of input.now (length out.old) }
    ensures out_after { out.new ≡ listed_after input.now out.old }
{
    Written::from(listed(input, out))
}

// The same, before it is made C's answer.
fn listed(input: &[u8], out: &mut [u8]) -> Result<usize, Refusal>
    ensures value { written_as result ≡ listed_of input.now (length out.old) }
    ensures out_after { out.new ≡ listed_after input.now out.old }
{
    if out.len() < ROOM {
        return Err(Refusal::OutputTooShort);
    }
    if input.len() > MOST {
        return Ok(basics::copy(b"too long\n", out));
    }
    Ok(all::lines(input, out))
}

// The bytes of an output that an answer says were written, or all where there are fewer: so that a program that prints them has
// nothing to count.
pub fn written_text(out: &[u8], written: Written) -> &[u8]
    ensures result_value { result.now ≡ take written.length out.now }
    ensures ref_ptr_value { result.ref_ptr ≡ out.entry.ref_ptr }
{
    &out[..written.length.min(out.len())]
}
