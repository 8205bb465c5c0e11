// High bytes: 0x80 and above, which are a fault anywhere behind a stream's first byte.
ghost use Rattle.std.specs.Prelude.{◌≤◌, ◌≡◌, true, ◌↔◌, length, MatchOption, MatchResult};
ghost use Rattle.stream.specs.Stage.{AllLow, HighFirst, LowUpTo, StopsAt};

use crate::{Stop, Verdict};

// Whether every byte is low. The bytes are joined without a branch between them, for speed.
pub fn all_low(s: &[u8]) -> bool
    ensures { result ≡ true ↔ AllLow s.now }
{
    let mut joined = 0;
    for byte in s {
        joined |= *byte;
    }
    joined < 0x80
}

// The first place of a high byte.
fn first_high(s: &[u8]) -> Option<usize>
    ensures { MatchOption result (AllLow s.now) (HighFirst s.now) }
{
    s.iter().position(|byte| *byte >= 0x80)
}

// The first high byte from `from` up to the limit, or the end of `s` before that. Of a stream there is mostly neither, which is seen without a
// branch for each byte.
pub fn check(s: &[u8], from: usize, limit: usize) -> Result<(), Stop>
    requires { (from ≤ limit) × (from ≤ length s.now) }
    ensures { MatchResult result (λ _. LowUpTo s.now from limit) (λ stop. StopsAt s.now from limit stop) }
{
    if limit <= s.len() && all_low(&s[from..limit]) {
        return Ok(());
    }
    let end = limit.min(s.len());
    if let Some(behind) = first_high(&s[from..end]) {
        return Err(Verdict::HighByte.at(from + behind));
    }
    if end < limit {
        return Err(Verdict::Ended.at(end));
    }
    Ok(())
}
