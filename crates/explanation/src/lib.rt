// Why sync bytes gave no record, as text: a line for each (request No. 4).
#![tactic(auto)]

ghost use Rattle.std.specs.Prelude.{◌≡◌, length};
ghost use Rattle.basics.specs.Output.{written_as};
ghost use Rattle.explanation.specs.Line.{line_written, line_after};
ghost use Rattle.explanation.specs.Explanation.{explained_of, explained_after};

mod all;
mod write;

use basics::{Refusal, Written};
use diagnosis::Fault;
use listing::MOST;

// Room for every output: a fault of a recording that is explained has a line of at most 40 bytes, and there is at most one for
// each byte (law `explanation-room`).
pub const ROOM: usize = 2621440;

// Writes a fault's line to the start of `out`. A refusal leaves every byte of `out` as it was.
pub fn line(fault: Fault, out: &mut [u8]) -> Written
    ensures value { result ≡ line_written fault (length out.old) }
    ensures out_after { out.new ≡ line_after fault out.old }
{
    Written::from(written_line(fault, out))
}

// The same, before it is made C's answer.
fn written_line(fault: Fault, out: &mut [u8]) -> Result<usize, Refusal>
    ensures value { written_as result ≡ line_written fault (length out.old) }
    ensures out_after { out.new ≡ line_after fault out.old }
{
    let line = write::line(fault);
    let text = line.as_slice();
    if out.len() < text.len() {
        return Err(Refusal::OutputTooShort);
    }
    Ok(basics::copy(text, out))
}

// Writes what the explainer prints for a recording to the start of `out`: the explanation, or `too long`.
// 5: `out` has fewer than ROOM bytes; then every byte of it stays as it was.
pub fn explain(input: &[u8], out: &mut [u8]) -> Written
    ensures value { result ≡ explained_of input.now (length out.old) }
    ensures out_after { out.new ≡ explained_after input.now out.old }
{
    Written::from(explained(input, out))
}

// The same, before it is made C's answer.
fn explained(input: &[u8], out: &mut [u8]) -> Result<usize, Refusal>
    ensures value { written_as result ≡ explained_of input.now (length out.old) }
    ensures out_after { out.new ≡ explained_after input.now out.old }
{
    if out.len() < ROOM {
        return Err(Refusal::OutputTooShort);
    }
    if input.len() > MOST {
        return Ok(basics::copy(b"too long\n", out));
    }
    Ok(all::lines(input, out))
}
