// A recording: bytes off the wire, in which streams stand between noise.
#![tactic(auto)]

ghost use Rattle.std.specs.Prelude.{◌≡◌, length, drop};
ghost use Rattle.basics.specs.Output.{output_for};
ghost use Rattle.record.specs.Record.{record_of};
ghost use Rattle.recording.specs.Decode.{decoded_of, decoded_after};
ghost use Rattle.recording.specs.Next.{found_as, next_of, payload_after};
ghost use Rattle.recording.specs.Normalize.{normalizing_of, output_after};
ghost use Rattle.recording.specs.Stage.{WholeAt, delivered_of};

mod clear;
mod read;
mod rewrite;
mod search;

use basics::{Refusal, Written};
use read::Contents;
use record::Header;
use search::Span;

// The next record: the position of its 0xAA in the input, how long its stream is, its header, and how long its payload is.
// Where there is none, or the call is refused, every field but the number is zero.
#[repr(C)]
#[derive(Clone, Copy, Default)]
pub struct Found {
    pub number: u32,
    pub found: bool,
    pub position: u64,
    pub length: usize,
    pub header: Header,
    pub payload_length: usize,
}

// A record that was read: where its stream stands, how long that is, and what the record is beside its payload's bytes.
#[derive(Clone, Copy)]
struct Delivered {
    position: usize,
    length: usize,
    contents: Contents,
}

impl From<Result<Option<Delivered>, Refusal>> for Found {
    ghost from_gives = { λ answer found. found ≡ found_as answer };

    fn from(answer: Result<Option<Delivered>, Refusal>) -> Found {
        match answer {
            Ok(Some(delivered)) => Found {
                number: 0,
                found: true,
                position: delivered.position as u64,
                length: delivered.length,
                header: delivered.contents.header,
                payload_length: delivered.contents.payload_length,
            },
            Ok(None) => Found::default(),
            Err(refusal) => Found {
                number: refusal.number(),
                ..Found::default()
            },
        }
    }
}

// Hands out the record of a whole stream.
fn deliver(input: &[u8], span: Span, out: &mut [u8]) -> Result<Option<Delivered>, Refusal>
    requires { WholeAt input.now span }
    ensures value { found_as result ≡ delivered_of input.now span.position (length out.old) }
    ensures out_after { out.new ≡ output_for (record_of (drop span.position input.now)).payload out.old }
{
    let contents = read::record(&input[span.position..], out)?;
    Ok(Some(Delivered {
        position: span.position,
        length: span.stream.length,
        contents,
    }))
}

// The record of the whole stream that `input` begins with, its payload at the start of `out`.
// A refusal, and the answer that it begins with none, leave every byte of `out` as it was.
pub fn decode(input: &[u8], out: &mut [u8]) -> Found
    ensures value { result ≡ decoded_of input.now (length out.old) }
    ensures out_after { out.new ≡ decoded_after input.now out.old }
{
    match stream::first_fault(input) {
        Ok(stream) => Found::from(deliver(
            input,
            Span {
                position: 0,
                stream,
            },
            out,
        )),
        Err(_) => Found::from(Ok(None)),
    }
}

// The record of the first whole stream at or after `start`, its payload at the start of `out`.
// A refusal, and the answer that there is none, leave every byte of `out` as it was.
pub fn next(input: &[u8], start: usize, out: &mut [u8]) -> Found
    ensures value { result ≡ next_of input.now start (length out.old) }
    ensures out_after { out.new ≡ payload_after input.now start out.old }
{
    if input.len() < start {
        return Found::from(Err(Refusal::StartPastEnd));
    }
    match search::first_whole(input, start) {
        Some(span) => Found::from(deliver(input, span, out)),
        None => Found::from(Ok(None)),
    }
}

// Writes the records of a recording again, end to end, to the start of `out` (document 01: wash).
// A refusal leaves every byte of `out` as it was.
pub fn normalize(input: &[u8], out: &mut [u8]) -> Written
    ensures value { result ≡ normalizing_of input.now (length out.old) }
    ensures out_after { out.new ≡ output_after input.now out.old }
{
    Written::from(rewrite::normalize(input, out))
}
