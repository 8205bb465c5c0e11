// A recording's records written again, end to end.
ghost use Rattle.std.specs.Prelude.{◌≡◌, ◌≤◌, length};
ghost use Rattle.basics.specs.Bytes.{over};
ghost use Rattle.basics.specs.Output.{written_as};
ghost use Rattle.record.specs.Record.{record_of, stream_of};
ghost use Rattle.recording.specs.Normalize.{normalized, normalizing_of, output_after};
ghost use Rattle.recording.specs.Stage.{OneStream};

use crate::clear;
use crate::search::first_whole;
use basics::Refusal;

// How long the normalized recording is.
fn measure(input: &[u8]) -> usize
    ensures { result ≡ length (normalized input.now) }
{
    let mut at = 0;
    let mut total = 0;
    while let Some(span) = first_whole(input, at) {
        total += span.stream.length;
        at = span.position + span.stream.length;
    }
    total
}

// Writes the record of one whole stream. Its bytes are what writing gives, exactly if no unused septet bit is set in them (law
// `rewritten-same`): so they are copied, and such bits are cleared.
fn one(stream: &[u8], unused: u8, out: &mut [u8])
    requires { OneStream stream.now unused (length out.old) }
    ensures { out.new ≡ over (stream_of (record_of stream.now)) out.old }
{
    basics::copy(stream, out);
    if unused != 0 {
        clear::stream(out);
    }
}

// Writes the records one behind the other, each to the rest of the output, and returns how many bytes they take.
fn all(input: &[u8], out: &mut [u8]) -> usize
    requires { length (normalized input.now) ≤ length out.old }
    ensures value { result ≡ length (normalized input.now) }
    ensures out_after { out.new ≡ over (normalized input.now) out.old }
{
    let mut at = 0;
    let mut to = 0;
    while let Some(span) = first_whole(input, at) {
        at = span.position + span.stream.length;
        one(
            &input[span.position..at],
            span.stream.unused_septets,
            &mut out[to..],
        );
        to += span.stream.length;
    }
    to
}

// Writes the records to an output that has room for them, and returns how many bytes they take.
pub fn normalize(input: &[u8], out: &mut [u8]) -> Result<usize, Refusal>
    ensures value { written_as result ≡ normalizing_of input.now (length out.old) }
    ensures out_after { out.new ≡ output_after input.now out.old }
{
    // No normalized recording is longer than the recording, so only a shorter output is measured against.
    if out.len() < input.len() && out.len() < measure(input) {
        return Err(Refusal::OutputTooShort);
    }
    Ok(all(input, out))
}
