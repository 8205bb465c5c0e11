// One frame: its payload bytes, their septet, and the checksum of both.
ghost use Rattle.std.specs.Prelude.{◌+◌, ◌≤◌, ◌<◌, ◌≡◌, true, ◌↔◌, length, take};
ghost use Rattle.checksum.specs.Checksum.{checksum_of};
ghost use Rattle.stream.specs.Stage.{Clean, Faulty, ReachedFrame, frame_fault, CountedFrom};
ghost use Rattle.stream.specs.Validation.{said_by, validation_of};

use crate::high_bytes::all_low;
use crate::unused::in_septet;
use crate::{Stop, Verdict, WholeStream, high_bytes};

// The checksum of a frame's payload bytes and septet, as they came: unused septet bits are covered too.
fn sum(frame: &[u8], width: usize) -> u8
    requires { width < length frame.now }
    ensures { result ≡ checksum_of (take (width + 1) frame.now) }
{
    checksum::checksum(&frame[0..width + 1])
}

// The first fault of the frame that `part` is, or that it is cut off in. The frame isn't right.
fn fault(part: &[u8], width: usize) -> Stop
    requires { (width ≤ 7) × Faulty width part.now }
    ensures { ReachedFrame width part.now result }
{
    match high_bytes::check(part, 0, width + 2) {
        Err(stop) => stop,
        Ok(()) => Verdict::FrameChecksum.at(width + 1),
    }
}

// Whether a complete frame has no fault. Which one it has doesn't matter here, so no byte needs a branch of its own.
fn is_right(frame: &[u8], width: usize) -> bool
    requires { length frame.now ≡ width + 2 }
    ensures { result ≡ true ↔ Clean (frame_fault width frame.now) (width + 2) }
{
    all_low(frame) && sum(frame, width) == frame[width + 1]
}

// So many frames from `start` on: the stream is whole if each of them is right, else the first that isn't, or is cut off, is at fault.
pub fn validate(input: &[u8], start: usize, width: usize, count: usize) -> Result<WholeStream, Stop>
    requires { CountedFrom input.now start width count 0 }
    ensures { said_by result ≡ validation_of input.now }
{
    let size = width + 2;
    let mut unused_septets = 0;
    for frame in 0..count {
        let at = start + size * frame;
        let end = at + size;
        if input.len() < end || !is_right(&input[at..end], width) {
            let stop = fault(&input[at..end.min(input.len())], width);
            return Err(stop.verdict.at(at + stop.offset));
        }
        unused_septets += in_septet(input[at + width], width);
    }
    Ok(WholeStream {
        length: start + size * count,
        unused_septets,
    })
}
