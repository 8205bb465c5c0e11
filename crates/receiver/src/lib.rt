// A receiver: bytes off the wire in chunks, as a port hands them over (document 02, No. 1: scraps).
#![tactic(auto)]

ghost use Rattle.std.specs.Prelude.{◌≡◌, ◌+◌, ◌-◌, ◌^◌, ◌≤◌, ◌<◌, length, take};
ghost use Rattle.basics.specs.Bytes.{over};
ghost use Rattle.basics.specs.Refusal.{number};
ghost use Rattle.recording.specs.Next.{without, payload_of};
ghost use Rattle.receiver.specs.Receive.{outcome_in, completed_in, answer_of, accepted_of, received_of, output_after, Remembered, reset_of};
ghost use Rattle.receiver.specs.Stage.{found_at};

mod buffer;
mod length;

use basics::Refusal;
use buffer::Unfinished;
use record::{Header, LONGEST_PAYLOAD};
use recording::Found;

// The state between calls; zeroed, it is fresh. The bytes of the unfinished stream stand in the memory that is lent with it.
#[repr(C)]
#[derive(Clone, Copy, Default)]
pub struct Receiver {
    // How many bytes of the unfinished stream stand at the start of the memory.
    pub held: usize,
    // How many bytes were used so far; a reset doesn't set this back.
    pub position: u64,
}

// The record of a stream that was completed: the position of its 0xAA among all bytes used, how long the stream is, its header, and how
// long its payload is; all zero where there is none. How many bytes of the chunk were used, and the state afterwards.
#[repr(C)]
#[derive(Clone, Copy, Default)]
pub struct Received {
    pub number: u32,
    pub found: bool,
    pub used: usize,
    pub position: u64,
    pub length: usize,
    pub header: Header,
    pub payload_length: usize,
    pub receiver: Receiver,
}

impl Received {
    // An answer with the record that was found, whose stream ends where `end` bytes are used; nothing is held then.
    fn delivered(found: Found, used: usize, end: u64) -> Received
        requires { found.length ≤ end }
        ensures { result ≡ answer_of (found_at (end - found.length) found) used (record { held = 0; position = end }) }
    {
        Received {
            number: found.number,
            found: found.found,
            used,
            position: end - found.length as u64,
            length: found.length,
            header: found.header,
            payload_length: found.payload_length,
            receiver: Receiver {
                held: 0,
                position: end,
            },
        }
    }

    // An answer without a record.
    fn unfound(used: usize, receiver: Receiver) -> Received
        ensures { result ≡ answer_of (without 0) used receiver }
    {
        Received {
            used,
            receiver,
            ..Received::default()
        }
    }

    // The answer to a call that is refused: nothing is used, and the state is as it was.
    fn refused(refusal: Refusal, receiver: Receiver) -> Received
        ensures { result ≡ answer_of (without (number refusal)) 0 receiver }
    {
        Received {
            number: refusal.number(),
            ..Received::unfound(0, receiver)
        }
    }
}

// Takes in the bytes up to the one that completes a whole stream, or all of them, behind the bytes that the receiver holds.
fn feed(receiver: Receiver, memory: &mut [u8; 772], chunk: &[u8], out: &mut [u8]) -> Received
    requires { (508 ≤ length out.old) × (receiver.position + length chunk.now < 2 ^ 64) }
    ensures value { result ≡ accepted_of receiver.position (outcome_in receiver memory.old chunk.now) }
    ensures out_after { out.new ≡ over (payload_of (completed_in receiver.position (outcome_in receiver memory.old chunk.now))) out.old }
    ensures memory_after { take result.receiver.held memory.new ≡ (outcome_in receiver memory.old chunk.now).held }
{
    let mut state = Unfinished::restored(receiver, memory);
    for (index, byte) in chunk.iter().enumerate() {
        state = state.take_byte(memory, *byte);
        if state.held == state.least {
            let found = recording::decode(&memory[..state.held], out);
            if found.found {
                let used = index + 1;
                let end = receiver.position + used as u64;
                return Received::delivered(found, used, end);
            }
            state = Unfinished::nothing();
        }
    }
    Received::unfound(
        chunk.len(),
        Receiver {
            held: state.held,
            position: receiver.position + chunk.len() as u64,
        },
    )
}

// Takes in the bytes of a chunk up to the last one of the first stream that they complete, or all of them. The record's payload then
// stands at the start of `out`. A refusal uses nothing and leaves the state, `memory` and `out` as they were.
pub fn receive(receiver: Receiver, memory: &mut [u8; 772], chunk: &[u8], out: &mut [u8]) -> Received
    ensures value { result ≡ received_of receiver memory.old chunk.now (length out.old) }
    ensures out_after { out.new ≡ output_after receiver memory.old chunk.now out.old }
    ensures remembered { Remembered receiver memory.old chunk.now (length out.old) memory.new }
{
    if out.len() < LONGEST_PAYLOAD {
        return Received::refused(Refusal::OutputTooShort, receiver);
    }
    if receiver.position.checked_add(chunk.len() as u64).is_none() {
        return Received::refused(Refusal::PositionOverflow, receiver);
    }
    feed(receiver, memory, chunk, out)
}

// Forgets the unfinished stream, and only that.
pub fn reset(receiver: Receiver) -> Receiver
    ensures { result ≡ reset_of receiver }
{
    Receiver {
        held: 0,
        ..receiver
    }
}
