// A receiver of bytes as they arrive, in chunks.
ghost use Rattle.std.specs.Prelude.{◌≡◌, length};
ghost use Rattle.receiver.specs.Receive.{received_of, output_after, Remembered, reset_of};

use receiver::{Received, Receiver};

// Takes in the bytes of a chunk up to the last one of the first stream that they complete, or all of them, with the payload at the
// start of `payload`. A refusal uses nothing and leaves the receiver, `memory` and `payload` as they were.
#[unsafe(no_mangle)]
pub extern "C" fn vbus_receive(
    receiver: Receiver,
    memory: &mut [u8; 772],
    chunk: &[u8],
    payload: &mut [u8],
) -> Received
    ensures value { result ≡ received_of receiver memory.old chunk.now (length payload.old) }
    ensures payload_after { payload.new ≡ output_after receiver memory.old chunk.now payload.old }
    ensures remembered { Remembered receiver memory.old chunk.now (length payload.old) memory.new }
{
    receiver::receive(receiver, memory, chunk, payload)
}

// Forgets the unfinished stream, and only that.
#[unsafe(no_mangle)]
pub extern "C" fn vbus_reset(receiver: Receiver) -> Receiver
    ensures { result ≡ reset_of receiver }
{
    receiver::reset(receiver)
}
