// A sender of bytes at the pace that its energy allows.
ghost use Rattle.std.specs.Prelude.{◌≡◌, length};
ghost use Rattle.sender.specs.Energy.{energy_left};
ghost use Rattle.sender.specs.Queue.{is_idle};
ghost use Rattle.sender.specs.Answer.{start_of, enqueue_of, queue_after, transmit_of, output_after, wait_of};

use sender::{Sender, Sent, Settings};

// A full sender with nothing queued. Refused, it is all zero, which is a sender with energy keeping switched off.
#[unsafe(no_mangle)]
pub extern "C" fn vbus_sender_start(settings: Settings) -> Sent
    ensures { result ≡ start_of settings }
{
    sender::start(settings)
}

// Queues bytes to be sent. A refusal leaves the sender and every byte of `queue` as they were.
#[unsafe(no_mangle)]
pub extern "C" fn vbus_sender_enqueue(sender: Sender, queue: &mut [u8; 772], bytes: &[u8]) -> Sent
    ensures value { result ≡ enqueue_of sender bytes.now }
    ensures queue_after { queue.new ≡ queue_after sender bytes.now queue.old }
{
    sender::enqueue(sender, queue, bytes)
}

// Hands out the next portion to the start of `out`, if the sender is full and bytes are to go. A refusal leaves the sender and every
// byte of `out` as they were.
#[unsafe(no_mangle)]
pub extern "C" fn vbus_sender_transmit(sender: Sender, queue: &[u8; 772], out: &mut [u8]) -> Sent
    ensures value { result ≡ transmit_of sender (length out.old) }
    ensures out_after { out.new ≡ output_after sender queue.now out.old }
{
    sender::transmit(sender, queue, out)
}

// Tells the sender that time has passed. It counts only while the sender waits.
#[unsafe(no_mangle)]
pub extern "C" fn vbus_sender_wait(sender: Sender, microseconds: u64) -> Sent
    ensures { result ≡ wait_of sender microseconds }
{
    sender::wait(sender, microseconds)
}

// Nothing is to go, and no energy is waited for.
#[unsafe(no_mangle)]
pub extern "C" fn vbus_sender_is_idle(sender: Sender) -> bool
    ensures { result ≡ is_idle sender }
{
    sender::is_idle(sender)
}

// The energy left.
#[unsafe(no_mangle)]
pub extern "C" fn vbus_sender_energy(sender: Sender) -> u32
    ensures { result ≡ energy_left sender }
{
    sender::energy(sender)
}
