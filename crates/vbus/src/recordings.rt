// A recording: its records one by one, why there is none, and all of them written again.
ghost use Rattle.std.specs.Prelude.{◌≡◌, length};
ghost use Rattle.diagnosis.specs.Fault.{next_fault};
ghost use Rattle.recording.specs.Next.{next_of, payload_after};
ghost use Rattle.recording.specs.Normalize.{normalizing_of, output_after};

use basics::Written;
use diagnosis::Fault;
use recording::Found;

// The record of the first whole stream at or after `start`, its payload at the start of `payload`.
// A refusal, and the answer that there is none, leave every byte of `payload` as it was.
#[unsafe(no_mangle)]
pub extern "C" fn vbus_next(input: &[u8], start: usize, payload: &mut [u8]) -> Found
    ensures value { result ≡ next_of input.now start (length payload.old) }
    ensures payload_after { payload.new ≡ payload_after input.now start payload.old }
{
    recording::next(input, start, payload)
}

// The first sync byte at or after `start` that gave no record, and why.
#[unsafe(no_mangle)]
pub extern "C" fn vbus_next_fault(input: &[u8], start: usize) -> Fault
    ensures { result ≡ next_fault input.now start }
{
    diagnosis::next_fault(input, start)
}

// Writes the records of a recording again, end to end, to the start of `out`. A refusal leaves every byte of `out` as it was.
#[unsafe(no_mangle)]
pub extern "C" fn vbus_normalize(input: &[u8], out: &mut [u8]) -> Written
    ensures value { result ≡ normalizing_of input.now (length out.old) }
    ensures out_after { out.new ≡ output_after input.now out.old }
{
    recording::normalize(input, out)
}
