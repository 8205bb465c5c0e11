// A recording's faults explained one after the other.
ghost use Rattle.std.specs.Prelude.{◌≡◌, ◌≤◌, length};
ghost use Rattle.basics.specs.Bytes.{over};
ghost use Rattle.explanation.specs.Explanation.{explanation_of};

use crate::line;

// Writes the lines one behind the other, each to the rest of the output, and returns how many bytes they take.
pub fn lines(input: &[u8], out: &mut [u8]) -> usize
    requires { length (explanation_of input.now) ≤ length out.old }
    ensures value { result ≡ length (explanation_of input.now) }
    ensures out_after { out.new ≡ over (explanation_of input.now) out.old }
{
    let mut place = 0;
    let mut to = 0;
    loop {
        let fault = diagnosis::read_fault_at(input, place);
        if !fault.found {
            return to;
        }
        let written = line(fault, &mut out[to..]);
        to += written.length;
        place = fault.place + 1;
    }
}
