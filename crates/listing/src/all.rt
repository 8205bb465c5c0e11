// A recording's records listed one after the other.
ghost use Rattle.std.specs.Prelude.{◌≡◌, ◌≤◌, length};
ghost use Rattle.basics.specs.Bytes.{over};
ghost use Rattle.listing.specs.Listing.{listing_of};

use crate::line;
use record::LONGEST_PAYLOAD;

// Writes the lines one behind the other, each to the rest of the output, and returns how many bytes they take.
pub fn lines(input: &[u8], out: &mut [u8]) -> usize
    requires { length (listing_of input.now) ≤ length out.old }
    ensures value { result ≡ length (listing_of input.now) }
    ensures out_after { out.new ≡ over (listing_of input.now) out.old }
{
    let mut at = 0;
    let mut to = 0;
    loop {
        let mut payload = [0u8; LONGEST_PAYLOAD];
        let found = recording::next(input, at, &mut payload);
        if !found.found {
            return to;
        }
        let written = line(
            found.header,
            &payload[..found.payload_length],
            &mut out[to..],
        );
        to += written.length;
        at = found.position as usize + found.length;
    }
}
