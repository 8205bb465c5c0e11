// One record: writing it, and a datagram's value.
ghost use Rattle.std.specs.Prelude.{◌≡◌, length};
ghost use Rattle.record.specs.Encode.{encoding_of, output_after};
ghost use Rattle.record.specs.Value.{value_of};

use basics::Written;
use record::Header;

// Writes the stream of a record to the start of `out`. A refusal leaves every byte of `out` as it was.
#[unsafe(no_mangle)]
pub extern "C" fn vbus_encode(header: Header, payload: &[u8], out: &mut [u8]) -> Written
    ensures value { result ≡ encoding_of (record { header = header; payload = payload.now }) (length out.old) }
    ensures out_after { out.new ≡ output_after (record { header = header; payload = payload.now }) out.old }
{
    record::encode(header, payload, out)
}

// A datagram's value, the last four bytes of its payload, as a signed number.
#[unsafe(no_mangle)]
pub extern "C" fn vbus_value(payload: &[u8; 6]) -> i32
    ensures { result ≡ value_of payload.now }
{
    record::value(*payload)
}
