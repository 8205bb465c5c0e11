// Bytes of a stream: checksums, septets, and the verdict on a stretch.
ghost use Rattle.std.specs.Prelude.{◌≡◌};
ghost use Rattle.checksum.specs.Checksum.{checksum_of};
ghost use Rattle.septet.specs.Answer.{extracted, injected};
ghost use Rattle.stream.specs.Validation.{validation_of};

use septet::Septets;
use stream::Validation;

// The checksum of some bytes.
#[unsafe(no_mangle)]
pub extern "C" fn vbus_checksum(bytes: &[u8]) -> u8
    ensures { result ≡ checksum_of bytes.now }
{
    checksum::checksum(bytes)
}

// The first `used` bytes without their top bits, and the septet that holds these.
#[unsafe(no_mangle)]
pub extern "C" fn vbus_extract(bytes: &[u8; 7], used: usize) -> Septets
    ensures { result ≡ extracted bytes.now used }
{
    septet::extract(*bytes, used)
}

// The first `used` bytes with the septet's bits as their top bits. Septet bits that stand for no byte are ignored.
#[unsafe(no_mangle)]
pub extern "C" fn vbus_inject(bytes: &[u8; 7], used: usize, septet: u8) -> Septets
    ensures { result ≡ injected bytes.now used septet }
{
    septet::inject(*bytes, used, septet)
}

// The verdict's number (V0 to V7, never 5) on the stream that `input` begins with, the offset, and how many blocks of a whole stream have
// unused septet bits set.
#[unsafe(no_mangle)]
pub extern "C" fn vbus_validate(input: &[u8]) -> Validation
    ensures { result ≡ validation_of input.now }
{
    stream::validate(input)
}
