// The header behind the version, by the kind of the stream, and what follows it.
ghost use Rattle.std.specs.Prelude.{◌≡◌, ◌+◌, length};
ghost use Rattle.stream.specs.declared.Kind.TheVariants.{Packet, Datagram, Telegram};
ghost use Rattle.stream.specs.Stage.{Checked, AddressClean, AddressCleanAs, ChecksumAt};
ghost use Rattle.stream.specs.Validation.{fault_at, said_by, validation_of};

use crate::unused::in_septet;
use crate::{Kind, Stop, Verdict, WholeStream, frame, high_bytes, telegram_frames};

// The first fault of a header whose checksum stands at `place`.
fn check(input: &[u8], place: usize) -> Result<(), Stop>
    requires { ChecksumAt input.now place }
    ensures { Checked (fault_at input.now) (place + 1) (length input.now) result }
{
    high_bytes::check(input, 6, place + 1)?;
    if checksum::checksum(&input[1..place]) != input[place] {
        return Err(Verdict::HeaderChecksum.at(place));
    }
    Ok(())
}

// A packet: frames of four bytes, as many as offset 8 says.
fn packet(input: &[u8]) -> Result<WholeStream, Stop>
    requires { AddressCleanAs input.now Packet }
    ensures { said_by result ≡ validation_of input.now }
{
    check(input, 9)?;
    frame::validate(input, 10, 4, input[8] as usize)
}

// A telegram: frames of seven bytes, as many as bits 5-6 of the command say.
fn telegram(input: &[u8]) -> Result<WholeStream, Stop>
    requires { AddressCleanAs input.now Telegram }
    ensures { said_by result ≡ validation_of input.now }
{
    check(input, 7)?;
    frame::validate(input, 8, 7, telegram_frames(input[6] as u16))
}

// A datagram: a septet of six bytes at 14, and the checksum of all before it at 15.
fn datagram(input: &[u8]) -> Result<WholeStream, Stop>
    requires { AddressCleanAs input.now Datagram }
    ensures { said_by result ≡ validation_of input.now }
{
    check(input, 15)?;
    Ok(WholeStream {
        length: 16,
        unused_septets: in_septet(input[14], 6),
    })
}

// A stream of which nothing below the version is wrong.
pub fn validate(input: &[u8]) -> Result<WholeStream, Stop>
    requires { AddressClean input.now }
    ensures { said_by result ≡ validation_of input.now }
{
    match crate::kind_of(input[5]) {
        Kind::Packet => packet(input),
        Kind::Datagram => datagram(input),
        Kind::Telegram => telegram(input),
        Kind::Unknown => Err(Verdict::UnknownVersion.at(5)),
    }
}
