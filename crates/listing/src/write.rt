// Writing a line. Each function is lent the part of the output that starts where it writes, and leaves what lies behind.
ghost use Rattle.std.specs.Prelude.{◌≡◌, ◌+◌, ◌*◌, ◌≤◌, length};
ghost use Rattle.basics.specs.Bytes.{over};
ghost use Rattle.listing.specs.Line as lines;

use record::Header;
use stream::Kind;

fn letter(kind: Kind) -> u8
    ensures { result ≡ lines.letter kind }
{
    match kind {
        Kind::Packet => b'P',
        Kind::Datagram => b'D',
        Kind::Telegram => b'T',
        Kind::Unknown => b'?',
    }
}

// Kind letter, destination, source and version.
fn fields(kind: Kind, header: Header) -> [u8; 14]
    ensures { result ≡ lines.hex_fields kind header }
{
    let to = text::hex_word(header.destination);
    let from = text::hex_word(header.source);
    let version = text::hex_byte(header.version);
    [
        letter(kind),
        b' ',
        to[0],
        to[1],
        to[2],
        to[3],
        b' ',
        from[0],
        from[1],
        from[2],
        from[3],
        b' ',
        version[0],
        version[1],
    ]
}

// A telegram's command, a byte, takes two digits; any other four.
fn is_byte(kind: Kind, command: u16) -> bool
    ensures { result ≡ lines.is_byte kind command }
{
    kind == Kind::Telegram && command < 256
}

// A space and the command.
fn command(kind: Kind, command: u16, out: &mut [u8])
    requires { length (lines.spaced (lines.hex_command kind command)) ≤ length out.old }
    ensures { out.new ≡ over (lines.spaced (lines.hex_command kind command)) out.old }
{
    basics::copy(b" ", out);
    if is_byte(kind, command) {
        basics::copy(&text::hex_byte(command as u8), &mut out[1..]);
    } else {
        basics::copy(&text::hex_word(command), &mut out[1..]);
    }
}

pub fn head_length(kind: Kind, command: u16) -> usize
    ensures { result ≡ 15 + length (lines.hex_command kind command) }
{
    if is_byte(kind, command) { 17 } else { 19 }
}

#[tactic(auto, unfolding(crate::specs::Line::hex_head))]
pub fn head(kind: Kind, header: Header, out: &mut [u8])
    requires { length (lines.hex_head kind header) ≤ length out.old }
    ensures { out.new ≡ over (lines.hex_head kind header) out.old }
{
    basics::copy(&fields(kind, header), out);
    command(kind, header.command, &mut out[14..]);
}

pub fn payload_text_length(payload: &[u8]) -> usize
    ensures { result ≡ length (lines.hex_payload payload.now) }
{
    if payload.is_empty() {
        0
    } else {
        1 + 2 * payload.len()
    }
}

fn hex_bytes(bytes: &[u8], out: &mut [u8])
    requires { 2 * length bytes.now ≤ length out.old }
    ensures { out.new ≡ over (lines.hex_bytes bytes.now) out.old }
{
    for (i, byte) in bytes.iter().enumerate() {
        basics::copy(&text::hex_byte(*byte), &mut out[2 * i..]);
    }
}

// A space and the payload, or nothing where it is empty.
pub fn payload(payload: &[u8], out: &mut [u8])
    requires { length (lines.hex_payload payload.now) ≤ length out.old }
    ensures { out.new ≡ over (lines.hex_payload payload.now) out.old }
{
    if !payload.is_empty() {
        basics::copy(b" ", out);
        hex_bytes(payload, &mut out[1..]);
    }
}
