// Reading a record off a whole stream.
ghost use Rattle.std.specs.Prelude.{◌≡◌, ◌+◌, ◌*◌, ◌≤◌, ◌<◌, length, get_or, take};
ghost use Rattle.basics.specs.Bytes.{over};
ghost use Rattle.basics.specs.Output.{output_for};
ghost use Rattle.basics.specs.Words.{word_at};
ghost use Rattle.septet.specs.Septet.{with_top_bits};
ghost use Rattle.stream.specs.Validation.{validation_of};
ghost use Rattle.record.specs.Record.{record_of, command_in, payload_in, unframed};
ghost use Rattle.recording.specs.Stage.{PayloadHeld, contents_for};

use basics::Refusal;
use record::Header;
use stream::Kind;

// What a record is beside its payload's bytes.
#[derive(Clone, Copy)]
pub struct Contents {
    pub header: Header,
    pub payload_length: usize,
}

// The two bytes at an offset, low byte first.
fn word_at(stream: &[u8], at: usize) -> u16
    requires { at + 1 < length stream.now }
    ensures { result ≡ word_at stream.now at }
{
    u16::from_le_bytes([stream[at], stream[at + 1]])
}

// The command, where a stream of the kind has it.
#[tactic(auto, unfolding(record::specs::Record::command_in))]
fn command_in(kind: Kind, stream: &[u8]) -> u16
    requires { 7 < length stream.now }
    ensures { result ≡ command_in kind stream.now }
{
    match kind {
        Kind::Packet | Kind::Datagram => word_at(stream, 6),
        Kind::Telegram => stream[6] as u16,
        Kind::Unknown => 0,
    }
}

// The fields of the record beside its payload.
#[tactic(auto, unfolding(record::specs::Record::record_of))]
fn header(stream: &[u8]) -> Header
    requires { 7 < length stream.now }
    ensures { result ≡ (record_of stream.now).header }
{
    let version = stream[5];
    Header {
        version,
        destination: word_at(stream, 1),
        source: word_at(stream, 3),
        command: command_in(stream::kind_of(version), stream),
    }
}

// Puts the top bits back: byte i takes bit i of the septet.
fn block(low: &[u8], septet: u8, out: &mut [u8])
    requires { length low.now ≤ length out.old }
    ensures { out.new ≡ over (with_top_bits septet low.now) out.old }
{
    let mut rest = septet;
    for (i, byte) in low.iter().enumerate() {
        out[i] = byte % 128 + 128 * (rest % 2);
        rest /= 2;
    }
}

// The payload of the frame that `frame` begins with.
fn frame(frame: &[u8], width: usize, out: &mut [u8])
    requires { (width < length frame.now) × (width ≤ length out.old) }
    ensures { out.new ≡ over (with_top_bits (get_or frame.now width 0) (take width frame.now)) out.old }
{
    block(&frame[..width], frame[width], out);
}

// The payload of frames, one behind the other.
fn frames(frames: &[u8], width: usize, count: usize, out: &mut [u8])
    requires { (width ≤ 7) × (count < 256) × ((width + 2) * count ≤ length frames.now) × (width * count ≤ length out.old) }
    ensures { out.new ≡ over (unframed width count frames.now) out.old }
{
    for i in 0..count {
        frame(&frames[(width + 2) * i..], width, &mut out[width * i..]);
    }
}

// The payload of a stream of a kind and a frame count.
fn payload(kind: Kind, count: usize, stream: &[u8], out: &mut [u8])
    requires { PayloadHeld kind stream.now count (length out.old) }
    ensures { out.new ≡ over (payload_in kind stream.now) out.old }
{
    match kind {
        Kind::Packet => frames(&stream[10..], 4, count, out),
        Kind::Datagram => frame(&stream[8..], 6, out),
        Kind::Telegram => frames(&stream[8..], 7, count, out),
        Kind::Unknown => {}
    }
}

// Reads the record of a whole stream, its payload to the start of `out`. Both `decode` and `next` come here: a call of its own whose answer
// is short costs less time and stack than a whole `Found` that is handed on.
#[inline(never)]
pub fn record(stream: &[u8], out: &mut [u8]) -> Result<Contents, Refusal>
    requires { (validation_of stream.now).verdict ≡ 0 }
    ensures value { result ≡ contents_for (record_of stream.now) (length out.old) }
    ensures out_after { out.new ≡ output_for (record_of stream.now).payload out.old }
{
    let kind = stream::kind_of(stream[5]);
    let count = stream::frame_count(kind, stream);
    let payload_length = stream::payload_length(kind, count);
    if out.len() < payload_length {
        return Err(Refusal::OutputTooShort);
    }
    payload(kind, count as usize, stream, out);
    Ok(Contents {
        header: header(stream),
        payload_length,
    })
}
