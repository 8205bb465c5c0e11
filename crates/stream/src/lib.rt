// One stream on the wire, validated from its first byte (document 01: judging).
#![tactic(auto)]

ghost use Rattle.std.specs.Prelude.{◌≡◌, ◌≢◌, ◌==◌, ◌+◌, ◌*◌, get_or, is_ok, position};
ghost use Rattle.stream.specs.Layout.{kind_of, header_length, frame_width, telegram_frames, frame_count, payload_length_of};
ghost use Rattle.stream.specs.Sync.{next_sync};
ghost use Rattle.stream.specs.Validation.{number, said_by, validation_of, is_whole};
ghost use Rattle.stream.specs.declared.Verdict.TheVariants.{Whole};

mod frame;
mod header;
mod high_bytes;
mod stop;
mod unused;

pub use stop::Stop;

// The kinds of streams.
#[derive(Clone, Copy, PartialEq, Eq)]
pub enum Kind {
    Packet,
    Datagram,
    Telegram,
    Unknown,
}

// What is said of a stretch of bytes (document 01's verdicts V0 to V7; by request No. 3 V5 is never given).
#[derive(Clone, Copy, PartialEq, Eq)]
pub enum Verdict {
    // V0: the stretch begins with one whole valid stream.
    Whole = 0,
    // V1: the first byte is not the sync byte.
    NoSync = 1,
    // V2: a byte of 0x80 or more behind the first.
    HighByte = 2,
    // V3: the version is unknown.
    UnknownVersion = 3,
    // V4: the header's checksum, or a datagram's, is wrong.
    HeaderChecksum = 4,
    // V6: a frame's checksum is wrong.
    FrameChecksum = 6,
    // V7: the stretch ends first.
    Ended = 7,
}

impl Verdict {
    // The paper's number: 0 to 4, 6 and 7.
    pub fn number(self) -> u8
        ensures { result ≡ number self }
    {
        self as u8
    }

    // The stop that this verdict is reached with.
    fn at(self, offset: usize) -> Stop
        requires { self ≢ Whole }
        ensures verdict { result.verdict ≡ self }
        ensures offset { result.offset ≡ offset }
    {
        Stop {
            verdict: self,
            offset,
        }
    }
}

// A whole stream: its length, and how many of its blocks have unused septet bits set. That is at most 127, and one byte, as it is handed on
// between crates.
#[derive(Clone, Copy)]
pub struct WholeStream {
    pub length: usize,
    pub unused_septets: u8,
}

// A verdict's number, with the offset that it was reached at, and how many blocks of a whole stream have unused septet bits set (0 unless V0).
#[repr(C)]
#[derive(Clone, Copy)]
pub struct Validation {
    pub verdict: u8,
    pub offset: usize,
    pub unused_septets: usize,
}

impl From<Result<WholeStream, Stop>> for Validation {
    ghost from_gives = { λ answer validation. validation ≡ said_by answer };

    fn from(answer: Result<WholeStream, Stop>) -> Validation {
        match answer {
            Ok(stream) => Validation {
                verdict: Verdict::Whole.number(),
                offset: stream.length,
                unused_septets: stream.unused_septets as usize,
            },
            Err(stop) => Validation {
                verdict: stop.verdict.number(),
                offset: stop.offset,
                unused_septets: 0,
            },
        }
    }
}

// A stream's kind, by its version byte.
#[tactic(auto, unfolding(crate::specs::Layout::kind_of, basics::specs::Choice::choose))]
pub fn kind_of(version: u8) -> Kind
    ensures { result ≡ kind_of version }
{
    match version {
        0x10 => Kind::Packet,
        0x20 => Kind::Datagram,
        0x30 | 0x31 => Kind::Telegram,
        _ => Kind::Unknown,
    }
}

// The first place of a sync byte.
fn first_sync(input: &[u8]) -> Option<usize>
    ensures { result ≡ position (λ byte. byte == 0xAA) input.now }
{
    input.iter().position(|byte| *byte == 0xAA)
}

// The first place at or after `start` that holds a sync byte, or one that is not below the input length.
pub fn next_sync(input: &[u8], start: usize) -> usize
    ensures { result ≡ next_sync input.now start }
{
    if input.len() < start {
        return start;
    }
    first_sync(&input[start..]).map_or(input.len(), |behind| start + behind)
}

// The frame count that bits 5-6 of a telegram's command say.
pub fn telegram_frames(command: u16) -> usize
    ensures { result ≡ telegram_frames command }
{
    command as usize / 32 % 4
}

// The byte at an offset, or 0 where the stream isn't as long.
fn byte_at(stream: &[u8], offset: usize) -> u8
    ensures { result ≡ get_or stream.now offset 0 }
{
    stream.get(offset).copied().unwrap_or(0)
}

// The frame count, as the header announces it; none where the byte that says it isn't there.
#[tactic(auto, unfolding(crate::specs::Layout::frame_count))]
pub fn frame_count(kind: Kind, stream: &[u8]) -> u8
    ensures { result ≡ frame_count kind stream.now }
{
    match kind {
        Kind::Packet => byte_at(stream, 8),
        Kind::Telegram => telegram_frames(byte_at(stream, 6) as u16) as u8,
        Kind::Datagram | Kind::Unknown => 0,
    }
}

// The length of a stream with so many frames: its header, and behind each frame's bytes their septet and checksum.
#[tactic(auto, unfolding(crate::specs::Layout::header_length, crate::specs::Layout::frame_width))]
pub fn stream_length(kind: Kind, frames: u8) -> usize
    ensures { result ≡ header_length kind + (frame_width kind + 2) * frames }
{
    let (header, width) = match kind {
        Kind::Packet => (10, 4),
        Kind::Datagram => (16, 0),
        Kind::Telegram => (8, 7),
        Kind::Unknown => (6, 0),
    };
    header + (width + 2) * frames as usize
}

// The length of the payload of so many frames.
#[tactic(auto, unfolding(crate::specs::Layout::payload_length_of))]
pub fn payload_length(kind: Kind, frames: u8) -> usize
    ensures { result ≡ payload_length_of kind frames }
{
    match kind {
        Kind::Packet => 4 * frames as usize,
        Kind::Datagram => 6,
        Kind::Telegram => 7 * frames as usize,
        Kind::Unknown => 0,
    }
}

// The whole stream that `input` begins with, or its first fault.
pub fn first_fault(input: &[u8]) -> Result<WholeStream, Stop>
    ensures value { said_by result ≡ validation_of input.now }
    ensures whole { is_ok result ≡ is_whole input.now }
{
    if input.is_empty() {
        return Err(Verdict::Ended.at(0));
    }
    if input[0] != 0xAA {
        return Err(Verdict::NoSync.at(0));
    }
    high_bytes::check(input, 1, 6)?;
    header::validate(input)
}

// The verdict on the stream that `input` begins with. It stops at the first fault.
pub fn validate(input: &[u8]) -> Validation
    ensures { result ≡ validation_of input.now }
{
    Validation::from(first_fault(input))
}
