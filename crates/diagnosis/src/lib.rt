// Why a sync byte gave no record (request No. 4).
#![tactic(auto)]

ghost use Rattle.std.specs.Prelude.{◌≡◌, Err};
ghost use Rattle.stream.specs.Validation.{said_by, validation_of};
ghost use Rattle.diagnosis.specs.Fault.{fault_of, next_fault};
ghost use Rattle.diagnosis.specs.Stage.{byte_wanted};

use stream::{Stop, Verdict};

// A sync byte that gave no record, and why: its place, the verdict on the stretch from there on with its offset, the byte that stands
// at the offset and, for V4 and V6, the byte that would have been right. Without a fault all is zero.
#[repr(C)]
#[derive(Clone, Copy, Default)]
pub struct Fault {
    pub found: bool,
    pub place: usize,
    pub verdict: u8,
    pub offset: usize,
    pub has_byte: bool,
    pub byte: u8,
    pub has_wanted: bool,
    pub wanted: u8,
}

// The checksum that would have been right at the offset, if the verdict is that one is wrong.
fn wanted(stretch: &[u8], stop: Stop) -> Option<u8>
    requires { said_by (Err stop) ≡ validation_of stretch.now }
    ensures { result ≡ byte_wanted stretch.now stop }
{
    match stop.verdict {
        Verdict::HeaderChecksum => Some(checksum::checksum(&stretch[1..stop.offset])),
        Verdict::FrameChecksum => {
            let size = stream::payload_length(stream::kind_of(stretch[5]), 1) + 1;
            let start = stop.offset - size;
            Some(checksum::checksum(&stretch[start..stop.offset]))
        }
        _ => None,
    }
}

// The fault of a stretch that stands at `place`, by where it first goes wrong. At the end of the stretch there is no byte.
fn describe(stretch: &[u8], place: usize, stop: Stop) -> Fault
    requires { said_by (Err stop) ≡ validation_of stretch.now }
    ensures { result ≡ fault_of place stretch.now }
{
    let byte = stretch.get(stop.offset).copied();
    let wanted = wanted(stretch, stop);
    Fault {
        found: true,
        place,
        verdict: stop.verdict.number(),
        offset: stop.offset,
        has_byte: byte.is_some(),
        byte: byte.unwrap_or(0),
        has_wanted: wanted.is_some(),
        wanted: wanted.unwrap_or(0),
    }
}

// The first sync byte at or after `start` that gave no record, and why. To go on, start one place behind it: a stretch is looked at no
// further than the header or frame in which the next byte of 0x80 or more stands, so asking for one fault after the other takes time that
// grows with the recording alone.
pub fn next_fault(recording: &[u8], start: usize) -> Fault
    ensures { result ≡ next_fault recording.now start }
{
    let mut at = start;
    loop {
        at = stream::next_sync(recording, at);
        if at >= recording.len() {
            return Fault::default();
        }
        match stream::first_fault(&recording[at..]) {
            Ok(stream) => at += stream.length, // past it: none of its bytes but the first is a sync byte
            Err(stop) => return describe(&recording[at..], at, stop),
        }
    }
}

// A cursor over a lent recording: document 02's reading head.
#[derive(Clone, Copy)]
pub struct Cursor<'a> {
    pub recording: &'a [u8],
    pub place: usize,
}

// A cursor at a place of a recording.
pub fn cursor_at<'a>(recording: &'a [u8], place: usize) -> Cursor<'a>
    ensures { (result.recording ≡ recording.entry) × (result.place ≡ place) }
{
    Cursor { recording, place }
}

// The first fault from the cursor on.
pub fn read_fault(cursor: Cursor) -> Fault
    ensures { result ≡ next_fault cursor.entry.recording.now cursor.entry.place }
{
    next_fault(cursor.recording, cursor.place)
}

// What a cursor at a place reads, for whoever keeps the place and no cursor.
pub fn read_fault_at(recording: &[u8], place: usize) -> Fault
    ensures { result ≡ next_fault recording.now place }
{
    read_fault(cursor_at(recording, place))
}
