// The sections and elements in the payload of a block packet.
#![tactic(auto)]

ghost use Rattle.std.specs.Prelude.{◌≡◌, ◌+◌, ◌≤◌, length, take, drop};
ghost use Rattle.sections.specs.Answer.{not_block, count_as, part_as, section_count, section_found, section_shown, element_count, element_found, element_shown};
ghost use Rattle.sections.specs.Element.{temperature_of};
ghost use Rattle.sections.specs.Part.{Shows};
ghost use Rattle.sections.specs.Stage.{size_of, AreElements};

mod chain;

use basics::Refusal;
use record::{Header, LONGEST_PAYLOAD};

// How many there are, or a refusal's number and zero.
#[repr(C)]
#[derive(Clone, Copy)]
pub struct Count {
    pub number: u32,
    pub count: usize,
}

impl From<Result<usize, Refusal>> for Count {
    ghost from_gives = { λ count answer. answer ≡ count_as count };

    fn from(count: Result<usize, Refusal>) -> Count {
        match count {
            Ok(count) => Count { number: 0, count },
            Err(refusal) => Count {
                number: refusal.number(),
                count: 0,
            },
        }
    }
}

// Where a part stands in the payload, or a refusal's number and zeros.
#[repr(C)]
#[derive(Clone, Copy, Default)]
pub struct Part {
    pub number: u32,
    pub start: usize,
    pub length: usize,
}

impl From<Result<Place, Refusal>> for Part {
    ghost from_gives = { λ place answer. answer ≡ part_as place };

    fn from(place: Result<Place, Refusal>) -> Part {
        match place {
            Ok(Place { start, length }) => Part {
                number: 0,
                start,
                length,
            },
            Err(refusal) => Part {
                number: refusal.number(),
                ..Part::default()
            },
        }
    }
}

// A part of the caller's payload, or a refusal's number and an empty part.
#[repr(C)]
#[derive(Clone, Copy)]
pub struct Shown<'a> {
    pub number: u32,
    pub part: &'a [u8],
}

// Where a section or an element stands in the payload.
#[derive(Clone, Copy)]
struct Place {
    start: usize,
    length: usize,
}

// The elements of a section, one behind the other: where the first one stands, how long each is, and how many they are.
#[derive(Clone, Copy)]
struct SectionElements {
    start: usize,
    size: usize,
    count: usize,
}

// Refusal 8: no block packet, or a payload that no packet has.
fn not_block(header: Header, bytes: usize) -> bool
    ensures { result ≡ not_block header bytes }
{
    header.version != 0x10
        || header.destination != 0x0015
        || header.command != 0x0100
        || bytes % 4 != 0
        || bytes > LONGEST_PAYLOAD
}

// The bytes of an element, by its section's type; none for a type that is not in the table.
#[tactic(auto, unfolding(crate::specs::Element::element_size, basics::specs::Choice::choose))]
fn element_size(section_type: u8) -> Option<usize>
    ensures { result ≡ size_of section_type }
{
    match section_type {
        0x01 => Some(2),
        0x05 => Some(4),
        0x08 => Some(1),
        0x0A => Some(8),
        0x0B | 0x0C | 0x0D => Some(4),
        _ => None,
    }
}

// `section_count`, before it is made C's answer.
fn count_sections(header: Header, payload: &[u8]) -> Result<usize, Refusal>
    ensures { count_as result ≡ section_count header payload.now }
{
    if not_block(header, payload.len()) {
        return Err(Refusal::NotBlockPacket);
    }
    chain::header_step(payload, 0).ok_or(Refusal::SectionPastEnd)
}

// `find_section`, before it is made C's answer.
fn place_of_section(header: Header, payload: &[u8], k: usize) -> Result<Place, Refusal>
    ensures { part_as result ≡ section_found header payload.now k }
{
    let count = count_sections(header, payload)?;
    if count <= k {
        return Err(Refusal::NoSuchPart);
    }
    let rest = chain::from_section(payload, k);
    Ok(Place {
        start: payload.len() - rest.len(),
        length: chain::section_length(rest[0]),
    })
}

// The elements of section k.
fn elements_of_section(header: Header, payload: &[u8], k: usize) -> Result<SectionElements, Refusal>
    ensures { AreElements header payload.now k result }
{
    let section = place_of_section(header, payload, k)?;
    let size = element_size(payload[section.start + 1]).ok_or(Refusal::UnknownSectionType)?;
    let bytes = section.length - 4;
    if bytes % size != 0 {
        return Err(Refusal::PartialElement);
    }
    Ok(SectionElements {
        start: section.start + 4,
        size,
        count: bytes / size,
    })
}

// `find_element`, before it is made C's answer.
fn place_of_element(header: Header, payload: &[u8], k: usize, i: usize) -> Result<Place, Refusal>
    ensures { part_as result ≡ element_found header payload.now k i }
{
    let elements = elements_of_section(header, payload, k)?;
    if elements.count <= i {
        return Err(Refusal::NoSuchPart);
    }
    Ok(Place {
        start: elements.start + i * elements.size,
        length: elements.size,
    })
}

// What was found, as a part of the payload.
fn show<'a>(payload: &'a [u8], found: Part) -> Shown<'a>
    requires { found.start + found.length ≤ length payload.now }
    ensures { Shows payload.entry found (take found.length (drop found.start payload.now)) result }
{
    let start = found.start;
    let end = start + found.length;
    Shown {
        number: found.number,
        part: &payload[start..end],
    }
}

// How many sections a payload has.
pub fn section_count(header: Header, payload: &[u8]) -> Count
    ensures { result ≡ section_count header payload.now }
{
    Count::from(count_sections(header, payload))
}

// Where section k stands, with its header and payload.
pub fn find_section(header: Header, payload: &[u8], k: usize) -> Part
    ensures { result ≡ section_found header payload.now k }
{
    Part::from(place_of_section(header, payload, k))
}

// Section k, header and payload, as a part of the payload.
pub fn section<'a>(header: Header, payload: &'a [u8], k: usize) -> Shown<'a>
    ensures { Shows payload.entry (section_found header payload.now k) (section_shown header payload.now k) result }
{
    show(payload, find_section(header, payload, k))
}

// How many elements section k has. They fill it: a section that ends within an element is refused.
pub fn element_count(header: Header, payload: &[u8], k: usize) -> Count
    ensures { result ≡ element_count header payload.now k }
{
    Count::from(elements_of_section(header, payload, k).map(|elements| elements.count))
}

// Where element i of section k stands.
pub fn find_element(header: Header, payload: &[u8], k: usize, i: usize) -> Part
    ensures { result ≡ element_found header payload.now k i }
{
    Part::from(place_of_element(header, payload, k, i))
}

// Element i of section k, as a part of the payload.
pub fn element<'a>(header: Header, payload: &'a [u8], k: usize, i: usize) -> Shown<'a>
    ensures { Shows payload.entry (element_found header payload.now k i) (element_shown header payload.now k i) result }
{
    show(payload, find_element(header, payload, k, i))
}

// A temperature: an element's two bytes as a signed number.
pub fn temperature(bytes: [u8; 2]) -> i16
    ensures { result ≡ temperature_of bytes }
{
    i16::from_le_bytes(bytes)
}
