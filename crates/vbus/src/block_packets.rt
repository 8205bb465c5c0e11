// The sections and elements of a block packet. C gets places in its payload, where the crate `sections` also shows the bytes.
ghost use Rattle.std.specs.Prelude.{◌≡◌};
ghost use Rattle.sections.specs.Answer.{section_count, section_found, element_count, element_found};
ghost use Rattle.sections.specs.Element.{temperature_of};

use record::Header;
use sections::{Count, Part};

// How many sections a payload has.
#[unsafe(no_mangle)]
pub extern "C" fn vbus_section_count(header: Header, payload: &[u8]) -> Count
    ensures { result ≡ section_count header payload.now }
{
    sections::section_count(header, payload)
}

// Where a section stands in the payload, with its header.
#[unsafe(no_mangle)]
pub extern "C" fn vbus_section(header: Header, payload: &[u8], section: usize) -> Part
    ensures { result ≡ section_found header payload.now section }
{
    sections::find_section(header, payload, section)
}

// How many elements a section has.
#[unsafe(no_mangle)]
pub extern "C" fn vbus_element_count(header: Header, payload: &[u8], section: usize) -> Count
    ensures { result ≡ element_count header payload.now section }
{
    sections::element_count(header, payload, section)
}

// Where an element of a section stands in the payload.
#[unsafe(no_mangle)]
pub extern "C" fn vbus_element(
    header: Header,
    payload: &[u8],
    section: usize,
    element: usize,
) -> Part
    ensures { result ≡ element_found header payload.now section element }
{
    sections::find_element(header, payload, section, element)
}

// A temperature, an element's two bytes, as a signed number.
#[unsafe(no_mangle)]
pub extern "C" fn vbus_temperature(bytes: &[u8; 2]) -> i16
    ensures { result ≡ temperature_of bytes.now }
{
    sections::temperature(*bytes)
}
