// The slave ID response (request No. 7): read from a record, and written as a stream.
#![tactic(auto)]

ghost use Rattle.std.specs.Prelude.{◌≡◌, length};
ghost use Rattle.slave_id.specs.SlaveId.{slave_id_of, slave_id_as, too_wide, payload_of, written_of, output_after};

mod identifiers;

use basics::{Refusal, Written};
use identifiers::Identifiers;
use record::Header;
use stream::Kind;

// What a response says: the identifiers, and the device identifier's production week and consecutive number; or a refusal's number and
// zeros.
#[repr(C)]
#[derive(Clone, Copy, Default)]
pub struct SlaveId {
    pub number: u32,
    pub product: u32,
    pub device: u32,
    pub week: u8,
    pub serial: u32,
}

impl From<Result<Identifiers, Refusal>> for SlaveId {
    ghost from_gives = { λ found answer. answer ≡ slave_id_as found };

    fn from(found: Result<Identifiers, Refusal>) -> SlaveId {
        match found {
            Ok(Identifiers { product, device }) => SlaveId {
                number: 0,
                product,
                device,
                week: (device / 131072) as u8,
                serial: device % 131072,
            },
            Err(refusal) => SlaveId {
                number: refusal.number(),
                ..Default::default()
            },
        }
    }
}

// Reads the slave ID response that a record is.
pub fn read(header: Header, payload: &[u8]) -> SlaveId
    ensures { result ≡ slave_id_of (record { header = header; payload = payload.now }) }
{
    SlaveId::from(identify(header, payload))
}

#[tactic(auto, unfolding(crate::specs::SlaveId::slave_id_of, crate::specs::SlaveId::is_response, basics::specs::Choice::choose))]
fn identify(header: Header, payload: &[u8]) -> Result<Identifiers, Refusal>
    ensures { slave_id_as result ≡ slave_id_of (record { header = header; payload = payload.now }) }
{
    if stream::kind_of(header.version) != Kind::Telegram || header.command != 0x23 {
        return Err(Refusal::NotSlaveId);
    }
    let [a, b, c, d, e, f, 0] = payload else {
        return Err(Refusal::NotSlaveId);
    };
    Ok(Identifiers {
        product: u32::from_le_bytes([*a, *b, *c, 0]),
        device: u32::from_le_bytes([*d, *e, *f, 0]),
    })
}

// Refusal 18 when writing a response or entering a slave: an identifier needs more than 24 bits.
#[tactic(auto, unfolding(crate::specs::SlaveId::too_wide))]
pub fn too_wide(product: u32, device: u32) -> bool
    ensures { result ≡ too_wide product device }
{
    product >= 0x1000000 || device >= 0x1000000
}

fn payload_of(product: u32, device: u32) -> [u8; 7]
    ensures { result ≡ payload_of product device }
{
    let [a, b, c, _] = product.to_le_bytes();
    let [d, e, f, _] = device.to_le_bytes();
    [a, b, c, d, e, f, 0]
}

// Writes the stream of a slave ID response to the start of `out`. A refusal leaves every byte of `out` as it was.
#[tactic(auto, unfolding(crate::specs::SlaveId::write_refusal, record::specs::Encode::refusal, record::specs::Record::frames_of, stream::specs::Layout::kind_of, stream::specs::Layout::payload_length_of, basics::specs::Choice::choose))]
pub fn write(destination: u16, source: u16, product: u32, device: u32, out: &mut [u8]) -> Written
    ensures value { result ≡ written_of destination source product device (length out.old) }
    ensures out_after { out.new ≡ output_after destination source product device out.old }
{
    if too_wide(product, device) {
        return Written::from(Err(Refusal::NotSlaveId));
    }
    let header = Header {
        version: 0x30,
        destination,
        source,
        command: 0x23,
    };
    record::encode(header, &payload_of(product, device), out)
}
