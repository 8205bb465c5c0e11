// The slave ID response.
ghost use Rattle.std.specs.Prelude.{◌≡◌, length};
ghost use Rattle.slave_id.specs.SlaveId.{slave_id_of, written_of, output_after};

use basics::Written;
use record::Header;
use slave_id::SlaveId;

// Reads the slave ID response that a record is.
#[unsafe(no_mangle)]
pub extern "C" fn vbus_read_slave_id(header: Header, payload: &[u8]) -> SlaveId
    ensures { result ≡ slave_id_of (record { header = header; payload = payload.now }) }
{
    slave_id::read(header, payload)
}

// Writes the stream of a slave ID response to the start of `out`. A refusal leaves every byte of `out` as it was.
#[unsafe(no_mangle)]
pub extern "C" fn vbus_write_slave_id(
    destination: u16,
    source: u16,
    product: u32,
    device: u32,
    out: &mut [u8],
) -> Written
    ensures value { result ≡ written_of destination source product device (length out.old) }
    ensures out_after { out.new ≡ output_after destination source product device out.old }
{
    slave_id::write(destination, source, product, device, out)
}
