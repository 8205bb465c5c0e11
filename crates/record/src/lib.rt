// A record: what one stream says, and how it is written.
#![tactic(auto)]

ghost use Rattle.std.specs.Prelude.{◌≡◌, length};
ghost use Rattle.basics.specs.Output.{written_as};
ghost use Rattle.stream.specs.Layout.{kind_of};
ghost use Rattle.record.specs.Record.{Record};
ghost use Rattle.record.specs.Encode.{encoding_of, output_after};
ghost use Rattle.record.specs.Value.{value_of};

mod fits;
mod write;

use basics::{Refusal, Written};
use std::marker::Model;
use stream::Kind;

// The longest payload that the wire can carry: a packet's of 127 frames (law `payload-most`).
pub const LONGEST_PAYLOAD: usize = 508;

// The fields of a record beside its payload.
#[repr(C)]
#[derive(Clone, Copy, Default)]
pub struct Header {
    pub version: u8,
    pub destination: u16,
    pub source: u16,
    pub command: u16,
}

// A record whose payload is lent, with the kind that its version says.
#[derive(Drop)]
struct RecordRef<'a> {
    kind: Kind,
    header: Header,
    payload: &'a [u8],
}

impl<'a> Model for RecordRef<'a> {
    ghost Value = { Record };

    ghost view = { λ r. record { header = r.header; payload = r.payload.now } };

    ghost invariant = { λ r. r.kind ≡ kind_of r.header.version };
}

// Writes the stream of a record to the start of `out` (document 01: writing). The refusals are checked in their order, and
// the room before the first byte is written: a refusal leaves every byte of `out` as it was.
pub fn encode(header: Header, payload: &[u8], out: &mut [u8]) -> Written
    ensures value { result ≡ encoding_of (record { header = header; payload = payload.now }) (length out.old) }
    ensures out_after { out.new ≡ output_after (record { header = header; payload = payload.now }) out.old }
{
    let record = RecordRef {
        kind: stream::kind_of(header.version),
        header,
        payload,
    };
    Written::from(record.encode(out))
}

impl<'a> RecordRef<'a> {
    // Refuses the record or the room, or writes the stream and returns how long it is.
    #[tactic(auto, using(crate::proofs::Carried::fits), unfolding(crate::specs::Encode::unwritable, crate::specs::Encode::refusal, basics::specs::Choice::choose))]
    fn encode(&self, out: &mut [u8]) -> Result<usize, Refusal>
        ensures value { written_as result ≡ encoding_of self.now (length out.old) }
        ensures out_after { out.new ≡ output_after self.now out.old }
    {
        self.check()?;
        let size = self.stream_length();
        if size > out.len() {
            return Err(Refusal::OutputTooShort);
        }
        self.write(out);
        Ok(size)
    }
}

// A datagram's value, the last four bytes of its payload, as a signed number.
#[tactic(auto, unfolding(basics::specs::Words::signed, basics::specs::Choice::choose))]
pub fn value(payload: [u8; 6]) -> i32
    ensures { result ≡ value_of payload }
{
    let [_, _, a, b, c, d] = payload;
    i32::from_le_bytes([a, b, c, d])
}
