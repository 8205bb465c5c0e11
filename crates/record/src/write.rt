// Writing a stream. Each function is lent the part of the output that starts where it writes, and leaves what lies behind.
ghost use Rattle.std.specs.Prelude.{◌≡◌, [], ◌∷◌, ◌+◌, ◌*◌, ◌≤◌, ◌<◌, length, take};
ghost use Rattle.basics.specs.Bytes.{over};
ghost use Rattle.basics.specs.Words.{word_bytes};
ghost use Rattle.stream.specs.declared.Kind.TheVariants.{Packet, Datagram, Telegram};
ghost use Rattle.record.specs.Record.{kind_in, with_checksum, with_septet, framed, address_bytes, stream_as, stream_of};
ghost use Rattle.record.specs.Stage.{Fits};

use crate::{Header, RecordRef};
use stream::Kind;

// A word, low byte first.
fn word(word: u16, out: &mut [u8])
    requires { 2 ≤ length out.old }
    ensures { out.new ≡ over (word_bytes word) out.old }
{
    let [low, high] = word.to_le_bytes();
    out[0] = low;
    out[1] = high;
}

// The sync byte, and what stands alike in every kind.
fn address(header: Header, out: &mut [u8])
    requires { 6 ≤ length out.old }
    ensures { out.new ≡ over (0xAA ∷ address_bytes header) out.old }
{
    out[0] = 0xaa;
    word(header.destination, &mut out[1..]);
    word(header.source, &mut out[3..]);
    out[5] = header.version;
}

// Behind the first `count` bytes their checksum.
fn sum(out: &mut [u8], count: usize)
    requires { count < length out.old }
    ensures { out.new ≡ over (with_checksum (take count out.old)) out.old }
{
    out[count] = checksum::checksum(&out[..count]);
}

// A block without its top bits, and its septet, in which no unused bit is set. As many places are lent as the block has bytes, so that the
// loop over a frame of known width unrolls: with the whole output lent, a long packet took 2.5 times as long.
fn block(block: &[u8], out: &mut [u8])
    requires { (length block.now ≤ 7) × (length block.now < length out.old) }
    ensures { out.new ≡ over (with_septet 0 block.now) out.old }
{
    let septet = septet::take_top_bits(block, &mut out[..block.len()]);
    out[block.len()] = septet;
}

// A block and its septet, and the checksum of both.
fn frame(payload: &[u8], out: &mut [u8])
    requires { (length payload.now ≤ 7) × (length payload.now + 1 < length out.old) }
    ensures { out.new ≡ over (with_checksum (with_septet 0 payload.now)) out.old }
{
    block(payload, out);
    sum(out, payload.len() + 1);
}

// The payload in so many frames of `width` bytes, one behind the other.
fn frames(payload: &[u8], width: usize, count: usize, out: &mut [u8])
    requires { (width ≤ 7) × (width * count ≤ length payload.now) × (width * count + 2 * count ≤ length out.old) }
    ensures { out.new ≡ over (framed width count [] payload.now) out.old }
{
    for i in 0..count {
        frame(
            &payload[width * i..width * (i + 1)],
            &mut out[(width + 2) * i..],
        );
    }
}

#[tactic(auto, unfolding(crate::specs::Record::frames_of, stream::specs::Layout::header_length, stream::specs::Layout::frame_width))]
impl<'a> RecordRef<'a> {
    // A packet: the frame count stands in its header, and frames of four bytes follow.
    fn packet(&self, out: &mut [u8])
        requires { Fits Packet self.now (length out.old) }
        ensures { out.new ≡ over (stream_as Packet [] self.now) out.old }
    {
        // Not by `frames`: with one count for both kinds, the compiler makes one loop of a packet's frames and a telegram's, which takes longer.
        let count = self.payload.len() / 4;
        address(self.header, out);
        word(self.header.command, &mut out[6..]);
        out[8] = count as u8;
        sum(&mut out[1..], 8);
        frames(self.payload, 4, count, &mut out[10..]);
    }

    // A datagram: its payload is one block before the checksum, and nothing follows.
    fn datagram(&self, out: &mut [u8])
        requires { Fits Datagram self.now (length out.old) }
        ensures { out.new ≡ over (stream_as Datagram [] self.now) out.old }
    {
        address(self.header, out);
        word(self.header.command, &mut out[6..]);
        block(&self.payload[..6], &mut out[8..]);
        sum(&mut out[1..], 14);
    }

    // A telegram: the command says the frame count, and frames of seven bytes follow.
    fn telegram(&self, out: &mut [u8])
        requires { Fits Telegram self.now (length out.old) }
        ensures { out.new ≡ over (stream_as Telegram [] self.now) out.old }
    {
        let count = stream::telegram_frames(self.header.command);
        address(self.header, out);
        out[6] = self.header.command as u8;
        sum(&mut out[1..], 6);
        frames(self.payload, 7, count, &mut out[8..]);
    }

    // The stream of a record that is not refused, to an output that has room for it.
    #[tactic(auto, unfolding(crate::specs::Record::stream_of, crate::specs::Record::stream_with))]
    pub fn write(&self, out: &mut [u8])
        requires { Fits (kind_in self.now) self.now (length out.old) }
        ensures { out.new ≡ over (stream_of self.now) out.old }
    {
        match self.kind {
            Kind::Packet => self.packet(out),
            Kind::Datagram => self.datagram(out),
            Kind::Telegram => self.telegram(out),
            Kind::Unknown => {}
        }
    }
}
