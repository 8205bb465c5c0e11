// Clearing the unused septet bits of a stream, with which it becomes what writing gives for its record.
ghost use Rattle.std.specs.Prelude.{◌≡◌, [], ◌+◌, ◌*◌, ◌≤◌, ◌<◌, length};
ghost use Rattle.basics.specs.Bytes.{over};
ghost use Rattle.stream.specs.Validation.{validation_of};
ghost use Rattle.record.specs.Record.{record_of, stream_of, framed, unframed};
ghost use Rattle.recording.specs.Stage.{LowTo, cleared};

use stream::Kind;

// Keeps of the septet at `place` the bits below `limit`, a power of two, and writes the checksum of all bytes up to it behind it.
fn septet(block: &mut [u8], place: usize, limit: u8)
    requires { (0 < limit) × (place + 1 < length block.old) }
    ensures { block.new ≡ over (cleared place limit block.old) block.old }
{
    let end = place + 1;
    block[place] %= limit;
    block[end] = checksum::checksum(&block[..end]);
}

// Clears the septets of a packet's frames.
fn frames(frames: &mut [u8], count: usize)
    requires { (6 * count ≤ length frames.old) × LowTo (6 * count) frames.old }
    ensures { frames.new ≡ over (framed 4 count [] (unframed 4 count frames.old)) frames.old }
{
    for i in 0..count {
        septet(&mut frames[6 * i..], 4, 16);
    }
}

// Clears the septets of the whole stream that `stream` begins with. A telegram's have no unused bits.
pub fn stream(stream: &mut [u8])
    requires { (validation_of stream.old).verdict ≡ 0 }
    ensures { stream.new ≡ over (stream_of (record_of stream.old)) stream.old }
{
    match stream::kind_of(stream[5]) {
        Kind::Packet => {
            let count = stream[8] as usize;
            frames(&mut stream[10..], count);
        }
        Kind::Datagram => septet(&mut stream[1..], 13, 64),
        Kind::Telegram | Kind::Unknown => {}
    }
}
