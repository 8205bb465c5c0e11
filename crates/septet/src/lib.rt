// The septet: the top bits of up to seven bytes, carried apart from them.
#![tactic(auto)]

ghost use Rattle.std.specs.Prelude.{◌≡◌, ◌%◌, length, take};
ghost use Rattle.basics.specs.Bytes.{over};
ghost use Rattle.septet.specs.Septet.{septet_of, low_bits};
ghost use Rattle.septet.specs.Answer.{extracted, injected};

use basics::Refusal;

// A block of at most seven bytes with its septet, or a refusal: number 7, and all else zero.
#[repr(C)]
#[derive(Clone, Copy, Default)]
pub struct Septets {
    pub number: u32,
    pub bytes: [u8; 7],
    pub length: usize,
    pub septet: u8,
}

fn refused() -> Septets
    ensures { result ≡ Rattle.septet.specs.Answer.refused }
{
    Septets {
        number: Refusal::WrongSeptetBlock.number(),
        ..Septets::default()
    }
}

// Writes a block without its top bits to the start of `low`, as many of its bytes as that holds, and returns these top bits: bit i is that
// of byte i, of the first eight.
pub fn take_top_bits(block: &[u8], low: &mut [u8]) -> u8
    ensures value { result ≡ septet_of (take (length low.old) block.now) % 256 }
    ensures low_after { low.new ≡ over (low_bits (take (length low.old) block.now)) low.old }
{
    let count = block.len().min(low.len());
    let mut septet: u8 = 0;
    for i in (0..count).rev() {
        let byte = block[i];
        septet = septet % 128 * 2 + byte / 128;
        low[i] = byte % 128;
    }
    septet
}

// The first `used` bytes without their top bits, and the septet that holds these.
#[tactic(auto, unfolding(basics::specs::Choice::choose))]
pub fn extract(bytes: [u8; 7], used: usize) -> Septets
    ensures { result ≡ extracted bytes used }
{
    if used > 7 {
        return refused();
    }
    let mut low = [0; 7];
    let septet = take_top_bits(&bytes[..used], &mut low);
    Septets {
        number: 0,
        bytes: low,
        length: used,
        septet,
    }
}

// The first `used` bytes with the septet's bits as their top bits. Septet bits that stand for no byte are ignored.
#[tactic(auto, unfolding(basics::specs::Choice::choose))]
pub fn inject(bytes: [u8; 7], used: usize, septet: u8) -> Septets
    ensures { result ≡ injected bytes used septet }
{
    if used > 7 || septet >= 0x80 {
        return refused();
    }
    let mut full = [0; 7];
    let mut rest = septet;
    for i in 0..used {
        if bytes[i] >= 0x80 {
            return refused();
        }
        full[i] = bytes[i] + 128 * (rest % 2);
        rest /= 2;
    }
    Septets {
        number: 0,
        bytes: full,
        length: used,
        septet: 0,
    }
}
