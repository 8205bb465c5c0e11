// The vocabulary that the other crates share: definitions in specs/, their laws in proofs/, the refusals, the answer of a function that
// only writes to a lent output, the writing of bytes to its start, and the test of a word that the wire can't carry.
#![tactic(auto)]

ghost use Rattle.std.specs.Prelude.{◌≡◌, length, take};
ghost use Rattle.basics.specs.Bytes.{over};
ghost use Rattle.basics.specs.Output.{written_as};
ghost use Rattle.basics.specs.Words.{high_word};

mod refusal;

pub use refusal::Refusal;

// How many bytes were written, or a refusal's number and zero.
#[repr(C)]
#[derive(Clone, Copy)]
pub struct Written {
    pub number: u32,
    pub length: usize,
}

impl From<Result<usize, Refusal>> for Written {
    ghost from_gives = { λ length written. written ≡ written_as length };

    fn from(length: Result<usize, Refusal>) -> Written {
        match length {
            Ok(length) => Written { number: 0, length },
            Err(refusal) => Written {
                number: refusal.number(),
                length: 0,
            },
        }
    }
}

// Writes `bytes` to the start of `out`, as many of them as it holds, and returns how many these are. std's `copy_from_slice` would call the C
// library's memmove, and the archive is to need nothing from outside.
pub fn copy(bytes: &[u8], out: &mut [u8]) -> usize
    ensures value { result ≡ length (take (length out.old) bytes.now) }
    ensures out_after { out.new ≡ over (take (length out.old) bytes.now) out.old }
{
    let count = bytes.len().min(out.len());
    for i in 0..count {
        out[i] = bytes[i];
    }
    count
}

// The top bit of one of a word's bytes is set, so that the wire can't carry it.
pub fn high_word(word: u16) -> bool
    ensures { result ≡ high_word word }
{
    word & 0x8080 != 0
}
