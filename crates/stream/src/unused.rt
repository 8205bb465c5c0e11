// Unused septet bits: those that stand for no byte.
ghost use Rattle.std.specs.Prelude.{◌≡◌, ◌≤◌};
ghost use Rattle.septet.specs.Septet.{unused_bits};
ghost use Rattle.stream.specs.Unused.{nonzero};

// 1 if the septet of `width` bytes has such bits set, else 0.
pub fn in_septet(septet: u8, width: usize) -> u8
    requires { width ≤ 7 }
    ensures { result ≡ nonzero (unused_bits width septet) }
{
    u8::from(septet >> width != 0)
}
