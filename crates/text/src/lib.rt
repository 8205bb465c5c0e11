// Bytes and words as text, in upper-case hex.
#![tactic(auto)]

ghost use Rattle.std.specs.Prelude.{◌≡◌, ◌<◌};
ghost use Rattle.text.specs.Hex as hex;

fn digit(n: u8) -> u8
    requires { n < 16 }
    ensures { result ≡ hex.digit n }
{
    b"0123456789ABCDEF"[n as usize]
}

// A byte as two digits.
pub fn hex_byte(byte: u8) -> [u8; 2]
    ensures { result ≡ hex.hex_byte byte }
{
    [digit(byte / 16), digit(byte % 16)]
}

// A word as four digits.
pub fn hex_word(word: u16) -> [u8; 4]
    ensures { result ≡ hex.hex_word word }
{
    let [high, low] = word.to_be_bytes();
    let [first, second] = hex_byte(high);
    let [third, fourth] = hex_byte(low);
    [first, second, third, fourth]
}
