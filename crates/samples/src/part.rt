// What stands in a slice, whatever its length: no caller has to prove that there is as much.
use record::Header;

// The first bytes, or all where there are no more.
pub fn first(s: &[u8], count: usize) -> &[u8] {
    &s[..count.min(s.len())]
}

pub fn first_mut(s: &mut [u8], count: usize) -> &mut [u8] {
    let count = count.min(s.len());
    &mut s[..count]
}

// What stands behind the first bytes; all of it where there are fewer.
pub fn behind(s: &[u8], count: usize) -> &[u8] {
    s.get(count..).unwrap_or(s)
}

// A byte, or zero behind the end.
pub fn byte(s: &[u8], at: usize) -> u8 {
    s.get(at).copied().unwrap_or(0)
}

// The bytes, with zeros behind them where there are fewer; zeros alone where there are more.
pub fn array<const N: usize>(s: &[u8]) -> [u8; N] {
    let mut array = [0u8; N];
    if s.len() <= N {
        array[..s.len()].copy_from_slice(s);
    }
    array
}

// The bytes from a place on, with zeros behind the end.
fn array_at<const N: usize>(s: &[u8], at: usize) -> [u8; N] {
    array(first(behind(s, at), N))
}

// Two bytes, the low one first.
pub fn word(s: &[u8], at: usize) -> u16 {
    u16::from_le_bytes(array_at(s, at))
}

// Four bytes, the low one first. A half that begins past the end has the bytes from the start in its place (`behind`).
pub fn long(s: &[u8], at: usize) -> u32 {
    let rest = behind(s, at);
    word(rest, 0) as u32 + 65536 * (word(rest, 2) as u32)
}

// The header in a head.
pub fn header(s: &[u8]) -> Header {
    Header {
        version: byte(s, 1),
        destination: word(s, 10),
        source: word(s, 12),
        command: word(s, 14),
    }
}
