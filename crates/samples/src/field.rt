// The fields of a line, a space before each, written to standard output one by one.
use record::Header;
use std::fmt::Display;
use std::io::Print;

pub fn text(rt: &HostRuntime, text: &[u8]) {
    let _ = rt.write_all(text);
}

// A word, or a number in decimal.
pub fn say(rt: &HostRuntime, field: impl Display + Drop) {
    let _ = print!(rt; " {field}");
}

// A word, if two slices are the same.
pub fn same(rt: &HostRuntime, a: &[u8], b: &[u8], word: &str) {
    say(rt, if a == b { word } else { "changed" });
}

pub fn byte(rt: &HostRuntime, byte: u8) {
    let _ = print!(rt; " {byte:02X}");
}

// Bytes as one field, or none where there are no bytes.
pub fn bytes(rt: &HostRuntime, bytes: &[u8]) {
    if !bytes.is_empty() {
        text(rt, b" ");
        for byte in bytes {
            text(rt, &text::hex_byte(*byte));
        }
    }
}

fn word(rt: &HostRuntime, word: u16) {
    let _ = print!(rt; " {word:04X}");
}

pub fn verdict(rt: &HostRuntime, number: u8) {
    let _ = print!(rt; " V{number}");
}

// A header and a payload.
pub fn record(rt: &HostRuntime, header: Header, payload: &[u8]) {
    byte(rt, header.version);
    word(rt, header.destination);
    word(rt, header.source);
    word(rt, header.command);
    bytes(rt, payload);
}
