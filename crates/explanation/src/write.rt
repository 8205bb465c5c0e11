// Writing a line.
ghost use Rattle.std.specs.Prelude.{◌≡◌, ℕ, ◌+◌, ◌≤◌, List, [], ◌++◌, length, take};
ghost use Rattle.text.specs.Decimal.{decimal};
ghost use Rattle.explanation.specs.Line as lines;
ghost use Rattle.explanation.specs.Stage.{some_byte};

use diagnosis::Fault;
use std::marker::Model;
use stream::Verdict;

// What is written of a line. No line is longer than 94 bytes, whatever the fault.
#[derive(Drop)]
pub struct LineText {
    bytes: [u8; 94],
    used: usize,
}

impl Model for LineText {
    ghost Value = { List ℕ };

    ghost view = { λ line. take line.used line.bytes };

    ghost invariant = { λ line. line.used ≤ 94 };
}

impl LineText {
    fn new() -> LineText
        ensures { result ≡ [] }
    {
        LineText {
            bytes: [0; 94],
            used: 0,
        }
    }

    pub fn as_slice(&self) -> &[u8]
        ensures { result.now ≡ self.now }
    {
        &self.bytes[..self.used]
    }

    fn push(&mut self, text: &[u8])
        requires { length self.old + length text.now ≤ 94 }
        ensures appended { self.new ≡ self.old ++ text.now }
        ensures size { length self.new ≡ length self.old + length text.now }
    {
        self.used += basics::copy(text, &mut self.bytes[self.used..]);
    }

    // By hand: by their contracts, std's `write!` to a buffer may fail and says nothing of the bytes then, and `InlineText` may end in dots
    // in place of digits, whatever its room; the kit's itoa would be one more library to trust.
    fn push_digits(&mut self, n: usize)
        requires { length self.old + length (decimal n) ≤ 94 }
        ensures { self.new ≡ self.old ++ decimal n }
    {
        let digit = [b'0' + (n % 10) as u8];
        if n < 10 {
            return self.push(&digit);
        }
        self.push_digits(n / 10);
        self.push(&digit);
    }

    fn push_number(&mut self, n: usize)
        requires { length self.old + 20 ≤ 94 }
        ensures appended { self.new ≡ self.old ++ decimal n }
        ensures size { length self.new ≤ length self.old + 20 }
    {
        self.push_digits(n);
    }

    // A space and a byte, where there is one.
    fn push_byte(&mut self, byte: Option<u8>)
        requires { length self.old + 3 ≤ 94 }
        ensures appended { self.new ≡ self.old ++ some_byte byte }
        ensures size { length self.new ≤ length self.old + 3 }
    {
        if let Some(byte) = byte {
            self.push(b" ");
            self.push(&text::hex_byte(byte));
        }
    }
}

fn is_cut_off(fault: Fault) -> bool
    ensures { result ≡ lines.is_cut_off fault }
{
    fault.verdict == Verdict::HighByte.number() && fault.byte == 0xAA
}

#[tactic(auto, unfolding(crate::specs::Line::remark_text, basics::specs::Choice::choose))]
fn remark(fault: Fault) -> &'static [u8]
    ensures text { result.now ≡ lines.remark_text (lines.is_cut_off fault) }
    ensures size { length result.now ≤ 24 }
{
    if is_cut_off(fault) {
        b" cut off by a new stream"
    } else {
        b""
    }
}

pub fn line(fault: Fault) -> LineText
    ensures { result ≡ lines.line_of fault }
{
    let mut line = LineText::new();
    line.push_number(fault.place);
    line.push(b" V");
    line.push_number(fault.verdict as usize);
    line.push(b" ");
    line.push_number(fault.offset);
    line.push_byte(fault.has_byte.then_some(fault.byte));
    line.push_byte(fault.has_wanted.then_some(fault.wanted));
    line.push(remark(fault));
    line.push(b"\n");
    line
}
