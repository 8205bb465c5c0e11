// Answers the questions of standard input, with a line for each. tests/samples.py writes the questions, and from the papers the lines that
// must come out: a sample is a call there, and no code here.
//
// A question is a head of 16 bytes, the name of its line, and the bytes that it is about. In the head, numbers of two bytes have the low
// byte first, and what isn't asked for is zero:
//
//     0           a letter: what is asked (`fields`)
//     1           a header's version, or a septet
//     2, 4        the lengths of the name and of the bytes
//     6, 8        two numbers: a length, a start, an index, an output's room
//     10, 12, 14  a header's destination, source and command
#![tactic(auto)]

ghost use Rattle.std.specs.Prelude.{◌<◌, length};

mod answer;
mod field;
mod part;

// The length of a head.
const HEAD: usize = 16;

// The fields behind the name.
fn fields(rt: &HostRuntime, question: &[u8], bytes: &[u8]) {
    let n = part::word(question, 6) as usize;
    let m = part::word(question, 8) as usize;
    let header = part::header(question);
    match part::byte(question, 0) {
        b'c' => field::byte(rt, checksum::checksum(bytes)),
        b'x' => answer::septets(rt, septet::extract(part::array(bytes), n)),
        b'j' => answer::septets(rt, septet::inject(part::array(bytes), n, header.version)),
        b'v' => answer::validate(rt, bytes),
        b'e' => answer::encode(rt, header, bytes, n),
        b'l' => answer::long_packet(rt, header, bytes),
        b'r' => answer::row(rt, header, bytes),
        b'i' => field::say(rt, record::value(part::array(bytes))),
        b'n' => answer::next(rt, bytes, n, m),
        b'w' => answer::receive(rt, bytes, n),
        b'W' => answer::receive_last(rt, bytes, n, m),
        b'f' => answer::fault(rt, diagnosis::next_fault(bytes, n)),
        b'z' => answer::normalize(rt, bytes, n),
        b's' => answer::count(rt, sections::section_count(header, bytes)),
        b'S' => answer::place(rt, sections::find_section(header, bytes, n), bytes),
        b'm' => answer::count(rt, sections::element_count(header, bytes, n)),
        b'M' => answer::place(rt, sections::find_element(header, bytes, n, m), bytes),
        b't' => answer::temperature(rt, bytes),
        b'k' => answer::slave_id(rt, slave_id::read(header, bytes)),
        b'K' => answer::write_slave_id(rt, header, bytes, n),
        _ => field::say(rt, "unknown"),
    }
}

fn line(rt: &HostRuntime, question: &[u8]) {
    let name = part::word(question, 2) as usize;
    let rest = part::behind(question, HEAD);
    field::text(rt, part::first(rest, name));
    fields(rt, question, part::behind(rest, name));
    field::text(rt, b"\n");
}

// Answers the first question, and gives what stands behind it: nothing, where the question is cut off.
fn first_line<'a>(rt: &HostRuntime, input: &'a [u8]) -> &'a [u8]
    requires { 0 < length input.now }
    ensures { length result.now < length input.now }
{
    let size = HEAD + part::word(input, 2) as usize + part::word(input, 4) as usize;
    if input.len() < size {
        field::text(rt, b"cut off\n");
        return &[];
    }
    let (question, rest) = input.split_at(size);
    line(rt, question);
    rest
}

fn lines(rt: &HostRuntime, input: &[u8]) {
    let mut rest = input;
    while !rest.is_empty() {
        rest = first_line(rt, rest);
    }
}

fn main(rt: HostRuntime) {
    let mut buffer = [0u8; 65536];
    lines(&rt, stdio::read_input(&rt, &mut buffer));
}
