// The fields of the answers.
use crate::{field, part};
use receiver::Receiver;
use record::{Header, LONGEST_PAYLOAD};
use stream::Verdict;

// The number, all seven bytes, the length and the septet.
pub fn septets(rt: &HostRuntime, answer: septet::Septets) {
    field::say(rt, answer.number);
    field::bytes(rt, &answer.bytes);
    field::say(rt, answer.length);
    field::byte(rt, answer.septet);
}

// The record of a whole stream, and whether writing it gives these bytes again or has changed them.
fn again(rt: &HostRuntime, stream: &[u8]) {
    let mut payload = [0u8; LONGEST_PAYLOAD];
    let found = recording::next(stream, 0, &mut payload);
    let used = part::first(&payload, found.payload_length);
    field::record(rt, found.header, used);
    let mut out = [0u8; 772];
    let count = record::encode(found.header, used, &mut out).length;
    field::same(rt, part::first(&out, count), stream, "again");
}

pub fn validate(rt: &HostRuntime, bytes: &[u8]) {
    let answer = stream::validate(bytes);
    field::verdict(rt, answer.verdict);
    field::say(rt, answer.offset);
    field::say(rt, answer.unused_septets);
    if answer.verdict == Verdict::Whole.number() {
        again(rt, part::first(bytes, answer.offset));
    }
}

// An output before a call, of a byte that no stream has.
const UNTOUCHED: [u8; 800] = [0xEE; 800];

// Whether the bytes of an output behind the first are untouched.
fn kept(rt: &HostRuntime, out: &[u8], count: usize) {
    field::same(
        rt,
        part::behind(out, count),
        part::behind(&UNTOUCHED, count),
        "kept",
    );
}

// The number, how many bytes were written, these, and whether the rest was kept.
fn written(rt: &HostRuntime, answer: basics::Written, out: &[u8]) {
    field::say(rt, answer.number);
    field::say(rt, answer.length);
    field::bytes(rt, part::first(out, answer.length));
    kept(rt, out, answer.length);
}

pub fn encode(rt: &HostRuntime, header: Header, payload: &[u8], room: usize) {
    let mut out = UNTOUCHED;
    let answer = record::encode(header, payload, part::first_mut(&mut out, room));
    written(rt, answer, &out);
}

// A packet whose stream is too long for a line: whether its payload is read back.
pub fn long_packet(rt: &HostRuntime, header: Header, payload: &[u8]) {
    let mut out = UNTOUCHED;
    let answer = record::encode(header, payload, &mut out);
    field::say(rt, answer.number);
    field::say(rt, answer.length);
    let mut back = [0u8; LONGEST_PAYLOAD];
    let found = recording::next(&out, 0, &mut back);
    field::same(rt, part::first(&back, found.payload_length), payload, "ok");
    kept(rt, &out, answer.length);
}

// A datagram: the bytes written, and the record and the value that are read back.
pub fn row(rt: &HostRuntime, header: Header, payload: &[u8]) {
    let mut out = [0u8; 16];
    let count = record::encode(header, payload, &mut out).length;
    field::bytes(rt, part::first(&out, count));
    let mut back = [0u8; 6];
    let found = recording::next(&out, 0, &mut back);
    field::record(rt, found.header, part::first(&back, found.payload_length));
    field::say(rt, record::value(back));
}

// A record: its position, its stream's length, and itself.
fn located(rt: &HostRuntime, position: u64, length: usize, header: Header, payload: &[u8]) {
    field::say(rt, position);
    field::say(rt, length);
    field::record(rt, header, payload);
}

// The record that was found, or that there is none.
fn found(rt: &HostRuntime, answer: recording::Found, payload: &[u8]) {
    if answer.found {
        located(rt, answer.position, answer.length, answer.header, payload);
    } else if answer.number == 0 {
        field::say(rt, "none");
    }
}

pub fn next(rt: &HostRuntime, recording: &[u8], start: usize, room: usize) {
    let mut out = UNTOUCHED;
    let answer = recording::next(recording, start, part::first_mut(&mut out, room));
    field::say(rt, answer.number);
    found(rt, answer, part::first(&out, answer.payload_length));
    kept(rt, &out, answer.payload_length);
}

// The record that was completed, if one was.
fn received(rt: &HostRuntime, answer: receiver::Received, payload: &[u8]) {
    if answer.found {
        let payload = part::first(payload, answer.payload_length);
        located(rt, answer.position, answer.length, answer.header, payload);
    }
}

// How many bytes a receiver holds, and its position.
fn state(rt: &HostRuntime, receiver: Receiver) {
    field::say(rt, "held");
    field::say(rt, receiver.held);
    field::say(rt, "position");
    field::say(rt, receiver.position);
}

// A recording, byte after byte, to a fresh receiver with whatever in its memory, which is reset when `reset` bytes are used.
pub fn receive(rt: &HostRuntime, recording: &[u8], reset: usize) {
    let mut receiver = Receiver::default();
    let mut memory = [0xEEu8; 772];
    for (used, byte) in recording.iter().enumerate() {
        if used == reset {
            receiver = receiver::reset(receiver);
        }
        let mut out = [0u8; LONGEST_PAYLOAD];
        let answer = receiver::receive(receiver, &mut memory, &[*byte], &mut out);
        receiver = answer.receiver;
        received(rt, answer, &out);
    }
    state(rt, receiver);
}

// One chunk, to a receiver that holds nothing and whose count is `left` below the largest 64-bit number: the number, how many bytes were
// used, the record, the receiver, and whether the rest of the output was kept.
pub fn receive_last(rt: &HostRuntime, chunk: &[u8], left: usize, room: usize) {
    let receiver = Receiver {
        position: u64::MAX - left as u64,
        ..Receiver::default()
    };
    let mut memory = [0xEEu8; 772];
    let mut out = UNTOUCHED;
    let answer = receiver::receive(
        receiver,
        &mut memory,
        chunk,
        part::first_mut(&mut out, room),
    );
    field::say(rt, answer.number);
    field::say(rt, answer.used);
    received(rt, answer, &out);
    state(rt, answer.receiver);
    kept(rt, &out, answer.payload_length);
}

// The place, the verdict and the offset of a fault, the byte found there and the byte wanted; or that there is none.
pub fn fault(rt: &HostRuntime, answer: diagnosis::Fault) {
    if !answer.found {
        field::say(rt, "none");
        return;
    }
    field::say(rt, answer.place);
    field::verdict(rt, answer.verdict);
    field::say(rt, answer.offset);
    if answer.has_byte {
        field::byte(rt, answer.byte);
    }
    if answer.has_wanted {
        field::byte(rt, answer.wanted);
    }
}

pub fn normalize(rt: &HostRuntime, recording: &[u8], room: usize) {
    let mut out = UNTOUCHED;
    let answer = recording::normalize(recording, part::first_mut(&mut out, room));
    written(rt, answer, &out);
}

pub fn count(rt: &HostRuntime, answer: sections::Count) {
    field::say(rt, answer.number);
    field::say(rt, answer.count);
}

// The number, the start and the length, and the bytes that stand there.
pub fn place(rt: &HostRuntime, answer: sections::Part, payload: &[u8]) {
    field::say(rt, answer.number);
    field::say(rt, answer.start);
    field::say(rt, answer.length);
    field::bytes(
        rt,
        part::first(part::behind(payload, answer.start), answer.length),
    );
}

pub fn temperature(rt: &HostRuntime, bytes: &[u8]) {
    field::say(
        rt,
        sections::temperature(part::array(part::first(bytes, 2))),
    );
}

// The number, the identifiers, the week and the consecutive number.
pub fn slave_id(rt: &HostRuntime, answer: slave_id::SlaveId) {
    field::say(rt, answer.number);
    field::say(rt, answer.product);
    field::say(rt, answer.device);
    field::say(rt, answer.week);
    field::say(rt, answer.serial);
}

// Two identifiers, of four bytes each.
pub fn write_slave_id(rt: &HostRuntime, header: Header, identifiers: &[u8], room: usize) {
    let mut out = UNTOUCHED;
    let product = part::long(identifiers, 0);
    let device = part::long(identifiers, 4);
    let answer = slave_id::write(
        header.destination,
        header.source,
        product,
        device,
        part::first_mut(&mut out, room),
    );
    written(rt, answer, &out);
}
