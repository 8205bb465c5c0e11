// What a program needs that turns standard input into standard output.
// What went wrong is a line on standard error, which a script turns into an exit status.
#![tactic(auto)]

ghost use Rattle.std.specs.Prelude.{◌≡◌, ◌≤◌, length};

use std::fmt::InlineText;
use std::fs;
use std::fs::OpenOptions;
use std::io::{Eprint, Error, ErrorKind, Input, Print, Read, Result};
use std::os::fd::AsFd;

// The status where nobody reads the output any more: what a shell gives for the signal SIGPIPE, which std holds back.
pub const READER_GONE: u8 = 141;

// Tells why a stream couldn't be read or written: its name and the system's words, without the number that std puts behind these.
fn tell(rt: &impl Eprint, stream: &str, error: Error) {
    let text = InlineText::<256>::of(error);
    let words = text.as_str();
    let words = words
        .split_once(" (os error ")
        .map_or(words, |(words, _)| words);
    let _ = eprintln!(rt; "{stream}: {words}");
}

// Reads until `input` is full, nothing more comes, or a read fails, which is told. Answers what came, at the start of `input`.
pub fn read_input<'a, R: Input + Eprint>(rt: &R, input: &'a mut [u8]) -> &'a [u8]
    ensures in_bounds { length result.now ≤ length input.old }
    ensures ref_ptr_value { result.ref_ptr ≡ input.entry.ref_ptr }
{
    let mut size = 0;
    while size < input.len() {
        match rt.reader().read(&mut input[size..]) {
            Ok(0) => break,
            Ok(count) => size += count,
            Err(e) => {
                tell(rt, "standard input", e);
                break;
            }
        }
    }
    &input[..size]
}

// Waits until the bytes of a file are on its disk, since a full disk may be found out late. What is no file, can't be opened once more, or
// has nothing to wait for is let be.
fn sync_output(rt: &HostRuntime) -> Result<()> {
    if !fs::metadata(rt, "/dev/stdout").is_ok_and(|found| found.is_file()) {
        return Ok(());
    }
    let Ok(file) = OpenOptions::new().append(true).open(rt, "/dev/stdout") else {
        return Ok(());
    };
    match file.sync_data() {
        Err(e) if e.kind() == ErrorKind::InvalidInput => Ok(()),
        synced => synced,
    }
}

// A second descriptor of the output shows whether it is closed, also where there is nothing to write.
fn write_whole(rt: &HostRuntime, text: &[u8]) -> Result<()> {
    rt.write_all(text)?;
    rt.stdout().as_fd().try_clone_to_owned()?;
    sync_output(rt)
}

// Answers whether whoever reads the output is still there: if not, nobody is told.
pub fn write_output(rt: &HostRuntime, text: &[u8]) -> bool {
    match write_whole(rt, text) {
        Ok(()) => true,
        Err(e) if e.kind() == ErrorKind::BrokenPipe => false,
        Err(e) => {
            tell(rt, "standard output", e);
            true
        }
    }
}

pub fn tell_too_long(rt: &impl Eprint) {
    let _ = eprintln!(rt; "too long: more than 65,536 bytes");
}

// A recording without a record may be a file in another format.
pub fn tell_no_record(rt: &impl Eprint, size: usize) {
    let _ = eprintln!(rt; "no record found, bytes looked at: {size}");
}
