// Lists a recording from standard input to standard output: all that it decides is `listing::list`.
#![tactic(auto)]

use listing::{MOST, ROOM};
use std::process::ExitCode;

fn main(rt: HostRuntime) -> ExitCode {
    // One byte more than is listed shows that there is more.
    let mut buffer = [0u8; MOST + 1];
    let mut out = [0u8; ROOM];
    let input = stdio::read_input(&rt, &mut buffer);
    let written = listing::list(input, &mut out);
    let text = listing::written_text(&out, written);
    if !stdio::write_output(&rt, text) {
        return ExitCode::from(stdio::READER_GONE);
    }
    if input.len() > MOST {
        stdio::tell_too_long(&rt);
    } else if text.is_empty() && !input.is_empty() {
        stdio::tell_no_record(&rt, input.len());
    }
    ExitCode::SUCCESS
}
