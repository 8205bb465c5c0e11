// Explains a recording from standard input on standard output: all that it decides is `explanation::explain`.
#![tactic(auto)]

use explanation::ROOM;
use listing::MOST;
use record::LONGEST_PAYLOAD;
use std::process::ExitCode;

// Whether whoever reads the output is still there.
fn print_with(rt: &HostRuntime, recording: &[u8], out: &mut [u8]) -> bool {
    let written = explanation::explain(recording, out);
    stdio::write_output(rt, listing::written_text(out, written))
}

// The output is a local of this function alone: the prover can't count so many bytes, and a law has to tell their number.
fn print_explanation(rt: &HostRuntime, recording: &[u8]) -> bool {
    let mut out = [0u8; ROOM];
    print_with(rt, recording, &mut out)
}

// An explanation is empty where all is well, so whether there is a record is asked for itself.
fn has_record(recording: &[u8]) -> bool {
    let mut payload = [0u8; LONGEST_PAYLOAD];
    recording::next(recording, 0, &mut payload).found
}

fn main(rt: HostRuntime) -> ExitCode {
    // One byte more than is explained shows that there is more.
    let mut buffer = [0u8; MOST + 1];
    let input = stdio::read_input(&rt, &mut buffer);
    if !print_explanation(&rt, input) {
        return ExitCode::from(stdio::READER_GONE);
    }
    if input.len() > MOST {
        stdio::tell_too_long(&rt);
    } else if !input.is_empty() && !has_record(input) {
        stdio::tell_no_record(&rt, input.len());
    }
    ExitCode::SUCCESS
}
