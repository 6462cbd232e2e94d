// Runs the text on standard input and writes its report to standard output, or `end number line` alone where there is
// no report (1 to 10, 16 and 17); of a refusal a line on standard error says in plain words what it means.
#![tactic(auto)]

use program_streams::TEXT;
use public_printing::OUTPUT;
use std::process::ExitCode;

// Reads the text, runs it and writes the report. What the three programs share is in
// program_streams. Tried: a helper that takes the printing function; no proof of its call closed, since the length of
// the buffer is that function's const parameter.
fn main(rt: HostRuntime) -> ExitCode {
    let mut text = [0u8; TEXT];
    let Some(length) = program_streams::read_input(&rt, &mut text) else {
        return ExitCode::SUCCESS;
    };
    let mut output = [0u8; OUTPUT];
    let printed = public_printing::print_run(&text[..length], &mut output);
    program_streams::write_answer(&rt, printed, &output)
}
