// Checks the text on standard input and writes its answer, `end number line`, to standard output; of a refusal a line
// on standard error says in plain words what it means.
#![tactic(auto)]

use program_streams::TEXT;
use public_printing::ANSWER;
use std::process::ExitCode;

// Reads the text, checks it as a plan with its schedule and writes the answer. What the three programs share is in
// program_streams. Tried: a helper that takes the printing function; no proof of its call closed, since the length of
// the buffer is that function's const parameter.
fn main(rt: HostRuntime) -> ExitCode {
    let mut text = [0u8; TEXT];
    let Some(length) = program_streams::read_input(&rt, &mut text) else {
        return ExitCode::SUCCESS;
    };
    let mut output = [0u8; ANSWER];
    let printed = public_printing::print_check(&text[..length], &mut output);
    program_streams::write_answer(&rt, printed, &output)
}
