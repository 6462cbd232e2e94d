// What the programs print: public functions that fill a buffer of fixed length with the bytes. None has a `requires`,
// and none is handed a state.
#![tactic(auto)]

ghost use Rattle.std.specs.Prelude.{◌≡◌, List, ℕ};
ghost use Rattle.spec_text.specs.FirstPlaces.{in_first_places};
ghost use Rattle.spec_format.specs.Reading.{reading, verdict_of};
ghost use Rattle.io.specs.Counts.{IsPrefixLen};
ghost use Rattle.spec_report.specs.Outcomes.{Outcome, run_text, printed};
ghost use Rattle.spec_plan_text.specs.Writing.{write_text};
ghost use Rattle.report_ending.specs.Finishing.{nothing_written};
ghost use Rattle.public_printing.specs.Printing.{outcome_answer, Finished, end_of_check, check_printed, check_answer};

use report_ending::WrittenEnd;
use spec_format::{Form, Verdict};
use spec_report::End;

// Room for what is printed of every run and of every text that is written: no report is longer than 75,101 bytes, and
// no written text than 59,186.
pub const OUTPUT: usize = 80000;

// Room for what is printed of every check, `end number line`.
pub const ANSWER: usize = 16;

// What a text came to: its number in the table with its line, the number of the entry that is refused, from 1, or 0
// where none is, and how many bytes of the buffer are to be printed. Public: its numbers stay numbers.
#[derive(Clone, Copy)]
pub struct Printed {
    pub number: u32,
    pub line: u32,
    pub entry: u32,
    pub length: usize,
}

// What is to be printed of an outcome that was written out, put into the first places of the buffer: the bytes that
// stand there, or `end number line` alone where there are none.
fn print_ended(finished: WrittenEnd, buffer: &mut [u8]) -> Printed
    requires { (o : Outcome) × ((before : List ℕ) × Finished o before finished buffer.old) }
    ensures { (o : Outcome) (before : List ℕ) → Finished o before finished buffer.old
        → (result ≡ outcome_answer o)
        × (IsPrefixLen result.length buffer.new × (buffer.new ≡ in_first_places (printed o) before)) }
{
    let number = report_ending::end_number(finished.end) as u32;
    let line = report_ending::end_line(finished.end) as u32;
    let entry = report_ending::end_entry(finished.end) as u32;
    let printed = Printed {
        number,
        line,
        entry,
        length: finished.length,
    };
    if printed.length > 0 {
        return printed;
    }
    let length = report_lines::put_end(buffer, 0, number, line);
    Printed { length, ..printed }
}

// Runs a text. What is to be printed then stands in the first places of the buffer: the report, or `end number line`
// alone for 1 to 10, 16 and 17.
pub fn print_run(text: &[u8], buffer: &mut [u8; OUTPUT]) -> Printed
    ensures value { result ≡ outcome_answer (run_text text.now) }
    ensures prefix_len { IsPrefixLen result.length buffer.new }
    ensures buffer_after { buffer.new
        ≡ in_first_places (printed (run_text text.now)) buffer.old }
{
    let finished = whole_text::run_text(text, buffer);
    print_ended(finished, buffer)
}

// Writes a text. What is to be printed then stands in the first places of the buffer: the one text of its plan and its
// single entries, or `end number line` alone for a refusal.
pub fn print_write(text: &[u8], buffer: &mut [u8; OUTPUT]) -> Printed
    ensures value { result ≡ outcome_answer (write_text text.now) }
    ensures prefix_len { IsPrefixLen result.length buffer.new }
    ensures buffer_after { buffer.new
        ≡ in_first_places (printed (write_text text.now)) buffer.old }
{
    let finished = whole_written_text::write_text(text, buffer);
    print_ended(finished, buffer)
}

// A check ends with its verdict, and nothing is written.
fn ended_check(verdict: Verdict) -> WrittenEnd
    ensures { result ≡ nothing_written (end_of_check verdict) }
{
    match verdict {
        Ok(lines) => WrittenEnd::nothing(End::Accepted(lines)),
        Err(refused) => refused.into(),
    }
}

// Checks a text as a plan with its schedule. What is to be printed then stands in the first places of the buffer.
pub fn print_check(text: &[u8], buffer: &mut [u8; ANSWER]) -> Printed
    ensures value { result ≡ check_answer (verdict_of (reading Form.Schedule text.now)) }
    ensures prefix_len { IsPrefixLen result.length buffer.new }
    ensures buffer_after { buffer.new
        ≡ in_first_places (check_printed (verdict_of (reading Form.Schedule text.now))) buffer.old }
{
    let finished = ended_check(public_reference::check(text, Form::Schedule));
    print_ended(finished, buffer)
}
