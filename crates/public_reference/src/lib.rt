// The public functions of the point memory machine. None has a `requires`, and none is handed a state.
#![tactic(auto)]

ghost use Rattle.std.specs.Prelude.{◌≡◌};
ghost use Rattle.spec_format.specs.Reading.{reading, verdict_of};
ghost use Rattle.spec_report.specs.Outcomes.{run_text, handed, left};
ghost use Rattle.report_ending.specs.Finishing.{ended_of};
ghost use Rattle.public_reference.specs.Answers.{answer_of};

use read_line_promises::PartRead;
use report_ending::Ended;
use spec_format::{Form, Verdict};

// A number of the table with its line: 0 with the count of all lines, or a refusal with the line where it was met.
// Numbers, since C gets it.
#[repr(C)]
#[derive(Clone, Copy, PartialEq, Eq)]
pub struct Answer {
    pub number: usize,
    pub line: usize,
}

// A verdict by its number and line. The function of that use is public and keeps its name.
impl From<Verdict> for Answer {
    ghost from_gives = { λ verdict r. r ≡ answer_of verdict };

    fn from(verdict: Verdict) -> Answer {
        answer_of(verdict)
    }
}

// Judges a text by the numbers 1 to 10, 16 and 17. In a text of the form PlanAlone an entry cannot stand.
pub fn check(text: &[u8], form: Form) -> Verdict
    ensures { result ≡ verdict_of (reading form text.now) }
{
    read_text::read(text, form, &mut PartRead::blank())
}

// A verdict by its number and line.
pub fn answer_of(verdict: Verdict) -> Answer
    ensures { result ≡ answer_of verdict }
{
    match verdict {
        Ok(lines) => Answer {
            number: 0,
            line: lines,
        },
        Err(refused) => Answer {
            number: report_ending::fault_number(refused.fault),
            line: refused.line,
        },
    }
}

// Runs a text. The report stands in the first places of the lent buffer; what lies behind it stays as it was, and where
// no report is written all of it does.
pub fn run(text: &[u8], buffer: &mut [u8]) -> Ended
    ensures value { result ≡ ended_of (run_text text.now) buffer.old }
    ensures buffer_after { buffer.new ≡ left (run_text text.now) buffer.old }
{
    whole_text::run_text(text, buffer).into()
}

// Runs a text, and hands back the written part of the buffer, empty where no report is written.
pub fn run_part<'a>(text: &[u8], buffer: &'a mut [u8]) -> &'a mut [u8]
    ensures result_value { result.now ≡ handed (run_text text.now) buffer.old }
    ensures ref_ptr_value { result.ref_ptr ≡ buffer.entry.ref_ptr }
{
    let ended = run(text, buffer);
    &mut buffer[..ended.length]
}
