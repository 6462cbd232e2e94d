// The functions that other languages link, by the exports of public_point_memory_c (include/point_memory.h). None has a
// `requires`, and none is handed a state.
#![tactic(auto)]

ghost use Rattle.std.specs.Prelude.{◌≡◌};
ghost use Rattle.spec_format.specs.Reading.{reading, verdict_of};
ghost use Rattle.spec_report.specs.Outcomes.{run_text, run_schedule, left};
ghost use Rattle.spec_plan_text.specs.Writing.{write_text, write_schedule};
ghost use Rattle.report_ending.specs.Finishing.{ended_of};
ghost use Rattle.public_reference.specs.Answers.{answer_of};

use public_reference::Answer;
use report_ending::Ended;
use spec_format::{Entry, Form};

// Judges a text by the numbers 1 to 10, 16 and 17: see public_reference::check.
pub fn point_memory_check(text: &[u8]) -> Answer
    ensures { result ≡ answer_of (verdict_of (reading Form.Schedule text.now)) }
{
    public_reference::check(text, Form::Schedule).into()
}

// The same of a plan's text, in which an entry line is 3.
pub fn point_memory_check_plan(text: &[u8]) -> Answer
    ensures { result ≡ answer_of (verdict_of (reading Form.PlanAlone text.now)) }
{
    public_reference::check(text, Form::PlanAlone).into()
}

// Runs a text: see public_reference::run.
pub fn point_memory_run(text: &[u8], buffer: &mut [u8]) -> Ended
    ensures value { result ≡ ended_of (run_text text.now) buffer.old }
    ensures buffer_after { buffer.new ≡ left (run_text text.now) buffer.old }
{
    public_reference::run(text, buffer)
}

// "A whole schedule, already read into entry records, can also be run": the records run one after another beside a
// plan's text. The report stands in the first places of the lent buffer; what lies behind it stays as it was, and where
// no report is written all of it does.
pub fn point_memory_run_schedule(text: &[u8], records: &[Entry], buffer: &mut [u8]) -> Ended
    ensures value { result
        ≡ ended_of (run_schedule text.now records.now) buffer.old }
    ensures buffer_after { buffer.new
        ≡ left (run_schedule text.now records.now) buffer.old }
{
    whole_records_end::run_schedule(text, records, buffer).into()
}

// Writes a text: see public_writer::write.
pub fn point_memory_write(text: &[u8], buffer: &mut [u8]) -> Ended
    ensures value { result ≡ ended_of (write_text text.now) buffer.old }
    ensures buffer_after { buffer.new ≡ left (write_text text.now) buffer.old }
{
    public_writer::write(text, buffer)
}

// Writes the one text of a plan's text with records: the records are noted as a text's entry lines are, and the text
// is written from the notes. It stands in the first places of the lent buffer; what lies behind it stays as it was, and
// where no text is written all of it does.
pub fn point_memory_write_schedule(text: &[u8], records: &[Entry], buffer: &mut [u8]) -> Ended
    ensures value { result
        ≡ ended_of (write_schedule text.now records.now) buffer.old }
    ensures buffer_after { buffer.new
        ≡ left (write_schedule text.now records.now) buffer.old }
{
    whole_written_records::write_schedule(text, records, buffer).into()
}
