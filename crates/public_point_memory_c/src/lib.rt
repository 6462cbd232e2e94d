// What other languages link: the functions of public_point_memory, exported under their names (include/point_memory.h,
// tools/static_library.sh). A slice is passed as a pointer and a length. None has a `requires`, and none is handed a
// state.
#![tactic(auto)]

ghost use Rattle.std.specs.Prelude.{◌≡◌};
ghost use Rattle.spec_format.specs.Reading.{reading, verdict_of};
ghost use Rattle.spec_report.specs.Outcomes.{run_text, run_schedule, left};
ghost use Rattle.spec_plan_text.specs.Writing.{write_text, write_schedule};
ghost use Rattle.report_ending.specs.Finishing.{ended_of};
ghost use Rattle.public_reference.specs.Answers.{answer_of};

use public_reference::Answer;
use report_ending::Ended;
use spec_format::{Entry, Form};

// Judges a text by the numbers 1 to 10, 16 and 17.
#[unsafe(no_mangle)]
pub extern "C" fn point_memory_check(text: &[u8]) -> Answer
    ensures { result ≡ answer_of (verdict_of (reading Form.Schedule text.now)) }
{
    public_point_memory::point_memory_check(text)
}

// The same of a plan's text, in which an entry line is 3.
#[unsafe(no_mangle)]
pub extern "C" fn point_memory_check_plan(text: &[u8]) -> Answer
    ensures { result ≡ answer_of (verdict_of (reading Form.PlanAlone text.now)) }
{
    public_point_memory::point_memory_check_plan(text)
}

// Runs a text.
#[unsafe(no_mangle)]
pub extern "C" fn point_memory_run(text: &[u8], buffer: &mut [u8]) -> Ended
    ensures value { result ≡ ended_of (run_text text.now) buffer.old }
    ensures buffer_after { buffer.new ≡ left (run_text text.now) buffer.old }
{
    public_point_memory::point_memory_run(text, buffer)
}

// Runs records beside a plan's text.
#[unsafe(no_mangle)]
pub extern "C" fn point_memory_run_schedule(
    text: &[u8],
    records: &[Entry],
    buffer: &mut [u8],
) -> Ended
    ensures value { result
        ≡ ended_of (run_schedule text.now records.now) buffer.old }
    ensures buffer_after { buffer.new
        ≡ left (run_schedule text.now records.now) buffer.old }
{
    public_point_memory::point_memory_run_schedule(text, records, buffer)
}

// Writes a text.
#[unsafe(no_mangle)]
pub extern "C" fn point_memory_write(text: &[u8], buffer: &mut [u8]) -> Ended
    ensures value { result ≡ ended_of (write_text text.now) buffer.old }
    ensures buffer_after { buffer.new ≡ left (write_text text.now) buffer.old }
{
    public_point_memory::point_memory_write(text, buffer)
}

// Writes the one text of a plan's text with records.
#[unsafe(no_mangle)]
pub extern "C" fn point_memory_write_schedule(
    text: &[u8],
    records: &[Entry],
    buffer: &mut [u8],
) -> Ended
    ensures value { result
        ≡ ended_of (write_schedule text.now records.now) buffer.old }
    ensures buffer_after { buffer.new
        ≡ left (write_schedule text.now records.now) buffer.old }
{
    public_point_memory::point_memory_write_schedule(text, records, buffer)
}
