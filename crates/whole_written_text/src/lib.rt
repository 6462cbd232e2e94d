// A whole text, written: it is read and its entries run, and where the run is not refused the one text of its plan and
// its single entries is written into the lent buffer.
#![tactic(auto)]

ghost use Rattle.spec_format.specs.Plan.{entries_in};
ghost use Rattle.spec_plan_text.specs.PlanText.{text_of};
ghost use Rattle.spec_plan_text.specs.Writing.{written_at, write_text};
ghost use Rattle.spec_machine.specs.History.{run_of};
ghost use Rattle.spec_report.specs.Outcomes.{end_of_run, line_in};
ghost use Rattle.read_tables.specs.Notes.{listed_in};
ghost use Rattle.report_ending.specs.Finishing.{WrittenOut};
ghost use Rattle.whole_text.specs.Reads.{Reads};

use read_line_promises::PartRead;
use read_tables::{Notes, Plan};
use report_ending::WrittenEnd;
use spec_format::Form;

// The plan and the notes of an accepted text are run, once, and written. The notes are overwritten.
fn write_plan(plan: &Plan, notes: &mut Notes, lines: usize, buffer: &mut [u8]) -> WrittenEnd
    requires { Reads plan.now (listed_in notes.old.items) lines }
    ensures { WrittenOut
        (written_at
        (end_of_run (run_of plan.now (entries_in (listed_in notes.old.items)))
        (line_in (listed_in notes.old.items)) lines)
        (text_of plan.now (entries_in (listed_in notes.old.items))))
        buffer.old result buffer.new }
{
    let ran = run_from_opening::run_notes(plan, notes);
    let line = whole_text::refused_line(notes, ran.halt, ran.entries);
    let end = report_ending::end_of(ran.halt, ran.entries + 1, line, lines);
    whole_written_end::write_after(plan, notes, end, buffer)
}

// Writes a text.
pub fn write_text(text: &[u8], buffer: &mut [u8]) -> WrittenEnd
    ensures { WrittenOut (write_text text.now) buffer.old result buffer.new }
{
    let part = &mut PartRead::blank();
    let lines = match read_text::read(text, Form::Schedule, part) {
        Ok(lines) => lines,
        Err(refused) => return refused.into(),
    };
    let finished = write_plan(&part.plan, &mut part.notes, lines, buffer);
    // The notes that were read are overwritten.
    part.notes.clear();
    part.progress.entries = 0;
    finished
}
