// The one text of a plan and single entries: counted, and written into a lent buffer where there is room for all of it.
// `Sound` stands in clauses: a type of sound plans would be one more around the lent plan, for this one word.
#![tactic(auto)]

ghost use Rattle.std.specs.Prelude.{◌≤◌, ◌≡◌, length, min};
ghost use Rattle.spec_text.specs.FirstPlaces.{in_first_places};
ghost use Rattle.spec_format.specs.Plan.{entries_in};
ghost use Rattle.spec_format.specs.Sound.{Sound};
ghost use Rattle.spec_report.specs.Outcomes.{written};
ghost use Rattle.spec_plan_text.specs.PlanText.{text_of};
ghost use Rattle.spec_plan_text.specs.Writing.{written_at};
ghost use Rattle.read_tables.specs.Notes.{listed_in};
ghost use Rattle.report_ending.specs.Finishing.{WrittenOut};
ghost use Rattle.whole_written_end.specs.TextIn.{text_in};

use read_tables::{Note, Notes, Plan};
use report_ending::WrittenEnd;
use spec_report::End;
use text_outputs::{Count, Output, Part};

// The text of a plan and the entry lines of notes, to any output.
fn put_text<O: Output>(plan: &Plan, notes: &[Note], output: &mut O)
    requires { Sound plan.now }
    ensures { O.Takes (text_in plan.now notes.now) output.old output.new }
{
    text_plan_lines::put_plan_lines(plan, output);
    text_update_lines::put_updates(plan, output);
    text_entry_lines::put_entries(notes, output);
}

// How long that text is, or the largest number where it is longer.
fn text_length(plan: &Plan, notes: &[Note]) -> usize
    requires { Sound plan.now }
    ensures { min result 18446744073709551615 ≡ min (length (text_in plan.now notes.now)) 18446744073709551615 }
{
    let mut count = Count(0);
    put_text(plan, notes, &mut count);
    count.0
}

// That text in the first places of a buffer that has room for it.
fn fill(buffer: &mut [u8], plan: &Plan, notes: &[Note])
    requires sound { Sound plan.now }
    requires room { length (text_in plan.now notes.now) ≤ length buffer.old }
    ensures { buffer.new ≡ in_first_places (text_in plan.now notes.now) buffer.old }
{
    put_text(plan, notes, &mut Part { buffer, at: 0 });
}

// That text, where there is room for all of it; else 15, and the buffer stays as it is.
fn write(plan: &Plan, notes: &[Note], end: End, buffer: &mut [u8]) -> WrittenEnd
    requires { Sound plan.now }
    ensures { WrittenOut (written end (text_in plan.now notes.now)) buffer.old result buffer.new }
{
    let length = text_length(plan, notes);
    if buffer.len() < length {
        return WrittenEnd::nothing(End::NoRoom);
    }
    fill(buffer, plan, notes);
    WrittenEnd { end, length }
}

// What is written after a run of the notes' single entries that ended so: the text, unless the run is refused. The
// notes are overwritten.
pub fn write_after(plan: &Plan, notes: &mut Notes, end: End, buffer: &mut [u8]) -> WrittenEnd
    requires sound { Sound plan.now }
    requires few { length (listed_in notes.old.items) ≤ 4000 }
    ensures { WrittenOut (written_at end (text_of plan.now (entries_in (listed_in notes.old.items))))
        buffer.old result buffer.new }
{
    let End::Accepted(_) = end else {
        return WrittenEnd::nothing(end);
    };
    text_entry_runs::join_notes(notes);
    write(plan, notes.as_slice(), end, buffer)
}
