// The single entries of a schedule joined into entry lines: "steps of one card that follow each other are joined into
// the longest runs". The lines are notes, as those on the entry lines of a text.
#![tactic(auto)]

ghost use Rattle.std.specs.Prelude.{◌≡◌, ◌≤◌, ◌<◌, length};
ghost use Rattle.spec_format.specs.Plan.{entries_in};
ghost use Rattle.read_tables.specs.Notes.{listed_in};
ghost use Rattle.text_entry_runs.specs.Joined.{lines_noted, goes_on, Joined};
ghost use Rattle.text_entry_runs.specs.Behind.{add_last, StepsAtMost};

use arrayvec::ArrayVec;
use read_tables::{Note, Notes};
use spec_format::Entry;

// Whether an entry makes the run of a note one longer: both are steps of one card.
fn goes_on(note: Note, e: Entry) -> bool
    ensures { result ≡ goes_on note e }
{
    e.kind > 0 && note.entry.kind > 0 && note.entry.first == e.first
}

// A single entry behind the entry lines of notes: a step makes a run of its card one longer, where that is the last
// line, and every other entry is a line by itself.
fn add(notes: &mut Notes, e: Entry)
    requires room { length notes.old.items < 4000 }
    requires steps_at_most { StepsAtMost 4000 (lines_noted notes.old.items) }
    ensures { lines_noted notes.new.items ≡ add_last e (lines_noted notes.old.items) }
{
    if let Some(last) = notes.last_mut()
        && goes_on(*last, e)
    {
        last.times += 1;
        return;
    }
    notes.push(Note {
        entry: e,
        times: 1,
        line: 0,
    });
}

// The entry lines of records, in place of what was noted.
fn join(records: &[Entry], notes: &mut Notes)
    requires { length records.now ≤ 4000 }
    ensures { Joined records.now notes.new.items }
{
    notes.clear();
    for &e in records {
        add(notes, e);
    }
}

// The single entries of the notes joined into entry lines, which are then noted instead.
pub fn join_notes(notes: &mut Notes)
    requires { length (listed_in notes.old.items) ≤ 4000 }
    ensures { Joined (entries_in (listed_in notes.old.items)) notes.new.items }
{
    let mut records = ArrayVec::new();
    read_single_entries::records_of(notes, &mut records);
    join(records.as_slice(), notes);
}
