// The single entries of a text, from the notes on its entry lines: as records for the loop, and the line of one.
#![tactic(auto)]

ghost use Rattle.std.specs.Prelude.{◌≡◌, ◌≤◌, length};
ghost use Rattle.spec_report.specs.Outcomes.{line_in};
ghost use Rattle.read_tables.specs.Notes.{listed_in};
ghost use Rattle.spec_format.specs.Plan.{entries_in};

use arrayvec::ArrayVec;
use read_tables::{Note, Notes};
use spec_format::Entry;

// The single entries as records, in the place of those that were there: the entry of each note, as many times as it
// comes. The records are lent, so that they stand on the stack once.
pub fn records_of(notes: &Notes, records: &mut ArrayVec<Entry, 4000>)
    requires { length (listed_in notes.now.items) ≤ 4000 }
    ensures { records.new.items ≡ entries_in (listed_in notes.now.items) }
{
    records.clear();
    for &Note { entry, times, .. } in notes.as_slice() {
        for _ in 0..times {
            records.push(entry);
        }
    }
}

// The line of single entry i, from 0; 0 where there is none.
#[tactic(auto, using(crate::proofs::SingleEntries::line_there))]
pub fn line_in(notes: &Notes, i: usize) -> usize
    ensures { result ≡ line_in (listed_in notes.now.items) i }
{
    let mut left = i;
    for note in notes.as_slice() {
        let times = note.times as usize;
        if left < times {
            return note.line as usize;
        }
        left -= times;
    }
    0
}
