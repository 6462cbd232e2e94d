// A schedule of records, noted as the entry lines of a text are. The records are lent as a slice, and one loop over it
// notes them one by one; everything else takes them from the notes.
#![tactic(auto)]

ghost use Rattle.std.specs.Prelude.{◌≡◌, length};
ghost use Rattle.read_records.specs.Noted.{Noted};

use read_tables::{Note, Notes};
use spec_format::Entry;

// The most records that a schedule has.
pub const MOST: usize = 4000;

// Notes the records, each once and by itself, in place of what was noted. Answers how many there are; too many are not
// noted.
pub fn note_records(records: &[Entry], notes: &mut Notes) -> usize
    ensures count { result ≡ length records.now }
    ensures noted { Noted records.now notes.new.items }
{
    notes.clear();
    let count = records.len();
    if count > MOST {
        return count;
    }
    for &entry in records {
        notes.push(Note {
            entry,
            times: 1,
            line: 0,
        });
    }
    count
}
