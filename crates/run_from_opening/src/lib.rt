// The single entries of notes run from the opening on, where only how the run ends is wanted. The machine's tables and
// the records are made here, and are gone when the run has ended.
// `Sound` stands in clauses: a type of sound plans would be one more around the lent plan, for this one word.
#![tactic(auto)]

ghost use Rattle.std.specs.Prelude.{◌≤◌, length};
ghost use Rattle.spec_format.specs.Plan.{entries_in};
ghost use Rattle.spec_format.specs.Sound.{Sound};
ghost use Rattle.read_tables.specs.Notes.{listed_in};
ghost use Rattle.run_from_opening.specs.Ends.{Ends};

use arrayvec::ArrayVec;
use read_tables::{Notes, Plan};
use spec_machine::Refusal;
use step_cells::Tables;

// How a run ended: the refusal that stopped it, if one did, how many entries were accepted, and the place of the first
// record of another kind.
#[derive(Clone, Copy)]
pub struct RunEnd {
    pub halt: Option<Refusal>,
    pub entries: usize,
    pub other: Option<usize>,
}

// The single entries of notes run, one after another. Not inlined, for the stack's sake.
#[inline(never)]
pub fn run_notes(plan: &Plan, notes: &Notes) -> RunEnd
    requires sound { Sound plan.now }
    requires few { length (listed_in notes.now.items) ≤ 4000 }
    ensures { Ends plan.now (entries_in (listed_in notes.now.items)) result }
{
    let mut records = ArrayVec::new();
    read_single_entries::records_of(notes, &mut records);
    let mut tables = Tables::blank();
    run_opening::open(plan, &mut tables);
    run_loop::run_records(records.as_slice(), plan, &mut tables);
    RunEnd {
        halt: tables.book.halt,
        entries: tables.book.entries as usize,
        other: tables.book.other,
    }
}
