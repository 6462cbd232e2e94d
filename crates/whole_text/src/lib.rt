// A whole text, run: it is read, its entries run one after another, and the report is written into the lent buffer.
#![tactic(auto)]

ghost use Rattle.std.specs.Prelude.{◌≡◌, MatchOption};
ghost use Rattle.spec_format.specs.Plan.{entries_in};
ghost use Rattle.spec_report.specs.Outcomes.{line_in, run_outcome, run_text};
ghost use Rattle.read_tables.specs.Notes.{listed_in};
ghost use Rattle.report_ending.specs.Finishing.{WrittenOut};
ghost use Rattle.whole_text.specs.Reads.{Reads};

use arrayvec::ArrayVec;
use read_line_promises::PartRead;
use read_tables::{Notes, Plan};
use report_ending::WrittenEnd;
use spec_format::Form;
use spec_machine::Refusal;
use step_cells::Tables;

// The line of the entry that has stopped a run behind so many accepted ones; 0 where none has, and then the notes are
// not looked through.
pub fn refused_line(notes: &Notes, halt: Option<Refusal>, accepted: usize) -> usize
    ensures { MatchOption halt (result ≡ 0) (λ _. result ≡ line_in (listed_in notes.now.items) accepted) }
{
    match halt {
        None => 0,
        Some(_) => read_single_entries::line_in(notes, accepted),
    }
}

// The plan and the notes of an accepted text are run. The machine's tables are made here. Not inlined, and so are
// run_notes: what they make is on the stack only while they run.
#[inline(never)]
fn run_plan(plan: &Plan, notes: &Notes, lines: usize, buffer: &mut [u8]) -> WrittenEnd
    requires { Reads plan.now (listed_in notes.now.items) lines }
    ensures { WrittenOut
        (run_outcome plan.now (entries_in (listed_in notes.now.items)) (line_in (listed_in notes.now.items)) lines)
        buffer.old result buffer.new }
{
    let mut tables = Tables::blank();
    run_opening::open(plan, &mut tables);
    let mut records = ArrayVec::new();
    read_single_entries::records_of(notes, &mut records);
    run_loop::run_records(records.as_slice(), plan, &mut tables);
    let halt = tables.book.halt;
    let accepted = tables.book.entries as usize;
    let line = refused_line(notes, halt, accepted);
    let end = report_ending::end_of(halt, accepted + 1, line, lines);
    report_ending::finish(buffer, plan, &tables, end)
}

// Runs a text. The whole text is checked for 1 to 10, 16 and 17 before any entry runs.
pub fn run_text(text: &[u8], buffer: &mut [u8]) -> WrittenEnd
    ensures { WrittenOut (run_text text.now) buffer.old result buffer.new }
{
    let mut part = PartRead::blank();
    match read_text::read(text, Form::Schedule, &mut part) {
        Ok(lines) => run_plan(&part.plan, &part.notes, lines, buffer),
        Err(refused) => refused.into(),
    }
}
