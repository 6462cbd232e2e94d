// A plan's text with a schedule of records, run: how the schedule ends when its records have run, and the report.
#![tactic(auto)]

ghost use Rattle.std.specs.Prelude.{◌≡◌};
ghost use Rattle.spec_report.specs.Outcomes.{run_schedule};
ghost use Rattle.report_ending.specs.Finishing.{WrittenOut, finished};
ghost use Rattle.whole_records_end.specs.Ending.{end_of_records};

use report_ending::WrittenEnd;
use spec_format::{Entry, Fault, LineFault};
use spec_machine::Refusal;
use spec_report::End;
use step_cells::Tables;

// How a schedule ends when so many records have run: refused where a record is of another kind, the first at this
// place, and else as the run ended, whose next record has this place.
pub fn end_of_records(
    halt: Option<Refusal>,
    place: usize,
    other: Option<usize>,
    count: usize,
) -> Result<End, LineFault>
    ensures { result ≡ end_of_records halt place other count }
{
    match other {
        None => Ok(report_ending::end_of(halt, place, place, count)),
        Some(line) => Err(LineFault {
            fault: Fault::Misplaced,
            line,
        }),
    }
}

// Runs records beside a plan's text, unless the text or the records are refused.
fn run_unrefused(text: &[u8], records: &[Entry], buffer: &mut [u8]) -> Result<WrittenEnd, LineFault>
    ensures { WrittenOut (run_schedule text.now records.now) buffer.old (finished result) buffer.new }
{
    let plan = whole_records_start::begin(text, records)?;
    let mut tables = Tables::blank();
    run_opening::open(&plan, &mut tables);
    run_loop::run_records(records, &plan, &mut tables);
    let place = tables.book.entries as usize + 1;
    let end = end_of_records(tables.book.halt, place, tables.book.other, records.len())?;
    Ok(report_ending::finish(buffer, &plan, &tables, end))
}

// Runs records beside a plan's text.
pub fn run_schedule(text: &[u8], records: &[Entry], buffer: &mut [u8]) -> WrittenEnd
    ensures { WrittenOut (run_schedule text.now records.now) buffer.old result buffer.new }
{
    run_unrefused(text, records, buffer).unwrap_or_else(WrittenEnd::from)
}
