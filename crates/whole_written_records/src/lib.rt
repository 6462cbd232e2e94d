// A plan's text with a schedule of records, written: the records run, and where the run is not refused the one text of
// the plan and the records is written into the lent buffer.
#![tactic(auto)]

ghost use Rattle.spec_plan_text.specs.Writing.{write_schedule};
ghost use Rattle.report_ending.specs.Finishing.{WrittenOut, finished};

use read_tables::Notes;
use report_ending::WrittenEnd;
use spec_format::{Entry, LineFault};

// Writes records beside a plan's text, unless the text or a record is refused. The records are noted as a text's entry
// lines are, run from the notes, once, and written from them.
fn write_unrefused(
    text: &[u8],
    records: &[Entry],
    buffer: &mut [u8],
) -> Result<WrittenEnd, LineFault>
    ensures { WrittenOut (write_schedule text.now records.now) buffer.old (finished result) buffer.new }
{
    let plan = whole_records_start::begin(text, records)?;
    let mut notes = Notes::new();
    let count = read_records::note_records(records, &mut notes);
    let ran = run_from_opening::run_notes(&plan, &notes);
    let place = ran.entries + 1;
    let end = whole_records_end::end_of_records(ran.halt, place, ran.other, count)?;
    Ok(whole_written_end::write_after(&plan, &mut notes, end, buffer))
}

// Writes records beside a plan's text.
pub fn write_schedule(text: &[u8], records: &[Entry], buffer: &mut [u8]) -> WrittenEnd
    ensures { WrittenOut (write_schedule text.now records.now) buffer.old result buffer.new }
{
    write_unrefused(text, records, buffer).unwrap_or_else(WrittenEnd::from)
}
