// How a run ends: the number and the line of its end, and its report, written into the lent buffer where there is room
// for it.
#![tactic(auto)]

ghost use Rattle.std.specs.Prelude.{◌≡◌, ◌≤◌};
ghost use Rattle.spec_format.specs.Faults.{number_of};
ghost use Rattle.spec_report.specs.Report.{largest_number, end_number, end_line, end_entry};
ghost use Rattle.spec_report.specs.Outcomes.{written, end_of};
ghost use Rattle.report_writer.specs.Writing.{Reportable, report_bytes};
ghost use Rattle.report_ending.specs.Finishing.{WrittenOut, nothing_written, ended_by};

use read_tables::Plan;
use spec_format::{Fault, LineFault};
use spec_machine::Refusal;
use spec_report::End;
use step_cells::Tables;

// How a call ended, and how many bytes it has written: the length of the report, or of a written text.
#[derive(Clone, Copy)]
pub struct WrittenEnd {
    pub end: End,
    pub length: usize,
}

impl WrittenEnd {
    // A call that has written nothing ended so.
    pub fn nothing(end: End) -> WrittenEnd
        ensures { result ≡ nothing_written end }
    {
        WrittenEnd { end, length: 0 }
    }
}

// A refused text ends with its fault, and nothing is written.
impl From<LineFault> for WrittenEnd {
    ghost use Rattle.spec_report.specs.declared.End.{End};

    ghost from_gives = { λ refused r. r ≡ nothing_written (End.Faulty refused.fault refused.line) };

    fn from(refused: LineFault) -> WrittenEnd {
        WrittenEnd::nothing(End::Faulty(refused.fault, refused.line))
    }
}

// How a call ended: its number in the table with its line, and how many bytes it has written: the length of the report,
// or of a written text, 0 where nothing is written. Numbers, since C gets it.
#[repr(C)]
#[derive(Clone, Copy)]
pub struct Ended {
    pub number: usize,
    pub line: usize,
    pub length: usize,
}

// How a call ended, by its number and line.
impl From<WrittenEnd> for Ended {
    ghost from_gives = { λ finished r. r ≡ ended_by finished };

    fn from(finished: WrittenEnd) -> Ended {
        Ended {
            number: end_number(finished.end),
            line: end_line(finished.end),
            length: finished.length,
        }
    }
}

// The number of a fault in the table. A function, and so are those of an end and of a refusal (run_judge): a From would
// stand in the crate of its type, and it is a rule that the crates of definitions have no code, past a default.
pub fn fault_number(fault: Fault) -> usize
    ensures { (result ≡ number_of fault) × (result ≤ largest_number) }
{
    match fault {
        Fault::TooLong => 1,
        Fault::Unknown => 2,
        Fault::Misplaced => 3,
        Fault::Malformed => 4,
        Fault::BadRun => 16,
        Fault::TooMany => 5,
        Fault::Misnumbered => 17,
        Fault::BadSize => 6,
        Fault::BadJob => 7,
        Fault::SameJob => 8,
        Fault::BadWord => 9,
        Fault::TooManyBlocks => 10,
    }
}

// The number of an end in the table.
pub fn end_number(end: End) -> usize
    ensures { (result ≡ end_number end) × (result ≤ largest_number) }
{
    match end {
        End::Accepted(_) => 0,
        End::Faulty(fault, _) => fault_number(fault),
        End::Refused(refusal, ..) => run_judge::refusal_number(refusal) as usize,
        End::NoRoom => 15,
    }
}

// The line of an end.
pub fn end_line(end: End) -> usize
    ensures { result ≡ end_line end }
{
    match end {
        End::Accepted(line) | End::Faulty(_, line) | End::Refused(_, _, line) => line,
        End::NoRoom => 0,
    }
}

// The number of the entry that an end refuses, 0 where it refuses none.
pub fn end_entry(end: End) -> usize
    ensures { result ≡ end_entry end }
{
    match end {
        End::Refused(_, entry, _) => entry,
        End::Accepted(_) | End::Faulty(..) | End::NoRoom => 0,
    }
}

// How a run ends: by the refusal that stopped it, with the entry's number and line, or accepted with a count. A refused
// entry has a report too, so that neither end is an error.
pub fn end_of(halt: Option<Refusal>, entry: usize, line: usize, count: usize) -> End
    ensures { result ≡ end_of halt entry line count }
{
    match halt {
        None => End::Accepted(count),
        Some(refusal) => End::Refused(refusal, entry, line),
    }
}

// The report of a run whose entries have run is written, where there is room for it; 15 is decided here, last.
pub fn finish(buffer: &mut [u8], plan: &Plan, tables: &Tables, end: End) -> WrittenEnd
    requires reportable { Reportable plan.now tables.now }
    requires end_bound { end_line end ≤ 65536 }
    ensures { WrittenOut
        (written end (report_bytes plan.now tables.now (end_number end) (end_line end)))
        buffer.old result buffer.new }
{
    let number = end_number(end) as u32;
    let line = end_line(end) as u32;
    match report_writer::write_report(buffer, plan, tables, number, line) {
        Some(length) => WrittenEnd { end, length },
        None => WrittenEnd::nothing(End::NoRoom),
    }
}
