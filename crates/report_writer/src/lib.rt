// A whole report, written into a lent buffer. It is measured first, by writing it where there is no room.
#![tactic(auto)]

ghost use Rattle.report_bytes.specs.Writes.{Writes};
ghost use Rattle.report_writer.specs.Writing.{Reportable, report_bytes, IsWritten};

use read_tables::Plan;
use step_cells::Tables;

// A report from the buffer's start on, as far as there is room. Answers its whole length.
fn put_report(buffer: &mut [u8], plan: &Plan, tables: &Tables, number: u32, line: u32) -> usize
    requires { Reportable plan.now tables.now }
    ensures { Writes (report_bytes plan.now tables.now number line) 200000 0 buffer.old result
        buffer.new }
{
    let blocks = report_lines::put_commits(buffer, 0, tables.book.commits.as_slice());
    let opens = report_lines::put_blocks(buffer, blocks, plan, tables);
    let end = report_lines::put_opens(buffer, opens, plan, tables);
    report_lines::put_end(buffer, end, number, line)
}

// Writes a report into the buffer's first places, where there is room for all of it, and answers its length; else the
// buffer stays as it is.
pub fn write_report(
    buffer: &mut [u8],
    plan: &Plan,
    tables: &Tables,
    number: u32,
    line: u32,
) -> Option<usize>
    requires { Reportable plan.now tables.now }
    ensures { IsWritten (report_bytes plan.now tables.now number line) buffer.old result buffer.new }
{
    let length = put_report(&mut [], plan, tables, number, line);
    if buffer.len() < length {
        return None;
    }
    put_report(buffer, plan, tables, number, line);
    Some(length)
}
