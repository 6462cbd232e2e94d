// The lines of the report, written into a lent buffer. Each function writes its bytes from a place on, as far as the
// buffer has room, and answers the place behind them.
#![tactic(auto)]

ghost use Rattle.std.specs.Prelude.{ℕ, ◌≤◌, ◌<◌, ◌+◌, ◌*◌, [], ◌∷◌, length, get_or};
ghost use Rattle.spec_text.specs.Bytes.{bytes};
ghost use Rattle.spec_machine.specs.Machine.{block_in};
ghost use Rattle.spec_machine.specs.Ranges.{most_numbers};
ghost use Rattle.spec_text.specs.WrittenLines.{line_of};
ghost use Rattle.spec_report.specs.Report.{status_bytes};
ghost use Rattle.report_bytes.specs.Writes.{Writes};
ghost use Rattle.report_lines.specs.ReportLines.{row_line, row_lines, blocks_bytes, open_bytes, opens_bytes};
ghost use Rattle.report_lines.specs.ReportLines.{end_bytes};

use read_tables::Plan;
use step_cells::{Commit, Tables};

// "`commit entry job update`".
fn put_commit(buffer: &mut [u8], at: usize, row: Commit) -> usize
    requires { at + 40 ≤ 4294967296 }
    ensures { Writes (row_line row) 40 at buffer.old result buffer.new }
{
    report_bytes::put_line(buffer, at, b"commit", &[row.entry, row.job, row.update])
}

// "entries counted from 1, in commit order": the lines of some commits.
pub fn put_commits(buffer: &mut [u8], at: usize, commits: &[Commit]) -> usize
    requires { at + 40 * length commits.now ≤ 4294967296 }
    ensures { Writes (row_lines commits.now) (40 * length commits.now) at buffer.old result
        buffer.new }
{
    let mut next = at;
    for row in commits {
        next = put_commit(buffer, next, *row);
    }
    next
}

// The line of a block of the store, of so many words.
fn put_block(
    buffer: &mut [u8],
    at: usize,
    words: usize,
    number: usize,
    store: &[u32; 2304],
) -> usize
    requires words_bound { (words ≤ 16) × (at + 200 ≤ 4294967296) }
    requires number_bound { number < most_numbers }
    ensures { Writes (line_of (bytes "block") (block_in words store.now number)) 200 at
        buffer.old result buffer.new }
{
    let start = number * words;
    let end = start + words;
    report_bytes::put_line(buffer, at, b"block", &store[start..end])
}

// "B lines `block` with the words seen through the bank".
pub fn put_blocks(buffer: &mut [u8], at: usize, plan: &Plan, tables: &Tables) -> usize
    requires plan_bound { (plan.now.sizes.blocks ≤ 16)
        × ((plan.now.sizes.words ≤ 16) × (at + 3200 ≤ 4294967296)) }
    requires bank_bound { (b : ℕ) → get_or tables.now.bank b 0 < most_numbers }
    ensures { Writes (blocks_bytes plan.now.sizes tables.now.bank tables.now.store) 3200 at
        buffer.old result buffer.new }
{
    let sizes = plan.sizes();
    let mut next = at;
    // By number: of the table's places the first B are the plan's blocks, and the definition counts them.
    for b in 0..sizes.blocks {
        let number = tables.bank[b] as usize;
        next = put_block(buffer, next, sizes.words, number, &tables.store);
    }
    next
}

// A status, "−1 printed as `-1`".
fn put_job_status(buffer: &mut [u8], at: usize, status: i32) -> usize
    requires { at + 11 ≤ 4294967296 }
    ensures { Writes (status_bytes status) 11 at buffer.old result buffer.new }
{
    if status < 0 {
        let digits = report_bytes::put_byte(buffer, at, b'-');
        return report_bytes::put_decimal(buffer, digits, status.unsigned_abs());
    }
    report_bytes::put_decimal(buffer, at, status.unsigned_abs())
}

// "`open job status`".
fn put_open(buffer: &mut [u8], at: usize, k: usize, status: i32) -> usize
    requires { (at + 40 ≤ 4294967296) × (k < 16) }
    ensures { Writes (open_bytes k status) 40 at buffer.old result buffer.new }
{
    let job = report_bytes::put_bytes(buffer, at, b"open\t");
    let second = report_bytes::put_decimal(buffer, job, k as u32);
    let value = report_bytes::put_byte(buffer, second, b'\t');
    let end = put_job_status(buffer, value, status);
    report_bytes::put_byte(buffer, end, b'\n')
}

// "`open job status` for each active job, by job number".
pub fn put_opens(buffer: &mut [u8], at: usize, plan: &Plan, tables: &Tables) -> usize
    requires { (plan.now.sizes.jobs ≤ 16) × (at + 640 ≤ 4294967296) }
    ensures { Writes (opens_bytes plan.now.sizes.jobs tables.now.stat tables.now.book.active) 640 at
        buffer.old result buffer.new }
{
    let mut next = at;
    // By number, which is printed, and a place in two tables.
    for k in 0..plan.sizes().jobs {
        if tables.book.active[k] {
            next = put_open(buffer, next, k, tables.stat[k]);
        }
    }
    next
}

// "`end number line`".
pub fn put_end(buffer: &mut [u8], at: usize, number: u32, line: u32) -> usize
    requires { at + 40 ≤ 4294967296 }
    ensures { Writes (end_bytes number line) 40 at buffer.old result buffer.new }
{
    report_bytes::put_line(buffer, at, b"end", &[number, line])
}
