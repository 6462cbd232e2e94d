// The machine's opening: its tables, with the opening memory put into the store.
// `Sound` stands in clauses: a type of sound plans would be one more around the lent plan, for this one word.
#![tactic(auto)]

ghost use Rattle.std.specs.Prelude.{◌≡◌, ◌≤◌, ◌+◌, ◌*◌, length};
ghost use Rattle.spec_format.specs.Plan.{tabulate};
ghost use Rattle.spec_format.specs.Sound.{Sound};
ghost use Rattle.step_cells.specs.Changed.{with_stat};
ghost use Rattle.step_cells.specs.Tables.{blank_tables};
ghost use Rattle.run_opening.specs.Opened.{own_opened, Opened};

use read_tables::Plan;
use std::array;
use step_cells::{Own, Tables};

// "Bank[k] is NC + k", behind so many copy blocks.
fn open_bank(bank: &mut [u32; 16], copies: usize)
    requires { copies ≤ 128 }
    ensures { bank.new ≡ tabulate 16 (λ k. copies + k) }
{
    for (k, number) in bank.iter_mut().enumerate() {
        *number = (copies + k) as u32;
    }
}

// What a job keeps of its own, with the first block number of its copy list.
fn own_opened(first: usize) -> Own
    requires { first ≤ 128 }
    ensures { result ≡ own_opened first }
{
    Own {
        dirty: [0; 16],
        curr: [0; 16],
        copy: array::from_fn(|i| (first + i) as u32),
        update: 0,
    }
}

// "Job p's copy list is pC to pC + C − 1."
fn open_own(own: &mut [Own; 16], copies: usize)
    requires { copies ≤ 8 }
    ensures { own.new ≡ tabulate 16 (λ p. own_opened (p * copies)) }
{
    // By number: with `iter_mut().enumerate()`, as for the rows, one goal of the loop did not close.
    for p in 0..16 {
        own[p] = own_opened(p * copies);
    }
}

// Words, put into a part of their length. By a loop: the library's method calls memmove, a name that the library for C
// asks nobody for.
fn put_words(part: &mut [u32], words: &[u32])
    requires { length part.old ≡ length words.now }
    ensures { part.new ≡ words.now }
{
    for (k, word) in part.iter_mut().enumerate() {
        *word = words[k];
    }
}

// "V is (0, false); every announcement Ann is N; every status is N, and Stat[N] is N always; Bank[k] is NC + k": blank
// tables, whatever their statuses, filled as at the opening of a plan, with the opening memory behind the copy blocks.
// No job runs on any card. The tables are lent, so that they stand on the stack once.
#[inline(never)]
pub fn open(plan: &Plan, tables: &mut Tables)
    requires sound { Sound plan.now }
    requires blank { tables.old ≡ with_stat tables.old.stat blank_tables }
    ensures { Opened plan.now tables.new }
{
    let sizes = plan.sizes();
    let none = sizes.jobs as u32;
    let behind_copies = sizes.jobs * sizes.copies;
    let start = behind_copies * sizes.words;
    let memory = plan.words();
    tables.ann = [none; 8];
    tables.stat = [none as i32; 17];
    open_bank(&mut tables.bank, behind_copies);
    open_own(&mut tables.own, sizes.copies);
    put_words(&mut tables.store[start..start + memory.len()], memory);
}
