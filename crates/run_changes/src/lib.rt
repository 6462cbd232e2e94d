// The changes that are more than one store: of a job's own places, of a row, and of the commits.
#![tactic(auto)]

ghost use Rattle.std.specs.Prelude.{◌≡◌, ℕ, ◌+◌, ◌≤◌, ◌<◌, length, get_or};
ghost use Rattle.spec_text.specs.FirstPlaces.{in_first_places};
ghost use Rattle.spec_format.specs.Plan.{tabulate};
ghost use Rattle.spec_machine.specs.Steps.{replaced};
ghost use Rattle.step_cells.specs.Tables.{own_of};
ghost use Rattle.step_cells.specs.Changed.{with_book};
ghost use Rattle.step_cells.specs.Book.{committing};
ghost use Rattle.step_cells.specs.Effects.{marking, unmarked, reclaiming};

use step_cells::{Commit, Own, Tables};

// A job's block b is marked, and has this number in this run.
pub fn mark(own: &mut Own, b: u32, mark: u32, number: u32)
    requires { b < 16 }
    ensures { own.new ≡ marking b mark number own.old }
{
    own.dirty[b as usize] = mark;
    own.curr[b as usize] = number;
}

// A job's marks are cleared.
pub fn clear(own: &mut Own)
    ensures { own.new ≡ unmarked own.old }
{
    own.dirty = [0; 16];
}

// The replaced block numbers, in listing order, take the first places of a job's copy list: of the n listed blocks of
// its row the old numbers of those written.
fn reclaim(own: &mut Own, n: usize, addr: [u32; 16], old: [u32; 16])
    requires blocks { (n ≤ 16) × ((i : ℕ) → get_or addr i 0 < 16) }
    requires room { length (replaced (λ i. get_or addr i 0) (λ i. get_or old i 0) own.old.dirty n) ≤ 8 }
    ensures { own.new ≡ reclaiming (λ i. get_or addr i 0) (λ i. get_or old i 0) n own.old }
{
    let mut used = 0;
    // By index: over the row's first places the goals stay open.
    for i in 0..n {
        if own.dirty[addr[i] as usize] == 2 {
            own.copy[used] = old[i];
            used += 1;
        }
    }
}

// H25 done: the replaced numbers reclaimed, and the marks cleared.
pub fn decide(own: &mut Own, n: usize, addr: [u32; 16], old: [u32; 16])
    requires blocks { (n ≤ 16) × ((i : ℕ) → get_or addr i 0 < 16) }
    requires room { length (replaced (λ i. get_or addr i 0) (λ i. get_or old i 0) own.old.dirty n) ≤ 8 }
    ensures { own.new ≡ unmarked (reclaiming (λ i. get_or addr i 0) (λ i. get_or old i 0) n own.old) }
{
    reclaim(own, n, addr, old);
    clear(own);
}

// A row with the numbers, in a job's run, of its n listed blocks in its first places.
pub fn published(own: &Own, n: usize, addr: [u32; 16], row: [u32; 16]) -> [u32; 16]
    requires { (n ≤ 16) × ((i : ℕ) → get_or addr i 0 < 16) }
    ensures { result ≡ in_first_places (tabulate n (λ i. get_or own.now.curr (get_or addr i 0) 0)) row }
{
    let mut out = row;
    // By index, as in `reclaim`.
    for i in 0..n {
        out[i] = own.curr[addr[i] as usize];
    }
    out
}

// One more commit: the entry, the job, and the update that it was called with.
pub fn add_commit(tables: &mut Tables, h: u32)
    requires job { h < 16 }
    requires entries { tables.old.book.entries < 4000 }
    requires room { length tables.old.book.commits.items < 4000 }
    ensures { tables.new ≡ with_book (committing h (own_of tables.old h).update tables.old.book) tables.old }
{
    let commit = Commit {
        entry: tables.book.entries + 1,
        job: h,
        update: tables.own[h as usize].update,
    };
    tables.book.commits.push(commit);
}
