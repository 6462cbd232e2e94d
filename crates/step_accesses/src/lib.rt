// The reads and writes of a move: which word each is of, and what comes after it.
#![tactic(auto)]

ghost use Rattle.std.specs.Prelude.{◌≡◌, cond, ◌<◌, eqb, length, get_or};
ghost use Rattle.spec_machine.specs.Memory.{sum as sum_of};
ghost use Rattle.spec_machine.specs.Moves.{accesses as accessesOf, read, word_of, word_written as written_by};
ghost use Rattle.spec_machine.specs.Moves.{after_list, onward};
ghost use Rattle.step_cells.specs.declared.Own.{Own};
ghost use Rattle.step_cells.specs.Tables.{work_with};
ghost use Rattle.step_cells.specs.Fits.{move_for, block_for, InMove};

use read_tables::Plan;
use spec_format::Move;
use spec_machine::{Place, Stage};
use step_cells::Registers;

// The move that a job is at, inside an update.
pub fn move_for(plan: &Plan, w: Registers) -> Move
    requires { InMove plan.now w }
    ensures { result ≡ move_for plan.now w }
{
    plan.moves(usize::from(w.tr))[usize::from(w.index)]
}

// How many reads and writes a move has.
fn accesses(m: Move) -> u8
    ensures { result ≡ length (accessesOf m) }
{
    match m {
        Move::Copy(..) | Move::Add(..) => 2,
        Move::Set(..) => 1,
    }
}

// The first value for the first read or write of a move, the second for the next.
fn by_access<T: Copy>(access: u8, first: T, second: T) -> T
    ensures { result ≡ cond (eqb access 0) first second }
{
    if access == 0 { first } else { second }
}

// The word that is read or written.
pub fn word_of(m: Move, access: u8) -> u32
    requires { access < length (accessesOf m) }
    ensures { result ≡ word_of (get_or (accessesOf m) access (read 0)) }
{
    match m {
        Move::Copy(d, a) | Move::Add(d, a, _) => by_access(access, a, d),
        Move::Set(d, _) => d,
    }
}

// The block of that word.
pub fn block_for(plan: &Plan, m: Move, w: Registers) -> usize
    requires { InMove plan.now w × (m ≡ move_for plan.now w) × (0 < plan.now.sizes.words) }
    ensures { (result ≡ block_for plan.now w) × (result < 16) }
{
    word_of(m, w.access) as usize / plan.sizes().words
}

// The stage after the list stage: Take for a read, Copy for a write.
pub fn after_list(m: Move, access: u8) -> Stage
    requires { access < length (accessesOf m) }
    ensures { result ≡ after_list (get_or (accessesOf m) access (read 0)) }
{
    match m {
        Move::Copy(..) | Move::Add(..) => by_access(access, Stage::Take, Stage::Copy),
        Move::Set(..) => Stage::Copy,
    }
}

// "Add gives 4,294,967,295 where the sum would be more": the sum.
fn sum(word: u32, k: u32) -> u32
    ensures { result ≡ sum_of word k }
{
    word.saturating_add(k)
}

// What a move writes, from the word that its read took.
pub fn word_written(m: Move, word: u32) -> u32
    ensures { result ≡ written_by m word }
{
    match m {
        Move::Copy(..) => word,
        Move::Set(_, k) => k,
        Move::Add(_, _, k) => sum(word, k),
    }
}

// After a read or write: to the next one of the move, else to the next move, else to H22. The move m is the one that
// the job is at.
pub fn onward(plan: &Plan, m: Move, w: Registers) -> Registers
    requires { InMove plan.now w × (m ≡ move_for plan.now w) }
    ensures { (o : Own) → work_with o result ≡ onward plan.now (work_with o w) }
{
    let check = Place::Move(Stage::Check);
    let access = w.access + 1;
    if access < accesses(m) {
        let mut next = w;
        next.place = check;
        next.access = access;
        return next;
    }
    let index = w.index + 1;
    let more = usize::from(index) < plan.moves(usize::from(w.tr)).len();
    let mut next = w;
    next.place = if more { check } else { Place::H22 };
    next.index = index;
    next.access = 0;
    next
}
