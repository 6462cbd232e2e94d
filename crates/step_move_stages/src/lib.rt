// The stages of a move that check, list and take, and one stage by its name. A read has check, list and take; a write
// has check, list, copy and write. Each function is the stage of its name.
#![tactic(auto, unfolding(step_cells::specs::Effects::Does, spec_machine::specs::Steps::item, spec_machine::specs::Steps::stage,))]

ghost use Rattle.std.specs.Prelude.{◌≡◌, ℕ, ◌+◌, ◌*◌, ◌≤◌, ◌<◌};
ghost use Rattle.spec_format.specs.Plan.{Plan};
ghost use Rattle.spec_machine.specs.Ranges.{most_numbers};
ghost use Rattle.step_cells.specs.Effects.{Does, StaysInside};
ghost use Rattle.step_cells.specs.Fits.{RegistersFit, RoomToList, RoomAt};
ghost use Rattle.step_accesses.specs.AtMove.{AtMove};

use read_tables::Plan;
use spec_machine::{Place, Stage};
use step_cells::{Change, Effect, Registers, Tables};

// Check: if V differs from ver or Stat[hid] is not −1, clear the marks, go to H32.
fn check(tables: &Tables, w: Registers) -> Effect
    requires { RegistersFit w }
    ensures does { (plan : Plan) (p : ℕ) → Does (Place.Move Stage.Check) plan tables.now p w result }
    ensures stays_inside { StaysInside result }
{
    if step_shared::may_decide(tables, w) {
        step_shared::quiet(step_shared::go_to(w, Place::Move(Stage::List)))
    } else {
        step_shared::storing(Change::Cleared, step_shared::go_to(w, Place::H32))
    }
}

// List the block with its bank number if not yet listed (else the step changes nothing).
fn list(plan: &Plan, tables: &Tables, p: usize, w: Registers) -> Effect
    requires at_move { AtMove plan.now tables.now p w }
    requires room_to_list { RoomToList plan.now tables.now p w }
    ensures does { Does (Place.Move Stage.List) plan.now tables.now p w result }
    ensures stays_inside { StaysInside result }
{
    let m = step_accesses::move_for(plan, w);
    let block = step_accesses::block_for(plan, m, w);
    let place = Place::Move(step_accesses::after_list(m, w.access));
    if step_shared::own_of(&tables.own, p).dirty[block] != 0 {
        return step_shared::quiet(step_shared::go_to(w, place));
    }
    let listed = Change::Listed(u32::from(w.numblks), block as u32, tables.bank[block]);
    let mut next = w;
    next.place = place;
    next.numblks += 1;
    step_shared::storing(listed, next)
}

// Where a word of a block stands in the store: blocks of so many words stand there by their numbers.
fn place_in_store(number: u32, words: usize, place: usize) -> usize
    requires { (number < most_numbers) × ((words ≤ 16) × (place < 16)) }
    ensures { (result ≡ number * words + place) × (result < 2304) }
{
    number as usize * words + place
}

// Take the word, from the block's copy once this run has made one.
fn take(plan: &Plan, tables: &Tables, p: usize, w: Registers) -> Effect
    requires { AtMove plan.now tables.now p w }
    ensures does { Does (Place.Move Stage.Take) plan.now tables.now p w result }
    ensures stays_inside { StaysInside result }
{
    let m = step_accesses::move_for(plan, w);
    let word = step_accesses::word_of(m, w.access) as usize;
    let words = plan.sizes().words;
    let number = step_shared::own_of(&tables.own, p).curr[word / words]; // its copy's, once there is one
    let mut next = w;
    next.word = tables.store[place_in_store(number, words, word % words)];
    step_shared::quiet(step_accesses::onward(plan, m, next))
}

// One stage of the move that a job is at, by its name.
pub fn stage(st: Stage, plan: &Plan, tables: &Tables, p: usize, w: Registers) -> Effect
    requires at_move { AtMove plan.now tables.now p w }
    requires room_at { RoomAt st plan.now tables.now p w }
    ensures does { Does (Place.Move st) plan.now tables.now p w result }
    ensures stays_inside { StaysInside result }
{
    match st {
        Stage::Check => check(tables, w),
        Stage::List => list(plan, tables, p, w),
        Stage::Copy => step_move_writes::copy(plan, tables, p, w),
        Stage::Take => take(plan, tables, p, w),
        Stage::Write => step_move_writes::write(plan, tables, p, w),
    }
}
