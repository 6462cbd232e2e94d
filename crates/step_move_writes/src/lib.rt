// The stages of a move that copy a block and write a word. Each function is the stage of its name.
#![tactic(auto, unfolding(step_cells::specs::Effects::Does, spec_machine::specs::Steps::item, spec_machine::specs::Steps::stage,))]

ghost use Rattle.step_cells.specs.Effects.{Does, StaysInside};
ghost use Rattle.step_cells.specs.Fits.{RoomToCopy};
ghost use Rattle.step_accesses.specs.AtMove.{AtMove};

use read_tables::Plan;
use spec_machine::{Place, Stage};
use step_cells::{Change, Effect, Registers, Tables};

// On the block's first write copy it into p's next copy block (else nothing).
pub fn copy(plan: &Plan, tables: &Tables, p: usize, w: Registers) -> Effect
    requires at_move { AtMove plan.now tables.now p w }
    requires room_to_copy { RoomToCopy plan.now tables.now p w }
    ensures does { Does (Place.Move Stage.Copy) plan.now tables.now p w result }
    ensures stays_inside { StaysInside result }
{
    let place = Place::Move(Stage::Write);
    let m = step_accesses::move_for(plan, w);
    let block = step_accesses::block_for(plan, m, w);
    let own = step_shared::own_of(&tables.own, p);
    if own.dirty[block] == 2 {
        return step_shared::quiet(step_shared::go_to(w, place));
    }
    let from = own.curr[block];
    let to = own.copy[usize::from(w.dirtycnt)];
    let mut next = w;
    next.place = place;
    next.dirtycnt += 1;
    step_shared::storing(Change::Block(block as u32, from, to), next)
}

// Write the word in that copy.
pub fn write(plan: &Plan, tables: &Tables, p: usize, w: Registers) -> Effect
    requires { AtMove plan.now tables.now p w }
    ensures does { Does (Place.Move Stage.Write) plan.now tables.now p w result }
    ensures stays_inside { StaysInside result }
{
    let m = step_accesses::move_for(plan, w);
    let word = step_accesses::word_of(m, w.access) as usize;
    let words = plan.sizes().words;
    let number = step_shared::own_of(&tables.own, p).curr[word / words];
    let written = step_accesses::word_written(m, w.word);
    step_shared::storing(
        Change::Word(number, (word % words) as u32, written),
        step_accesses::onward(plan, m, w),
    )
}
