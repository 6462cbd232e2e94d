// The items H41 and H42 of the step list, in which a job stores a block of a decided update and commits it. Each
// function is the item of its label.
#![tactic(auto, unfolding(step_cells::specs::Effects::Does, spec_machine::specs::Steps::item))]

ghost use Rattle.std.specs.Prelude.{◌≡◌, ◌&&◌, ℕ, ◌≤◌, ◌<◌, eqb, ℤ, get_or};
ghost use Rattle.spec_format.specs.Plan.{Plan};
ghost use Rattle.spec_machine.specs.Status.{same_status};
ghost use Rattle.spec_machine.specs.Steps.{same_version};
ghost use Rattle.step_cells.specs.Effects.{Does, StaysInside};
ghost use Rattle.step_cells.specs.Fits.{RegistersFit};

use spec_machine::Place;
use step_cells::{Change, Effect, Registers, Tables};

// The condition of H41: V = ver and the bank entry is old.
fn may_store(tables: &Tables, w: Registers) -> bool
    requires { w.addr < 16 }
    ensures { result
        ≡ (same_version tables.now.v w.ver && eqb (get_or tables.now.bank w.addr 0) w.old) }
{
    step_shared::same_version(tables, w) && tables.bank[usize::from(w.addr)] == u32::from(w.old)
}

// H41, if V = ver and the bank entry is old, it becomes new. On to the next listed block, or to H42 after the last.
pub fn h41(tables: &Tables, w: Registers) -> Effect
    requires { RegistersFit w × (w.j < w.numblks) }
    ensures does { (plan : Plan) (p : ℕ) → Does Place.H41 plan tables.now p w result }
    ensures stays_inside { StaysInside result }
{
    let j = w.j + 1;
    let place = if j < w.numblks {
        Place::H36
    } else {
        Place::H42
    };
    let mut next = w;
    next.place = place;
    next.j = j;
    if may_store(tables, w) {
        step_shared::doing(Change::Bank(u32::from(w.addr), u32::from(w.new)), next)
    } else {
        step_shared::quiet(next)
    }
}

// The condition of H42: V = ver and Stat[hid] = wid.
fn may_commit(tables: &Tables, w: Registers) -> bool
    requires { w.hid ≤ 16 }
    ensures { (none : ℤ) → result
        ≡ (same_version tables.now.v w.ver && same_status (get_or tables.now.stat w.hid none) w.wid) }
{
    step_shared::same_version(tables, w) && step_shared::status_of(&tables.stat, w.hid) == w.wid
}

// H42: if V = ver and Stat[hid] = wid, Stat[hid] := N (the commit). To A10.
pub fn h42(tables: &Tables, w: Registers) -> Effect
    requires { w.hid < 16 }
    ensures does { (plan : Plan) (p : ℕ) → Does Place.H42 plan tables.now p w result }
    ensures stays_inside { StaysInside result }
{
    let next = step_shared::go_to(w, Place::A10);
    if may_commit(tables, w) {
        step_shared::doing(Change::Commit(u32::from(w.hid)), next)
    } else {
        step_shared::quiet(next)
    }
}
