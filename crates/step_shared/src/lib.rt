// What the items of the step list share: what they read and test of the tables, a job's registers at the opening and on
// to another place, and the effects that items give.
#![tactic(auto)]

ghost use Rattle.std.specs.Prelude.{◌≡◌, ◌&&◌, ℕ, ◌≤◌, ◌<◌, ℤ, pos, get_or};
ghost use Rattle.spec_machine.specs.Status.{same_status, undecided};
ghost use Rattle.spec_machine.specs.Steps.{same_version};
ghost use Rattle.step_cells.specs.Tables.{no_own, idle as atOpening};
ghost use Rattle.step_shared.specs.Registers.{goto, quiet as quietly, storing as storingOne};
ghost use Rattle.step_shared.specs.Registers.{doing as doingOne};

use read_tables::Plan;
use spec_machine::{Place, Version};
use step_cells::{Change, Effect, Own, Registers, Tables};

// V = ver, of a job's registers.
#[tactic(auto, unfolding(spec_machine::specs::Steps::same_version))]
pub fn same_version(tables: &Tables, w: Registers) -> bool
    ensures { result ≡ same_version tables.now.v w.ver }
{
    tables.v == w.ver
}

// What job p keeps of its own. This, announced and status_of take an array alone: a proof then knows its length, and
// that each of its numbers fits.
pub fn own_of(own: &[Own; 16], p: usize) -> &Own
    requires { p < 16 }
    ensures { result.now ≡ get_or own.now p no_own }
{
    &own[p]
}

// Ann[r].
pub fn announced(ann: &[u32; 8], r: usize) -> u32
    requires { r < 8 }
    ensures { (none : ℕ) → result ≡ get_or ann.now r none }
{
    ann[r]
}

// Stat[k].
pub fn status_of(stat: &[i32; 17], k: u8) -> i32
    requires { k ≤ 16 }
    ensures { (none : ℤ) → result ≡ get_or stat.now k none }
{
    stat[usize::from(k)]
}

// Stat[k] = N.
pub fn is_finished(plan: &Plan, tables: &Tables, k: u8) -> bool
    requires { (plan.now.sizes.jobs ≤ 16) × (k ≤ 16) }
    ensures { (none : ℤ) → result ≡ same_status (get_or tables.now.stat k none) (pos plan.now.sizes.jobs) }
{
    status_of(&tables.stat, k) == plan.sizes().jobs as i32
}

// Stat[k] = −1.
pub fn is_undecided(tables: &Tables, k: u8) -> bool
    requires { k ≤ 16 }
    ensures { (none : ℤ) → result ≡ same_status (get_or tables.now.stat k none) undecided }
{
    status_of(&tables.stat, k) == -1
}

// The condition of a check and of H25: V = ver and Stat[hid] = −1.
pub fn may_decide(tables: &Tables, w: Registers) -> bool
    requires { w.hid ≤ 16 }
    ensures { (none : ℤ) → result
        ≡ (same_version tables.now.v w.ver && same_status (get_or tables.now.stat w.hid none) undecided) }
{
    same_version(tables, w) && is_undecided(tables, w.hid)
}

// A job's registers at the opening. This and what follows are functions and no methods, since the types belong to
// step_cells.
pub fn idle() -> Registers
    ensures { result ≡ atOpening }
{
    Registers {
        place: Place::Idle,
        round: 0,
        lid: 0,
        hid: 0,
        wid: 0,
        ver: Version {
            count: 0,
            flag: false,
        },
        next: false,
        tr: 0,
        index: 0,
        access: 0,
        word: 0,
        numblks: 0,
        dirtycnt: 0,
        j: 0,
        addr: 0,
        old: 0,
        new: 0,
    }
}

// On to a place. The registers are copied whole, and changed then, as by all items: a struct update copies them field
// by field, and the loop over the entries takes longer.
pub fn go_to(w: Registers, place: Place) -> Registers
    ensures { result ≡ goto place w }
{
    let mut next = w;
    next.place = place;
    next
}

// An item that changes no table.
pub fn quiet(registers: Registers) -> Effect
    ensures { result ≡ quietly registers }
{
    Effect {
        registers,
        change: Change::Nothing,
        done: false,
    }
}

// An item that changes a table.
pub fn storing(change: Change, registers: Registers) -> Effect
    ensures { result ≡ storingOne change registers }
{
    Effect {
        registers,
        change,
        done: false,
    }
}

// H25, H41 or H42 done: its condition holds, and it changes a table.
pub fn doing(change: Change, registers: Registers) -> Effect
    ensures { result ≡ doingOne change registers }
{
    Effect {
        registers,
        change,
        done: true,
    }
}
