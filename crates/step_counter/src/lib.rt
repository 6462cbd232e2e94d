// The items A7 to A12 of the step list, in which a job looks at V and moves it on. Each function is the item of its
// label.
#![tactic(auto, unfolding(step_cells::specs::Effects::Does, spec_machine::specs::Steps::item))]

ghost use Rattle.std.specs.Prelude.{◌≡◌, not, ◌&&◌, ◌||◌, ℕ, ◌≤◌, ◌%◌, eqb, ℤ, pos, get_or};
ghost use Rattle.spec_format.specs.Plan.{Plan, job_in};
ghost use Rattle.spec_machine.specs.Status.{same_status};
ghost use Rattle.step_cells.specs.Effects.{Does, StaysInside};
ghost use Rattle.step_cells.specs.Fits.{PlanFits, CellsFit, RegistersFit};

use read_tables::Plan;
use spec_machine::{Place, Version};
use step_cells::{Change, Effect, Registers, Tables};

// Whether V points elsewhere than at job p's card, or its flag is false.
fn is_elsewhere(plan: &Plan, v: Version, p: usize) -> bool
    requires { PlanFits plan.now p }
    ensures { result ≡ (not (eqb (v.count % plan.now.sizes.cards) (job_in plan.now p).card) || not v.flag) }
{
    v.count as usize % plan.sizes().cards != plan.jobs()[p].card || !v.flag
}

// A7 (7 and 8 together): ver := V. If Stat[lid] = N and (ver points elsewhere or its flag is false), A14. Else with
// flag true H16, with false A10.
pub fn a7(plan: &Plan, tables: &Tables, p: usize, w: Registers) -> Effect
    requires { PlanFits plan.now p × RegistersFit w }
    ensures does { Does Place.A7 plan.now tables.now p w result }
    ensures stays_inside { StaysInside result }
{
    let ver = tables.v;
    let place = if step_shared::is_finished(plan, tables, w.lid) && is_elsewhere(plan, ver, p) {
        Place::A14
    } else if ver.flag {
        Place::H16
    } else {
        Place::A10
    };
    let mut next = w;
    next.place = place;
    next.ver = ver;
    step_shared::quiet(next)
}

// Neither k nor Stat[k] is N.
fn is_pending(plan: &Plan, tables: &Tables, k: u8) -> bool
    requires { (plan.now.sizes.jobs ≤ 16) × (k ≤ 16) }
    ensures { (none : ℤ) → result ≡ (not (eqb k plan.now.sizes.jobs)
        && not (same_status (get_or tables.now.stat k none) (pos plan.now.sizes.jobs))) }
{
    usize::from(k) != plan.sizes().jobs && !step_shared::is_finished(plan, tables, k)
}

// A10 (10 and 11 together): hid := Ann[(count + 1) mod P]; new flag true exactly if hid and Stat[hid] are not N.
pub fn a10(plan: &Plan, tables: &Tables, p: usize, w: Registers) -> Effect
    requires { PlanFits plan.now p × (CellsFit tables.now p × RegistersFit w) }
    ensures does { Does Place.A10 plan.now tables.now p w result }
    ensures stays_inside { StaysInside result }
{
    let card = (w.ver.count as usize + 1) % plan.sizes().cards;
    let hid = step_shared::announced(&tables.ann, card) as u8;
    let mut next = w;
    next.place = Place::A12;
    next.hid = hid;
    next.next = is_pending(plan, tables, hid);
    step_shared::quiet(next)
}

// A12: if V = ver, V becomes (count + 1, new flag). To A7.
pub fn a12(tables: &Tables, w: Registers) -> Effect
    requires { RegistersFit w }
    ensures does { (plan : Plan) (p : ℕ) → Does Place.A12 plan tables.now p w result }
    ensures stays_inside { StaysInside result }
{
    let next = step_shared::go_to(w, Place::A7);
    if step_shared::same_version(tables, w) {
        step_shared::storing(Change::Version(w.ver.count + 1, w.next), next)
    } else {
        step_shared::quiet(next)
    }
}
