// The items A1 to A4, A14 and A15 of the step list, in which a job announces its call and returns. Each function is the
// item of its label.
#![tactic(auto, unfolding(step_cells::specs::Effects::Does, spec_machine::specs::Steps::item))]

ghost use Rattle.std.specs.Prelude.{ℕ};
ghost use Rattle.spec_format.specs.Plan.{Plan};
ghost use Rattle.step_cells.specs.declared.Tables.{Tables};
ghost use Rattle.step_cells.specs.Effects.{Does, StaysInside};
ghost use Rattle.step_cells.specs.Fits.{PlanFits, CellsFit};

use read_tables::Plan;
use spec_machine::Place;
use step_cells::{Change, Effect, Registers, Tables};

// A1: Trans[p] becomes the update.
pub fn a1(w: Registers) -> Effect
    ensures does { (plan : Plan) (x : Tables) (p : ℕ) → Does Place.A1 plan x p w result }
    ensures stays_inside { StaysInside result }
{
    step_shared::storing(Change::Trans, step_shared::go_to(w, Place::A2))
}

// A2: Stat[p] becomes −1, round 0.
pub fn a2(w: Registers) -> Effect
    ensures does { (plan : Plan) (x : Tables) (p : ℕ) → Does Place.A2 plan x p w result }
    ensures stays_inside { StaysInside result }
{
    let mut next = w;
    next.place = Place::A4;
    next.round = 0;
    step_shared::storing(Change::Pending, next)
}

// A4: lid := Ann[R]; if N go to A14, else A7.
pub fn a4(plan: &Plan, tables: &Tables, p: usize, w: Registers) -> Effect
    requires { PlanFits plan.now p × CellsFit tables.now p }
    ensures does { Does Place.A4 plan.now tables.now p w result }
    ensures stays_inside { StaysInside result }
{
    let lid = step_shared::announced(&tables.ann, plan.jobs()[p].card);
    let place = if lid as usize == plan.sizes().jobs {
        Place::A14
    } else {
        Place::A7
    };
    let mut next = w;
    next.place = place;
    next.lid = lid as u8;
    step_shared::quiet(next)
}

// A14: Ann[R] := p. Round 0: round 1, to A4. Round 1: to A15.
pub fn a14(plan: &Plan, p: usize, w: Registers) -> Effect
    requires { PlanFits plan.now p }
    ensures does { (x : Tables) → Does Place.A14 plan.now x p w result }
    ensures stays_inside { StaysInside result }
{
    let announced = Change::Announced(plan.jobs()[p].card as u32);
    let mut next = w;
    if w.round == 0 {
        next.place = Place::A4;
        next.round = 1;
    } else {
        next.place = Place::A15;
    }
    step_shared::storing(announced, next)
}

// A15: Ann[R] := N, job no longer active (its return).
pub fn a15(plan: &Plan, p: usize, w: Registers) -> Effect
    requires { PlanFits plan.now p }
    ensures does { (x : Tables) → Does Place.A15 plan.now x p w result }
    ensures stays_inside { StaysInside result }
{
    step_shared::storing(
        Change::Returned(plan.jobs()[p].card as u32),
        step_shared::go_to(w, Place::Idle),
    )
}
