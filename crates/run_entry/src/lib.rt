// What a judged entry does. The jobs' registers stay where the caller keeps them: one of them goes in and comes back by
// value.
#![tactic(auto)]

ghost use Rattle.std.specs.Prelude.{◌≡◌, ◌<◌};
ghost use Rattle.step_cells.specs.Fits.{PlanFits};
ghost use Rattle.step_shared.specs.Registers.{goto};
ghost use Rattle.run_entry.specs.Stepping.{Called, Steps, Stepped};
ghost use Rattle.run_entry.specs.Acting.{Asked, Gives};

use read_tables::Plan;
use run_judge::Ruling;
use spec_machine::{Judgement, Place};
use step_cells::{Registers, Tables};

// "An accepted `call` makes the job active at A1."
fn call(plan: &Plan, job: usize, update: usize, w: Registers, tables: &mut Tables) -> Registers
    requires fits { PlanFits plan.now job }
    requires update { update < 32 }
    requires few { tables.old.book.entries < 4000 }
    ensures value { result ≡ goto Place.A1 w }
    ensures called { Called plan.now job update tables.old tables.new }
{
    tables.own[job].update = update as u32;
    let book = &mut tables.book;
    run_active_jobs::set_active(plan, book, job, true);
    book.entries += 1;
    step_shared::go_to(w, Place::A1)
}

// "A `step` does one item for the active job p of highest priority on card R."
fn step(plan: &Plan, p: usize, w: Registers, tables: &mut Tables) -> Registers
    requires { Steps plan.now p w tables.old }
    ensures { Stepped plan.now p w tables.old result tables.new }
{
    let effect = step_list::item(plan, p, w, tables);
    run_carry_out::carry_out(plan, p, effect.change, tables);
    tables.book.entries += 1;
    effect.registers
}

// What a judged entry does: w are the registers of the job that it changes. A refused one stops the run.
pub fn act(plan: &Plan, ruling: Ruling, w: Registers, tables: &mut Tables) -> Registers
    requires { Asked plan.now ruling w tables.old }
    ensures { Gives plan.now ruling w tables.old result tables.new }
{
    tables.book.other = ruling.other;
    match ruling.judgement {
        Judgement::Calls(job, update) => call(plan, job, update, w, tables),
        Judgement::Runs(p) => step(plan, p, w, tables),
        Judgement::Refused(refusal) => {
            tables.book.halt = Some(refusal);
            w
        }
    }
}
