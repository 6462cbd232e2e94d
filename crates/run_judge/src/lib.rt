// What an entry comes to in a state: a call, an item of a job, or a refusal; and what a record comes to in a run.
#![tactic(auto)]

ghost use Rattle.std.specs.Prelude.{◌≡◌, ◌≤◌};
ghost use Rattle.spec_machine.specs.Machine.{Machine};
ghost use Rattle.spec_machine.specs.Entries.{judge_call, judge_step, judge, refusal_number};
ghost use Rattle.run_judge.specs.WhoRuns.{ActiveAre, WhoRuns};
ghost use Rattle.run_judge.specs.Rulings.{other_after, unless_halted, ruling_of, changed_by};

use read_tables::Plan;
use spec_format::Entry;
use spec_machine::{Judgement, Refusal};
use step_cells::Tables;

// What a record comes to: the judgement, and the place of the first record of another kind so far.
#[derive(Clone, Copy)]
pub struct Ruling {
    pub judgement: Judgement,
    pub other: Option<usize>,
}

// A call is judged: 11, no such job or no such update; then 12, job active.
fn judge_call(plan: &Plan, tables: &Tables, job: usize, update: usize) -> Judgement
    requires { plan.now.sizes.jobs ≤ 16 }
    ensures { (m : Machine) → ActiveAre m tables.now.book.active
        → result ≡ judge_call plan.now m job update }
{
    if plan.sizes().jobs <= job || plan.updates() <= update {
        return Judgement::Refused(Refusal::NoSuch);
    }
    if tables.book.active[job] {
        return Judgement::Refused(Refusal::Active);
    }
    Judgement::Calls(job, update)
}

// A step is judged: 13, card not below P; then 14, no job active on the card.
fn judge_step(plan: &Plan, tables: &Tables, card: usize) -> Judgement
    requires { plan.now.sizes.cards ≤ 8 }
    ensures { (m : Machine) → WhoRuns plan.now m tables.now.book → result ≡ judge_step plan.now m card }
{
    if plan.sizes().cards <= card {
        return Judgement::Refused(Refusal::NoCard);
    }
    match tables.book.running[card] {
        Some(p) => Judgement::Runs(p),
        None => Judgement::Refused(Refusal::NoneActive),
    }
}

// What an entry comes to: kind 0 calls job `first` with update `second`, any other steps card `first`.
#[tactic(auto, unfolding(spec_machine::specs::Entries::judge))]
fn judge(plan: &Plan, tables: &Tables, e: Entry) -> Judgement
    requires jobs { plan.now.sizes.jobs ≤ 16 }
    requires cards { plan.now.sizes.cards ≤ 8 }
    ensures { (m : Machine) → WhoRuns plan.now m tables.now.book → result ≡ judge plan.now m e }
{
    match e.kind {
        0 => judge_call(plan, tables, e.first as usize, e.second as usize),
        _ => judge_step(plan, tables, e.first as usize),
    }
}

// The number of a refusal in the table. No From, since the crates of definitions have no code.
pub fn refusal_number(refusal: Refusal) -> u32
    ensures value { result ≡ refusal_number refusal }
    ensures most { result ≤ 15 }
{
    match refusal {
        Refusal::NoSuch => 11,
        Refusal::Active => 12,
        Refusal::NoCard => 13,
        Refusal::NoneActive => 14,
    }
}

// The place of the first record of another kind, with one more record.
fn other_after(other: Option<usize>, place: usize, kind: u32) -> Option<usize>
    ensures { result ≡ other_after other place kind }
{
    match other {
        None if kind > 1 => Some(place),
        _ => other,
    }
}

// The judgement on an entry, unless the run has stopped: then it is refused as the one that stopped it.
fn judge_going(plan: &Plan, tables: &Tables, e: Entry) -> Judgement
    requires jobs { plan.now.sizes.jobs ≤ 16 }
    requires cards { plan.now.sizes.cards ≤ 8 }
    ensures { (m : Machine) → WhoRuns plan.now m tables.now.book
        → result ≡ unless_halted tables.now.book.halt (judge plan.now m e) }
{
    match tables.book.halt {
        None => judge(plan, tables, e),
        Some(refusal) => Judgement::Refused(refusal),
    }
}

// What the record at a place, from 1, comes to.
pub fn judge_record(plan: &Plan, tables: &Tables, place: usize, e: Entry) -> Ruling
    requires jobs { plan.now.sizes.jobs ≤ 16 }
    requires cards { plan.now.sizes.cards ≤ 8 }
    ensures { (m : Machine) → WhoRuns plan.now m tables.now.book
        → result ≡ ruling_of plan.now m tables.now.book place e }
{
    Ruling {
        judgement: judge_going(plan, tables, e),
        other: other_after(tables.book.other, place, e.kind),
    }
}

// The job that a judged record changes, 0 where it is refused.
pub fn changed(ruling: Ruling) -> usize
    ensures { result ≡ changed_by ruling.judgement }
{
    match ruling.judgement {
        Judgement::Calls(job, _) => job,
        Judgement::Runs(p) => p,
        Judgement::Refused(_) => 0,
    }
}
