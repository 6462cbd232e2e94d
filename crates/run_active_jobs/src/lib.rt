// Which jobs are active, and which one runs on each card, kept in the book. Only a call and a return change it.
#![tactic(auto)]

ghost use Rattle.std.specs.Prelude.{◌≡◌, ◌≤◌, ◌<◌, ℕ, length, Some};
ghost use Rattle.step_cells.specs.Book.{higher_of, first_on, with_active};
ghost use Rattle.step_cells.specs.Fits.{PlanFits};

use read_tables::Plan;
use step_cells::Book;

// Of the best job so far and job k: the one of higher priority.
fn higher_of(plan: &Plan, best: Option<usize>, k: usize) -> Option<usize>
    requires best { (b : ℕ) → best ≡ Some b → b < length plan.now.jobs }
    requires k { k < length plan.now.jobs }
    ensures { result ≡ higher_of plan.now best k }
{
    let jobs = plan.jobs();
    match best {
        Some(b) if jobs[b].priority >= jobs[k].priority => best,
        _ => Some(k),
    }
}

// The active job of highest priority on a card, where there is one.
fn first_on(plan: &Plan, active: &[bool; 16], card: usize) -> Option<usize>
    ensures { result ≡ first_on plan.now active.now card (length plan.now.jobs) }
{
    let mut best = None;
    for (k, job) in plan.jobs().iter().enumerate() {
        if active[k] && job.card == card {
            best = higher_of(plan, best, k);
        }
    }
    best
}

// Job p is now active or no longer: another job may then run on its card.
pub fn set_active(plan: &Plan, book: &mut Book, p: usize, up: bool)
    requires { PlanFits plan.now p }
    ensures { book.new ≡ with_active plan.now p up book.old }
{
    book.active[p] = up;
    let card = plan.jobs()[p].card;
    book.running[card] = first_on(plan, &book.active, card);
}
