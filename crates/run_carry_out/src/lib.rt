// What an item changes, carried out in the tables.
#![tactic(auto)]

ghost use Rattle.std.specs.Prelude.{◌≡◌};
ghost use Rattle.step_cells.specs.Tables.{Whole};
ghost use Rattle.step_cells.specs.Effects.{Carried};
ghost use Rattle.step_cells.specs.Book.{book_after};
ghost use Rattle.run_carry_out.specs.Asks.{Asks};

use read_tables::Plan;
use run_active_jobs::set_active;
use run_changes::{add_commit, clear, decide, mark, published};
use spec_machine::Version;
use step_cells::{Change, Tables};

// A change of job p, carried out.
#[tactic(auto, using(crate::proofs::Carrying::works), unfolding(spec_machine::specs::Machine::stored))]
pub fn carry_out(plan: &Plan, p: usize, s: Change, tables: &mut Tables)
    requires { Asks plan.now p s tables.old }
    ensures carried { Carried plan.now p s tables.old tables.new }
    ensures book { tables.new.book ≡ book_after plan.now tables.old p s }
    ensures whole { Whole tables.new }
{
    match s {
        Change::Nothing => {}
        Change::Version(count, flag) => tables.v = Version { count, flag },
        Change::Announced(r) => tables.ann[r as usize] = p as u32,
        Change::Returned(r) => {
            tables.ann[r as usize] = plan.sizes().jobs as u32;
            set_active(plan, &mut tables.book, p, false);
        }
        Change::Pending => tables.stat[p] = -1,
        Change::Trans => tables.trans[p] = tables.own[p].update,
        Change::Listed(i, b, number) => {
            tables.rows.addr[p][i as usize] = b;
            tables.rows.old[p][i as usize] = number;
            mark(&mut tables.own[p], b, 1, number);
        }
        Change::Block(b, from, to) => {
            mark(&mut tables.own[p], b, 2, to);
            let words = plan.sizes().words;
            let start = from as usize * words;
            let to = to as usize * words;
            tables.store.copy_within(start..start + words, to);
        }
        Change::Word(number, i, word) => {
            let start = number as usize * plan.sizes().words;
            tables.store[start + i as usize] = word;
        }
        Change::Published(n) => {
            let addr = tables.rows.addr[p];
            tables.rows.new[p] = published(&tables.own[p], n as usize, addr, tables.rows.new[p]);
            tables.numblks[p] = n;
        }
        Change::Bank(b, n) => tables.bank[b as usize] = n,
        Change::Cleared => clear(&mut tables.own[p]),
        Change::Decided(h, n) => {
            tables.stat[h as usize] = p as i32;
            let addr = tables.rows.addr[p];
            decide(&mut tables.own[p], n as usize, addr, tables.rows.old[p]);
        }
        Change::Commit(h) => {
            tables.stat[h as usize] = plan.sizes().jobs as i32;
            add_commit(tables, h);
        }
    }
}
