// "A step changes one job's working record where it is kept": the job's registers are lent, and the covered step's
// result is stored in them.
#![tactic(auto)]

ghost use Rattle.run_entry.specs.Acting.{Asked, Gives};

use read_tables::Plan;
use run_judge::Ruling;
use step_cells::{Registers, Tables};

// What a judged entry does, as run_entry::act, with the registers changed where they are kept.
pub fn act_where_kept(w: &mut Registers, plan: &Plan, ruling: Ruling, tables: &mut Tables)
    requires { Asked plan.now ruling w.now tables.old }
    ensures { Gives plan.now ruling w.entry.now tables.old w.exit.now tables.new }
{
    *w = run_entry::act(plan, ruling, *w, tables);
}
