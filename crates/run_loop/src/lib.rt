// "A whole schedule, already read into entry records, can also be run": the records are lent as a slice, and one loop
// over it runs them one by one. A text's entries are run by the same loop.
#![tactic(auto)]

ghost use Rattle.std.specs.Prelude.{◌<◌, length};
ghost use Rattle.run_loop.specs.RunReached.{Starts, Ran};

use read_tables::Plan;
use spec_format::Entry;
use step_cells::Tables;

// The records run, one after another. The jobs' registers are kept here.
pub fn run_records(records: &[Entry], plan: &Plan, tables: &mut Tables)
    requires { 0 < length records.now → Starts plan.now records.now tables.old }
    ensures { Starts plan.now records.now tables.old → Ran plan.now records.now records.now tables.new }
{
    let mut works = [step_shared::idle(); 16];
    for (i, e) in records.iter().enumerate() {
        let ruling = run_judge::judge_record(plan, tables, i + 1, *e);
        let job = run_judge::changed(ruling);
        run_entry_in_place::act_where_kept(&mut works[job], plan, ruling, tables);
    }
}
