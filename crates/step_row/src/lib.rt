// The items H32 to H38 of the step list, in which a job finds the row of a decided update and reads its next line. Each
// function is the item of its label.
#![tactic(auto, unfolding(step_cells::specs::Effects::Does, spec_machine::specs::Steps::item))]

ghost use Rattle.std.specs.Prelude.{◌≡◌, ℕ, ◌<◌, get_or};
ghost use Rattle.spec_format.specs.Plan.{Plan};
ghost use Rattle.spec_machine.specs.Machine.{in_row};
ghost use Rattle.spec_machine.specs.Ranges.{Names, most_numbers};
ghost use Rattle.spec_machine.specs.Status.{job_named};
ghost use Rattle.step_cells.specs.declared.Tables.{Tables};
ghost use Rattle.step_cells.specs.Effects.{Does, StaysInside};
ghost use Rattle.step_cells.specs.Fits.{PlanFits, CellsFit, RegistersFit};
ghost use Rattle.step_row.specs.Rows.{at_line};

use read_tables::Plan;
use spec_machine::Place;
use step_cells::{Effect, Registers, Tables};

// H32: wid := Stat[hid]; −1 or N to A10.
pub fn h32(plan: &Plan, tables: &Tables, p: usize, w: Registers) -> Effect
    requires { PlanFits plan.now p × RegistersFit w }
    ensures does { Does Place.H32 plan.now tables.now p w result }
    ensures parts { (x : Tables) → x.stat ≡ tables.now.stat → Does Place.H32 plan.now x p w result }
    ensures stays_inside { StaysInside result }
{
    let wid = step_shared::status_of(&tables.stat, w.hid);
    let place = if step_shared::is_undecided(tables, w.hid)
        || step_shared::is_finished(plan, tables, w.hid)
    {
        Place::A10
    } else {
        Place::H34
    };
    let mut next = w;
    next.place = place;
    next.wid = wid;
    step_shared::quiet(next)
}

// The job that a status names.
fn job_named(status: i32) -> usize
    requires { Names status }
    ensures { (result ≡ job_named status) × (result < 16) }
{
    status as usize
}

// H34: count n of wid's row; none to H42.
pub fn h34(tables: &Tables, p: usize, w: Registers) -> Effect
    requires { CellsFit tables.now p × Names w.wid }
    ensures does { (plan : Plan) → Does Place.H34 plan tables.now p w result }
    ensures stays_inside { StaysInside result }
{
    let n = tables.numblks[job_named(w.wid)];
    let mut next = w;
    next.place = if n == 0 { Place::H42 } else { Place::H36 };
    next.numblks = n as u8;
    next.j = 0;
    step_shared::quiet(next)
}

// For each listed block: H36, V not ver, to A10.
pub fn h36(tables: &Tables, w: Registers) -> Effect
    ensures does { (plan : Plan) (p : ℕ) → Does Place.H36 plan tables.now p w result }
    ensures stays_inside { StaysInside result }
{
    let place = if step_shared::same_version(tables, w) {
        Place::H37
    } else {
        Place::A10
    };
    step_shared::quiet(step_shared::go_to(w, place))
}

// H37, Stat[hid] = N, to A10.
pub fn h37(plan: &Plan, tables: &Tables, p: usize, w: Registers) -> Effect
    requires { PlanFits plan.now p × RegistersFit w }
    ensures does { Does Place.H37 plan.now tables.now p w result }
    ensures parts { (x : Tables) → x.stat ≡ tables.now.stat → Does Place.H37 plan.now x p w result }
    ensures stays_inside { StaysInside result }
{
    let place = if step_shared::is_finished(plan, tables, w.hid) {
        Place::A10
    } else {
        Place::H38
    };
    step_shared::quiet(step_shared::go_to(w, place))
}

// Line j of a row: its address, old and new number. The row goes by value beside the registers.
fn read_row(w: Registers, addr: [u32; 16], old: [u32; 16], new: [u32; 16]) -> Registers
    requires { (w.j < 16) × ((i : ℕ) → (get_or addr i 0 < 16) × ((get_or old i 0 < most_numbers)
        × (get_or new i 0 < most_numbers))) }
    ensures { result ≡ at_line (get_or addr w.j 0) (get_or old w.j 0) (get_or new w.j 0) w }
{
    let j = usize::from(w.j);
    let mut next = w;
    next.addr = addr[j] as u8;
    next.old = old[j] as u8;
    next.new = new[j] as u8;
    next
}

// H38, read wid's address, old, new.
pub fn h38(tables: &Tables, w: Registers) -> Effect
    requires names { Names w.wid × (w.j < 16) }
    requires rows { (k i : ℕ) → (in_row tables.now.rows.addr k i < 16)
        × ((in_row tables.now.rows.old k i < most_numbers) × (in_row tables.now.rows.new k i < most_numbers)) }
    ensures does { (plan : Plan) (p : ℕ) → Does Place.H38 plan tables.now p w result }
    ensures parts { (plan : Plan) (x : Tables) (p : ℕ) → x.rows ≡ tables.now.rows
        → Does Place.H38 plan x p w result }
    ensures stays_inside { StaysInside result }
{
    let wid = job_named(w.wid);
    let rows = &tables.rows;
    let next = read_row(w, rows.addr[wid], rows.old[wid], rows.new[wid]);
    step_shared::quiet(step_shared::go_to(next, Place::H41))
}
