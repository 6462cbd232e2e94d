// The items H16 to H25 of the step list, in which a job runs the announced update and decides it, but for the stages of
// a move. Each function is the item of its label.
#![tactic(auto, unfolding(step_cells::specs::Effects::Does, spec_machine::specs::Steps::item))]

ghost use Rattle.std.specs.Prelude.{◌≡◌, ℕ, ◌≤◌, ◌<◌, length, get_or};
ghost use Rattle.spec_format.specs.Plan.{Plan};
ghost use Rattle.spec_machine.specs.Moves.{begin as beginning};
ghost use Rattle.step_cells.specs.declared.Tables.{Tables};
ghost use Rattle.step_cells.specs.Effects.{Does, ChangeInside, Room, StaysInside, Reclaims};
ghost use Rattle.step_cells.specs.Fits.{PlanFits, CellsFit, RegistersFit};

use read_tables::Plan;
use spec_format::Move;
use spec_machine::{Place, Stage};
use step_cells::{Change, Effect, Registers, Tables};

// H16: hid := Ann[count mod P].
pub fn h16(plan: &Plan, tables: &Tables, p: usize, w: Registers) -> Effect
    requires { PlanFits plan.now p × CellsFit tables.now p }
    ensures does { Does Place.H16 plan.now tables.now p w result }
    ensures stays_inside { StaysInside result }
{
    let card = w.ver.count as usize % plan.sizes().cards;
    let hid = step_shared::announced(&tables.ann, card) as u8;
    let mut next = w;
    next.place = Place::H17;
    next.hid = hid;
    step_shared::quiet(next)
}

// H17: Stat[hid] = N to A10; −1 to H21; else H32.
pub fn h17(plan: &Plan, tables: &Tables, p: usize, w: Registers) -> Effect
    requires { PlanFits plan.now p × RegistersFit w }
    ensures does { Does Place.H17 plan.now tables.now p w result }
    ensures parts { (x : Tables) → x.stat ≡ tables.now.stat → Does Place.H17 plan.now x p w result }
    ensures stays_inside { StaysInside result }
{
    let place = if step_shared::is_finished(plan, tables, w.hid) {
        Place::A10
    } else if step_shared::is_undecided(tables, w.hid) {
        Place::H21
    } else {
        Place::H32
    };
    step_shared::quiet(step_shared::go_to(w, place))
}

// The first stage of an update's moves, or H22 where it has none.
fn begin(moves: &[Move]) -> Place
    ensures { result ≡ beginning moves.now }
{
    match moves {
        [] => Place::H22,
        _ => Place::Move(Stage::Check),
    }
}

// H21: take the update Trans[hid]; no blocks listed, no copy block used. Then its moves, then H22.
pub fn h21(plan: &Plan, tables: &Tables, w: Registers) -> Effect
    requires { (w.hid < 16) × ((length plan.now.updates ≤ 32)
        × (get_or tables.now.trans w.hid 0 < length plan.now.updates)) }
    ensures does { (p : ℕ) → Does Place.H21 plan.now tables.now p w result }
    ensures stays_inside { StaysInside result }
{
    let tr = tables.trans[usize::from(w.hid)];
    let mut next = w;
    next.place = begin(plan.moves(tr as usize));
    next.tr = tr as u8;
    next.index = 0;
    next.access = 0;
    next.numblks = 0;
    next.dirtycnt = 0;
    step_shared::quiet(next)
}

// H22: publish the new block numbers of all listed blocks and their count.
pub fn h22(w: Registers) -> Effect
    requires { RegistersFit w }
    ensures does { (plan : Plan) (x : Tables) (p : ℕ) → Does Place.H22 plan x p w result }
    ensures stays_inside { StaysInside result }
{
    let published = Change::Published(u32::from(w.numblks));
    step_shared::storing(published, step_shared::go_to(w, Place::H25))
}

// H25: if V = ver and Stat[hid] = −1, Stat[hid] := p (the update is now decided) and the replaced block numbers, in
// listing order, take the first places of p's copy list. In either case clear the marks.
pub fn h25(tables: &Tables, w: Registers) -> Effect
    requires { RegistersFit w }
    ensures does { (plan : Plan) (p : ℕ) → Does Place.H25 plan tables.now p w result }
    ensures parts { (plan : Plan) (x : Tables) (p : ℕ) → x.v ≡ tables.now.v → x.stat ≡ tables.now.stat
        → Does Place.H25 plan x p w result }
    ensures change_inside { ChangeInside result.registers result.change }
    ensures room { (p : ℕ) → Reclaims tables.now p w → Room tables.now p result.change }
    ensures room_in_parts { (x : Tables) (p : ℕ) → x.v ≡ tables.now.v → x.stat ≡ tables.now.stat
        → Reclaims x p w → Room x p result.change }
{
    let next = step_shared::go_to(w, Place::H32);
    if step_shared::may_decide(tables, w) {
        let decided = Change::Decided(u32::from(w.hid), u32::from(w.numblks));
        step_shared::doing(decided, next)
    } else {
        step_shared::storing(Change::Cleared, next)
    }
}
