// The step list: one item of a job, by its place.
#![tactic(auto, unfolding(step_cells::specs::Effects::Does, spec_machine::specs::Steps::item))]

ghost use Rattle.step_cells.specs.Effects.{Does, ChangeInside, Room};
ghost use Rattle.step_list.specs.Ready.{Ready};

use read_tables::Plan;
use spec_machine::Place;
use step_cells::{Effect, Registers, Tables};

// The item that job p stands before, whose registers are w.
pub fn item(plan: &Plan, p: usize, w: Registers, tables: &Tables) -> Effect
    requires { Ready plan.now p w tables.now }
    ensures does { Does w.place plan.now tables.now p w result }
    ensures change_inside { ChangeInside result.registers result.change }
    ensures room { Room tables.now p result.change }
{
    match w.place {
        Place::Idle => step_shared::quiet(w),
        Place::A1 => step_announce::a1(w),
        Place::A2 => step_announce::a2(w),
        Place::A4 => step_announce::a4(plan, tables, p, w),
        Place::A7 => step_counter::a7(plan, tables, p, w),
        Place::A10 => step_counter::a10(plan, tables, p, w),
        Place::A12 => step_counter::a12(tables, w),
        Place::A14 => step_announce::a14(plan, p, w),
        Place::A15 => step_announce::a15(plan, p, w),
        Place::H16 => step_help::h16(plan, tables, p, w),
        Place::H17 => step_help::h17(plan, tables, p, w),
        Place::H21 => step_help::h21(plan, tables, w),
        Place::Move(st) => step_move_stages::stage(st, plan, tables, p, w),
        Place::H22 => step_help::h22(w),
        Place::H25 => step_help::h25(tables, w),
        Place::H32 => step_row::h32(plan, tables, p, w),
        Place::H34 => step_row::h34(tables, p, w),
        Place::H36 => step_row::h36(tables, w),
        Place::H37 => step_row::h37(plan, tables, p, w),
        Place::H38 => step_row::h38(tables, w),
        Place::H41 => step_commit::h41(tables, w),
        Place::H42 => step_commit::h42(tables, w),
    }
}
