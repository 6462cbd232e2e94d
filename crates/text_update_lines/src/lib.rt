// The lines of the updates of a plan and of their moves, to any output.
// `Sound` stands in clauses: a type of sound plans would be one more around the lent plan, for this one word.
#![tactic(auto)]

ghost use Rattle.std.specs.Prelude.{[], ◌<◌, length, get_or};
ghost use Rattle.spec_format.specs.Sound.{Sound};
ghost use Rattle.spec_plan_text.specs.PlanText.{move_line, update_lines, all_update_lines};
ghost use Rattle.text_update_lines.specs.MoveLines.{move_lines};

use read_tables::Plan;
use spec_format::Move;
use text_outputs::Output;

// `copy d a`, `set d k` or `add d a k`.
fn put_move<O: Output>(x: Move, output: &mut O)
    ensures { O.Takes (move_line x) output.old output.new }
{
    match x {
        Move::Copy(d, a) => output.line(b"copy", &[d, a]),
        Move::Set(d, k) => output.line(b"set", &[d, k]),
        Move::Add(d, a, k) => output.line(b"add", &[d, a, k]),
    }
}

// The lines of moves.
fn put_moves<O: Output>(moves: &[Move], output: &mut O)
    ensures { O.Takes (move_lines moves.now) output.old output.new }
{
    for &x in moves {
        put_move(x, output);
    }
}

// `update u`, followed by its moves.
fn put_update<O: Output>(plan: &Plan, u: usize, output: &mut O)
    requires { Sound plan.now × (u < length plan.now.updates) }
    ensures { O.Takes (update_lines u (get_or plan.now.updates u [])) output.old output.new }
{
    output.line(b"update", &[u as u32]);
    put_moves(plan.moves(u), output);
}

// The lines of all updates.
pub fn put_updates<O: Output>(plan: &Plan, output: &mut O)
    requires { Sound plan.now }
    ensures { O.Takes (all_update_lines plan.now) output.old output.new }
{
    for u in 0..plan.updates() {
        put_update(plan, u, output);
    }
}
