// The lines `update n`, `copy d a`, `set d k` and `add d a k`.
#![tactic(auto)]

ghost use Rattle.std.specs.Prelude.{◌≡◌, ◌≤◌, ◌<◌, ◌-◌, ◌++◌, ◌∷◌, [], length, get_or, option_map};
ghost use Rattle.spec_format.specs.Plan.{named, blocks_written};
ghost use Rattle.spec_format.specs.ParsedLines.{update, move};
ghost use Rattle.spec_format.specs.Faults.{last_of, some_from};
ghost use Rattle.read_line_promises.specs.Promises.{LineStep};

use read_line_promises::PartRead;
use read_tables::Plan;
use read_written_blocks::{blocks_with, memory_of};
use spec_format::{Fault, LineFault, Move};

// The line of an update: its number must be the next one, which is how many updates there are.
#[tactic(auto, using(std::proofs::lemmas::List::length_push, crate::proofs::Updates::none_written))]
pub fn update_line(n: Option<u32>, part: &mut PartRead) -> Result<(), LineFault>
    requires { part.old.progress.lines < 65536 }
    ensures step { LineStep part.old part.new (option_map update n) result }
    ensures notes { part.new.notes ≡ part.old.notes }
{
    let number = part.progress.lines + 1;
    let Some(n) = n else {
        return Err(LineFault {
            fault: Fault::Malformed,
            line: number,
        });
    };
    let updates = part.plan.updates();
    if 32 <= updates {
        return Err(LineFault {
            fault: Fault::TooMany,
            line: number,
        });
    }
    if n as usize != updates {
        return Err(LineFault {
            fault: Fault::Misnumbered,
            line: number,
        });
    }
    part.plan.push_update();
    part.progress.written = 0;
    part.progress.lines = number;
    Ok(())
}

// Whether a move names a word that is not below a limit.
fn names_past(m: Move, limit: u32) -> bool
    ensures { result ≡ some_from limit (named m) }
{
    match m {
        Move::Copy(d, a) | Move::Add(d, a, _) => limit <= d || limit <= a,
        Move::Set(d, _) => limit <= d,
    }
}

// The moves of the last update.
#[tactic(auto, using(crate::proofs::Updates::last_at))]
fn last_moves(plan: &Plan) -> &[Move]
    requires { 0 < length plan.now.updates }
    ensures value { result.now ≡ last_of plan.now.updates }
    ensures most { length result.now ≤ 16 }
    ensures place { result.now ≡ get_or plan.now.updates (length plan.now.updates - 1) [] }
{
    plan.moves(plan.updates() - 1)
}

// How many blocks of this size the moves and one more write, where they write `blocks` of them without it.
#[tactic(auto, using(read_written_blocks::proofs::WrittenBlocks::counted_more))]
fn written_with(moves: &[Move], m: Move, size: usize, blocks: usize) -> usize
    requires some_words { 0 < size }
    requires counted { blocks ≡ length (blocks_written size moves.now) }
    requires few { blocks ≤ 8 }
    ensures { result ≡ length (blocks_written size (moves.now ++ m ∷ [])) }
{
    blocks_with(moves, m, size, blocks)
}

// The line of a move: it is judged, and put behind the moves of the last update.
#[tactic(auto, using(crate::proofs::Updates::last_more, crate::proofs::Updates::length_more))]
pub fn move_line(m: Option<Move>, part: &mut PartRead) -> Result<(), LineFault>
    requires some { 0 < length part.old.plan.updates }
    requires room { part.old.progress.lines < 65536 }
    ensures step { LineStep part.old part.new (option_map move m) result }
    ensures notes { part.new.notes ≡ part.old.notes }
{
    let number = part.progress.lines + 1;
    let Some(m) = m else {
        return Err(LineFault {
            fault: Fault::Malformed,
            line: number,
        });
    };
    let moves = last_moves(&part.plan);
    let count = moves.len();
    if 16 <= count {
        return Err(LineFault {
            fault: Fault::TooMany,
            line: number,
        });
    }
    let sizes = part.plan.sizes();
    if names_past(m, memory_of(sizes)) {
        return Err(LineFault {
            fault: Fault::BadWord,
            line: number,
        });
    }
    let blocks = written_with(moves, m, sizes.words, part.progress.written);
    if sizes.copies < blocks {
        return Err(LineFault {
            fault: Fault::TooManyBlocks,
            line: number,
        });
    }
    part.plan.push_move(m);
    part.progress.written = blocks;
    part.progress.lines = number;
    Ok(())
}
