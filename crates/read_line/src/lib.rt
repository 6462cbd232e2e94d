// One line of a text, from its own first byte: its kind, whether it can stand where it does, and what it says.
#![tactic(auto)]

ghost use Rattle.std.specs.Prelude.{◌≡◌, ◌<◌, option_map};
ghost use Rattle.read_fields.specs.FieldPlaces.{fields_at};
ghost use Rattle.spec_text.specs.Lines.{numbers};
ghost use Rattle.spec_format.specs.declared.Kind.{Kind};
ghost use Rattle.spec_format.specs.ParsedLines.{directive_of, numbers_for, move, update};
ghost use Rattle.read_line_promises.specs.Promises.{LineStep, LineDone};
ghost use Rattle.read_line.specs.Standing.{Standing};

use read_entry_lines::{call_line, step_line};
use read_few_numbers::numbers_at;
use read_fields::find;
use read_kinds::{can_stand, kind_of};
use read_line_promises::PartRead;
use read_plan_lines::{block_line, job_line, plan_line};
use read_update_lines::{move_line, update_line};
use spec_format::{Fault, Form, Kind, LineFault, Move};

// The number that the line `update n` says.
fn update_at(line: &[u8], at: usize) -> Option<u32>
    ensures { option_map update result ≡ directive_of Kind.Update (numbers 1 (fields_at line.now at)) }
{
    let [n] = numbers_at::<1>(line, at)?;
    Some(n)
}

// The move that the line `copy d a` says,
fn copy_at(line: &[u8], at: usize) -> Option<Move>
    ensures { option_map move result ≡ directive_of Kind.Copy (numbers 2 (fields_at line.now at)) }
{
    let [d, a] = numbers_at::<2>(line, at)?;
    Some(Move::Copy(d, a))
}

// the line `set d k`,
fn set_at(line: &[u8], at: usize) -> Option<Move>
    ensures { option_map move result ≡ directive_of Kind.Set (numbers 2 (fields_at line.now at)) }
{
    let [d, k] = numbers_at::<2>(line, at)?;
    Some(Move::Set(d, k))
}

// and the line `add d a k`.
fn add_at(line: &[u8], at: usize) -> Option<Move>
    ensures { option_map move result ≡ directive_of Kind.Add (numbers 3 (fields_at line.now at)) }
{
    let [d, a, k] = numbers_at::<3>(line, at)?;
    Some(Move::Add(d, a, k))
}

// A line of a kind that can stand where it does.
fn read_kind(kind: Kind, line: &[u8], at: usize, part: &mut PartRead) -> Result<(), LineFault>
    requires standing { Standing part.old kind }
    requires room { part.old.progress.lines < 65536 }
    ensures { LineStep part.old part.new
        (directive_of kind (numbers_for part.old.plan.sizes.words kind (fields_at line.now at)))
        result }
{
    match kind {
        Kind::Plan => plan_line(line, at, part),
        Kind::Job => job_line(line, at, part),
        Kind::Block => block_line(line, at, part),
        Kind::Update => update_line(update_at(line, at), part),
        Kind::Copy => move_line(copy_at(line, at), part),
        Kind::Set => move_line(set_at(line, at), part),
        Kind::Add => move_line(add_at(line, at), part),
        Kind::Call => call_line(line, at, part),
        Kind::Step => step_line(line, at, part),
        Kind::Unknown => unreachable!(),
    }
}

// One line, read from its own first byte.
pub fn read_line(line: &[u8], form: Form, part: &mut PartRead) -> Result<(), LineFault>
    requires { part.old.progress.lines < 65536 }
    ensures { LineDone form part.old part.new line.now result }
{
    let number = part.progress.lines + 1;
    let end = find(line, 0, b'\t');
    let kind = kind_of(&line[..end]);
    if kind == Kind::Unknown {
        return Err(LineFault {
            fault: Fault::Unknown,
            line: number,
        });
    }
    if !can_stand(form, part.progress, &part.plan, kind) {
        return Err(LineFault {
            fault: Fault::Misplaced,
            line: number,
        });
    }
    read_kind(kind, line, end + 1, part)
}
