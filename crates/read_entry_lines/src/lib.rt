// The lines `call` and `step`. A run of steps is one note, whatever its n.
#![tactic(auto)]

ghost use Rattle.std.specs.Prelude.{◌≡◌, ◌<◌, option_map};
ghost use Rattle.spec_text.specs.Lines.{numbers};
ghost use Rattle.read_fields.specs.FieldPlaces.{fields_at};
ghost use Rattle.spec_format.specs.declared.Kind.{Kind};
ghost use Rattle.spec_format.specs.ParsedLines.{entry, step_numbers, directive_of};
ghost use Rattle.read_line_promises.specs.Promises.{LineStep};

use read_few_numbers::numbers_at;
use read_line_promises::PartRead;
use read_tables::Note;
use spec_format::{Entry, Fault, LineFault};

// The most steps of a run, and the most single entries of a schedule.
const MOST: u32 = 4000;

// The line of an entry that comes so many times: it is noted with its line. Its job, update or card is judged when it
// runs.
fn entry_line(noted: Option<(Entry, u32)>, part: &mut PartRead) -> Result<(), LineFault>
    requires { part.old.progress.lines < 65536 }
    ensures { LineStep part.old part.new (option_map (λ x. entry x.0 x.1) noted) result }
{
    let number = part.progress.lines + 1;
    let Some((entry, times)) = noted else {
        return Err(LineFault {
            fault: Fault::Malformed,
            line: number,
        });
    };
    if !(1..=MOST).contains(&times) {
        return Err(LineFault {
            fault: Fault::BadRun,
            line: number,
        });
    }
    let room = (MOST - times) as usize;
    if room < part.progress.entries {
        return Err(LineFault {
            fault: Fault::TooMany,
            line: number,
        });
    }
    let note = Note {
        entry,
        times,
        line: number as u32,
    };
    part.notes.push(note);
    part.progress.entries += times as usize;
    part.progress.lines = number;
    Ok(())
}

// What the line `call job update` says: it comes once.
fn call_at(line: &[u8], at: usize) -> Option<(Entry, u32)>
    ensures { option_map (λ x. entry x.0 x.1) result ≡ directive_of Kind.Call (numbers 2 (fields_at line.now at)) }
{
    let [first, second] = numbers_at::<2>(line, at)?;
    let call = Entry {
        kind: 0,
        first,
        second,
    };
    Some((call, 1))
}

// The line `call job update`.
pub fn call_line(line: &[u8], at: usize, part: &mut PartRead) -> Result<(), LineFault>
    requires { part.old.progress.lines < 65536 }
    ensures { LineStep part.old part.new (directive_of Kind.Call (numbers 2 (fields_at line.now at))) result }
{
    entry_line(call_at(line, at), part)
}

// The step of a card.
fn step_of(card: u32) -> Entry
    ensures { result ≡ record { kind = 1; first = card; second = 0 } }
{
    Entry {
        kind: 1,
        first: card,
        second: 0,
    }
}

// What the line `step card` says, which comes once, or the line `step card n`.
fn step_at(line: &[u8], at: usize) -> Option<(Entry, u32)>
    ensures { let fs = fields_at line.now at in
        option_map (λ x. entry x.0 x.1) result ≡ directive_of Kind.Step (numbers (step_numbers fs) fs) }
{
    if let Some(numbers) = numbers_at::<1>(line, at) {
        let [card] = numbers;
        return Some((step_of(card), 1));
    }
    let [card, n] = numbers_at::<2>(line, at)?;
    Some((step_of(card), n))
}

// The line `step card` or `step card n`.
pub fn step_line(line: &[u8], at: usize, part: &mut PartRead) -> Result<(), LineFault>
    requires { part.old.progress.lines < 65536 }
    ensures { let fs = fields_at line.now at in
        LineStep part.old part.new (directive_of Kind.Step (numbers (step_numbers fs) fs)) result }
{
    entry_line(step_at(line, at), part)
}
