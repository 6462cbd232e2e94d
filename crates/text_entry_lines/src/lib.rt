// The entry lines that notes stand for, to any output: `call job update`, and `step card n` for a run of steps, whose
// count is left out where it is one.
#![tactic(auto)]

ghost use Rattle.spec_plan_text.specs.EntryLines.{entry_bytes, entry_line_bytes};
ghost use Rattle.text_entry_runs.specs.Joined.{line_noted, lines_noted};

use read_tables::Note;
use text_outputs::Output;

// The entry line of a note.
fn put_entry<O: Output>(note: Note, output: &mut O)
    ensures { O.Takes (entry_bytes (line_noted note)) output.old output.new }
{
    let e = note.entry;
    if e.kind == 0 {
        output.line(b"call", &[e.first, e.second]);
    } else if note.times == 1 {
        output.line(b"step", &[e.first]);
    } else {
        output.line(b"step", &[e.first, note.times]);
    }
}

// The entry lines of notes.
pub fn put_entries<O: Output>(notes: &[Note], output: &mut O)
    ensures { O.Takes (entry_line_bytes (lines_noted notes.now)) output.old output.new }
{
    for &note in notes {
        put_entry(note, output);
    }
}
