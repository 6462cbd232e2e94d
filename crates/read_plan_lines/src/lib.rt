// The lines `plan`, `job` and `block`.
#![tactic(auto)]

ghost use Rattle.std.specs.Prelude.{◌≡◌, ◌<◌, length};
ghost use Rattle.spec_text.specs.Lines.{numbers};
ghost use Rattle.read_fields.specs.FieldPlaces.{fields_at};
ghost use Rattle.spec_format.specs.declared.Kind.{Kind};
ghost use Rattle.spec_format.specs.ParsedLines.{directive_of};
ghost use Rattle.read_line_promises.specs.Promises.{LineStep};

use read_few_numbers::numbers_at;
use read_fields::read_numbers;
use read_line_promises::PartRead;
use read_sizes::in_range;
use spec_format::{Fault, Job, LineFault, Sizes};

// The largest priority.
const LARGEST_PRIORITY: usize = 255;

// `plan P N B S C`.
pub fn plan_line(line: &[u8], at: usize, part: &mut PartRead) -> Result<(), LineFault>
    requires { part.old.progress.lines ≡ 0 }
    ensures step { LineStep part.old part.new (directive_of Kind.Plan (numbers 5 (fields_at line.now at))) result }
    ensures notes { part.new.notes ≡ part.old.notes }
{
    let number = part.progress.lines + 1;
    let Some(numbers) = numbers_at::<5>(line, at) else {
        return Err(LineFault {
            fault: Fault::Malformed,
            line: number,
        });
    };
    let [cards, jobs, blocks, words, copies] = numbers;
    let sizes = Sizes {
        cards: cards as usize,
        jobs: jobs as usize,
        blocks: blocks as usize,
        words: words as usize,
        copies: copies as usize,
    };
    if !in_range(sizes) {
        return Err(LineFault {
            fault: Fault::BadSize,
            line: number,
        });
    }
    part.plan.set_sizes(sizes);
    part.progress.lines = number;
    Ok(())
}

// `job card priority`.
pub fn job_line(line: &[u8], at: usize, part: &mut PartRead) -> Result<(), LineFault>
    requires more { length part.old.plan.jobs < part.old.plan.sizes.jobs }
    requires room { part.old.progress.lines < 65536 }
    ensures step { LineStep part.old part.new (directive_of Kind.Job (numbers 2 (fields_at line.now at))) result }
    ensures notes { part.new.notes ≡ part.old.notes }
{
    let number = part.progress.lines + 1;
    let Some(numbers) = numbers_at::<2>(line, at) else {
        return Err(LineFault {
            fault: Fault::Malformed,
            line: number,
        });
    };
    let [card, priority] = numbers;
    let job = Job {
        card: card as usize,
        priority: priority as usize,
    };
    if part.plan.sizes().cards <= job.card || LARGEST_PRIORITY < job.priority {
        return Err(LineFault {
            fault: Fault::BadJob,
            line: number,
        });
    }
    if part.plan.jobs().contains(&job) {
        return Err(LineFault {
            fault: Fault::SameJob,
            line: number,
        });
    }
    part.plan.push_job(job);
    part.progress.lines = number;
    Ok(())
}

// `block` with S opening words.
pub fn block_line(line: &[u8], at: usize, part: &mut PartRead) -> Result<(), LineFault>
    requires more { part.old.progress.blocks < part.old.plan.sizes.blocks }
    requires room { part.old.progress.lines < 65536 }
    ensures step { LineStep part.old part.new
        (directive_of Kind.Block (numbers part.old.plan.sizes.words (fields_at line.now at)))
        result }
    ensures notes { part.new.notes ≡ part.old.notes }
{
    let number = part.progress.lines + 1;
    let mut words = [0; 16];
    let words = &mut words[..part.plan.sizes().words];
    let Some(()) = read_numbers(line, at, words) else {
        return Err(LineFault {
            fault: Fault::Malformed,
            line: number,
        });
    };
    part.plan.push_words(words);
    part.progress.blocks += 1;
    part.progress.lines = number;
    Ok(())
}
