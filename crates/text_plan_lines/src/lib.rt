// The lines of a plan but for its updates, to any output.
// `Sound` stands in clauses: a type of sound plans would be one more around the lent plan, for this one word.
#![tactic(auto)]

ghost use Rattle.std.specs.Prelude.{◌≡◌, [], ◌∷◌, ◌≤◌, ◌<◌, length};
ghost use Rattle.spec_format.specs.Sound.{Sound};
ghost use Rattle.spec_plan_text.specs.PlanText.{block_words, job_lines, opening_block_lines};
ghost use Rattle.text_plan_lines.specs.BeforeUpdates.{before_updates};

use read_tables::Plan;
use spec_format::Job;
use text_outputs::Output;

// The numbers of the plan line.
fn size_numbers(plan: &Plan) -> [u32; 5]
    requires { Sound plan.now }
    ensures { result ≡ plan.now.sizes.cards ∷ plan.now.sizes.jobs ∷ plan.now.sizes.blocks ∷ plan.now.sizes.words
        ∷ plan.now.sizes.copies ∷ [] }
{
    let sizes = plan.sizes();
    [
        sizes.cards as u32,
        sizes.jobs as u32,
        sizes.blocks as u32,
        sizes.words as u32,
        sizes.copies as u32,
    ]
}

// The numbers of the line of a job.
fn job_numbers(job: Job) -> [u32; 2]
    requires { (job.card < 8) × (job.priority ≤ 255) }
    ensures { result ≡ job.card ∷ job.priority ∷ [] }
{
    [job.card as u32, job.priority as u32]
}

// The opening words of block b.
fn opening_words(plan: &Plan, b: usize) -> &[u32]
    requires { Sound plan.now × (b < plan.now.sizes.blocks) }
    ensures value { result.now ≡ block_words plan.now b }
    ensures few { length result.now ≤ 16 }
{
    let words = plan.sizes().words;
    let from = b * words;
    &plan.words()[from..from + words]
}

// The N job lines.
fn put_jobs<O: Output>(plan: &Plan, output: &mut O)
    requires { Sound plan.now }
    ensures { O.Takes (job_lines plan.now) output.old output.new }
{
    for &job in plan.jobs() {
        output.line(b"job", &job_numbers(job));
    }
}

// The B block lines.
fn put_blocks<O: Output>(plan: &Plan, output: &mut O)
    requires { Sound plan.now }
    ensures { O.Takes (opening_block_lines plan.now) output.old output.new }
{
    // By number, as the definition has them: with chunks of the words it were still to be shown that there are B.
    for b in 0..plan.sizes().blocks {
        output.line(b"block", opening_words(plan, b));
    }
}

// The lines of a plan before its updates.
pub fn put_plan_lines<O: Output>(plan: &Plan, output: &mut O)
    requires { Sound plan.now }
    ensures { O.Takes (before_updates plan.now) output.old output.new }
{
    output.line(b"plan", &size_numbers(plan));
    put_jobs(plan, output);
    put_blocks(plan, output);
}
