// The kind of a line, and whether it can stand where it does.
#![tactic(auto)]

ghost use Rattle.std.specs.Prelude.{◌≡◌, length, ltb};
ghost use Rattle.spec_format.specs.Kinds.{kind_of};
ghost use Rattle.spec_format.specs.Faults.{stands, laid_out, lacks_blocks};
ghost use Rattle.read_line_promises.specs.Promises.{draft_of};

use read_line_promises::Progress;
use read_tables::Plan;
use spec_format::{Form, Kind};

// The kind that a first field names.
#[tactic(auto, unfolding(spec_format::specs::Kinds::kind_of))]
pub fn kind_of(word: &[u8]) -> Kind
    ensures { result ≡ kind_of word.now }
{
    match word {
        b"plan" => Kind::Plan,
        b"job" => Kind::Job,
        b"block" => Kind::Block,
        b"update" => Kind::Update,
        b"copy" => Kind::Copy,
        b"set" => Kind::Set,
        b"add" => Kind::Add,
        b"call" => Kind::Call,
        b"step" => Kind::Step,
        _ => Kind::Unknown,
    }
}

// Whether the plan still lacks jobs: no count is needed for that.
fn lacks_jobs(plan: &Plan) -> bool
    ensures { result ≡ ltb (length plan.now.jobs) plan.now.sizes.jobs }
{
    plan.jobs().len() < plan.sizes().jobs
}

// Whether the plan still lacks blocks.
fn lacks_blocks(progress: Progress, plan: &Plan) -> bool
    ensures { result ≡ lacks_blocks (draft_of progress plan.now) }
{
    progress.blocks < plan.sizes().blocks
}

// Whether the plan line, all jobs and all blocks are there.
pub fn laid_out(progress: Progress, plan: &Plan) -> bool
    ensures { result ≡ laid_out (draft_of progress plan.now) }
{
    0 < progress.lines && !lacks_jobs(plan) && !lacks_blocks(progress, plan)
}

// Whether a kind can stand here: an entry in a text that takes entries, an update before the first entry, a move behind
// an update.
pub fn can_stand(form: Form, progress: Progress, plan: &Plan, kind: Kind) -> bool
    ensures { result ≡ stands form (draft_of progress plan.now) kind }
{
    match kind {
        Kind::Plan => progress.lines == 0,
        Kind::Job => lacks_jobs(plan),
        Kind::Block => !lacks_jobs(plan) && lacks_blocks(progress, plan),
        Kind::Update => laid_out(progress, plan) && progress.entries == 0,
        Kind::Copy | Kind::Set | Kind::Add => {
            laid_out(progress, plan) && progress.entries == 0 && 0 < plan.updates()
        }
        Kind::Call | Kind::Step => form == Form::Schedule && laid_out(progress, plan),
        Kind::Unknown => false,
    }
}
