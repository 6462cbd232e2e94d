// A plan's text with a schedule of records: what comes before the records run.
#![tactic(auto)]

ghost use Rattle.std.specs.Prelude.{◌≡◌, MatchResult};
ghost use Rattle.spec_report.specs.declared.End.{End};
ghost use Rattle.spec_report.specs.Outcomes.{refused, run_schedule};
ghost use Rattle.whole_records_start.specs.Begun.{Begun, NotBegun};

use read_line_promises::PartRead;
use read_records::MOST;
use read_tables::Plan;
use spec_format::{Entry, Fault, Form, LineFault};

// What comes before the records run: the plan's text is read, and the records are counted. What is read beside the plan
// is gone then. Not inlined, for the stack's sake.
#[inline(never)]
#[tactic(auto, unfolding(spec_report::specs::Outcomes::run_schedule))]
pub fn begin(text: &[u8], records: &[Entry]) -> Result<Plan, LineFault>
    ensures { MatchResult result (Begun text.now records.now)
        (λ e. NotBegun text.now records.now e
        × (run_schedule text.now records.now ≡ refused (End.Faulty e.fault e.line))) }
{
    let mut part = PartRead::blank();
    read_text::read(text, Form::PlanAlone, &mut part)?;
    if records.len() > MOST {
        return Err(LineFault {
            fault: Fault::TooMany,
            line: MOST + 1,
        });
    }
    Ok(part.plan)
}
