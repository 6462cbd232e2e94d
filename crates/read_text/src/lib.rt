// A whole text is read once, line by line: its plan is taken up as it is read, and its entry lines are noted.
#![tactic(auto)]

ghost use Rattle.std.specs.Prelude.{◌≡◌, ◌==◌, position};
ghost use Rattle.spec_format.specs.Reading.{reading};
ghost use Rattle.read_line_promises.specs.Promises.{Unread};
ghost use Rattle.read_text.specs.Readings.{ReadTo};

use read_line::read_line;
use read_line_promises::PartRead;
use spec_format::{Fault, Form, LineFault, Verdict};

// The most bytes of a text.
const LONGEST: usize = 65536;

// Where a line ends: at its line feed. Not inlined: in its caller the scan keeps all counts of what follows, and takes
// three times as long.
#[inline(never)]
fn end_of(rest: &[u8]) -> Option<usize>
    ensures { result ≡ position (λ b. b == 10) rest.now }
{
    rest.iter().position(|b| *b == b'\n')
}

// Reads a text, which is measured first. Each line is ended by a line feed: a last line without one is refused,
// whatever it holds. Time is linear in the text, whatever the runs in it.
pub fn read(text: &[u8], form: Form, part: &mut PartRead) -> Verdict
    requires { Unread part.old }
    ensures { ReadTo (reading form text.now) result part.new }
{
    if LONGEST < text.len() {
        return Err(LineFault {
            fault: Fault::TooLong,
            line: 0,
        });
    }
    let mut rest = text;
    // No `for` over `split_inclusive`, which is no plainer: its part would be looked through a second time for its end,
    // since a last line without one is refused.
    while !rest.is_empty() {
        let Some(end) = end_of(rest) else {
            return Err(LineFault {
                fault: Fault::Unknown,
                line: part.progress.lines + 1,
            });
        };
        read_line(&rest[..end], form, part)?;
        rest = &rest[end + 1..];
    }
    if !read_kinds::laid_out(part.progress, &part.plan) {
        return Err(LineFault {
            fault: Fault::Misplaced,
            line: part.progress.lines + 1,
        });
    }
    Ok(part.progress.lines)
}
