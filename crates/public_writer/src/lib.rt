// The public functions of the plan writer. None has a `requires`, and none is handed a state.
#![tactic(auto)]

ghost use Rattle.std.specs.Prelude.{◌≡◌};
ghost use Rattle.spec_report.specs.Outcomes.{handed, left};
ghost use Rattle.spec_plan_text.specs.Writing.{write_text};
ghost use Rattle.report_ending.specs.Finishing.{ended_of};

use report_ending::Ended;

// Writes a text: the one text of its plan and its single entries stands in the first places of the lent buffer; what
// lies behind it stays as it was, and where the text is refused, or there is no room, all of it does.
pub fn write(text: &[u8], buffer: &mut [u8]) -> Ended
    ensures value { result ≡ ended_of (write_text text.now) buffer.old }
    ensures buffer_after { buffer.new ≡ left (write_text text.now) buffer.old }
{
    whole_written_text::write_text(text, buffer).into()
}

// Writes a text, and hands back the written part of the buffer, empty where nothing is written.
pub fn write_part<'a>(text: &[u8], buffer: &'a mut [u8]) -> &'a mut [u8]
    ensures result_value { result.now ≡ handed (write_text text.now) buffer.old }
    ensures ref_ptr_value { result.ref_ptr ≡ buffer.entry.ref_ptr }
{
    let ended = write(text, buffer);
    &mut buffer[..ended.length]
}
