// How a run ends. specs/ has the report, and what a text or a schedule of records comes to, as definitions; proofs/ has
// the runs of document 01, computed. No code.
#![tactic(auto)]

use spec_format::Fault;
use spec_machine::Refusal;

// How a run ends, or a writing: accepted, with the count of lines or records; refused by the check of the text or of
// the records; refused at an entry, with the entry's number from 1; or with bytes to be written that are longer than
// the lent buffer. Refusals come with their line. A refused entry has a report too, so an end is neither an Option nor a
// Result.
#[derive(Clone, Copy)]
pub enum End {
    Accepted(usize),
    Faulty(Fault, usize),
    Refused(Refusal, usize, usize),
    NoRoom,
}
