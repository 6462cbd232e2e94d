// The texts of cases are checked, run and written, and what comes of a case is compared with what it says: a line goes
// to standard output where the two differ, and for each pack how many cases agree.
#![tactic(auto)]

ghost use Rattle.std.specs.Prelude.{ℕ, ◌+◌, ◌≤◌, length};
ghost use Rattle.vectors_agreement.specs.LowTally.{Low};

use program_streams::Outputs;
use public_printing::{OUTPUT, Printed};
use public_reference::Answer;
use report_ending::Ended;
use spec_format::Form;
use std::fmt;
use std::fmt::Write;
use vectors_cases::{Case, Kind};

// What every byte of the buffer is before a run.
pub const MARKER: u8 = 170;

// Standard output, which takes text piece by piece: of a `write!` the parts of its literal, and what fills each hole.
// A piece that cannot be written is told, as `write_output` does it, and those behind it are written all the same.
#[derive(Drop)]
struct Output<'a, R> {
    rt: &'a R,
}

impl<'a, R: Outputs> Output<'a, R> {
    // Writes bytes.
    fn write_bytes(&self, bytes: &[u8]) {
        let _ = program_streams::write_output(self.rt, bytes);
    }
}

impl<'a, R: Outputs> Write for Output<'a, R> {
    fn write_str(&mut self, s: &str) -> fmt::Result {
        self.write_bytes(s.as_bytes());
        Ok(())
    }
}

// How many cases of a kind were tried, and how many of them agree.
#[derive(Clone, Copy, Default)]
pub struct Tally {
    pub agree: usize,
    pub tried: usize,
}

impl Tally {
    // Counts one case more, which agrees or not.
    pub fn count(&mut self, agrees: bool)
        requires { Low self.old 18446744073709551614 }
        ensures { (n : ℕ) → Low self.old n → Low self.new (n + 1) }
    {
        self.agree += usize::from(agrees);
        self.tried += 1;
    }
}

impl fmt::Display for Tally {
    fn fmt<W: fmt::Write>(&self, f: &mut fmt::Formatter<W>) -> fmt::Result {
        write!(f, "{} of {}", self.agree, self.tried)
    }
}

// How many of a pack's texts agree in their check and in their run, of its schedules, and of what is written.
#[derive(Clone, Copy, Default)]
pub struct Tallies {
    pub checks: Tally,
    pub runs: Tally,
    pub schedules: Tally,
    pub writings: Tally,
}

impl Tallies {
    // Writes how many cases of a pack agree. Of schedules and of what is written it does where the pack has any.
    pub fn print<R: Outputs>(&self, rt: &R, pack: &str) {
        let mut output = Output { rt };
        let _ = write!(output, "{pack}: {self}\n");
    }
}

impl fmt::Display for Tallies {
    fn fmt<W: fmt::Write>(&self, f: &mut fmt::Formatter<W>) -> fmt::Result {
        write!(f, "{} checks agree, {} runs agree", self.checks, self.runs)?;
        if self.schedules.tried > 0 {
            write!(f, ", {} schedules agree", self.schedules)?;
        }
        if self.writings.tried > 0 {
            write!(f, ", {} writings agree", self.writings)?;
        }
        Ok(())
    }
}

// A case that is tried: its pack's name, the case, and how it has to end.
#[derive(Clone, Copy)]
pub struct Trial<'a> {
    pub pack: &'a str,
    pub case: Case<'a>,
    pub end: Answer,
}

// Where what came of a case is not what it says: in its answer, in a byte past those that were written, or in a line.
#[derive(Clone, Copy)]
enum Difference<'a> {
    Answer { got: Answer, wanted: Answer },
    PastTheEnd,
    Line { got: &'a [u8], wanted: &'a [u8] },
}

// The number and line that a line `end n l` gives.
fn read_ending(line: &[u8]) -> Option<Answer> {
    let mut words = line.split(|x| *x == b'\t');
    if words.next()? != b"end".as_slice() {
        return None;
    }
    let number = read_fields::number_of(words.next()?)? as usize;
    let line = read_fields::number_of(words.next()?)? as usize;
    if words.next().is_some() {
        return None;
    }
    Some(Answer { number, line })
}

// How a case has to end, where its output says so. What is written says of its end that it is refused so, or is
// accepted with the count of the text's lines, or of the records.
fn ending(case: &Case) -> Option<Answer> {
    let end = read_ending(vectors_cases::last_line(case.output));
    let line = match case.kind {
        Kind::Run | Kind::Schedule => return end,
        Kind::Write => vectors_cases::line_count(case.text),
        Kind::WriteSchedule => case.records()?.len(),
    };
    Some(end.unwrap_or(Answer { number: 0, line }))
}

// Says that an answer is not the one that is wanted, where it is not.
fn compare_answers(got: Answer, wanted: Answer) -> Result<(), Difference<'static>> {
    if got == wanted {
        return Ok(());
    }
    Err(Difference::Answer { got, wanted })
}

// Writes that a pack cannot be read.
pub fn print_malformed<R: Outputs>(rt: &R, pack: &str) {
    let mut output = Output { rt };
    let _ = write!(output, "{pack}: malformed\n");
}

impl<'a> Trial<'a> {
    // A case of a pack, where it says how it has to end.
    pub fn new(pack: &'a str, case: Case<'a>) -> Option<Trial<'a>> {
        let end = ending(&case)?;
        Some(Trial { pack, case, end })
    }

    // What the case says of the check of its text: an output that ends in 0, or in 11 to 15, which only a run meets,
    // says that it is accepted, and every other that it is refused by that number.
    fn wanted_of_check(&self) -> Answer {
        match self.end.number {
            0 | 11..=15 => Answer {
                number: 0,
                line: vectors_cases::line_count(self.case.text),
            },
            _ => self.end,
        }
    }

    // Writes the names of the pack and of the case, what was done with it, and the difference.
    fn print<R: Outputs>(&self, rt: &R, way: &str, difference: Difference) {
        let mut output = Output { rt };
        let pack = self.pack;
        let _ = write!(output, "{pack}: ");
        output.write_bytes(self.case.name);
        let _ = write!(output, ": {way}: ");
        match difference {
            Difference::Answer { got, wanted } => {
                let _ = write!(
                    output,
                    "got {} {}, wanted {} {}\n",
                    got.number, got.line, wanted.number, wanted.line
                );
            }
            Difference::PastTheEnd => output.write_bytes(b"bytes past the end were written\n"),
            Difference::Line { got, wanted } => {
                output.write_bytes(b"got ");
                output.write_bytes(got);
                output.write_bytes(b", wanted ");
                output.write_bytes(wanted);
                output.write_bytes(b"\n");
            }
        }
    }

    // Whether what was done with the case came to what it says. Writes a line where not.
    fn report<R: Outputs>(&self, rt: &R, way: &str, compared: Result<(), Difference>) -> bool {
        match compared {
            Ok(()) => true,
            Err(difference) => {
                self.print(rt, way, difference);
                false
            }
        }
    }

    // Compares a call's answer with the one that is wanted, the bytes that it wrote with some, and those behind them
    // with what they were.
    fn compare(
        &'a self,
        got: Answer,
        room: &'a [u8],
        end: usize,
        wanted: &[u8],
    ) -> Result<(), Difference<'a>>
        requires { end ≤ length room.now }
    {
        compare_answers(got, self.end)?;
        let (written, behind) = room.split_at(end);
        if behind.iter().any(|x| *x != MARKER) {
            return Err(Difference::PastTheEnd);
        }
        if written == wanted {
            return Ok(());
        }
        let output = self.case.output;
        let before = vectors_cases::same_lines(written, output);
        Err(Difference::Line {
            got: vectors_cases::line(written, before),
            wanted: vectors_cases::line(output, before),
        })
    }

    // Checks the text, and compares the answer.
    pub fn check<R: Outputs>(&self, rt: &R) -> bool {
        let got = public_reference::answer_of(public_reference::check(
            self.case.text,
            Form::Schedule,
        ));
        let compared = compare_answers(got, self.wanted_of_check());
        self.report(rt, "check", compared)
    }

    // Makes a call with the case's text and n bytes of a room, and compares how it ends and what it leaves there.
    pub fn call<R: Outputs, F: FnOnce(&[u8], &mut [u8]) -> Ended>(
        &self,
        rt: &R,
        room: &mut [u8],
        n: usize,
        call: F,
    ) -> bool
        requires lent { n ≤ length room.old }
        requires callable { F.IsAlwaysCallable call }
        requires fits { (text buffer : _) (ended : Ended) (left : _)
            → F.post call text buffer ended left → ended.length ≤ length buffer.now }
    {
        room.fill(MARKER);
        let ended = call(self.case.text, &mut room[..n]);
        let got = Answer {
            number: ended.number,
            line: ended.line,
        };
        let compared = self.compare(got, room, ended.length, self.case.wanted_bytes());
        self.report(rt, self.case.kind.word(), compared)
    }

    // Has what the program prints of the text put into a room, and compares it.
    pub fn print_call<R: Outputs, F: FnOnce(&[u8], &mut [u8; OUTPUT]) -> Printed>(
        &self,
        rt: &R,
        room: &mut [u8; OUTPUT],
        call: F,
    ) -> bool
        requires callable { F.IsAlwaysCallable call }
        requires fits { (text buffer : _) (printed : Printed) (left : _)
            → F.post call text buffer printed left → printed.length ≤ length left.now }
    {
        room.fill(MARKER);
        let printed = call(self.case.text, room);
        let got = Answer {
            number: printed.number as usize,
            line: printed.line as usize,
        };
        let compared = self.compare(got, room, printed.length, self.case.output);
        self.report(rt, "print", compared)
    }
}
