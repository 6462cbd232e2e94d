// The cases of a pack, taken apart: what their first lines say, their parts, and their records.
#![tactic(auto)]

ghost use Rattle.std.specs.Prelude.{◌≤◌, ◌<◌, length, IfSome};
ghost use Rattle.vectors_cases.specs.CaseParts.{CasePlaced};

use arrayvec::ArrayVec;
use spec_format::Entry;

// The most records of a case. A schedule of so many is refused.
pub const RECORDS: usize = 4002;

// What is done with a case.
#[derive(Clone, Copy, PartialEq, Eq)]
pub enum Kind {
    Run,
    Schedule,
    Write,
    WriteSchedule,
}

impl Kind {
    // The word for it in a case's first line.
    pub fn word(self) -> &'static str {
        match self {
            Kind::Run => "run",
            Kind::Schedule => "schedule",
            Kind::Write => "write",
            Kind::WriteSchedule => "write_schedule",
        }
    }

    // The kind that a word says.
    fn of(word: &[u8]) -> Option<Kind> {
        match word {
            b"run" => Some(Kind::Run),
            b"schedule" => Some(Kind::Schedule),
            b"write" => Some(Kind::Write),
            b"write_schedule" => Some(Kind::WriteSchedule),
            _ => None,
        }
    }
}

// A case: what its first line says of it, and its parts.
#[derive(Clone, Copy)]
pub struct Case<'a> {
    pub name: &'a [u8],
    pub kind: Kind,
    pub room: &'a [u8],
    pub text: &'a [u8],
    pub records: &'a [u8],
    pub output: &'a [u8],
}

// How many line feeds a text has.
pub fn line_count(text: &[u8]) -> usize {
    text.iter().filter(|x| **x == b'\n').count()
}

// The line of a text that so many precede. It is empty where the text has too few.
pub fn line(text: &[u8], before: usize) -> &[u8] {
    text.split(|x| *x == b'\n').nth(before).unwrap_or(b"")
}

// How many lines that were written stand in the output as well, before the first that does not.
pub fn same_lines(written: &[u8], output: &[u8]) -> usize {
    let lines = line_count(written);
    (0..lines)
        .find(|i| line(written, *i) != line(output, *i))
        .unwrap_or(lines)
}

// The last line of a text whose lines are each ended by a line feed.
pub fn last_line(text: &[u8]) -> &[u8] {
    text.rsplit(|x| *x == b'\n').nth(1).unwrap_or(b"")
}

// The length that a word says.
fn length_of(word: &[u8]) -> Option<usize> {
    Some(read_fields::number_of(word)? as usize)
}

// The first case of a pack, and what stands behind it. There is none where the case's first line has not seven words,
// a length is no number, or a part runs past the pack's end.
pub fn next_case(pack: &[u8]) -> Option<(Case<'_>, &[u8])>
    ensures parts { IfSome result (λ p. CasePlaced pack.now p.0 p.1.now) }
    ensures rest { IfSome result (λ p. length p.1.now < length pack.now) }
{
    let end = pack.iter().position(|x| *x == b'\n')?;
    let mut words = pack[..end].split(|x| *x == b' ');
    if words.next()? != b"case".as_slice() {
        return None;
    }
    let name = words.next()?;
    let kind = Kind::of(words.next()?)?;
    let room = words.next()?;
    let rest = &pack[end + 1..];
    let (text, rest) = rest.split_at_checked(length_of(words.next()?)?)?;
    let (records, rest) = rest.split_at_checked(length_of(words.next()?)?)?;
    let (output, rest) = rest.split_at_checked(length_of(words.next()?)?)?;
    if words.next().is_some() {
        return None;
    }
    Some((
        Case {
            name,
            kind,
            room,
            text,
            records,
            output,
        },
        rest,
    ))
}

// The record that a line `kind first second` gives.
fn read_record(line: &[u8]) -> Option<Entry> {
    let mut words = line.split(|x| *x == b' ');
    let kind = read_fields::number_of(words.next()?)?;
    let first = read_fields::number_of(words.next()?)?;
    let second = read_fields::number_of(words.next()?)?;
    if words.next().is_some() {
        return None;
    }
    Some(Entry {
        kind,
        first,
        second,
    })
}

impl Case<'_> {
    // How much room the case has for what is written, of all that there is.
    pub fn room(&self, all: usize) -> Option<usize>
        ensures { IfSome result (λ n. n ≤ all) }
    {
        if self.room == b"-".as_slice() {
            return Some(all);
        }
        let room = length_of(self.room)?;
        if room <= all { Some(room) } else { None }
    }

    // The records of the case. There are none where a line is no record, or where there are too many.
    pub fn records(&self) -> Option<ArrayVec<Entry, RECORDS>> {
        let mut records = ArrayVec::new();
        for line in self.records.split_inclusive(|x| *x == b'\n') {
            let record = read_record(line.strip_suffix(b"\n").unwrap_or(line))?;
            records.try_push(record).ok()?;
        }
        Some(records)
    }

    // The bytes that the case wants written. An output of one line wants none: a report and a written text have a line
    // for each block besides.
    pub fn wanted_bytes(&self) -> &[u8] {
        if last_line(self.output).len() + 1 == self.output.len() {
            b""
        } else {
            self.output
        }
    }
}
