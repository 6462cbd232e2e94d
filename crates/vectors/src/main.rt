// The runner over the packs of cases in data/. It checks and runs the text of each case of the kind `run`, runs the
// plan's text of each case of the kind `schedule` with its records, has the text written of each case of the kind
// `write`, and the plan's text with its records of each of the kind `write_schedule`. It says where the check's answer
// or the output is not what the case says, and for each pack how many cases agree. A text that is lent room for all
// that can be written is also run, or written, as the programs do it, and what is to be printed compared.
//
// A pack is case after case: the line `case NAME KIND ROOM INLEN RECLEN OUTLEN`, its words parted by one space, then
// INLEN bytes of text, RECLEN bytes of records and OUTLEN bytes of what must come out. ROOM is the length of the buffer
// that is lent, or `-` for one that is large enough. The records, of schedules alone, are lines of three numbers, a
// kind and two more, parted by one space.
#![tactic(auto)]

ghost use Rattle.std.specs.Prelude.{ℕ, ◌+◌};
ghost use Rattle.vectors_agreement.specs.LowTally.{AllLow};

use program_streams::Outputs;
use public_printing::OUTPUT;
use std::fs::File;
use std::rt::Files;
use vectors_agreement::{Tallies, Trial};
use vectors_cases::{Case, Kind};

// More bytes than the largest pack has.
const ROOM: usize = 1400000;

// A pack cannot be read on.
#[derive(Clone, Copy)]
struct Malformed;

// Tries one case of a pack, and counts whether it agrees. A text that is lent all of the room is run, or written, once
// more as the program does it.
fn run_case<R: Outputs>(
    rt: &R,
    pack: &str,
    case: Case,
    room: &mut [u8; OUTPUT],
    tallies: &mut Tallies,
) -> Result<(), Malformed>
    requires { AllLow tallies.old 18446744073709551614 }
    ensures { (n : ℕ) → AllLow tallies.old n → AllLow tallies.new (n + 1) }
{
    let n = case.room(OUTPUT).ok_or(Malformed)?;
    let trial = Trial::new(pack, case).ok_or(Malformed)?;
    match case.kind {
        Kind::Run => {
            tallies.checks.count(trial.check(rt));
            let runs = trial.call(rt, room, n, public_reference::run);
            let prints = n < OUTPUT || trial.print_call(rt, room, public_printing::print_run);
            tallies.runs.count(runs && prints);
        }
        Kind::Write => {
            let writes = trial.call(rt, room, n, public_writer::write);
            let prints = n < OUTPUT || trial.print_call(rt, room, public_printing::print_write);
            tallies.writings.count(writes && prints);
        }
        Kind::Schedule => {
            let records = case.records().ok_or(Malformed)?;
            let agrees = trial.call(rt, room, n, |text, lent| {
                public_point_memory::point_memory_run_schedule(text, &records, lent)
            });
            tallies.schedules.count(agrees);
        }
        Kind::WriteSchedule => {
            let records = case.records().ok_or(Malformed)?;
            let agrees = trial.call(rt, room, n, |text, lent| {
                public_point_memory::point_memory_write_schedule(text, &records, lent)
            });
            tallies.writings.count(agrees);
        }
    }
    Ok(())
}

// Tries the cases of a pack up to its end.
fn run_pack<R: Outputs>(
    rt: &R,
    name: &str,
    pack: &[u8],
    room: &mut [u8; OUTPUT],
) -> Result<Tallies, Malformed> {
    let mut tallies = Tallies::default();
    let mut rest = pack;
    // No `for`: where the next case begins is known when this one has been read.
    while !rest.is_empty() {
        let (case, after) = vectors_cases::next_case(rest).ok_or(Malformed)?;
        run_case(rt, name, case, room, &mut tallies)?;
        rest = after;
    }
    Ok(tallies)
}

// Reads a pack into the bytes lent for it, and runs it. One that fills them all may go on past them: it is not run.
fn run_file<R: Files + Outputs>(rt: &R, name: &str, bytes: &mut [u8], room: &mut [u8; OUTPUT]) {
    let mut file = match File::open(rt, name) {
        Ok(file) => file,
        Err(error) => {
            program_streams::tell(&rt.errors(), name.as_bytes(), error);
            return;
        }
    };
    let Some(length) = program_streams::read_all(rt, &mut file, name.as_bytes(), bytes) else {
        return;
    };
    let tallies = if length < bytes.len() {
        run_pack(rt, name, &bytes[..length], room)
    } else {
        Err(Malformed)
    };
    match tallies {
        Ok(tallies) => tallies.print(rt, name),
        Err(Malformed) => vectors_agreement::print_malformed(rt, name),
    }
}

// Runs the packs. The cases of the last one are wrong on purpose: one in its answer, one in a line of its report, one
// in its run of steps, which its report takes one step short, one in its update's number, which its report lets pass,
// and one in its sum, which its report has start again at 0; of those that are written, one has a run of one with its
// count, one leaves runs apart, and one is the text of a schedule that is refused.
fn main(rt: HostRuntime) {
    let mut bytes = [0u8; ROOM];
    let mut room = [0u8; OUTPUT];
    for name in ["04-counters-that-stop.pack", "wrong.pack"] {
        run_file(&rt, name, &mut bytes, &mut room);
    }
}
