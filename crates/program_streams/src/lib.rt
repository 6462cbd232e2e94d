// Reading and writing for the programs, and how they end. A read or a write that fails is not taken for the end: a line
// on standard error says what failed.
#![tactic(auto)]

ghost use Rattle.std.specs.Prelude.{◌<◌, ◌≤◌, length, take, IfSome, OnOk};
ghost use Rattle.io.specs.Counts.{IsPrefixLen};
ghost use Rattle.std.specs.Io.KnownBytes.{Appends, Consumes, IsAtEnd};

use public_messages::MESSAGE;
use public_printing::Printed;
use std::io;
use std::io::{Cursor, ErrorKind, Read, Stderr, Write};
use std::process::ExitCode;

// How many bytes of a text are read: none that is accepted is longer than 65,536, and one byte more tells of any longer
// one that it is too long.
pub const TEXT: usize = 65537;

// The status of a program that ends because nobody reads what it writes: the shell's for the signal SIGPIPE.
pub const CLOSED: u8 = 141;

// Room for what is said of any error.
const REASON: usize = 256;

// The two streams that a program writes to: standard output, and the one that says what failed.
pub trait Outputs: Print {
    type Errors: Print + Drop;

    fn errors(&self) -> Self::Errors;
}

impl Outputs for HostRuntime {
    type Errors = Stderr;

    fn errors(&self) -> Stderr {
        self.stderr()
    }
}

// Why not all bytes were written: nobody reads what is written any more, or a write failed, which was told.
#[derive(Clone, Copy, PartialEq, Eq)]
pub enum WriteError {
    Closed,
    Failed,
}

// How many bytes of the text of an error of the system's are its own words: all but the error's number, which stands
// behind them in parentheses.
fn words(text: &[u8]) -> usize
    ensures { IsPrefixLen result text.now }
{
    match text.iter().rposition(|x| *x == b'(') {
        Some(i) if i > 0 => i - 1,
        _ => text.len(),
    }
}

// Says what failed, by its name, and why. What cannot be said is let go.
pub fn tell<E: Print>(errors: &E, name: &[u8], error: io::Error) {
    let mut reason = Cursor::new([0u8; REASON]);
    let _ = write!(reason, "{error}");
    let most = (reason.position() as usize).min(REASON);
    let text = reason.into_inner();
    let length = if error.raw_os_error().is_some() {
        words(&text[..most])
    } else {
        most
    };
    let _ = errors.write_all(name);
    let _ = errors.write_all(b": ");
    let _ = errors.write_all(&text[..length]);
    let _ = errors.write_all(b"\n");
}

// What a failed write comes to. It is told by the output's name, but not where nobody reads the output any more.
pub fn write_error<E: Print>(errors: &E, name: &[u8], error: io::Error) -> WriteError {
    if error.kind() == ErrorKind::BrokenPipe {
        return WriteError::Closed;
    }
    tell(errors, name, error);
    WriteError::Failed
}

// Reads until the bytes are full or the input ends, and answers how many were read, or None where a read fails, which
// is told by the input's name. Where the input's bytes are known, those that were read are its first, and there are
// fewer than there is room for only where it has no more.
// The loop counts: of the library's methods `read_exact` refuses a shorter input, and `read_to_end` needs a heap.
pub fn read_all<R: Outputs, I: Read>(
    rt: &R,
    input: &mut I,
    name: &[u8],
    bytes: &mut [u8],
) -> Option<usize>
    ensures prefix_len { IfSome result (λ n. IsPrefixLen n bytes.new) }
    ensures bytes { IfSome result (λ n. Consumes (I.remaining input.old) (I.remaining input.new) (take n bytes.new)) }
    ensures end { IfSome result (λ n. n < length bytes.new → IsAtEnd (I.remaining input.new)) }
{
    let mut done = 0;
    while done < bytes.len() {
        match input.read(&mut bytes[done..]) {
            Ok(0) => break,
            Ok(n) => done += n,
            Err(error) => {
                tell(&rt.errors(), name, error);
                return None;
            }
        }
    }
    Some(done)
}

// Writes all of the bytes. A write that fails, or takes none of them, is told by the output's name, but not where
// nobody reads the output any more. Where it is known what the output holds, all of the bytes then stand behind it.
// The loop counts: the library's `write_all` goes on after a signal, which is told here as a failure.
pub fn write_all<O: Write, E: Print>(
    output: &mut O,
    errors: &E,
    name: &[u8],
    bytes: &[u8],
) -> Result<(), WriteError>
    ensures { OnOk result (Appends (O.contents output.old) (O.contents output.new) bytes.now) }
{
    let mut done = 0;
    while done < bytes.len() {
        match output.write(&bytes[done..]) {
            Ok(0) => {
                let _ = errors.write_all(name);
                let _ = errors.write_all(b": not all was written\n");
                return Err(WriteError::Failed);
            }
            Ok(n) => done += n,
            Err(error) => return Err(write_error(errors, name, error)),
        }
    }
    Ok(())
}

// Reads standard input.
pub fn read_input<R: std::io::Input + Outputs>(rt: &R, bytes: &mut [u8]) -> Option<usize>
    ensures { IfSome result (λ n. IsPrefixLen n bytes.new) }
{
    read_all(rt, &mut rt.reader(), b"standard input", bytes)
}

// Writes to standard output.
pub fn write_output<R: Outputs>(rt: &R, bytes: &[u8]) -> Result<(), WriteError> {
    write_all(&mut io::writer(rt), &rt.errors(), b"standard output", bytes)
}

// Writes to standard error.
pub fn write_message<R: Outputs>(rt: &R, bytes: &[u8]) -> Result<(), WriteError> {
    let errors = rt.errors();
    write_all(&mut io::writer(&errors), &errors, b"standard error", bytes)
}

// Ends a program: writes what is to be printed of its text, the first bytes of the buffer, to standard output, and of a
// refusal a line to standard error that says in plain words what it means.
pub fn write_answer<R: Outputs>(rt: &R, printed: Printed, buffer: &[u8]) -> ExitCode
    requires { printed.length ≤ length buffer.now }
{
    if write_output(rt, &buffer[..printed.length]) == Err(WriteError::Closed) {
        return ExitCode::from(CLOSED);
    }
    let mut message = [0u8; MESSAGE];
    let said = public_messages::explain(printed.number, printed.line, printed.entry, &mut message);
    let _ = write_message(rt, &message[..said]);
    ExitCode::SUCCESS
}
