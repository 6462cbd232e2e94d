// Bytes, numbers and lines written into a lent buffer from a place on, as far as it has room. The place stands beside
// the buffer: a struct of both would hold the lent slice, and each contract would have to say besides that it still is
// the same one (as that of text_outputs's Part does).
#![tactic(auto)]

ghost use Rattle.std.specs.Prelude.{[], ◌∷◌, map, ◌≤◌, ◌<◌, ◌+◌, ◌*◌, length};
ghost use Rattle.spec_text.specs.Bytes.{bytes};
ghost use Rattle.spec_text.specs.Decimal.{decimal};
ghost use Rattle.spec_text.specs.WrittenLines.{fields_behind, line_of};
ghost use Rattle.report_bytes.specs.Writes.{Writes};

// A byte.
#[tactic(auto, unfolding(crate::specs::Writes::put))]
pub fn put_byte(buffer: &mut [u8], at: usize, byte: u8) -> usize
    requires { at < 4294967296 }
    ensures { Writes (byte ∷ []) 1 at buffer.old result buffer.new }
{
    if at < buffer.len() {
        buffer[at] = byte;
    }
    at + 1
}

// Bytes.
pub fn put_bytes(buffer: &mut [u8], at: usize, bytes: &[u8]) -> usize
    requires { at + length bytes.now ≤ 4294967296 }
    ensures { Writes bytes.now (length bytes.now) at buffer.old result
        buffer.new }
{
    let mut next = at;
    for byte in bytes {
        next = put_byte(buffer, next, *byte);
    }
    next
}

// A number in base ten.
pub fn put_decimal(buffer: &mut [u8], at: usize, n: u32) -> usize
    requires { at + 10 ≤ 4294967296 }
    ensures { Writes (decimal n) 10 at buffer.old result buffer.new }
{
    if n < 10 {
        return put_byte(buffer, at, b'0' + n as u8);
    }
    let next = put_decimal(buffer, at, n / 10);
    put_byte(buffer, next, b'0' + (n % 10) as u8)
}

// A number in base ten, whose digits are only counted where there is no room for the first.
fn put_number(buffer: &mut [u8], at: usize, n: u32) -> usize
    requires { at + 10 ≤ 4294967296 }
    ensures { Writes (decimal n) 10 at buffer.old result buffer.new }
{
    if buffer.len() <= at {
        return at + text_lines::width(n);
    }
    put_decimal(buffer, at, n)
}

// Numbers, each behind a tab, and the line feed.
pub fn put_fields(buffer: &mut [u8], at: usize, numbers: &[u32]) -> usize
    requires { at + (11 * length numbers.now + 1) ≤ 4294967296 }
    ensures { Writes (fields_behind (map decimal numbers.now))
        (11 * length numbers.now + 1) at buffer.old result buffer.new }
{
    let mut next = at;
    for n in numbers {
        let tab = put_byte(buffer, next, b'\t');
        next = put_number(buffer, tab, *n);
    }
    put_byte(buffer, next, b'\n')
}

// A line: its first field, and numbers. That of text_lines fills a part of known length from its end; of the report's
// lines no length is known before they are written.
pub fn put_line(buffer: &mut [u8], at: usize, first: &[u8], numbers: &[u32]) -> usize
    requires { at + (length first.now + (11 * length numbers.now + 1)) ≤ 4294967296 }
    ensures { Writes (line_of first.now numbers.now)
        (length first.now + (11 * length numbers.now + 1)) at buffer.old result
        buffer.new }
{
    let next = put_bytes(buffer, at, first);
    put_fields(buffer, next, numbers)
}
