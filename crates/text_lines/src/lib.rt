// Numbers and lines written into a lent buffer. How long a line is comes first, by arithmetic; the line then fills
// exactly its own part of the buffer, its numbers from the last to the first.
#![tactic(auto)]

ghost use Rattle.std.specs.Prelude.{◌≡◌, map, ◌∷◌, ◌++◌, ◌≤◌, ◌+◌, ◌*◌, length, take};
ghost use Rattle.spec_text.specs.Decimal.{decimal};
ghost use Rattle.spec_text.specs.WrittenLines.{fields_behind, line_of};
ghost use Rattle.text_lines.specs.Fills.{Fills};

// How many digits a number has.
pub fn width(n: u32) -> usize
    ensures { result ≡ length (decimal n) }
{
    // Most numbers of a text have one digit.
    if n < 10 {
        return 1;
    }
    match n.checked_ilog10() {
        Some(k) => k as usize + 1,
        None => 1,
    }
}

// How long the fields of numbers are, each behind a tab, with the line feed.
#[tactic(auto, using(crate::proofs::FieldsWritten::field_lengths))]
fn fields_length(numbers: &[u32]) -> usize
    requires { length numbers.now ≤ 4096 }
    ensures value { result ≡ length (fields_behind (map decimal numbers.now)) }
    ensures upper_bound { result ≤ 11 * length numbers.now + 1 }
{
    let mut length = 1;
    for n in numbers {
        length += 1 + width(*n);
    }
    length
}

// How long a line is, by the length of its first field and its numbers.
pub fn line_length(first: usize, numbers: &[u32]) -> usize
    requires { (first ≤ 4096) × (length numbers.now ≤ 4096) }
    ensures value { result ≡ first + length (fields_behind (map decimal numbers.now)) }
    ensures upper_bound { result ≤ first + (11 * length numbers.now + 1) }
{
    first + fields_length(numbers)
}

// The digits of a number at the end of a part, the last first. Answers where they begin.
fn fill_decimal(part: &mut [u8], n: u32) -> usize
    requires { length (decimal n) ≤ length part.old }
    ensures place { result + length (decimal n) ≡ length part.old }
    ensures part_after { part.new ≡ take result part.old ++ decimal n }
{
    let mut rest = n;
    // By place, since the place is the answer.
    for at in (0..part.len()).rev() {
        if rest < 10 {
            part[at] = b'0' + rest as u8;
            return at;
        }
        part[at] = b'0' + (rest % 10) as u8;
        rest /= 10;
    }
    unreachable!()
}

// A number's field, its tab and its digits, at the end of a part. Answers where it begins.
fn fill_field(part: &mut [u8], n: u32) -> usize
    requires { 1 + length (decimal n) ≤ length part.old }
    ensures place { result + (1 + length (decimal n)) ≡ length part.old }
    ensures part_after { part.new ≡ take result part.old ++ (9 ∷ decimal n) }
{
    let at = fill_decimal(part, n) - 1;
    part[at] = b'\t';
    at
}

// The fields of numbers, each behind a tab, and the line feed, in their own part.
fn fill_fields(part: &mut [u8], numbers: &[u32])
    requires { length part.old ≡ length (fields_behind (map decimal numbers.now)) }
    ensures { part.new ≡ fields_behind (map decimal numbers.now) }
{
    let mut at = part.len() - 1;
    part[at] = b'\n';
    for n in numbers.iter().rev() {
        at = fill_field(&mut part[..at], *n);
    }
}

// A line, its first field and numbers, in its own part.
fn fill_line(part: &mut [u8], first: &[u8], numbers: &[u32])
    requires { length part.old ≡ length (line_of first.now numbers.now) }
    ensures { part.new ≡ line_of first.now numbers.now }
{
    let (front, behind) = part.split_at_mut(first.len());
    front.copy_from_slice(first);
    fill_fields(behind, numbers);
}

// A line from a place on to a place behind it, as far apart as the line is long.
#[inline]
pub fn put_line_to(buffer: &mut [u8], at: usize, end: usize, first: &[u8], numbers: &[u32])
    requires length { end ≡ at + length (line_of first.now numbers.now) }
    requires room { end ≤ length buffer.old }
    ensures { Fills (line_of first.now numbers.now) at buffer.old end buffer.new }
{
    fill_line(&mut buffer[at..end], first, numbers);
}

// A line from a place on, where the buffer has room for it. Answers the place behind it.
pub fn put_line(buffer: &mut [u8], at: usize, first: &[u8], numbers: &[u32]) -> usize
    requires first_len_bound { (length first.now ≤ 4096) × (length numbers.now ≤ 4096) }
    requires numbers_in_bounds { at + length (line_of first.now numbers.now) ≤ length buffer.old }
    ensures { Fills (line_of first.now numbers.now) at buffer.old result
        buffer.new }
{
    let end = at + line_length(first.len(), numbers);
    put_line_to(buffer, at, end, first, numbers);
    end
}
