// The parts of a text: the next line feed or tab, the number in a field, the numbers of a line. Each function
// equals its definition in specs/. Assumes nothing.
#![tactic(auto)]

ghost use Rattle.std.specs.Prelude.{◌≡◌, ◌≤◌, length, option_map, position, ◌==◌};
ghost use Rattle.spec_text.specs.Numbers.{number};
ghost use Rattle.spec_text.specs.Lines.{numbers};
ghost use Rattle.read_fields.specs.FieldPlaces.{place_of, field_at, fields_at};

// The place of the first byte x of s at or after a place, or s's length where there is none.
#[tactic(auto, unfolding(crate::specs::FieldPlaces::place_of))]
pub fn find(s: &[u8], from: usize, x: u8) -> usize
    requires { from ≤ length s.now }
    ensures { (result ≡ place_of x s.now from) × ((from ≤ result) × (result ≤ length s.now)) }
{
    let rest = &s[from..];
    from + first(rest, x).unwrap_or(rest.len())
}

// The place of the first byte x of s, where there is one.
fn first(s: &[u8], x: u8) -> Option<usize>
    ensures { result ≡ position (λ b. b == x) s.now }
{
    s.iter().position(|b| *b == x)
}

// The number that a field holds. A field of more bytes than one does not begin with 0.
#[tactic(auto, using(crate::proofs::Scanned::first_bytes))]
pub fn number_of(field: &[u8]) -> Option<u32>
    ensures { result ≡ number field.now }
{
    let [first, rest @ ..] = field else {
        return None;
    };
    // Most fields are one digit: it is read without the loop.
    if rest.is_empty() {
        if !first.is_ascii_digit() {
            return None;
        }
        return Some(u32::from(*first - b'0'));
    }
    if *first == b'0' {
        return None;
    }
    let mut n: u32 = 0;
    for b in field {
        if !b.is_ascii_digit() {
            return None;
        }
        n = n.checked_mul(10)?.checked_add(u32::from(*b - b'0'))?;
    }
    Some(n)
}

// The number in the field that starts at a place of a line, and where the next field starts. The place behind
// a line's last field is one past the line's end: no field starts there.
#[tactic(auto, unfolding(crate::specs::FieldPlaces::field_at))]
pub fn field_at(line: &[u8], at: usize) -> Option<(u32, usize)>
    ensures { result ≡ field_at line.now at }
{
    if line.len() < at {
        return None;
    }
    let end = find(line, at, b'\t');
    let n = number_of(&line[at..end])?;
    Some((n, end + 1))
}

// Fills out with the numbers of the fields from a place of a line on, where they are as many as out has places. Else
// there are none, and what out then holds is left open.
pub fn read_numbers(line: &[u8], from: usize, out: &mut [u32]) -> Option<()>
    ensures out_after { option_map (λ _. out.new) result ≡ numbers (length out.old) (fields_at line.now from) }
    ensures out_len_unchanged { length out.new ≡ length out.old }
{
    let mut at = from;
    for place in out.iter_mut() {
        let Some((n, next)) = field_at(line, at) else {
            return None;
        };
        *place = n;
        at = next;
    }
    (line.len() < at).then_some(())
}
