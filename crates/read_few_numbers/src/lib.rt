// The numbers of a line, as an array.
#![tactic(auto)]

ghost use Rattle.std.specs.Prelude.{◌≡◌};
ghost use Rattle.spec_text.specs.Lines.{numbers};
ghost use Rattle.read_fields.specs.FieldPlaces.{fields_at};

use read_fields::read_numbers;

// The numbers of the fields from a place of a line on, where they are N.
pub fn numbers_at<const N: usize>(line: &[u8], from: usize) -> Option<[u32; N]>
    ensures { result ≡ numbers N (fields_at line.now from) }
{
    let mut read = [0; N];
    read_numbers(line, from, &mut read)?;
    Some(read)
}
