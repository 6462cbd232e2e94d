// A refusal in plain words: a public function that fills a buffer of fixed length with the line that a program writes
// to standard error. It has no `requires`.
#![tactic(auto)]

ghost use Rattle.std.specs.Prelude.{◌≡◌, ◌≤◌, ◌+◌, length, option_map};
ghost use Rattle.std.specs.Bool.{then_some};
ghost use Rattle.spec_text.specs.FirstPlaces.{in_first_places};
ghost use Rattle.io.specs.Counts.{IsPrefixLen};
ghost use Rattle.report_bytes.specs.Writes.{Writes};
ghost use Rattle.public_messages.specs.Messages.{meaning, refuses, entry_part, where_met, refusal_line, message};

// Room for every line.
pub const MESSAGE: usize = 200;

// What a number means, where it refuses.
fn meaning_of(number: u32) -> Option<&'static [u8]>
    ensures { option_map (λ x. x.now) result ≡ then_some (refuses number) (meaning number) }
{
    let sentence: &[u8] = match number {
        1 => b"the text has more than 65,536 bytes",
        2 => b"the first field is no known word, or the last line has no line feed",
        3 => b"a line of this kind cannot stand here, or the text ends too early",
        4 =>
            b"the count of fields is wrong, or one is no number from 0 to 4,294,967,295 without leading zeros",
        5 => b"too many: there can be 32 updates, 16 moves in an update and 4,000 entries",
        6 => b"P and C must be from 1 to 8, and N, B and S from 1 to 16",
        7 => b"the job's card is not below P, or its priority is over 255",
        8 => b"an earlier job has the same card and priority",
        9 => b"a word that the move names is not below B times S",
        10 => b"with this move the update writes more than C blocks",
        11 => b"there is no such job or no such update",
        12 => b"the job is active: its last call has not returned",
        13 => b"the card is not below P",
        14 => b"no job is active on the card",
        15 => b"the buffer is too short for what is to be written",
        16 => b"a run has from 1 to 4,000 steps",
        17 => b"the update's number is not the next one, counted from 0",
        _ => return None,
    };
    Some(sentence)
}

// The entry that is refused, where one is.
#[tactic(auto, using(report_bytes::proofs::Writes::then), unfolding(report_bytes::specs::Writes::put))]
fn put_entry(buffer: &mut [u8], at: usize, entry: u32) -> usize
    requires { at + 18 ≤ 4294967296 }
    ensures { Writes (entry_part entry) 18 at buffer.old result buffer.new }
{
    if entry == 0 {
        return at;
    }
    let next = report_bytes::put_bytes(buffer, at, b", entry ");
    report_bytes::put_decimal(buffer, next, entry)
}

// Where a refusal was met, at the buffer's start.
#[tactic(auto, unfolding(report_bytes::specs::Writes::put))]
fn put_where_met(buffer: &mut [u8], line: u32, entry: u32) -> usize
    ensures { Writes (where_met line entry) 35 0 buffer.old result buffer.new }
{
    if line == 0 {
        return 0;
    }
    let start = report_bytes::put_bytes(buffer, 0, b"line ");
    let behind = report_bytes::put_decimal(buffer, start, line);
    let end = put_entry(buffer, behind, entry);
    report_bytes::put_bytes(buffer, end, b": ")
}

// The line of a refusal, at the buffer's start.
fn put_refusal(buffer: &mut [u8], number: u32, line: u32, entry: u32, sentence: &[u8]) -> usize
    requires { sentence.now ≡ meaning number }
    ensures { Writes (refusal_line number line entry) 161 0 buffer.old result buffer.new }
{
    let start = put_where_met(buffer, line, entry);
    let with = report_bytes::put_bytes(buffer, start, b"refused with ");
    let colon = report_bytes::put_decimal(buffer, with, number);
    let meaning = report_bytes::put_bytes(buffer, colon, b": ");
    let end = report_bytes::put_bytes(buffer, meaning, sentence);
    report_bytes::put_byte(buffer, end, b'\n')
}

// What is said of an end, by its number, its line and the number of the entry that is refused, 0 where none is. Answers
// how many bytes of the buffer it is.
pub fn explain(number: u32, line: u32, entry: u32, buffer: &mut [u8; MESSAGE]) -> usize
    ensures value { result ≡ length (message number line entry) }
    ensures prefix_len { IsPrefixLen result buffer.new }
    ensures buffer_after { buffer.new ≡ in_first_places (message number line entry) buffer.old }
{
    let Some(sentence) = meaning_of(number) else {
        return 0;
    };
    put_refusal(buffer, number, line, entry, sentence)
}
