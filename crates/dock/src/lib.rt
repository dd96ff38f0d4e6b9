// What a C host is given (crate dock_c exports it): a text read and answered by one number, with the report or the values left in memory that the host lends.
#![tactic(auto)]

ghost use Rattle.std.specs.Prelude.{◌≡◌, length};
ghost use Rattle.outcome.specs.Outcome.{answer, left};
ghost use Rattle.entry.specs.Entry.{entry, entry_left};
ghost use Rattle.answers.specs.Answers.{in_one};
ghost use Rattle.answers.specs.Places.{place};

use entry::REFUSED;
use outcome::Answer;
use places::NO_PLACE;

// A text's number, key and count: number + 2^8 · key + 2^16 · count.
pub fn nyimbrak_answer(text: &[u8], decode: &mut [u8]) -> u64
    ensures value { result ≡ in_one (answer text.now (length decode.old)) }
    ensures decode_after { decode.new ≡ left text.now decode.old }
{
    let a = reader::judge(text, decode);
    a.number as u64 + 256 * (a.key as u64) + 65536 * (a.count as u64)
}

// A text read, out of line: the stack of the reading is given back before a report is written.
#[inline(never)]
fn read_apart(text: &[u8], decode: &mut [u8]) -> Answer
    ensures value { result ≡ answer text.now (length decode.old) }
    ensures decode_after { decode.new ≡ left text.now decode.old }
{
    reader::read(text, decode)
}

// The length of a text's report, which is written into `report`; or 1,000,000 plus the refusal, with `report` as it was.
pub fn nyimbrak_read(text: &[u8], decode: &mut [u8], report: &mut [u8]) -> u32
    ensures value { result ≡ entry text.now decode.old (length report.old) }
    ensures decode_after { decode.new ≡ left text.now decode.old }
    ensures report_after { report.new ≡ entry_left text.now decode.old report.old }
{
    let a = read_apart(text, decode);
    if a.number != 0 {
        return REFUSED + a.number as u32;
    }
    entry::report_into(a.config, byte::part(decode, 0, text.len()), report)
}

// Where the value of a key, 1 to 5, lies in `decode`: 2^62 + 2^16 · start + length, or 0 where it is not set, or 2^63 plus the refusal.
pub fn nyimbrak_place(text: &[u8], decode: &mut [u8], key: u32) -> u64
    ensures value { result ≡ place text.now (length decode.old) key }
    ensures decode_after { decode.new ≡ left text.now decode.old }
{
    let a = reader::read(text, decode);
    if a.number != 0 {
        return NO_PLACE + a.number as u64;
    }
    places::place_of(places::text_of(a.config, key), text.len())
}
