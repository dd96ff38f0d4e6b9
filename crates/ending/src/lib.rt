// How a reading ends: its numbers, and what is left in the decode buffer of a text refused or accepted.
#![tactic(auto)]

ghost use Rattle.std.specs.Prelude.{◌≡◌, ◌-◌, replicate};
ghost use Rattle.byte.specs.Put.{written};
ghost use Rattle.lists.specs.Fault.{number_of, key_of};
ghost use Rattle.ending.specs.Ending.{ending};

use lists::Fault;

// What is told of a reading, without a record.
#[derive(Clone, Copy, Debug, PartialEq, Eq, Hash)]
pub struct Ending {
    pub number: usize,
    pub key: usize,
    pub count: usize,
}

pub fn end(number: usize, key: usize, count: usize) -> Ending
    ensures { result ≡ ending number key count }
{
    Ending { number, key, count }
}

// A text of `n` bytes refused: zeros up to its length.
pub fn refuse_text(decode: &mut [u8], n: usize, number: usize, key: usize, count: usize) -> Ending
    ensures value { result ≡ ending number key count }
    ensures decode_after { decode.new ≡ written decode.old 0 (replicate n 0) }
{
    byte::clear(decode, 0, n);
    end(number, key, count)
}

// A text of `n` bytes refused at a setting of some kind. It takes the verdict, as it did before, and not a fault alone.
pub fn refuse_setting(
    decode: &mut [u8],
    n: usize,
    verdict: Result<(), Fault>,
    kind: usize,
    count: usize,
) -> Ending
    ensures value { result ≡ ending (number_of verdict) (key_of verdict kind) count }
    ensures decode_after { decode.new ≡ written decode.old 0 (replicate n 0) }
{
    refuse_text(
        decode,
        n,
        lists::number_of(verdict),
        lists::key_of(verdict, kind),
        count,
    )
}

// A text of `n` bytes accepted: what is packed stays, zeros up to the text's length.
pub fn accept(decode: &mut [u8], n: usize, packed: usize, count: usize) -> Ending
    ensures value { result ≡ ending 0 0 count }
    ensures decode_after { decode.new ≡ written decode.old packed (replicate (n - packed) 0) }
{
    byte::clear(decode, packed, n.saturating_sub(packed));
    end(0, 0, count)
}
