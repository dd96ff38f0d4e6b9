// Numbers in digits, within a range: the answer tells a fault of form from one of range.
#![tactic(auto)]

ghost use Rattle.std.specs.Prelude.{◌≡◌, drop};
ghost use Rattle.byte.specs.Byte.{pick};
ghost use Rattle.number.specs.declared.NumberError.{NumberError};
ghost use Rattle.number.specs.Digits.{all_digits};
ghost use Rattle.number.specs.Number.{radix_of, digits_in, unsigned_of};

// The bases that digits are read in.
#[derive(Clone, Copy)]
pub enum Radix {
    Ten,
    Sixteen,
}

// What is wrong with a piece that is no number within the range.
#[derive(Clone, Copy, Debug, PartialEq, Eq)]
pub enum NumberError {
    Form,
    Range,
}

// What a piece is whose digits up to the place `from` are beyond the range: a fault of form behind it still goes first.
fn beyond(s: &[u8], from: usize, base: u8) -> NumberError
    ensures { result ≡ pick (all_digits base (drop from s.now)) NumberError.Range NumberError.Form }
{
    if digits::all_digits(s, from, base) {
        NumberError::Range
    } else {
        NumberError::Form
    }
}

// The digits from a place on.
pub fn digits_from(s: &[u8], from: usize, base: u8, max: u64) -> Result<u64, NumberError>
    ensures { result ≡ digits_in base max (drop from s.now) }
{
    if s.len() <= from {
        return Err(NumberError::Form);
    }
    let mut v: u64 = 0;
    for i in from..s.len() {
        let d = byte::digit_of(s[i]);
        if base <= d {
            return Err(NumberError::Form);
        }
        if !digits::stays(v, base as u64, d as u64, max) {
            return Err(beyond(s, i + 1, base));
        }
        v = v * base as u64 + d as u64;
    }
    Ok(v)
}

// One or more digits that stand for a number of at most `max`; no sign.
pub fn read_digits(s: &[u8], radix: Radix, max: u64) -> Result<u64, NumberError>
    ensures { result ≡ digits_in (radix_of radix) max s.now }
{
    match radix {
        Radix::Ten => digits_from(s, 0, 10, max),
        Radix::Sixteen => digits_from(s, 0, 16, max),
    }
}

// An optional `+` and decimal digits, for a number of at most `max`.
pub fn read_unsigned(s: &[u8], max: u64) -> Result<u64, NumberError>
    ensures { result ≡ unsigned_of max s.now }
{
    if byte::at(s, 0) == b'+' {
        digits_from(s, 1, 10, max)
    } else {
        digits_from(s, 0, 10, max)
    }
}
