// Digits in a base: whether a piece has no others, and whether a number stays within a range with one more.
#![tactic(auto)]

ghost use Rattle.std.specs.Prelude.{◌≡◌, ◌+◌, ◌*◌, ◌<◌, leb, drop};
ghost use Rattle.digits.specs.Digits.{all_digits};

// Whether every byte from a place on is a digit.
pub fn all_digits(s: &[u8], from: usize, base: u8) -> bool
    ensures { result ≡ all_digits base (drop from s.now) }
{
    if s.len() <= from {
        return true;
    }
    s[from..].iter().all(|&b| byte::digit_of(b) < base)
}

// Whether `v` with the digit `d` behind it stays within `max`, told without a product that could wrap. The first test divides the same two numbers
// at each digit, so that a compiler divides once, and only the digits at the end of the range go further.
pub fn stays(v: u64, base: u64, d: u64, max: u64) -> bool
    requires base_nonzero { 0 < base }
    requires d_lt_base { d < base }
    ensures { result ≡ leb (v * base + d) max }
{
    if v < max / base {
        return true;
    }
    if max < d {
        return false;
    }
    v <= (max - d) / base
}
