// Numbers written into lent memory: plain decimal, and hex digits of a fixed count. With no room nothing is written.
#![tactic(auto)]

ghost use Rattle.std.specs.Prelude.{◌≡◌, true, false, ◌+◌, ◌<◌, ◌≤◌, length};
ghost use Rattle.byte.specs.Put.{written, after};
ghost use Rattle.decimal.specs.Decimal.{digit_byte, fixed_digits, hex_digits, decimal};

fn digit_byte(upper: bool, d: u8) -> u8
    requires { d < 16 }
    ensures { result ≡ digit_byte upper d }
{
    if d < 10 {
        return 48 + d;
    }
    if upper {
        return 55 + d;
    }
    87 + d
}

// The last `width` digits of `n`, written from the last one backwards.
fn put_fixed(n: u64, base: u64, upper: bool, width: usize, dst: &mut [u8], at: usize) -> usize
    requires { (0 < base) × (base ≤ 16) }
    ensures value { result ≡ after dst.old at (fixed_digits base upper width n) }
    ensures dst_after { dst.new ≡ written dst.old at (fixed_digits base upper width n) }
{
    if !byte::has_room(dst.len(), at, width) {
        return at;
    }
    let mut m = n;
    for done in 0..width {
        dst[at + (width - 1 - done)] = digit_byte(upper, (m % base) as u8);
        m /= base;
    }
    at + width
}

// How many digits `n` has in decimal. The loop goes by what is left of the number, and counts no index.
pub fn decimal_len(n: u64) -> usize
    ensures { result ≡ length (decimal n) }
{
    let mut m = n;
    let mut len: usize = 1;
    while 10 <= m {
        m = m / 10;
        len += 1;
    }
    len
}

// Writes `n` in decimal, and answers the place behind it.
pub fn put_decimal(n: u64, dst: &mut [u8], at: usize) -> usize
    ensures value { result ≡ after dst.old at (decimal n) }
    ensures dst_after { dst.new ≡ written dst.old at (decimal n) }
{
    put_fixed(n, 10, false, decimal_len(n), dst, at)
}

// Writes a byte as two upper-case hex digits.
pub fn put_hex2_upper(b: u8, dst: &mut [u8], at: usize) -> usize
    ensures value { result ≡ after dst.old at (hex_digits true 2 b) }
    ensures dst_after { dst.new ≡ written dst.old at (hex_digits true 2 b) }
{
    put_fixed(b as u64, 16, true, 2, dst, at)
}

// Writes a group of an IPv6 address as four lower-case hex digits.
pub fn put_hex4_lower(g: u16, dst: &mut [u8], at: usize) -> usize
    ensures value { result ≡ after dst.old at (hex_digits false 4 g) }
    ensures dst_after { dst.new ≡ written dst.old at (hex_digits false 4 g) }
{
    put_fixed(g as u64, 16, false, 4, dst, at)
}
