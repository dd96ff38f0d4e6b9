// Numbers as integers: unsigned ones of 16 and 32 bits, and signed ones of 64.
#![tactic(auto)]

ghost use Rattle.std.specs.Prelude.{◌≡◌, ◌-◌, ◌^◌, ◌≤◌, pos, neg_ℤ};
ghost use Rattle.number.specs.Number.{unsigned_of};
ghost use Rattle.integer.specs.Integer.{signed_of};

use number::NumberError;

pub fn read_u16(s: &[u8]) -> Result<u16, NumberError>
    ensures { result ≡ unsigned_of 65535 s.now }
{
    let n = number::read_unsigned(s, 0xffff)?;
    Ok(n as u16)
}

pub fn read_u32(s: &[u8]) -> Result<u32, NumberError>
    ensures { result ≡ unsigned_of (2 ^ 32 - 1) s.now }
{
    let n = number::read_unsigned(s, 0xffff_ffff)?;
    Ok(n as u32)
}

// The negative of a number of at most 2^63, whose last one no i64 holds as a positive number.
fn minus(n: u64) -> i64
    requires { n ≤ 2 ^ 63 }
    ensures { result ≡ neg_ℤ (pos n) }
{
    if n == 0x8000_0000_0000_0000 {
        return -0x8000_0000_0000_0000;
    }
    -(n as i64)
}

// An optional sign and decimal digits, for a signed number of 64 bits. Always inlined: its result would else be handed back through memory.
#[inline(always)]
pub fn read_signed(s: &[u8]) -> Result<i64, NumberError>
    ensures { result ≡ signed_of s.now }
{
    if byte::at(s, 0) == b'-' {
        let n = number::digits_from(s, 1, 10, 0x8000_0000_0000_0000)?;
        Ok(minus(n))
    } else {
        let n = number::read_unsigned(s, 0x7fff_ffff_ffff_ffff)?;
        Ok(n as i64)
    }
}
