// What a vector is read by: a number of two bytes, and as many bytes from a reader as it says.
#![tactic(auto)]

ghost use Rattle.std.specs.Prelude.{◌≡◌, ◌+◌, ◌*◌, ◌≤◌, length};

use std::io;
use std::io::Read;

// Two bytes, the high one first.
pub fn pair(high: u8, low: u8) -> usize
    ensures value { result ≡ high * 256 + low }
    ensures upper_bound { result ≤ 65535 }
{
    (high as usize) * 256 + (low as usize)
}

// Fills the first n bytes of a buffer from a reader. Where a read fails, its error is the answer, and the buffer keeps its length.
pub fn fill<R: Read>(from: &mut R, buf: &mut [u8], n: usize) -> io::Result<bool>
    ensures length_after { length buf.new ≡ length buf.old }
{
    if buf.len() < n {
        return Ok(false);
    }
    let got = filling::read_full(from, &mut buf[..n])?;
    Ok(got == n)
}
