// A lent buffer filled from a reader.
#![tactic(auto)]

ghost use Rattle.std.specs.Prelude.{◌≡◌, ◌≤◌, length, take, IfOk};

use std::io;
use std::io::Read;

// Reads until `buf` is full or the input ends, and answers how many bytes were put at its start. Where a read fails, its error is the
// answer, and `buf` keeps its length; which bytes it holds then is not promised.
// The place moves by what a read gives, and counts no index.
pub fn read_full<R: Read>(from: &mut R, buf: &mut [u8]) -> io::Result<usize>
    ensures within { IfOk result (λ n. n ≤ length buf.new) }
    ensures prefix { IfOk result (λ n. n ≡ length (take n buf.new)) }
    ensures length_after { length buf.new ≡ length buf.old }
{
    let mut done = 0;
    while done < buf.len() {
        let n = from.read(&mut buf[done..])?;
        if n == 0 {
            break;
        }
        done += n;
    }
    Ok(done)
}
