// Values with backslashes: what a piece of one adds, and the whole decoded into lent memory.
#![tactic(auto)]

ghost use Rattle.std.specs.Prelude.{◌≡◌, ◌+◌, ◌&&◌, not, leb, eqb, length};
ghost use Rattle.byte.specs.Put.{written, after};
ghost use Rattle.backslash.specs.Backslash.{gained_at, unescaped};

// The place of the byte that a value gains at a place: behind a backslash the next one.
pub fn gained_at(s: &[u8], at: usize) -> usize
    ensures { result ≡ gained_at s.now at }
{
    if byte::at(s, at) == b'\\' { at + 1 } else { at }
}

// Whether a byte only tells that the next one is taken as it is, where the flag tells whether a backslash stands before it.
fn is_sign(behind: bool, b: u8) -> bool
    ensures { result ≡ not behind && eqb b 92 }
{
    !behind && b == b'\\'
}

// How long a value is once decoded.
fn unescaped_len(raw: &[u8]) -> usize
    ensures { result ≡ length (unescaped raw.now) }
{
    let mut behind = false;
    let mut len = 0;
    for &b in raw {
        if is_sign(behind, b) {
            behind = true;
            continue;
        }
        behind = false;
        len += 1;
    }
    len
}

// Whether a decoded value has room in `len` bytes from the place `at` on; it is measured only where it hasn't as it is written.
fn has_room(raw: &[u8], len: usize, at: usize) -> bool
    ensures { result ≡ leb (at + length (unescaped raw.now)) «len» }
{
    if byte::has_room(len, at, raw.len()) {
        return true;
    }
    let n = unescaped_len(raw);
    byte::has_room(len, at, n)
}

// Whether a value is as it is written once decoded.
fn is_as_written(raw: &[u8]) -> bool
    ensures { result ≡ eqb (length (unescaped raw.now)) (length raw.now) }
{
    !raw.contains(&b'\\')
}

// Writes a value decoded into `dst` from the place `at` on, and answers the place behind it; with no room it writes nothing and answers `at`.
pub fn unescape(src: &[u8], dst: &mut [u8], at: usize) -> usize
    ensures value { result ≡ after dst.old at (unescaped src.now) }
    ensures dst_after { dst.new ≡ written dst.old at (unescaped src.now) }
{
    if is_as_written(src) {
        return byte::copy(src, dst, at);
    }
    if !has_room(src, dst.len(), at) {
        return at;
    }
    let mut behind = false;
    let mut k = 0;
    for &b in src {
        if is_sign(behind, b) {
            behind = true;
            continue;
        }
        dst[at + k] = b;
        k += 1;
        behind = false;
    }
    at + k
}
