// Bytes of lent memory: total reads, tests, and writes that have room or write nothing.
#![tactic(auto)]

ghost use Rattle.std.specs.Prelude.{◌≡◌, [], ◌∷◌, ◌+◌, leb, length, get_or, replicate};
ghost use Rattle.byte.specs.Byte.{between, part_of};
ghost use Rattle.byte.specs.Same.{same, stands_at};
ghost use Rattle.byte.specs.Digit.{digit_of};
ghost use Rattle.byte.specs.Put.{written, after};

// The byte at a place, or 0 past the end.
pub fn at(s: &[u8], i: usize) -> u8
    ensures { result ≡ get_or s.now i 0 }
{
    if i < s.len() { s[i] } else { 0 }
}

// The bytes from `a` up to `e`, as far as they stand in `s`.
pub fn part(s: &[u8], a: usize, e: usize) -> &[u8]
    ensures { result.now ≡ part_of a e s.now }
{
    // Nearly every part lies inside.
    if a <= e && e <= s.len() {
        return &s[a..e];
    }
    if e <= a {
        return &s[0..0];
    }
    if s.len() <= a {
        return &s[0..0];
    }
    &s[a..]
}

pub fn is_between(lo: u8, hi: u8, c: u8) -> bool
    ensures { result ≡ between lo hi c }
{
    if lo <= c { c <= hi } else { false }
}

// The value of a hex digit of either case, or 16.
pub fn digit_of(b: u8) -> u8
    ensures { result ≡ digit_of b }
{
    if is_between(48, 57, b) {
        return b - 48;
    }
    if is_between(65, 70, b) {
        return b - 55;
    }
    if is_between(97, 102, b) {
        return b - 87;
    }
    16
}

pub fn equals(a: &[u8], b: &[u8]) -> bool
    ensures { result ≡ same a.now b.now }
{
    a == b
}

// Whether `w` stands in `s` from the place `at` on.
pub fn stands_at(w: &[u8], at: usize, s: &[u8]) -> bool
    ensures { result ≡ stands_at w.now at s.now }
{
    let n = w.len();
    if !has_room(s.len(), at, n) {
        return false;
    }
    let end = at + n;
    equals(&s[at..end], w)
}

// Whether `n` bytes fit from the place `at` on into `len`, told without a sum that could wrap.
pub fn has_room(len: usize, at: usize, n: usize) -> bool
    ensures { result ≡ leb (at + n) len }
{
    if len < at {
        return false;
    }
    n <= len - at
}

// Writes one byte, and answers the place behind it; with no room it writes nothing and answers `at`.
pub fn put(dst: &mut [u8], at: usize, b: u8) -> usize
    ensures value { result ≡ after dst.old at (b ∷ []) }
    ensures dst_after { dst.new ≡ written dst.old at (b ∷ []) }
{
    if dst.len() <= at {
        return at;
    }
    dst[at] = b;
    at + 1
}

// Copies `src` into `dst` from the place `at` on, and answers as `put` does. Not by `copy_from_slice`: it asks a C host for memmove, and the archive
// asks for no more of it than memcpy and memset.
pub fn copy(src: &[u8], dst: &mut [u8], at: usize) -> usize
    ensures value { result ≡ after dst.old at src.now }
    ensures dst_after { dst.new ≡ written dst.old at src.now }
{
    if !has_room(dst.len(), at, src.len()) {
        return at;
    }
    for (k, &b) in src.iter().enumerate() {
        dst[at + k] = b;
    }
    at + src.len()
}

// Sets `n` bytes of `dst` to zero from the place `at` on, and answers as `put` does.
pub fn clear(dst: &mut [u8], at: usize, n: usize) -> usize
    ensures value { result ≡ after dst.old at (replicate n 0) }
    ensures dst_after { dst.new ≡ written dst.old at (replicate n 0) }
{
    if !has_room(dst.len(), at, n) {
        return at;
    }
    let end = at + n;
    dst[at..end].fill(0);
    end
}
