// Percent decoding, written into lent memory.
#![tactic(auto)]

ghost use Rattle.std.specs.Prelude.{◌≡◌, ◌+◌, leb, length};
ghost use Rattle.byte.specs.Put.{written, after};
ghost use Rattle.percent.specs.Percent.{decoded};

// Whether the decoded text has room in `len` bytes from the place `at` on; measured only where the text as it stands has none.
pub fn has_room(s: &[u8], len: usize, at: usize) -> bool
    ensures { result ≡ leb (at + length (decoded s.now)) len }
{
    if byte::has_room(len, at, s.len()) {
        return true;
    }
    let n = percent::decoded_len(s);
    byte::has_room(len, at, n)
}

// Writes the decoded text into `dst` from the place `at` on, and answers the place behind it; with no room it writes nothing and answers `at`.
// Up to the first `%` bytes are copied. Everything else stands apart in one function, so that a plain text, as most are, is copied with no call.
pub fn decode(src: &[u8], dst: &mut [u8], at: usize) -> usize
    ensures value { result ≡ after dst.old at (decoded src.now) }
    ensures dst_after { dst.new ≡ written dst.old at (decoded src.now) }
{
    if !byte::has_room(dst.len(), at, src.len()) {
        return decode_pieces(src, dst, at);
    }
    for (k, &b) in src.iter().enumerate() {
        if b == b'%' {
            return decode_pieces(&src[k..], dst, at + k);
        }
        dst[at + k] = b;
    }
    at + src.len()
}

// The same, piece by piece.
#[inline(never)]
fn decode_pieces(src: &[u8], dst: &mut [u8], at: usize) -> usize
    ensures value { result ≡ after dst.old at (decoded src.now) }
    ensures dst_after { dst.new ≡ written dst.old at (decoded src.now) }
{
    if !has_room(src, dst.len(), at) {
        return at;
    }
    let mut k = 0;
    for one in percent::decoding(src) {
        dst[at + k] = one;
        k += 1;
    }
    at + k
}
