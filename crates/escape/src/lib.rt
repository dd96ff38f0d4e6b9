// A byte as it stands in a report, or escaped.
#![tactic(auto)]

ghost use Rattle.std.specs.Prelude.{◌≡◌, length};
ghost use Rattle.byte.specs.Byte.{pick};
ghost use Rattle.byte.specs.Put.{written, after};
ghost use Rattle.escape.specs.Escape.{plain, all_plain, escape};

// Whether a byte stands as it is.
fn is_plain(b: u8) -> bool
    ensures { result ≡ plain b }
{
    if !byte::is_between(0x21, 0x7E, b) {
        return false;
    }
    b != b'%'
}

pub fn escape_len(b: u8) -> usize
    ensures { result ≡ length (escape b) }
{
    if is_plain(b) { 1 } else { 3 }
}

// Writes a byte as it stands or escaped; with no room it writes nothing.
pub fn write_escape(b: u8, dst: &mut [u8], at: usize) -> usize
    ensures value { result ≡ after dst.old at (escape b) }
    ensures dst_after { dst.new ≡ written dst.old at (escape b) }
{
    if is_plain(b) {
        return byte::put(dst, at, b);
    }
    if !byte::has_room(dst.len(), at, 3) {
        return at;
    }
    let digits = byte::put(dst, at, b'%');
    decimal::put_hex2_upper(b, dst, digits)
}

// 0 for a byte that stands as it is, 1 for one that is escaped.
fn mark(b: u8) -> u8
    ensures { result ≡ pick (plain b) 0 1 }
{
    if is_plain(b) { 0 } else { 1 }
}

// Whether every byte stands as it is: by the greatest mark, since a loop that leaves early is not made into wide steps.
pub fn all_plain(x: &[u8]) -> bool
    ensures { result ≡ all_plain x.now }
{
    let mut most = 0u8;
    for &b in x {
        most = most.max(mark(b));
    }
    most == 0
}
