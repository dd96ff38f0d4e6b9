// Groups of an IPv6 address in text: RFC 4291, section 2.2, between colons and around a double colon.
#![tactic(auto)]

ghost use Rattle.std.specs.Prelude.{◌≡◌};
ghost use Rattle.split.specs.Split.{split};
ghost use Rattle.groups.specs.Eight.{packed};
ghost use Rattle.group_text.specs.Text.{group_of, groups_of, side_of, gap_at, pushed_last};

use groups::Groups;

// One to four hex digits.
#[tactic(auto, unfolding(crate::specs::Text::group_of))]
fn read_group(s: &[u8]) -> Option<u16>
    ensures { result ≡ group_of s.now }
{
    if 4 < s.len() {
        return None;
    }
    let n = number::read_digits(s, number::Radix::Sixteen, 65535).ok()?;
    Some(n as u16)
}

// The last piece: a group, or an IPv4 text where one may stand, which makes two.
fn push_last(g: Option<Groups>, p: &[u8], tail: bool) -> Option<Groups>
    ensures { result ≡ pushed_last tail g p.now }
{
    if !tail {
        return groups::push(g, read_group(p));
    }
    match ipv4::read_v4(p) {
        Some(v) => groups::push(
            groups::push(g, Some((v / 65536) as u16)),
            Some((v % 65536) as u16),
        ),
        None => groups::push(g, read_group(p)),
    }
}

// Groups with a colon between each two.
pub fn read_groups(s: &[u8], tail: bool) -> Option<Groups>
    ensures { result ≡ packed (groups_of tail (split 58 s.now)) }
{
    let mut g = Some(groups::no_groups());
    let mut i: usize = 0;
    let mut e = split::find(s, 0, b':');
    // The place moves by a piece: this loop counts no index.
    while e < s.len() {
        g = groups::push(g, read_group(&s[i..e]));
        i = e + 1;
        e = split::find(s, i, b':');
    }
    push_last(g, &s[i..e], tail)
}

// What stands on one side of a double colon.
pub fn read_side(s: &[u8], tail: bool) -> Option<Groups>
    ensures { result ≡ packed (side_of tail s.now) }
{
    if s.len() == 0 {
        return Some(groups::no_groups());
    }
    read_groups(s, tail)
}

// The place of the first double colon, or the end.
pub fn find_gap(s: &[u8]) -> usize
    ensures { result ≡ gap_at s.now }
{
    for i in 0..s.len() {
        if byte::stands_at(b"::", i, s) {
            return i;
        }
    }
    s.len()
}
