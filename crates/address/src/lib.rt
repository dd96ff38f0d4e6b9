// Addresses: IPv4 in four decimal parts, and IPv6 in the text forms of RFC 4291, section 2.2.
#![tactic(auto)]

ghost use Rattle.std.specs.Prelude.{◌≡◌};
ghost use Rattle.address.specs.Address.{v6_of, address_of};
ghost use Rattle.address.specs.Steps.{whole_at, around_at};

use groups::Groups;

#[derive(Clone, Copy, Debug, PartialEq, Eq)]
pub enum Kind {
    V4(u32),
    // The first four groups, and the last four.
    V6(u64, u64),
}

#[derive(Clone, Copy, Debug, PartialEq, Eq)]
pub struct Address {
    pub kind: Kind,
}

// Eight groups, none left out.
#[tactic(auto, unfolding(crate::specs::Steps::whole_at))]
fn whole(groups: Option<Groups>) -> Option<Address>
    ensures { result ≡ whole_at groups }
{
    let g = groups?;
    if g.n != 8 {
        return None;
    }
    let none = groups::no_groups();
    let kind = Kind::V6(groups::quad_at(g, none, 0), groups::quad_at(g, none, 4));
    Some(Address { kind })
}

// At most seven groups around a double colon.
#[tactic(auto, unfolding(crate::specs::Steps::around_at))]
fn around(left: Option<Groups>, right: Option<Groups>) -> Option<Address>
    ensures { result ≡ around_at left right }
{
    let l = left?;
    let r = right?;
    if 7 < l.n || 7 - l.n < r.n {
        return None;
    }
    let kind = Kind::V6(groups::quad_at(l, r, 0), groups::quad_at(l, r, 4));
    Some(Address { kind })
}

fn read_v6(s: &[u8]) -> Option<Address>
    ensures { result ≡ v6_of s.now }
{
    let gap = group_text::find_gap(s);
    if s.len() <= gap {
        return whole(group_text::read_groups(s, true));
    }
    let behind = gap + 2;
    around(
        group_text::read_side(&s[..gap], false),
        group_text::read_side(&s[behind..], true),
    )
}

#[tactic(auto, unfolding(crate::specs::Address::address_of))]
pub fn read_address(s: &[u8]) -> Option<Address>
    ensures { result ≡ address_of s.now }
{
    match ipv4::read_v4(s) {
        Some(v) => Some(Address { kind: Kind::V4(v) }),
        None => read_v6(s),
    }
}
