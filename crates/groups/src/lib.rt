// Groups of an IPv6 address in an array of eight.
#![tactic(auto)]

ghost use Rattle.std.specs.Prelude.{◌≡◌, [], ◌<◌, ◌≤◌};
ghost use Rattle.groups.specs.Eight.{holding, pushed, group_at, quad_at};

// Up to eight groups, zeros behind them.
#[derive(Clone, Copy, Debug, PartialEq, Eq)]
pub struct Groups {
    pub n: usize,
    pub at: [u16; 8],
}

pub fn no_groups() -> Groups
    ensures { result ≡ holding [] }
{
    Groups {
        n: 0,
        at: [0u16; 8],
    }
}

// One group more, where there is room for it; none where there were none to add to, or none to add.
#[tactic(auto, unfolding(crate::specs::Eight::pushed))]
pub fn push(g: Option<Groups>, x: Option<u16>) -> Option<Groups>
    ensures { result ≡ pushed g x }
{
    let mut more = g?;
    let v = x?;
    let n = more.n;
    if 8 <= n {
        return None;
    }
    more.at[n] = v;
    more.n = n + 1;
    Some(more)
}

// The group at a place of the eight: those of `l` first, those of `r` last, zeros between.
#[tactic(auto, unfolding(crate::specs::Eight::group_at))]
fn group_at(l: Groups, r: Groups, i: usize) -> u16
    requires { (i < 8) × (r.n ≤ 8) }
    ensures { result ≡ group_at l r i }
{
    let n = l.n;
    if i < n {
        return l.at[i];
    }
    let gap = 8 - r.n;
    if i < gap {
        return 0;
    }
    let k = i - gap;
    r.at[k]
}

// Four groups as one number.
#[tactic(auto, unfolding(crate::specs::Eight::quad_at))]
pub fn quad_at(l: Groups, r: Groups, k: usize) -> u64
    requires { (k ≤ 4) × (r.n ≤ 8) }
    ensures { result ≡ quad_at l r k }
{
    let a = group_at(l, r, k) as u64;
    let b = group_at(l, r, k + 1) as u64;
    let c = group_at(l, r, k + 2) as u64;
    let d = group_at(l, r, k + 3) as u64;
    a * 0x1_0000_0000_0000 + b * 0x1_0000_0000 + c * 0x1_0000 + d
}
