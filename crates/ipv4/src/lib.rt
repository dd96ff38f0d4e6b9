// IPv4 addresses: four decimal parts with dots between.
#![tactic(auto)]

ghost use Rattle.std.specs.Prelude.{◌≡◌, ◌^◌, ◌<◌};
ghost use Rattle.ipv4.specs.V4.{zero_led, part_of, v4_of, with_part};

fn is_zero_led(s: &[u8]) -> bool
    ensures { result ≡ zero_led s.now }
{
    if byte::at(s, 0) != b'0' {
        return false;
    }
    1 < s.len()
}

// 0 to 255, no leading zero unless the part is `0`.
fn read_part(s: &[u8]) -> Option<u8>
    ensures { result ≡ part_of s.now }
{
    if is_zero_led(s) {
        return None;
    }
    let n = number::read_digits(s, number::Radix::Ten, 255).ok()?;
    Some(n as u8)
}

// The number of the parts so far, with one more.
fn with_part(v: u32, part: Option<u8>) -> Option<u32>
    requires { v < 2 ^ 24 }
    ensures { result ≡ with_part v part }
{
    let p = part?;
    Some(v * 256 + p as u32)
}

// Four parts with a dot between each two: three that end at a dot, and the last.
pub fn read_v4(s: &[u8]) -> Option<u32>
    ensures { result ≡ v4_of s.now }
{
    let mut v: u32 = 0;
    let mut i: usize = 0;
    for k in 0..3usize {
        let e = split::find(s, i, b'.');
        if s.len() <= e {
            return None;
        }
        v = with_part(v, read_part(&s[i..e]))?;
        i = e + 1;
    }
    with_part(v, read_part(&s[i..]))
}
