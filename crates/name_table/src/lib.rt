// Every fixed byte string in one table, compared with a lent text and written from it.
#![tactic(auto)]

ghost use Rattle.std.specs.Prelude.{◌≡◌, [], length, get_or};
ghost use Rattle.byte.specs.Same.{same};
ghost use Rattle.byte.specs.Put.{written, after};
ghost use Rattle.name_table.specs.Names.{fixed};

// Name i: key k is name k; then the words, key by key, some of them of several keys, and the prefixes. Any other name is empty.
#[tactic(auto, unfolding(crate::specs::Names::fixed))]
pub fn name(i: usize) -> &'static [u8]
    ensures { result.now ≡ get_or fixed i [] }
{
    match i {
        1 => b"user",
        2 => b"password",
        3 => b"dbname",
        4 => b"options",
        5 => b"application_name",
        6 => b"sslmode",
        7 => b"sslnegotiation",
        8 => b"host",
        9 => b"hostaddr",
        10 => b"port",
        11 => b"connect_timeout",
        12 => b"tcp_user_timeout",
        13 => b"keepalives",
        14 => b"keepalives_idle",
        15 => b"keepalives_interval",
        16 => b"keepalives_retries",
        17 => b"target_session_attrs",
        18 => b"channel_binding",
        19 => b"load_balance_hosts",
        20 | 28 | 31 => b"disable",
        21 | 29 => b"prefer",
        22 | 30 => b"require",
        23 => b"postgres",
        24 => b"direct",
        25 => b"any",
        26 => b"read-write",
        27 => b"read-only",
        32 => b"random",
        33 => b"postgres://",
        34 => b"postgresql://",
        _ => b"",
    }
}

pub fn name_len(i: usize) -> usize
    ensures { result ≡ length (get_or fixed i []) }
{
    name(i).len()
}

// Whether `s` is name i. Byte by byte: a compiler that knows the name unrolls this; `==` and `starts_with` were tried, and cost more
// instructions for a key and a prefix, since they end in calls.
pub fn is_name(s: &[u8], i: usize) -> bool
    ensures { result ≡ same s.now (get_or fixed i []) }
{
    let wanted = name(i);
    if s.len() != wanted.len() {
        return false;
    }
    for k in 0..s.len() {
        if s[k] != wanted[k] {
            return false;
        }
    }
    true
}

// Writes name i, as `byte::copy` does.
pub fn put_name(i: usize, dst: &mut [u8], at: usize) -> usize
    ensures value { result ≡ after dst.old at (get_or fixed i []) }
    ensures dst_after { dst.new ≡ written dst.old at (get_or fixed i []) }
{
    byte::copy(name(i), dst, at)
}
