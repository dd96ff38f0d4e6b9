// The key-value reading: one parameter at a place of a text, told without writing, and its value decoded into lent memory.
#![tactic(auto)]

ghost use Rattle.std.specs.Prelude.{◌≡◌, ◌+◌, ◌-◌, ◌≤◌, length};
ghost use Rattle.byte.specs.Put.{written, after};
ghost use Rattle.keyvalue.specs.Scan.{quoted_len, simple_len};
ghost use Rattle.keyvalue.specs.KeyValue.{raw_at, value_at, parameter_at, unescaped};

use setting::Refusal;

// Where a key stands, and its number, 0 where it is unknown.
#[derive(Clone, Copy)]
pub struct Key {
    pub number: usize,
    pub from: usize,
    pub to: usize,
}

// Where a value stands as it is written, and how long it is once decoded.
#[derive(Clone, Copy)]
pub struct Raw {
    pub from: usize,
    pub to: usize,
    pub len: usize,
}

// A parameter, and the place behind it.
#[derive(Clone, Copy)]
pub struct Pair {
    pub key: Key,
    pub value: Raw,
    pub next: usize,
}

// The place behind the bytes that a value that is not quoted gains as they stand, seen at a glance.
fn skip_plain(s: &[u8], at: usize) -> usize
    ensures { (at ≤ result) × (result - at ≤ length s.now - at) × ((raw_at simple_len s.now at).to ≡ (raw_at simple_len s.now result).to) × ((raw_at simple_len s.now at).len ≡ result - at + (raw_at simple_len s.now result).len) }
{
    if s.len() <= at {
        return at;
    }
    match s[at..]
        .iter()
        .position(|&b| b == b'\\' || !scan::is_solid(b))
    {
        Some(k) => at + k,
        None => s.len(),
    }
}

// A value that is not quoted: it runs to white space. The cursor moves by a piece, a byte or a backslash with the byte behind it, and counts no index.
fn simple_value(s: &[u8], at: usize) -> Raw
    ensures { result ≡ raw_at simple_len s.now at }
{
    let plain = skip_plain(s, at);
    let mut i = plain;
    let mut len = plain - at;
    while i < s.len() {
        if scan::starts_space(s, i) {
            return Raw {
                from: at,
                to: i,
                len,
            };
        }
        let j = backslash::gained_at(s, i);
        if s.len() <= j {
            return Raw {
                from: at,
                to: j,
                len,
            };
        }
        let next = j + 1;
        i = skip_plain(s, next);
        len = len + 1 + (i - next);
    }
    Raw {
        from: at,
        to: i,
        len,
    }
}

// A value behind `'`: it runs to the next `'` that stands behind no backslash. The cursor moves by a piece, and counts no index.
fn quoted_value(s: &[u8], at: usize) -> Raw
    ensures { result ≡ raw_at quoted_len s.now at }
{
    let mut i = at;
    let mut len = 0;
    while i < s.len() {
        if s[i] == b'\'' {
            return Raw {
                from: at,
                to: i,
                len,
            };
        }
        let j = backslash::gained_at(s, i);
        if s.len() <= j {
            return Raw {
                from: at,
                to: j,
                len,
            };
        }
        i = j + 1;
        len += 1;
    }
    Raw {
        from: at,
        to: i,
        len,
    }
}

// A parameter's value, quoted or not, and so the whole parameter.
fn value(s: &[u8], key: Key, at: usize) -> Result<Pair, Option<Refusal>>
    ensures { result ≡ value_at s.now key at }
{
    if byte::at(s, at) == b'\'' {
        let start = at + 1;
        let value = quoted_value(s, start);
        let quote = value.to;
        if s.len() <= quote {
            return Err(Some(Refusal::OpenQuote));
        }
        let next = quote + 1;
        return Ok(Pair { key, value, next });
    }
    let value = simple_value(s, at);
    if value.len == 0 {
        return Err(Some(Refusal::EmptyValue));
    }
    let next = value.to;
    Ok(Pair { key, value, next })
}

// The parameter that stands at a place; or the end of the reading there, clean or a refusal.
pub fn parameter(s: &[u8], at: usize) -> Result<Pair, Option<Refusal>>
    ensures { result ≡ parameter_at s.now at }
{
    let from = scan::skip_ws(s, at);
    let to = scan::keyword(s, from);
    if to == from {
        return Err(None);
    }
    let sign = scan::skip_ws(s, to);
    if s.len() <= sign {
        return Err(Some(Refusal::KeyAlone));
    }
    if s[sign] != b'=' {
        return Err(Some(Refusal::NoSign));
    }
    let number = names::key_number(&s[from..to]);
    let key = Key { number, from, to };
    let start = scan::skip_ws(s, sign + 1);
    value(s, key, start)
}

// Writes a value decoded into `dst` from the place `at` on, and answers the place behind it; with no room it writes nothing and answers `at`.
pub fn unescape(src: &[u8], dst: &mut [u8], at: usize) -> usize
    ensures value { result ≡ after dst.old at (unescaped src.now) }
    ensures dst_after { dst.new ≡ written dst.old at (unescaped src.now) }
{
    backslash::unescape(src, dst, at)
}
