// The value of a URI's setting: judged before it is given, written once it is; one host among the parameters.
#![tactic(auto)]

ghost use Rattle.std.specs.Prelude.{◌≡◌, drop};
ghost use Rattle.byte.specs.Put.{written, after};
ghost use Rattle.url_parser.specs.Step.{give, skipped, host_checked, value_step, value_in};

use setting::Refusal;
use url_parser::{Found, ONE_HOST, Stage, Url};

// The port of a chunk that has none.
const DEFAULT_PORT: [u8; 4] = *b"5432";

// Writes a setting's value into `dst` from the place `at` on, as `byte::copy` does.
pub fn put_value(s: &[u8], f: Found, dst: &mut [u8], at: usize) -> usize
    ensures value { result ≡ after dst.old at (value_in s.now f) }
    ensures dst_after { dst.new ≡ written dst.old at (value_in s.now f) }
{
    let port = DEFAULT_PORT;
    if f.fixed {
        return byte::copy(&port, dst, at);
    }
    percent_decode::decode(byte::part(s, f.from, f.to), dst, at)
}

// A setting whose value was judged: it is given, or the reading is refused.
pub fn decode(
    kind: usize,
    from: usize,
    to: usize,
    c: percent_check::Checked,
    next: Url,
) -> Result<Found, Option<Refusal>>
    ensures { result ≡ give kind from to c next }
{
    if c.utf8 {
        return Ok(Found {
            kind,
            from,
            to,
            len: c.len,
            fixed: false,
            next,
        });
    }
    Err(Some(Refusal::NotUtf8))
}

// Behind the byte at a place, unless the text ends there.
pub fn skip(s: &[u8], at: usize) -> usize
    ensures { result ≡ skipped at (drop at s.now) }
{
    if at < s.len() { at + 1 } else { at }
}

// One host's length once decoded, and whether it may stand: a Unix path may be any bytes.
pub fn host_param(v: &[u8]) -> percent_check::Checked
    ensures { result ≡ host_checked v.now }
{
    let c = percent_check::check(v);
    if c.utf8 {
        return c;
    }
    let first = percent::first(v);
    percent_check::Checked {
        len: c.len,
        utf8: first == b'/',
    }
}

// One host, which may be a Unix path; any other value must be UTF-8.
pub fn parse_one_host(s: &[u8], at: usize) -> Result<Found, Option<Refusal>>
    ensures { result ≡ value_step 20 at (drop at s.now) }
{
    let end = split::find(s, at, b'&');
    let judged = host_param(byte::part(s, at, end));
    let next = Url {
        stage: Stage::Parameter,
        at: skip(s, end),
    };
    decode(ONE_HOST, at, end, judged, next)
}
