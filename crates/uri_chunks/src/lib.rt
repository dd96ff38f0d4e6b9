// A chunk of a URI's host part: where it ends, and where in it its host stands. Pure scans, which write nothing.
#![tactic(auto)]

ghost use Rattle.std.specs.Prelude.{◌≡◌, ◌+◌, eqb, drop};
ghost use Rattle.url_parser.specs.Uri.{first_of, ends_hosts, closes};
ghost use Rattle.url_parser.specs.Step.{ends_chunk, ends_host, ends_plain_host, host_place};

use url_parser::HostPlace;

pub fn ends_hosts(b: u8) -> bool
    ensures { result ≡ ends_hosts b }
{
    if b == b'/' {
        return true;
    }
    b == b'?'
}

fn ends_chunk(b: u8) -> bool
    ensures { result ≡ ends_chunk b }
{
    if b == b',' {
        return true;
    }
    ends_hosts(b)
}

// Where a chunk ends: before `,`, `/`, `?`, or with the text.
pub fn chunk_end(s: &[u8], at: usize) -> usize
    ensures { result ≡ at + first_of ends_chunk (drop at s.now) }
{
    if s.len() <= at {
        return at;
    }
    for i in at..s.len() {
        if ends_chunk(s[i]) {
            return i;
        }
    }
    s.len()
}

// Whether after `]` the chunk ends, or `:` follows.
fn closes_at(c: &[u8], at: usize) -> bool
    ensures { result ≡ closes (drop at c.now) }
{
    if c.len() <= at {
        return true;
    }
    c[at] == b':'
}

// The host between brackets, or up to the first `:`; none where a bracket is not closed, or something else than `:` follows it.
pub fn host_place(c: &[u8]) -> Option<HostPlace>
    ensures { result ≡ host_place c.now }
{
    if byte::at(c, 0) != b'[' {
        let colon = split::find(c, 0, b':');
        return Some(HostPlace {
            from: 0,
            to: colon,
            tail: colon,
        });
    }
    let close = split::find(c, 1, b']');
    if c.len() <= close {
        return None;
    }
    let tail = close + 1;
    if closes_at(c, tail) {
        return Some(HostPlace {
            from: 1,
            to: close,
            tail,
        });
    }
    None
}

// Whether a byte ends a host outside brackets.
fn ends_host(b: u8) -> bool
    ensures { result ≡ ends_host b }
{
    if b == b':' {
        return true;
    }
    ends_chunk(b)
}

// Whether a host's plain front ends: with the host, at a `%`, or where ASCII does.
fn ends_plain_host(b: u8) -> bool
    ensures { result ≡ ends_plain_host b }
{
    if 63 < b {
        return 128 <= b;
    }
    if b == b'%' {
        return true;
    }
    ends_host(b)
}

// Where the plain front of a host ends.
pub fn plain_host(s: &[u8], at: usize) -> usize
    ensures { result ≡ at + first_of ends_plain_host (drop at s.now) }
{
    if s.len() <= at {
        return at;
    }
    for i in at..s.len() {
        if ends_plain_host(s[i]) {
            return i;
        }
    }
    s.len()
}

// Whether a host ends at a place.
pub fn host_ends_at(s: &[u8], at: usize) -> bool
    ensures { result ≡ eqb (first_of ends_host (drop at s.now)) 0 }
{
    if s.len() <= at {
        return true;
    }
    ends_host(s[at])
}
