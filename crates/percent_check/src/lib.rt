// Texts judged once decoded, by scans that write nothing.
#![tactic(auto)]

ghost use Rattle.std.specs.Prelude.{◌≡◌, ◌+◌, eqb, drop};
ghost use Rattle.split.specs.Split.{first_at};
ghost use Rattle.percent_check.specs.Plain.{checked, ends_plain, plain_until, checked_on, checked_until};

// What a scan tells of a text once decoded: how many bytes it has, and whether they are UTF-8.
#[derive(Clone, Copy)]
pub struct Checked {
    pub len: usize,
    pub utf8: bool,
}

// Whether a run of plain bytes ends: at the byte `stop`, at a `%`, or where ASCII does.
fn ends_plain(stop: u8, b: u8) -> bool
    ensures { result ≡ ends_plain stop b }
{
    if b == stop {
        return true;
    }
    if b == b'%' {
        return true;
    }
    128 <= b
}

// Where the plain bytes from a place on end. They need no decoding and are UTF-8.
fn plain_until(s: &[u8], from: usize, stop: u8) -> usize
    ensures { result ≡ from + plain_until stop (drop from s.now) }
{
    if s.len() <= from {
        return from;
    }
    for i in from..s.len() {
        if ends_plain(stop, s[i]) {
            return i;
        }
    }
    s.len()
}

// Both in one pass, with nothing written.
pub fn check(s: &[u8]) -> Checked
    ensures { result ≡ checked s.now }
{
    let plain = plain_until(s, 0, b'%');
    if s.len() <= plain {
        return Checked {
            len: plain,
            utf8: true,
        };
    }
    check_from(s, plain)
}

// The same behind `from` plain bytes; pieces that are ASCII are only counted. By a cursor that moves by a piece, and counts no index: the first
// piece that is not ASCII is judged with what follows it, and an iterator has passed it by then.
fn check_from(s: &[u8], from: usize) -> Checked
    ensures { result ≡ checked_on from from s.now }
{
    let mut len = from;
    let mut i = from;
    while i < s.len() {
        let p = percent::piece_at(s, i);
        if 128 <= p.byte {
            let rest = check_bytes(&s[i..]);
            let n = len + rest.len;
            return Checked {
                len: n,
                utf8: rest.utf8,
            };
        }
        len += 1;
        i = i + 1 + p.skip;
    }
    Checked { len, utf8: true }
}

// The same by the state of UTF-8, for any bytes.
fn check_bytes(s: &[u8]) -> Checked
    ensures { result ≡ checked s.now }
{
    let mut state = utf8_state::start();
    let mut len: usize = 0;
    for b in percent::decoding(s) {
        state = utf8_state::next(state, b);
        len += 1;
    }
    let utf8 = utf8_state::is_whole(state);
    Checked { len, utf8 }
}

// Where a part of a text ends, and what a scan tells of it.
#[derive(Clone, Copy)]
pub struct Part {
    pub end: usize,
    pub judged: Checked,
}

// Whether the first byte `stop` from a place on, or the end, is at that place.
fn stops_at(s: &[u8], at: usize, stop: u8) -> bool
    ensures { result ≡ eqb (first_at stop (drop at s.now)) 0 }
{
    if s.len() <= at {
        return true;
    }
    s[at] == stop
}

// The part from a place up to the first byte `stop`; where it is plain, it is read once.
pub fn check_until(s: &[u8], at: usize, stop: u8) -> Part
    ensures { result ≡ checked_until stop at s.now }
{
    let plain = plain_until(s, at, stop);
    if stops_at(s, plain, stop) {
        let judged = Checked {
            len: plain - at,
            utf8: true,
        };
        return Part { end: plain, judged };
    }
    let end = split::find(s, plain, stop);
    let judged = check_from(byte::part(s, at, end), plain - at);
    Part { end, judged }
}
