// How far white space and a key go from a place of a key-value text.
#![tactic(auto)]

ghost use Rattle.std.specs.Prelude.{◌≡◌, drop};
ghost use Rattle.scan.specs.Scan.{end_of, solid, starts_space, space_len, ends_key, key_len};

// Whether a byte begins no white space, whatever follows it.
pub fn is_solid(b: u8) -> bool
    ensures { result ≡ solid b }
{
    if byte::is_between(33, 0xc1, b) {
        return true;
    }
    if byte::is_between(0xc3, 0xe0, b) {
        return true;
    }
    0xe4 <= b
}

// Whether white space begins at a place; most characters are seen at a glance to be none.
pub fn starts_space(s: &[u8], at: usize) -> bool
    ensures { result ≡ starts_space (drop at s.now) }
{
    let b = byte::at(s, at);
    if is_solid(b) {
        return false;
    }
    if b == b' ' {
        return true;
    }
    let c = utf8::char_at(s, at);
    let code = c.code;
    space::is_space(code)
}

// How many bytes the white space at a place takes, 0 where there is none; a blank is seen at a glance, too.
fn space_len(s: &[u8], at: usize) -> usize
    ensures { result ≡ space_len (drop at s.now) }
{
    let b = byte::at(s, at);
    if b == b' ' {
        return 1;
    }
    if is_solid(b) {
        return 0;
    }
    let c = utf8::char_at(s, at);
    let code = c.code;
    if space::is_space(code) {
        return c.len;
    }
    0
}

// The place behind white space, one character a turn: the cursor moves by a character, and counts no index.
fn skip_spaces(s: &[u8], at: usize) -> usize
    ensures { result ≡ end_of space_len s.now at }
{
    let mut i = at;
    loop {
        let n = space_len(s, i);
        if n == 0 {
            return i;
        }
        i += n;
    }
}

// Skips white space, and answers the place behind it; most places have none.
pub fn skip_ws(s: &[u8], at: usize) -> usize
    ensures { result ≡ end_of space_len s.now at }
{
    if is_solid(byte::at(s, at)) {
        return at;
    }
    skip_spaces(s, at)
}

// Whether a key ends at a place.
fn key_ends(s: &[u8], at: usize) -> bool
    ensures { result ≡ ends_key (drop at s.now) }
{
    if byte::at(s, at) == b'=' {
        return true;
    }
    starts_space(s, at)
}

// The place behind a key; most of its bytes are seen at a glance not to end it.
pub fn keyword(s: &[u8], at: usize) -> usize
    ensures { result ≡ end_of key_len s.now at }
{
    for i in at..s.len() {
        if byte::is_between(62, 0xc1, s[i]) {
            continue;
        }
        if key_ends(s, i) {
            return i;
        }
    }
    at.max(s.len())
}
