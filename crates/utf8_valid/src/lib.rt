// UTF-8 by RFC 3629: whether a text is well formed.
#![tactic(auto)]

ghost use Rattle.std.specs.Prelude.{◌≡◌, true, ◌-◌, ◌≤◌, ◌<◌, length, drop};
ghost use Rattle.utf8.specs.Utf8.{char_at, well_formed};

// Skips ASCII characters: what comes behind them decides.
fn skip_ascii(s: &[u8], at: usize) -> usize
    ensures { (at ≤ result) × (result - at ≤ length s.now - at) × (well_formed (drop at s.now) ≡ well_formed (drop result s.now)) }
{
    if s.len() <= at {
        return at;
    }
    match s[at..].iter().position(|&b| 0x80 <= b) {
        Some(k) => at + k,
        None => s.len(),
    }
}

// The greatest byte: where it is ASCII all are, so the text is well formed. Every turn goes on, so that a compiler can take many bytes at once.
fn greatest_in(s: &[u8]) -> u8
    ensures { result < 0x80 → well_formed s.now ≡ true }
{
    let mut greatest = 0u8;
    for &b in s {
        greatest = greatest.max(b);
    }
    greatest
}

// How many bytes the character at a place takes, 0 where none begins; one of two bytes is not decoded for it.
fn char_len(s: &[u8], at: usize) -> usize
    ensures { result ≡ (char_at (drop at s.now)).len }
{
    let a = byte::at(s, at);
    if byte::is_between(0xc2, 0xdf, a) {
        let b = byte::at(s, at + 1);
        if utf8_tail::is_tail(b) {
            return 2;
        }
        return 0;
    }
    let c = utf8::char_at(s, at);
    c.len
}

// Whether a text is well formed. The cursor moves by a character, and counts no index.
pub fn valid(s: &[u8]) -> bool
    ensures { result ≡ well_formed s.now }
{
    if greatest_in(s) < 0x80 {
        return true;
    }
    let mut at = skip_ascii(s, 0);
    while at < s.len() {
        let n = char_len(s, at);
        if n == 0 {
            return false;
        }
        at = skip_ascii(s, at + n);
    }
    true
}
