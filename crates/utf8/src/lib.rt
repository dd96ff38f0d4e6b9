// UTF-8 by RFC 3629: the character at a place of a text.
#![tactic(auto)]

ghost use Rattle.std.specs.Prelude.{◌≡◌, drop};
ghost use Rattle.utf8.specs.Utf8.{two, three, four, longer, char_at};

// A code point and how many bytes it takes; both are 0 where no character begins.
#[derive(Clone, Copy)]
pub struct Char {
    pub code: u32,
    pub len: usize,
}

const NONE: Char = Char { code: 0, len: 0 };

fn read_two(a: u8, b: u8) -> Char
    ensures { result ≡ two a b }
{
    if utf8_tail::is_tail(b) {
        return Char {
            code: (a as u32 % 32) * 64 + (b as u32 % 64),
            len: 2,
        };
    }
    NONE
}

fn read_three(a: u8, b: u8, c: u8) -> Char
    ensures { result ≡ three a b c }
{
    if utf8_tail::is_second(a, b) {
        if utf8_tail::is_tail(c) {
            return Char {
                code: (a as u32 % 16) * 4096 + (b as u32 % 64) * 64 + (c as u32 % 64),
                len: 3,
            };
        }
    }
    NONE
}

fn read_four(a: u8, b: u8, c: u8, d: u8) -> Char
    ensures { result ≡ four a b c d }
{
    if utf8_tail::is_second(a, b) {
        if utf8_tail::is_tail(c) {
            if utf8_tail::is_tail(d) {
                return Char {
                    code: (a as u32 % 8) * 262144
                        + (b as u32 % 64) * 4096
                        + (c as u32 % 64) * 64
                        + (d as u32 % 64),
                    len: 4,
                };
            }
        }
    }
    NONE
}

fn read_longer(a: u8, b: u8, c: u8, d: u8) -> Char
    ensures { result ≡ longer a b c d }
{
    if byte::is_between(0xc2, 0xdf, a) {
        return read_two(a, b);
    }
    if byte::is_between(0xe0, 0xef, a) {
        return read_three(a, b, c);
    }
    if byte::is_between(0xf0, 0xf4, a) {
        return read_four(a, b, c, d);
    }
    NONE
}

// The character that begins at a place; an ASCII character takes one read, one of two bytes two.
pub fn char_at(s: &[u8], at: usize) -> Char
    ensures { result ≡ char_at (drop at s.now) }
{
    if s.len() <= at {
        return NONE;
    }
    let a = s[at];
    if a < 0x80 {
        let code = a as u32;
        return Char { code, len: 1 };
    }
    let b = byte::at(s, at + 1);
    if byte::is_between(0xc2, 0xdf, a) {
        return read_two(a, b);
    }
    read_longer(a, b, byte::at(s, at + 2), byte::at(s, at + 3))
}
