// Percent decoding: a piece of a text, and how long the text is once decoded.
#![tactic(auto)]

ghost use Rattle.std.specs.Prelude.{◌≡◌, length, get_or};
ghost use Rattle.percent.specs.Percent.{piece_at, decoded};
ghost use Rattle.percent.specs.Left.{decoded_left};

// A decoded byte, and how many bytes of the text it takes besides the first.
#[derive(Clone, Copy)]
pub struct Piece {
    pub byte: u8,
    pub skip: usize,
}

// What stands at a place; past the end the byte 0.
pub fn piece_at(s: &[u8], at: usize) -> Piece
    ensures { result ≡ piece_at s.now at }
{
    let byte = byte::at(s, at);
    if byte != b'%' {
        return Piece { byte, skip: 0 };
    }
    if s.len() - at < 3 {
        return Piece { byte, skip: 0 };
    }
    let high = byte::digit_of(s[at + 1]);
    if high >= 16 {
        return Piece { byte, skip: 0 };
    }
    let low = byte::digit_of(s[at + 2]);
    if low >= 16 {
        return Piece { byte, skip: 0 };
    }
    let coded = high * 16 + low;
    Piece {
        byte: coded,
        skip: 2,
    }
}

// The first decoded byte, or 0 where there is none.
pub fn first(s: &[u8]) -> u8
    ensures { result ≡ get_or (decoded s.now) 0 0 }
{
    let p = piece_at(s, 0);
    p.byte
}

// The decoded bytes of what is left of a text.
#[derive(Clone, Copy)]
pub struct Pieces<'a> {
    rest: &'a [u8],
}

impl Iterator for Pieces<'_> {
    ghost use Rattle.std.specs.Iterator.{YieldsFirst, item_count};

    type Item = u8;

    ghost next_gives = { YieldsFirst decoded_left };

    ghost remaining = { item_count decoded_left };

    fn next(&mut self) -> Option<u8> {
        if self.rest.len() == 0 {
            return None;
        }
        let p = piece_at(self.rest, 0);
        self.rest = &self.rest[1 + p.skip..];
        Some(p.byte)
    }
}

// A text decoded, a byte a turn.
pub fn decoding(s: &[u8]) -> Pieces<'_>
    ensures { decoded_left result ≡ decoded s.now }
{
    Pieces { rest: s }
}

// How many bytes the text has once decoded.
pub fn decoded_len(s: &[u8]) -> usize
    ensures { result ≡ length (decoded s.now) }
{
    decoding(s).count()
}
