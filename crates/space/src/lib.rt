// White space: the 25 code points of Unicode's White_Space property, as one table that every scan goes by.
#![tactic(auto)]

ghost use Rattle.std.specs.Prelude.{◌≡◌};
ghost use Rattle.space.specs.Space.{is_space};

// The code points from the first to the last, both of them in it; a single one is a range of its own.
#[derive(Clone, Copy)]
struct Range(u32, u32);

const SPACES: [Range; 11] = [
    Range(0x9, 0xd),
    Range(0x20, 0x20),
    Range(0x85, 0x85),
    Range(0xa0, 0xa0),
    Range(0x1680, 0x1680),
    Range(0x2000, 0x200a),
    Range(0x2028, 0x2028),
    Range(0x2029, 0x2029),
    Range(0x202f, 0x202f),
    Range(0x205f, 0x205f),
    Range(0x3000, 0x3000),
];

// Whether a code point is white space.
pub fn is_space(code: u32) -> bool
    ensures { result ≡ is_space code }
{
    SPACES
        .iter()
        .any(|range| range.0 <= code && code <= range.1)
}
