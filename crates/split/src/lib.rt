// A text split at a byte.
#![tactic(auto)]

ghost use Rattle.std.specs.Prelude.{◌≡◌, ◌+◌, drop};
ghost use Rattle.split.specs.Split.{first_at};

// The place of the first byte `b` from the place `from` on, or the end; `from` itself where that is past the end. By places: `position` of a part
// costs more instructions a call, and a text is searched at every part of it.
pub fn find(s: &[u8], from: usize, b: u8) -> usize
    ensures { result ≡ from + first_at b (drop from s.now) }
{
    if s.len() <= from {
        return from;
    }
    for i in from..s.len() {
        if s[i] == b {
            return i;
        }
    }
    s.len()
}
