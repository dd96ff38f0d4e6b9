// The text of a key, and where it lies in the decode buffer, as one number.
#![tactic(auto, unfolding(config::specs::Sound::place_in, crate::specs::Places::text_of, crate::specs::Places::place_of))]

ghost use Rattle.std.specs.Prelude.{◌≡◌, ◌≤◌};
ghost use Rattle.places.specs.Places.{text_of, place_of};

use config::Config;
use lists::Place;

// What marks a refusal, and a value that is set, where a place is asked for: 2^63 and 2^62.
pub const NO_PLACE: u64 = 9223372036854775808;

const A_PLACE: u64 = 4611686018427387904;

// The text of a key; no other key than 1 to 5 holds one.
pub fn text_of(c: Config, key: u32) -> Option<Place>
    ensures { result ≡ text_of key c }
{
    match key {
        1 => c.user,
        2 => c.password,
        3 => c.dbname,
        4 => c.options,
        5 => c.application_name,
        _ => None,
    }
}

// Where a text lies in a buffer of `n` bytes, as one number.
pub fn place_of(t: Option<Place>, n: usize) -> u64
    requires { n ≤ 4096 }
    ensures { result ≡ place_of n t }
{
    match t {
        None => 0,
        Some(p) if n < p.start || n - p.start < p.len => NO_PLACE + 17,
        Some(p) => A_PLACE + 65536 * (p.start as u64) + p.len as u64,
    }
}
