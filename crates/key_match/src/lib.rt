// Which key a text is: compared with the one that it may be.
#![tactic(auto)]

ghost use Rattle.std.specs.Prelude.{◌≡◌, [], ◌≤◌, get_or};
ghost use Rattle.byte.specs.Same.{same};
ghost use Rattle.name_table.specs.Names.{fixed};
ghost use Rattle.name_table.specs.Find.{key_number};

// The one key that `s` may be, told by its first two bytes and its length; 0 where it is none for sure.
fn likely_key(s: &[u8]) -> usize
    ensures { (result ≤ 19) × ((key_number s.now ≡ 0 → ⊥) → result ≡ key_number s.now) }
{
    let a = byte::at(s, 0) as usize;
    let b = byte::at(s, 1) as usize;
    let n = s.len() % 64;
    let sum = a + a + b + n;
    let mark = sum % 64;
    match mark {
        2 => 5,
        3 => 8,
        4 => 11,
        5 => 13,
        7 => 9,
        9 => 2,
        10 => 14,
        13 => 16,
        14 => 15,
        19 => 10,
        21 => 4,
        25 => 19,
        27 => 12,
        29 => 17,
        32 => 6,
        33 => 1,
        39 => 7,
        48 => 3,
        61 => 18,
        _ => 0,
    }
}

// Whether `s` is name k. Each key is asked for by a constant, since a compiler sees through a comparison with a name that it knows.
fn is_key(s: &[u8], k: usize) -> bool
    ensures { result ≡ same s.now (get_or fixed k []) }
{
    match k {
        1 => name_table::is_name(s, 1),
        2 => name_table::is_name(s, 2),
        3 => name_table::is_name(s, 3),
        4 => name_table::is_name(s, 4),
        5 => name_table::is_name(s, 5),
        6 => name_table::is_name(s, 6),
        7 => name_table::is_name(s, 7),
        8 => name_table::is_name(s, 8),
        9 => name_table::is_name(s, 9),
        10 => name_table::is_name(s, 10),
        11 => name_table::is_name(s, 11),
        12 => name_table::is_name(s, 12),
        13 => name_table::is_name(s, 13),
        14 => name_table::is_name(s, 14),
        15 => name_table::is_name(s, 15),
        16 => name_table::is_name(s, 16),
        17 => name_table::is_name(s, 17),
        18 => name_table::is_name(s, 18),
        19 => name_table::is_name(s, 19),
        _ => name_table::is_name(s, k),
    }
}

// The number of a key, or 0.
pub fn number_of(s: &[u8]) -> usize
    ensures { result ≡ key_number s.now }
{
    let key = likely_key(s);
    if is_key(s, key) { key } else { 0 }
}
