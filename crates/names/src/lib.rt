// Keys, words and prefixes: looked up, and written.
#![tactic(auto)]

ghost use Rattle.std.specs.Prelude.{◌≡◌, [], ◌+◌, ◌≤◌, length, get_or, take, drop};
ghost use Rattle.byte.specs.Same.{stands_at};
ghost use Rattle.byte.specs.Put.{written, after};
ghost use Rattle.name_table.specs.Names.{fixed, words_of, key_name, word_name};
ghost use Rattle.name_table.specs.Find.{number_in, key_number, word_number, prefix_len};

// The number of a key, or 0.
pub fn key_number(s: &[u8]) -> usize
    ensures { result ≡ key_number s.now }
{
    key_match::number_of(s)
}

// Which of the n names from `first` on `s` is, counted from 1, or 0. Always inlined, so that its callers' names are known to the compiler.
#[inline(always)]
fn number_among(first: usize, n: usize, s: &[u8]) -> usize
    requires { first + n ≤ 35 }
    ensures { result ≡ number_in (take n (drop first fixed)) s.now }
{
    for k in 0..n {
        if name_table::is_name(s, first + k) {
            return k + 1;
        }
    }
    0
}

// The number of a word of the key, or 0.
#[tactic(auto, unfolding(name_table::specs::Names::fixed, name_table::specs::Names::words_of, name_table::specs::Find::word_number))]
pub fn word_number(key: usize, s: &[u8]) -> usize
    ensures { result ≡ word_number key s.now }
{
    match key {
        6 | 18 => number_among(20, 3, s),
        7 => number_among(23, 2, s),
        17 => number_among(25, 3, s),
        19 => number_among(31, 2, s),
        _ => 0,
    }
}

// Whether `s` starts with name i. Always inlined, as `number_among` is.
#[inline(always)]
fn starts_with_name(s: &[u8], i: usize) -> bool
    ensures { result ≡ stands_at (get_or fixed i []) 0 s.now }
{
    let n = name_table::name_len(i);
    n <= s.len() && name_table::is_name(&s[..n], i)
}

// The length of the prefix that makes a text a URI, or 0.
pub fn prefix_len(s: &[u8]) -> usize
    ensures { result ≡ prefix_len s.now }
{
    if starts_with_name(s, 33) {
        return name_table::name_len(33);
    }
    if starts_with_name(s, 34) {
        return name_table::name_len(34);
    }
    0
}

// The place of key k among the names, or of the empty name.
fn key_place(key: usize) -> usize
    ensures { get_or fixed result [] ≡ key_name key }
{
    if 20 <= key { 0 } else { key }
}

// Where the words of a key start among the names, and how many they are.
#[tactic(auto, unfolding(name_table::specs::Names::fixed, name_table::specs::Names::words_of))]
fn word_run(key: usize) -> (usize, usize)
    ensures room { result.0 + result.1 ≤ 35 }
    ensures words { take result.1 (drop result.0 fixed) ≡ words_of key }
{
    match key {
        6 | 18 => (20, 3),
        7 => (23, 2),
        17 => (25, 3),
        19 => (31, 2),
        _ => (0, 0),
    }
}

// The place of word w of key k among the names, or of the empty name.
fn word_place(key: usize, word: usize) -> usize
    ensures { get_or fixed result [] ≡ word_name key word }
{
    let (first, n) = word_run(key);
    if word == 0 || n < word {
        return 0;
    }
    first + (word - 1)
}

pub fn key_len(key: usize) -> usize
    ensures { result ≡ length (key_name key) }
{
    name_table::name_len(key_place(key))
}

pub fn word_len(key: usize, word: usize) -> usize
    ensures { result ≡ length (word_name key word) }
{
    name_table::name_len(word_place(key, word))
}

// Writes the name of a key, as `byte::copy` does.
pub fn put_key(key: usize, dst: &mut [u8], at: usize) -> usize
    ensures value { result ≡ after dst.old at (key_name key) }
    ensures dst_after { dst.new ≡ written dst.old at (key_name key) }
{
    name_table::put_name(key_place(key), dst, at)
}

// Writes a word of a key, as `byte::copy` does.
pub fn put_word(key: usize, word: usize, dst: &mut [u8], at: usize) -> usize
    ensures value { result ≡ after dst.old at (word_name key word) }
    ensures dst_after { dst.new ≡ written dst.old at (word_name key word) }
{
    name_table::put_name(word_place(key, word), dst, at)
}
