// Thin functions over the leaves, exported for the runs beside Rust and for nothing else: each promises what its leaf promises,
// an answer that C has no form for as a plain record of numbers.
#![tactic(auto)]

ghost use Rattle.std.specs.Prelude.{◌≡◌, ◌-◌, ◌^◌, [], ◌∷◌, true, false, length, drop, get_or, replicate};
ghost use Rattle.byte.specs.Same.{stands_at};
ghost use Rattle.byte.specs.Put.{written, after};
ghost use Rattle.space.specs.Space.{is_space};
ghost use Rattle.utf8.specs.Utf8.{char_at, well_formed};
ghost use Rattle.utf8_state.specs.Bytewise.{start_state, next_state};
ghost use Rattle.percent.specs.Percent.{decoded};
ghost use Rattle.percent_check.specs.Plain.{checked};
ghost use Rattle.number.specs.Number.{digits_in, unsigned_of};
ghost use Rattle.integer.specs.Integer.{signed_of};
ghost use Rattle.decimal.specs.Decimal.{decimal, hex_digits};
ghost use Rattle.address.specs.Address.{address_of};
ghost use Rattle.names.specs.Names.{key_name, word_name};
ghost use Rattle.names.specs.Find.{key_number, word_number, prefix_len};
ghost use Rattle.probe.specs.Answers.{symbol, lacking, state_of, measured, fault_kind, told, told_signed, told_kind, told_address};

use address::Kind;
use number::{NumberError, Radix};
use utf8_state::State;

#[repr(C)]
#[derive(Clone, Copy)]
pub struct Symbol {
    pub code: u32,
    pub len: usize,
}

#[repr(C)]
#[derive(Clone, Copy)]
pub struct Lacking {
    pub left: u8,
    pub lo: u8,
    pub hi: u8,
}

#[repr(C)]
#[derive(Clone, Copy)]
pub struct Measured {
    pub len: usize,
    pub utf8: bool,
}

#[repr(C)]
#[derive(Clone, Copy)]
pub struct Unsigned {
    pub kind: u64,
    pub value: u64,
}

#[repr(C)]
#[derive(Clone, Copy)]
pub struct Integer {
    pub kind: u64,
    pub value: i64,
}

#[repr(C)]
#[derive(Clone, Copy)]
pub struct Located {
    pub kind: u64,
    pub high: u64,
    pub low: u64,
}

#[unsafe(no_mangle)]
pub extern "C" fn probe_stands_at(w: &[u8], at: usize, s: &[u8]) -> bool
    ensures { result ≡ stands_at w.now at s.now }
{
    byte::stands_at(w, at, s)
}

#[unsafe(no_mangle)]
pub extern "C" fn probe_put(dst: &mut [u8], at: usize, b: u8) -> usize
    ensures value { result ≡ after dst.old at (b ∷ []) }
    ensures dst_after { dst.new ≡ written dst.old at (b ∷ []) }
{
    byte::put(dst, at, b)
}

#[unsafe(no_mangle)]
pub extern "C" fn probe_copy(src: &[u8], dst: &mut [u8], at: usize) -> usize
    ensures value { result ≡ after dst.old at src.now }
    ensures dst_after { dst.new ≡ written dst.old at src.now }
{
    byte::copy(src, dst, at)
}

#[unsafe(no_mangle)]
pub extern "C" fn probe_clear(dst: &mut [u8], at: usize, n: usize) -> usize
    ensures value { result ≡ after dst.old at (replicate n 0) }
    ensures dst_after { dst.new ≡ written dst.old at (replicate n 0) }
{
    byte::clear(dst, at, n)
}

#[unsafe(no_mangle)]
pub extern "C" fn probe_space(code: u32) -> bool
    ensures { result ≡ is_space code }
{
    space::is_space(code)
}

#[unsafe(no_mangle)]
pub extern "C" fn probe_char_at(s: &[u8], at: usize) -> Symbol
    ensures { result ≡ symbol (char_at (drop at s.now)) }
{
    let c = utf8::char_at(s, at);
    Symbol {
        code: c.code,
        len: c.len,
    }
}

#[unsafe(no_mangle)]
pub extern "C" fn probe_valid(s: &[u8]) -> bool
    ensures { result ≡ well_formed s.now }
{
    utf8_valid::valid(s)
}

#[unsafe(no_mangle)]
pub extern "C" fn probe_start() -> Lacking
    ensures { result ≡ lacking start_state }
{
    let s = utf8_state::start();
    Lacking {
        left: s.left,
        lo: s.lo,
        hi: s.hi,
    }
}

#[unsafe(no_mangle)]
pub extern "C" fn probe_next(left: u8, lo: u8, hi: u8, b: u8) -> Lacking
    ensures { result ≡ lacking (next_state (state_of left lo hi) b) }
{
    let s = utf8_state::next(State { left, lo, hi }, b);
    Lacking {
        left: s.left,
        lo: s.lo,
        hi: s.hi,
    }
}

#[unsafe(no_mangle)]
pub extern "C" fn probe_first(s: &[u8]) -> u8
    ensures { result ≡ get_or (decoded s.now) 0 0 }
{
    percent::first(s)
}

#[unsafe(no_mangle)]
pub extern "C" fn probe_decoded_len(s: &[u8]) -> usize
    ensures { result ≡ length (decoded s.now) }
{
    percent::decoded_len(s)
}

#[unsafe(no_mangle)]
pub extern "C" fn probe_check(s: &[u8]) -> Measured
    ensures { result ≡ measured (checked s.now) }
{
    let m = percent_check::check(s);
    Measured {
        len: m.len,
        utf8: m.utf8,
    }
}

#[unsafe(no_mangle)]
pub extern "C" fn probe_decode(src: &[u8], dst: &mut [u8], at: usize) -> usize
    ensures value { result ≡ after dst.old at (decoded src.now) }
    ensures dst_after { dst.new ≡ written dst.old at (decoded src.now) }
{
    percent_decode::decode(src, dst, at)
}

fn fault_kind(e: NumberError) -> u64
    ensures { result ≡ fault_kind e }
{
    match e {
        NumberError::Form => 1,
        NumberError::Range => 2,
    }
}

// What was read, told by numbers.
fn tell(n: Result<u64, NumberError>) -> Unsigned
    ensures { result ≡ told n }
{
    match n {
        Ok(value) => Unsigned { kind: 0, value },
        Err(e) => Unsigned {
            kind: fault_kind(e),
            value: 0,
        },
    }
}

#[unsafe(no_mangle)]
pub extern "C" fn probe_hex(s: &[u8], max: u64) -> Unsigned
    ensures { result ≡ told (digits_in 16 max s.now) }
{
    tell(number::read_digits(s, Radix::Sixteen, max))
}

#[unsafe(no_mangle)]
pub extern "C" fn probe_unsigned(s: &[u8], max: u64) -> Unsigned
    ensures { result ≡ told (unsigned_of max s.now) }
{
    tell(number::read_unsigned(s, max))
}

#[unsafe(no_mangle)]
pub extern "C" fn probe_u16(s: &[u8]) -> Unsigned
    ensures { result ≡ told (unsigned_of 65535 s.now) }
{
    tell(integer::read_u16(s).map(u64::from))
}

#[unsafe(no_mangle)]
pub extern "C" fn probe_u32(s: &[u8]) -> Unsigned
    ensures { result ≡ told (unsigned_of (2 ^ 32 - 1) s.now) }
{
    tell(integer::read_u32(s).map(u64::from))
}

#[unsafe(no_mangle)]
pub extern "C" fn probe_signed(s: &[u8]) -> Integer
    ensures { result ≡ told_signed (signed_of s.now) }
{
    match integer::read_signed(s) {
        Ok(value) => Integer { kind: 0, value },
        Err(e) => Integer {
            kind: fault_kind(e),
            value: 0,
        },
    }
}

#[unsafe(no_mangle)]
pub extern "C" fn probe_decimal_len(n: u64) -> usize
    ensures { result ≡ length (decimal n) }
{
    decimal::decimal_len(n)
}

#[unsafe(no_mangle)]
pub extern "C" fn probe_put_decimal(n: u64, dst: &mut [u8], at: usize) -> usize
    ensures value { result ≡ after dst.old at (decimal n) }
    ensures dst_after { dst.new ≡ written dst.old at (decimal n) }
{
    decimal::put_decimal(n, dst, at)
}

#[unsafe(no_mangle)]
pub extern "C" fn probe_put_hex2_upper(b: u8, dst: &mut [u8], at: usize) -> usize
    ensures value { result ≡ after dst.old at (hex_digits true 2 b) }
    ensures dst_after { dst.new ≡ written dst.old at (hex_digits true 2 b) }
{
    decimal::put_hex2_upper(b, dst, at)
}

#[unsafe(no_mangle)]
pub extern "C" fn probe_put_hex4_lower(g: u16, dst: &mut [u8], at: usize) -> usize
    ensures value { result ≡ after dst.old at (hex_digits false 4 g) }
    ensures dst_after { dst.new ≡ written dst.old at (hex_digits false 4 g) }
{
    decimal::put_hex4_lower(g, dst, at)
}

fn tell_kind(kind: Kind) -> Located
    ensures { result ≡ told_kind kind }
{
    match kind {
        Kind::V4(v) => Located {
            kind: 4,
            high: 0,
            low: v as u64,
        },
        Kind::V6(h, l) => Located {
            kind: 6,
            high: h,
            low: l,
        },
    }
}

#[unsafe(no_mangle)]
pub extern "C" fn probe_address(s: &[u8]) -> Located
    ensures { result ≡ told_address (address_of s.now) }
{
    match address::read_address(s) {
        Some(a) => tell_kind(a.kind),
        None => Located {
            kind: 0,
            high: 0,
            low: 0,
        },
    }
}

#[unsafe(no_mangle)]
pub extern "C" fn probe_key_number(s: &[u8]) -> usize
    ensures { result ≡ key_number s.now }
{
    names::key_number(s)
}

#[unsafe(no_mangle)]
pub extern "C" fn probe_word_number(key: usize, s: &[u8]) -> usize
    ensures { result ≡ word_number key s.now }
{
    names::word_number(key, s)
}

#[unsafe(no_mangle)]
pub extern "C" fn probe_prefix_len(s: &[u8]) -> usize
    ensures { result ≡ prefix_len s.now }
{
    names::prefix_len(s)
}

#[unsafe(no_mangle)]
pub extern "C" fn probe_put_key(key: usize, dst: &mut [u8], at: usize) -> usize
    ensures value { result ≡ after dst.old at (key_name key) }
    ensures dst_after { dst.new ≡ written dst.old at (key_name key) }
{
    names::put_key(key, dst, at)
}

#[unsafe(no_mangle)]
pub extern "C" fn probe_put_word(key: usize, word: usize, dst: &mut [u8], at: usize) -> usize
    ensures value { result ≡ after dst.old at (word_name key word) }
    ensures dst_after { dst.new ≡ written dst.old at (word_name key word) }
{
    names::put_word(key, word, dst, at)
}
