// Bytes in parts, each counted, or written into lent memory, by the same function.
#![tactic(auto)]

ghost use Rattle.std.specs.Prelude.{◌≡◌, ◌&&◌, true, false, [], ◌∷◌, ltb, length};
ghost use Rattle.std.specs.Fn.{FnOnceReturnsAtMut};
ghost use Rattle.byte.specs.Byte.{pick};
ghost use Rattle.byte.specs.Put.{written, after};
ghost use Rattle.names.specs.Names.{key_name, word_name};
ghost use Rattle.decimal.specs.Decimal.{decimal, hex_digits};
ghost use Rattle.escape.specs.Escape.{escape, text_value};
ghost use Rattle.draw.specs.Pen.{moved, sheet, drawn};

// The place of the next byte; whether all before it had room; whether bytes are written, or only counted.
#[derive(Clone, Copy)]
pub struct Pen {
    pub at: usize,
    pub ok: bool,
    pub ink: bool,
}

// The pen behind n more bytes, or stopped where they have no room.
fn move_by(pen: Pen, n: usize, len: usize) -> Pen
    ensures { result ≡ moved len pen n }
{
    let stopped = Pen {
        at: 0,
        ok: false,
        ink: pen.ink,
    };
    if !pen.ok {
        return stopped;
    }
    if !byte::has_room(len, pen.at, n) {
        return stopped;
    }
    Pen {
        at: pen.at + n,
        ok: true,
        ink: pen.ink,
    }
}

// Whether the pen writes.
fn writes(pen: Pen) -> bool
    ensures { result ≡ pen.ok && pen.ink }
{
    if pen.ok { pen.ink } else { false }
}

// One part of n bytes: written by `write` where the pen writes, else only counted.
fn part<F: FnOnce(&mut [u8])>(n: usize, dst: &mut [u8], pen: Pen, write: F) -> Pen
    requires { F.IsAlwaysCallable write }
    ensures next { result ≡ moved (length dst.old) pen n }
    ensures dry { pen.ok && pen.ink ≡ false → dst.new ≡ dst.old }
    ensures ink { pen.ok && pen.ink ≡ true → FnOnceReturnsAtMut F.FnOnce write dst.old tt dst.new }
{
    let next = move_by(pen, n, dst.len());
    if writes(pen) {
        write(dst);
    }
    next
}

pub fn put_byte(b: u8, dst: &mut [u8], pen: Pen) -> Pen
    ensures { sheet dst.new result ≡ drawn (sheet dst.old pen) ((b ∷ []) ∷ []) }
{
    part(1, dst, pen, |d| {
        byte::put(d, pen.at, b);
    })
}

// The name of a key.
pub fn put_key(key: usize, dst: &mut [u8], pen: Pen) -> Pen
    ensures { sheet dst.new result ≡ drawn (sheet dst.old pen) (key_name key ∷ []) }
{
    part(names::key_len(key), dst, pen, |d| {
        names::put_key(key, d, pen.at);
    })
}

// A word of a key.
pub fn put_word(key: usize, word: usize, dst: &mut [u8], pen: Pen) -> Pen
    ensures { sheet dst.new result ≡ drawn (sheet dst.old pen) (word_name key word ∷ []) }
{
    part(names::word_len(key, word), dst, pen, |d| {
        names::put_word(key, word, d, pen.at);
    })
}

// A number in decimal.
pub fn put_number(n: u64, dst: &mut [u8], pen: Pen) -> Pen
    ensures { sheet dst.new result ≡ drawn (sheet dst.old pen) (decimal n ∷ []) }
{
    part(decimal::decimal_len(n), dst, pen, |d| {
        decimal::put_decimal(n, d, pen.at);
    })
}

// A group of an IPv6 address.
pub fn put_group(g: u16, dst: &mut [u8], pen: Pen) -> Pen
    ensures { sheet dst.new result ≡ drawn (sheet dst.old pen) (hex_digits false 4 g ∷ []) }
{
    part(4, dst, pen, |d| {
        decimal::put_hex4_lower(g, d, pen.at);
    })
}

// Bytes as they stand.
pub fn put_bytes(x: &[u8], dst: &mut [u8], pen: Pen) -> Pen
    ensures { sheet dst.new result ≡ drawn (sheet dst.old pen) (x.now ∷ []) }
{
    part(x.len(), dst, pen, |d| {
        byte::copy(x, d, pen.at);
    })
}

pub fn put_escape(b: u8, dst: &mut [u8], pen: Pen) -> Pen
    ensures { sheet dst.new result ≡ drawn (sheet dst.old pen) (escape b ∷ []) }
{
    part(escape::escape_len(b), dst, pen, |d| {
        escape::write_escape(b, d, pen.at);
    })
}

// A text, byte by byte: as much of it as has room.
fn put_escapes(x: &[u8], dst: &mut [u8], pen: Pen) -> Pen
    ensures { sheet dst.new result ≡ drawn (sheet dst.old pen) (text_value x.now) }
{
    let mut p = pen;
    for i in 0..x.len() {
        p = put_escape(x[i], dst, p);
    }
    p
}

// A text: copied where all of it stands as it is and has room.
pub fn put_text(x: &[u8], dst: &mut [u8], pen: Pen) -> Pen
    ensures { sheet dst.new result ≡ drawn (sheet dst.old pen) (text_value x.now) }
{
    if !escape::all_plain(x) {
        return put_escapes(x, dst, pen);
    }
    let next = move_by(pen, x.len(), dst.len());
    if !next.ok {
        return put_escapes(x, dst, pen);
    }
    put_bytes(x, dst, pen)
}
