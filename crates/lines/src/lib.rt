// The report's lines over plain values: each is counted, or written into lent memory, by the same function.
#![tactic(auto)]

ghost use Rattle.std.specs.Prelude.{◌≡◌};
ghost use Rattle.escape.specs.Escape.{text_value};
ghost use Rattle.draw.specs.Pen.{sheet, drawn};
ghost use Rattle.line.specs.Line.{secret_value, word_value, host_value, number_value, address_value, line};

use address::Address;
use draw::Pen;

// Each line is three parts in turn. One function that takes the middle part as a closure would be no plainer: a call of it is as long as a line is now.

pub fn text_line(key: usize, x: &[u8], dst: &mut [u8], pen: Pen) -> Pen
    ensures { sheet dst.new result ≡ drawn (sheet dst.old pen) (line key (text_value x.now)) }
{
    let head = line::put_head(key, dst, pen);
    let value = draw::put_text(x, dst, head);
    draw::put_byte(10, dst, value)
}

// A password's line, whatever the password is.
pub fn secret_line(key: usize, dst: &mut [u8], pen: Pen) -> Pen
    ensures { sheet dst.new result ≡ drawn (sheet dst.old pen) (line key secret_value) }
{
    let head = line::put_head(key, dst, pen);
    let value = draw::put_byte(b'_', dst, head);
    draw::put_byte(10, dst, value)
}

pub fn word_line(key: usize, word: usize, dst: &mut [u8], pen: Pen) -> Pen
    ensures { sheet dst.new result ≡ drawn (sheet dst.old pen) (line key (word_value key word)) }
{
    let head = line::put_head(key, dst, pen);
    let value = draw::put_word(key, word, dst, head);
    draw::put_byte(10, dst, value)
}

pub fn number_line(key: usize, n: u64, dst: &mut [u8], pen: Pen) -> Pen
    ensures { sheet dst.new result ≡ drawn (sheet dst.old pen) (line key (number_value n)) }
{
    let head = line::put_head(key, dst, pen);
    let value = draw::put_number(n, dst, head);
    draw::put_byte(10, dst, value)
}

pub fn host_line(key: usize, unix: bool, x: &[u8], dst: &mut [u8], pen: Pen) -> Pen
    ensures { sheet dst.new result ≡ drawn (sheet dst.old pen) (line key (host_value unix x.now)) }
{
    let head = line::put_head(key, dst, pen);
    let kind = line::put_kind(unix, dst, head);
    let value = draw::put_text(x, dst, kind);
    draw::put_byte(10, dst, value)
}

pub fn address_line(key: usize, a: Address, dst: &mut [u8], pen: Pen) -> Pen
    ensures { sheet dst.new result ≡ drawn (sheet dst.old pen) (line key (address_value a)) }
{
    let head = line::put_head(key, dst, pen);
    let kind = a.kind;
    let value = address_text::put_address(kind, dst, head);
    draw::put_byte(10, dst, value)
}
