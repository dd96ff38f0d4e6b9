// An IP address as the report's line has it, counted or written into lent memory.
#![tactic(auto)]

ghost use Rattle.std.specs.Prelude.{◌≡◌, false, [], ◌∷◌};
ghost use Rattle.byte.specs.Ascii.{bytes};
ghost use Rattle.decimal.specs.Decimal.{decimal, hex_digits};
ghost use Rattle.address.specs.declared.Kind.{Kind};
ghost use Rattle.draw.specs.Pen.{sheet, drawn};
ghost use Rattle.line.specs.Line.{four_value, quad_value, kind_value};

use address::Kind;
use draw::Pen;

// A decimal of an IPv4 address and the dot behind it.
fn put_dotted(n: u64, dst: &mut [u8], pen: Pen) -> Pen
    ensures { sheet dst.new result ≡ drawn (sheet dst.old pen) (decimal n ∷ bytes "." ∷ []) }
{
    let p = draw::put_number(n, dst, pen);
    draw::put_byte(b'.', dst, p)
}

fn put_four(n: u64, dst: &mut [u8], pen: Pen) -> Pen
    ensures { sheet dst.new result ≡ drawn (sheet dst.old pen) (four_value n) }
{
    let a = put_dotted(n / 16777216, dst, pen);
    let b = put_dotted(n / 65536 % 256, dst, a);
    let c = put_dotted(n / 256 % 256, dst, b);
    draw::put_number(n % 256, dst, c)
}

// A group of an IPv6 address and the colon behind it.
fn put_grouped(g: u16, dst: &mut [u8], pen: Pen) -> Pen
    ensures { sheet dst.new result ≡ drawn (sheet dst.old pen) (hex_digits false 4 g ∷ bytes ":" ∷ []) }
{
    let p = draw::put_group(g, dst, pen);
    draw::put_byte(b':', dst, p)
}

// Four groups.
fn put_quad(n: u64, dst: &mut [u8], pen: Pen) -> Pen
    ensures { sheet dst.new result ≡ drawn (sheet dst.old pen) (quad_value n) }
{
    let a = put_grouped((n / 281474976710656) as u16, dst, pen);
    let b = put_grouped((n / 4294967296 % 65536) as u16, dst, a);
    let c = put_grouped((n / 65536 % 65536) as u16, dst, b);
    draw::put_group((n % 65536) as u16, dst, c)
}

fn put_six(high: u64, low: u64, dst: &mut [u8], pen: Pen) -> Pen
    ensures { sheet dst.new result ≡ drawn (sheet dst.old pen) (kind_value (Kind.V6 high low)) }
{
    let a = put_quad(high, dst, pen);
    let b = draw::put_byte(b':', dst, a);
    put_quad(low, dst, b)
}

pub fn put_address(kind: Kind, dst: &mut [u8], pen: Pen) -> Pen
    ensures { sheet dst.new result ≡ drawn (sheet dst.old pen) (kind_value kind) }
{
    match kind {
        Kind::V4(n) => put_four(n as u64, dst, pen),
        Kind::V6(high, low) => put_six(high, low, dst, pen),
    }
}
