// What a line of the report reads as; and the parts that stand before a value, written: the key with its sign, the kind of a host.
#![tactic(auto)]

ghost use Rattle.std.specs.Prelude.{◌≡◌, [], ◌∷◌};
ghost use Rattle.byte.specs.Ascii.{bytes};
ghost use Rattle.byte.specs.Byte.{pick};
ghost use Rattle.names.specs.Names.{key_name};
ghost use Rattle.draw.specs.Pen.{sheet, drawn};

use draw::Pen;

// The front of a line: its key and the equals sign.
pub fn put_head(key: usize, dst: &mut [u8], pen: Pen) -> Pen
    ensures { sheet dst.new result ≡ drawn (sheet dst.old pen) (key_name key ∷ bytes "=" ∷ []) }
{
    let p = draw::put_key(key, dst, pen);
    draw::put_byte(b'=', dst, p)
}

// The kind of a host.
pub fn put_kind(unix: bool, dst: &mut [u8], pen: Pen) -> Pen
    ensures { sheet dst.new result ≡ drawn (sheet dst.old pen) (pick unix (bytes "unix:") (bytes "tcp:") ∷ []) }
{
    if unix {
        return draw::put_bytes(b"unix:", dst, pen);
    }
    draw::put_bytes(b"tcp:", dst, pen)
}
