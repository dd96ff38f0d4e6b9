// What a field of a record reads as in the report; and the line of a field, or of a list's entry, that is always set.
#![tactic(auto)]

ghost use Rattle.std.specs.Prelude.{◌≡◌};
ghost use Rattle.draw.specs.Pen.{sheet, drawn};
ghost use Rattle.line.specs.Line.{number_value, line};
ghost use Rattle.config.specs.Values.{place_shown, host_shown};
ghost use Rattle.field.specs.Field.{named_host, switch_value};

use draw::Pen;
use lists::{Host, HostKind, Place};

// The bytes at a place, as far as they stand in the buffer.
pub fn bytes_at(decode: &[u8], p: Place) -> &[u8]
    ensures { result.now ≡ place_shown decode.now p }
{
    let rest = &decode[p.start.min(decode.len())..];
    &rest[..p.len.min(rest.len())]
}

pub fn put_host(h: Host, decode: &[u8], dst: &mut [u8], pen: Pen) -> Pen
    ensures { sheet dst.new result ≡ drawn (sheet dst.old pen) (line 8 (named_host (host_shown decode.now h))) }
{
    match h.kind {
        HostKind::Tcp(p) => lines::host_line(8, false, bytes_at(decode, p), dst, pen),
        HostKind::Unix(p) => lines::host_line(8, true, bytes_at(decode, p), dst, pen),
    }
}

pub fn put_port(port: u16, dst: &mut [u8], pen: Pen) -> Pen
    ensures { sheet dst.new result ≡ drawn (sheet dst.old pen) (line 10 (number_value port)) }
{
    lines::number_line(10, u64::from(port), dst, pen)
}

pub fn put_switch(key: usize, on: bool, dst: &mut [u8], pen: Pen) -> Pen
    ensures { sheet dst.new result ≡ drawn (sheet dst.old pen) (line key (switch_value on)) }
{
    lines::number_line(key, u64::from(on), dst, pen)
}
