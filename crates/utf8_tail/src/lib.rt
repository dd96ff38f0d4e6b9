// UTF-8 by RFC 3629: which bytes may stand behind a character's first.
#![tactic(auto)]

ghost use Rattle.std.specs.Prelude.{◌≡◌};
ghost use Rattle.utf8_tail.specs.Tail.{tail, least, greatest, second};

pub fn is_tail(b: u8) -> bool
    ensures { result ≡ tail b }
{
    byte::is_between(0x80, 0xbf, b)
}

pub fn least_of(a: u8) -> u8
    ensures { result ≡ least a }
{
    if a == 0xe0 {
        return 0xa0;
    }
    if a == 0xf0 { 0x90 } else { 0x80 }
}

pub fn greatest_of(a: u8) -> u8
    ensures { result ≡ greatest a }
{
    if a == 0xed {
        return 0x9f;
    }
    if a == 0xf4 { 0x8f } else { 0xbf }
}

pub fn is_second(a: u8, b: u8) -> bool
    ensures { result ≡ second a b }
{
    byte::is_between(least_of(a), greatest_of(a), b)
}
