// The pieces of a value that a record's lists are made of: what each stands for, and all of them appended.
#![tactic(auto)]

ghost use Rattle.std.specs.Prelude.{ℕ, ◌≡◌, ◌+◌, ◌≤◌, List, length};
ghost use Rattle.lists.specs.declared.Fault.{Fault};
ghost use Rattle.lists.specs.declared.Fault.TheVariants.{ManyHosts, ManyHostaddrs, ManyPorts};
ghost use Rattle.lists.specs.Append.{Piece, slots, append, append_all, listed};
ghost use Rattle.lists.specs.Lists.{host_of, host_piece, address_piece, port_piece};
ghost use Rattle.list_keys.specs.Pieces.{entry_or_fault, Adds};

use address::Address;
use lists::{Fault, Host, HostKind, Place};

// What stands between two pieces of a value.
const COMMA: u8 = b',';

// An entry of a list: what a piece of a value says that stands from a place on, and the fault where there is no room.
pub trait Entry: Copy {
    ghost FULL: { Fault };

    ghost means: { ℕ → List ℕ → Piece Self };

    const FULL: Fault;

    fn read(start: usize, piece: &[u8]) -> Result<Self, Fault>
        ensures { result ≡ entry_or_fault (means start piece.now) };
}

// A host is a Unix path where its first byte is a slash, else TCP.
fn host_of(first: u8, start: usize, len: usize) -> Host
    ensures { result ≡ host_of first start len }
{
    let place = Place { start, len };
    let kind = if first == b'/' {
        HostKind::Unix(place)
    } else {
        HostKind::Tcp(place)
    };
    Host { kind }
}

impl Entry for Host {
    ghost FULL = { ManyHosts };

    ghost means = { host_piece };

    const FULL: Fault = Fault::ManyHosts;

    fn read(start: usize, piece: &[u8]) -> Result<Host, Fault> {
        Ok(host_of(byte::at(piece, 0), start, piece.len()))
    }
}

impl Entry for Address {
    ghost FULL = { ManyHostaddrs };

    ghost means = { λ start. address_piece };

    const FULL: Fault = Fault::ManyHostaddrs;

    fn read(_start: usize, piece: &[u8]) -> Result<Address, Fault> {
        address::read_address(piece).ok_or(Fault::NoAddress)
    }
}

// A port; an empty piece is 5432.
impl Entry for u16 {
    ghost FULL = { ManyPorts };

    ghost means = { λ start. port_piece };

    const FULL: Fault = Fault::ManyPorts;

    fn read(_start: usize, piece: &[u8]) -> Result<u16, Fault> {
        if piece.is_empty() {
            return Ok(5432);
        }
        Ok(integer::read_u16(piece)?)
    }
}

// One piece appended, which stands from `start` on.
pub fn append<T: Entry>(
    list: &mut [T; 16],
    count: &mut usize,
    start: usize,
    piece: &[u8],
) -> Result<(), Fault>
    ensures value { result ≡ (append T.FULL (slots list.old count.old) (T.means start piece.now)).fault }
    ensures list_after { slots list.new count.new ≡ (append T.FULL (slots list.old count.old) (T.means start piece.now)).slots }
{
    lists::keep(list, count, T::read(start, piece)?, T::FULL)
}

// The pieces between commas of a value that stands from `start` on, left to right: each is judged before room for it.
// After a fault nothing is promised of the list: the text is refused, and nobody reads it.
// The loop goes by places and not by the library's `split`: a host is kept by the place where it stands, which `split` doesn't give.
pub fn append_all<T: Entry>(
    list: &mut [T; 16],
    count: &mut usize,
    start: usize,
    v: &[u8],
) -> Result<(), Fault>
    requires { start + length v.now ≤ 18446744073709551615 }
    ensures { Adds result (slots list.new count.new) (append_all T.FULL (slots list.old count.old) (listed T.means start v.now)) }
{
    let mut at = 0;
    loop {
        let end = split::find(v, at, COMMA);
        append(list, count, start + at, &v[at..end])?;
        if v.len() <= end {
            return Ok(());
        }
        at = end + 1;
    }
}

// The pieces of a value whose entries don't tell where they stand, addresses and ports: as if the value stood at 0, so that any value may come.
pub fn append_each<T: Entry>(list: &mut [T; 16], count: &mut usize, v: &[u8]) -> Result<(), Fault>
    ensures { Adds result (slots list.new count.new) (append_all T.FULL (slots list.old count.old) (listed T.means 0 v.now)) }
{
    append_all(list, count, 0, v)
}
