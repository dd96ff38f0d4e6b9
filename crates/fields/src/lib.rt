// The lines of a record's fields, a function for each kind of field.
#![tactic(auto, using(crate::proofs::Steps::none_drawn, crate::proofs::Steps::one_drawn))]

ghost use Rattle.std.specs.Prelude.{ℕ, ◌≡◌, List, map};
ghost use Rattle.escape.specs.Escape.{text_value};
ghost use Rattle.draw.specs.Pen.{sheet, drawn};
ghost use Rattle.line.specs.Line.{secret_value, address_value, number_value, line, lines};
ghost use Rattle.config.specs.Values.{text_shown, hosts_shown, addresses_shown, ports_shown, seconds_shown, retries_shown};
ghost use Rattle.field.specs.Field.{mode_number, negotiation_number, target_number, binding_number, balance_number, optional, named_host};

use address::Address;
use config::{ChannelBinding, LoadBalanceHosts, SslMode, SslNegotiation, TargetSessionAttrs};
use draw::Pen;
use lists::{Addresses, Host, Hosts, Place, Ports};

pub fn put_text(key: usize, t: Option<Place>, decode: &[u8], dst: &mut [u8], pen: Pen) -> Pen
    ensures { sheet dst.new result ≡ drawn (sheet dst.old pen) (lines key (optional text_value (text_shown decode.now t))) }
{
    match t {
        Some(place) => lines::text_line(key, field::bytes_at(decode, place), dst, pen),
        None => pen,
    }
}

pub fn put_secret(key: usize, t: Option<Place>, dst: &mut [u8], pen: Pen) -> Pen
    ensures { sheet dst.new result ≡ drawn (sheet dst.old pen) (lines key (optional (λ x. secret_value) t)) }
{
    match t {
        Some(_) => lines::secret_line(key, dst, pen),
        None => pen,
    }
}

pub fn put_seconds(key: usize, s: Option<u64>, dst: &mut [u8], pen: Pen) -> Pen
    ensures { sheet dst.new result ≡ drawn (sheet dst.old pen) (lines key (optional number_value (seconds_shown s))) }
{
    match s {
        Some(seconds) => lines::number_line(key, seconds, dst, pen),
        None => pen,
    }
}

pub fn put_retries(key: usize, r: Option<u32>, dst: &mut [u8], pen: Pen) -> Pen
    ensures { sheet dst.new result ≡ drawn (sheet dst.old pen) (lines key (optional number_value (retries_shown r))) }
{
    put_seconds(key, r.map(u64::from), dst, pen)
}

// A line for each entry, in order.
fn put_each<T: Copy, F: Fn(T, &mut [u8], Pen) -> Pen>(
    entries: &[T],
    put: F,
    dst: &mut [u8],
    pen: Pen,
) -> Pen
    requires { F.IsAlwaysCallable put }
    ensures { (key : ℕ) (f : T → List (List ℕ)) → ((x : T) (d : _) (p q : Pen) (e : _) → F.post put x d p q e → sheet e.now q ≡ drawn (sheet d.now p) (line key (f x))) → sheet dst.new result ≡ drawn (sheet dst.old pen) (lines key (map f entries.now)) }
{
    let mut p = pen;
    for entry in entries {
        p = put(*entry, dst, p);
    }
    p
}

pub fn put_hosts(h: Hosts, decode: &[u8], dst: &mut [u8], pen: Pen) -> Pen
    ensures { sheet dst.new result ≡ drawn (sheet dst.old pen) (lines 8 (map named_host (hosts_shown decode.now h))) }
{
    let put = |host: Host, dst: &mut [u8], pen: Pen| field::put_host(host, decode, dst, pen);
    put_each(lists::used(&h.list, h.count), put, dst, pen)
}

pub fn put_addresses(a: Addresses, dst: &mut [u8], pen: Pen) -> Pen
    ensures { sheet dst.new result ≡ drawn (sheet dst.old pen) (lines 9 (map address_value (addresses_shown a))) }
{
    let put = |address: Address, dst: &mut [u8], pen: Pen| lines::address_line(
        9, address, dst, pen,
    );
    put_each(lists::used(&a.list, a.count), put, dst, pen)
}

pub fn put_ports(ports: Ports, dst: &mut [u8], pen: Pen) -> Pen
    ensures { sheet dst.new result ≡ drawn (sheet dst.old pen) (lines 10 (map number_value (ports_shown ports))) }
{
    put_each(
        lists::used(&ports.list, ports.count),
        field::put_port,
        dst,
        pen,
    )
}

// The numbers of the words: five functions and no trait, since each is public under its name (docs/PROMISES.md), and a trait would hold
// the same five matches.
pub fn mode_number(word: SslMode) -> usize
    ensures { result ≡ mode_number word }
{
    match word {
        SslMode::Disable => 1,
        SslMode::Prefer => 2,
        SslMode::Require => 3,
    }
}

pub fn negotiation_number(word: SslNegotiation) -> usize
    ensures { result ≡ negotiation_number word }
{
    match word {
        SslNegotiation::Postgres => 1,
        SslNegotiation::Direct => 2,
    }
}

pub fn target_number(word: TargetSessionAttrs) -> usize
    ensures { result ≡ target_number word }
{
    match word {
        TargetSessionAttrs::Any => 1,
        TargetSessionAttrs::ReadWrite => 2,
        TargetSessionAttrs::ReadOnly => 3,
    }
}

pub fn binding_number(word: ChannelBinding) -> usize
    ensures { result ≡ binding_number word }
{
    match word {
        ChannelBinding::Disable => 1,
        ChannelBinding::Prefer => 2,
        ChannelBinding::Require => 3,
    }
}

pub fn balance_number(word: LoadBalanceHosts) -> usize
    ensures { result ≡ balance_number word }
{
    match word {
        LoadBalanceHosts::Disable => 1,
        LoadBalanceHosts::Random => 2,
    }
}
