// The three lists of a record, hosts, addresses and ports: sixteen places each, of which a count says how many are used.
#![tactic(auto)]

ghost use Rattle.std.specs.Prelude.{◌≡◌, take};
ghost use Rattle.lists.specs.Fault.{fault_number, number_of, key_of, fault_from};
ghost use Rattle.lists.specs.Append.{slots, kept};
ghost use Rattle.lists.specs.Lists.{port_kept, ports_or_fault, address_kept, addresses_or_fault};

use address::Address;
use number::NumberError;

// Why a setting is refused.
#[derive(Clone, Copy, Debug, PartialEq, Eq, Hash)]
pub enum Fault {
    UnknownKey,
    Word,
    Form,
    Range,
    NoAddress,
    ManyHosts,
    ManyHostaddrs,
    ManyPorts,
}

// A part of the decode buffer.
#[derive(Clone, Copy, Debug, PartialEq, Eq, Hash)]
pub struct Place {
    pub start: usize,
    pub len: usize,
}

#[derive(Clone, Copy, Debug, PartialEq, Eq, Hash)]
pub enum HostKind {
    Tcp(Place),
    Unix(Place),
}

#[derive(Clone, Copy, Debug, PartialEq, Eq, Hash)]
pub struct Host {
    pub kind: HostKind,
}

// The lists stay three structs of arrays: a generic struct may hold no array of a type parameter.
#[derive(Clone, Copy)]
pub struct Hosts {
    pub list: [Host; 16],
    pub count: usize,
}

#[derive(Clone, Copy)]
pub struct Addresses {
    pub list: [Address; 16],
    pub count: usize,
}

#[derive(Clone, Copy)]
pub struct Ports {
    pub list: [u16; 16],
    pub count: usize,
}

impl Fault {
    // The number that a refusal hands back.
    pub fn number(self) -> usize
        ensures { result ≡ fault_number self }
    {
        match self {
            Fault::UnknownKey => 4,
            Fault::Word | Fault::Form | Fault::Range | Fault::NoAddress => 5,
            Fault::ManyHosts => 13,
            Fault::ManyHostaddrs => 14,
            Fault::ManyPorts => 15,
        }
    }
}

impl From<NumberError> for Fault {
    ghost from_gives = { λ e fault. fault ≡ fault_from e };

    fn from(e: NumberError) -> Fault {
        match e {
            NumberError::Form => Fault::Form,
            NumberError::Range => Fault::Range,
        }
    }
}

// The number that a setting's verdict hands back; 0 where it is not refused.
pub fn number_of(verdict: Result<(), Fault>) -> usize
    ensures { result ≡ number_of verdict }
{
    match verdict {
        Ok(()) => 0,
        Err(fault) => fault.number(),
    }
}

// The key that a refusal names: the setting's where the number is 5, else 0.
pub fn key_of(verdict: Result<(), Fault>, key: usize) -> usize
    ensures { result ≡ key_of verdict key }
{
    if number_of(verdict) == 5 { key } else { 0 }
}

// One entry more in a list of which `count` are used, where there is room; else the fault `full`.
pub fn keep<T: Copy>(
    list: &mut [T; 16],
    count: &mut usize,
    entry: T,
    full: Fault,
) -> Result<(), Fault>
    ensures value { result ≡ (kept full (slots list.old count.old) entry).fault }
    ensures list_after { slots list.new count.new ≡ (kept full (slots list.old count.old) entry).slots }
{
    if 16 <= *count {
        return Err(full);
    }
    list[*count] = entry;
    *count += 1;
    Ok(())
}

// One port more, where there is room.
pub fn keep_port(p: Ports, port: u16) -> Result<Ports, Fault>
    ensures { result ≡ ports_or_fault (port_kept p port) }
{
    let mut next = p;
    keep(&mut next.list, &mut next.count, port, Fault::ManyPorts)?;
    Ok(next)
}

// One address more, where there is room.
pub fn keep_address(a: Addresses, address: Address) -> Result<Addresses, Fault>
    ensures { result ≡ addresses_or_fault (address_kept a address) }
{
    let mut next = a;
    keep(
        &mut next.list,
        &mut next.count,
        address,
        Fault::ManyHostaddrs,
    )?;
    Ok(next)
}

// The counted entries of a list; all of its entries where more are counted.
pub fn used<T>(list: &[T], count: usize) -> &[T]
    ensures { result.now ≡ take count list.now }
{
    &list[..count.min(list.len())]
}
