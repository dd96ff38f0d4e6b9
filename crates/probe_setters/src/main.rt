// Calls of the setters from standard input, and what they answer on standard output: for the runs beside the Rust.
// A sequence is a byte that says how many calls follow. A call is 18 bytes: the key, 100 more where the record is changed in
// place; a word's number, a switch or an address's kind; two numbers of eight bytes, the high byte first.
// The answer to a sequence is a byte for each call's number, the length of the report in two bytes, and the report.
#![tactic(auto)]

use address::{Address, Kind};
use config::{
    ChannelBinding, Config, LoadBalanceHosts, SslMode, SslNegotiation, TargetSessionAttrs,
};
use setters::Answer;
use std::io;
use std::io::{Input, Print, Read};

#[derive(Clone, Copy)]
struct Call {
    key: u8,
    word: u8,
    high: u64,
    low: u64,
}

fn two(high: u8, low: u8) -> u16 {
    (high as u16) * 256 + (low as u16)
}

fn four(high: u16, low: u16) -> u32 {
    (high as u32) * 65536 + (low as u32)
}

fn eight(high: u32, low: u32) -> u64 {
    (high as u64) * 4294967296 + (low as u64)
}

fn high_of(b: [u8; 18]) -> u64 {
    let high = four(two(b[2], b[3]), two(b[4], b[5]));
    let low = four(two(b[6], b[7]), two(b[8], b[9]));
    eight(high, low)
}

fn low_of(b: [u8; 18]) -> u64 {
    let high = four(two(b[10], b[11]), two(b[12], b[13]));
    let low = four(two(b[14], b[15]), two(b[16], b[17]));
    eight(high, low)
}

fn call_of(b: [u8; 18]) -> Call {
    Call {
        key: b[0],
        word: b[1],
        high: high_of(b),
        low: low_of(b),
    }
}

fn mode_of(n: u8) -> SslMode {
    match n {
        0 => SslMode::Disable,
        1 => SslMode::Prefer,
        _ => SslMode::Require,
    }
}

fn negotiation_of(n: u8) -> SslNegotiation {
    match n {
        0 => SslNegotiation::Postgres,
        _ => SslNegotiation::Direct,
    }
}

fn target_of(n: u8) -> TargetSessionAttrs {
    match n {
        0 => TargetSessionAttrs::Any,
        1 => TargetSessionAttrs::ReadWrite,
        _ => TargetSessionAttrs::ReadOnly,
    }
}

fn binding_of(n: u8) -> ChannelBinding {
    match n {
        0 => ChannelBinding::Disable,
        1 => ChannelBinding::Prefer,
        _ => ChannelBinding::Require,
    }
}

fn balance_of(n: u8) -> LoadBalanceHosts {
    match n {
        0 => LoadBalanceHosts::Disable,
        _ => LoadBalanceHosts::Random,
    }
}

fn address_of(k: Call) -> Address {
    let kind = if k.word == 4 {
        Kind::V4((k.low % 4294967296) as u32)
    } else {
        Kind::V6(k.high, k.low)
    };
    Address { kind }
}

fn port_of(k: Call) -> u16 {
    (k.low % 65536) as u16
}

fn call_word(c: Config, k: Call) -> Answer {
    match k.key {
        6 => word_setters::ssl_mode(c, mode_of(k.word)),
        7 => word_setters::ssl_negotiation(c, negotiation_of(k.word)),
        13 => setters::keepalives(c, 0 < k.word),
        17 => word_setters::target_session_attrs(c, target_of(k.word)),
        18 => word_setters::channel_binding(c, binding_of(k.word)),
        _ => word_setters::load_balance_hosts(c, balance_of(k.word)),
    }
}

fn call_number(c: Config, k: Call) -> Answer {
    match k.key {
        9 => list_setters::hostaddr(c, address_of(k)),
        10 => list_setters::port(c, port_of(k)),
        11 => setters::connect_timeout(c, k.low),
        12 => setters::tcp_user_timeout(c, k.low),
        14 => setters::keepalives_idle(c, k.low),
        15 => setters::keepalives_interval(c, k.low),
        16 => setters::keepalives_retries(c, (k.low % 4294967296) as u32),
        _ => call_word(c, k),
    }
}

// A call in place, of a record that is lent.
fn call_in_place(c: Config, k: Call) -> Answer {
    match k.key {
        110 => lent::lend_port(c, port_of(k)),
        111 => lent::lend_connect_timeout(c, k.low),
        112 => lent::lend_tcp_user_timeout(c, k.low),
        114 => lent::lend_keepalives_idle(c, k.low),
        _ => lent::lend_keepalives_interval(c, k.low),
    }
}

fn make(c: Config, k: Call) -> Answer {
    if k.key < 100 {
        return call_number(c, k);
    }
    call_in_place(c, k)
}

fn put_report<P: Print>(rt: &P, c: Config) -> io::Result<()> {
    let mut out = [0u8; 13795];
    if let Ok(n) = report::report(c, b"", &mut out) {
        let len = [(n / 256 % 256) as u8, (n % 256) as u8];
        rt.write_all(&len)?;
        rt.write_all(byte::part(&out, 0, n))?;
    }
    Ok(())
}

// One call: its number is written, and its record handed on.
fn step<P: Print, R: Read>(rt: &P, from: &mut R, c: Config) -> io::Result<Config> {
    let mut b = [0u8; 18];
    filling::read_full(from, &mut b)?;
    let a = make(c, call_of(b));
    let number = [(a.number % 256) as u8];
    rt.write_all(&number)?;
    Ok(a.config)
}

fn answer_all<P: Print, R: Read>(rt: &P, from: &mut R, n: u8) -> io::Result<()> {
    let mut c = Config::new();
    for _ in 0..n {
        c = step(rt, from, c)?;
    }
    put_report(rt, c)
}

// Whether there was one more sequence.
fn turn<P: Print, R: Read>(rt: &P, from: &mut R) -> io::Result<bool> {
    let mut n = [0u8; 1];
    if filling::read_full(from, &mut n)? != 1 {
        return Ok(false);
    }
    answer_all(rt, from, n[0])?;
    Ok(true)
}

fn main(rt: HostRuntime) -> io::Result<()> {
    let mut from = rt.reader();
    for _ in 0..1000000 {
        if !turn(&rt, &mut from)? {
            break;
        }
    }
    Ok(())
}
