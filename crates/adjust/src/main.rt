// Reads a text, changes the record by every setter, by value and in place, and writes each number and the report.
#![tactic(auto)]

use address::{Address, Kind};
use config::{
    ChannelBinding, Config, LoadBalanceHosts, SslMode, SslNegotiation, TargetSessionAttrs,
};
use setters::Answer;
use std::io;
use std::io::Print;

fn tell<R: Print>(rt: &R, name: &str, number: usize) -> io::Result<()> {
    println!(rt; "{name} {number}")
}

// Writes what a setter answered, and hands its record on.
fn take<R: Print>(rt: &R, name: &str, a: Answer) -> io::Result<Config> {
    tell(rt, name, a.number)?;
    Ok(a.config)
}

fn set_ssl<R: Print>(rt: &R, c: Config) -> io::Result<Config> {
    let a = take(rt, "ssl_mode", word_setters::ssl_mode(c, SslMode::Require))?;
    take(
        rt,
        "ssl_negotiation",
        word_setters::ssl_negotiation(a, SslNegotiation::Direct),
    )
}

fn set_words<R: Print>(rt: &R, c: Config) -> io::Result<Config> {
    let a = take(
        rt,
        "target_session_attrs",
        word_setters::target_session_attrs(c, TargetSessionAttrs::ReadWrite),
    )?;
    let b = take(
        rt,
        "channel_binding",
        word_setters::channel_binding(a, ChannelBinding::Disable),
    )?;
    take(
        rt,
        "load_balance_hosts",
        word_setters::load_balance_hosts(b, LoadBalanceHosts::Random),
    )
}

// Zero is stored, unlike zero in a text.
fn set_times<R: Print>(rt: &R, c: Config) -> io::Result<Config> {
    let a = take(rt, "connect_timeout", setters::connect_timeout(c, 0))?;
    let b = take(rt, "tcp_user_timeout", setters::tcp_user_timeout(a, 30))?;
    take(rt, "keepalives_idle", setters::keepalives_idle(b, 0))
}

fn set_probes<R: Print>(rt: &R, c: Config) -> io::Result<Config> {
    let a = take(
        rt,
        "keepalives_interval",
        setters::keepalives_interval(c, 7),
    )?;
    let b = take(rt, "keepalives", setters::keepalives(a, false))?;
    take(rt, "keepalives_retries", setters::keepalives_retries(b, 3))
}

fn set_lists<R: Print>(rt: &R, c: Config) -> io::Result<Config> {
    let loopback = Address {
        kind: Kind::V6(0, 1),
    };
    let a = take(rt, "hostaddr", list_setters::hostaddr(c, loopback))?;
    take(rt, "port", list_setters::port(a, 5433))
}

// The same in place: each lends its record to the setter.
fn set_in_place<R: Print>(rt: &R, c: Config) -> io::Result<Config> {
    let a = take(rt, "set_connect_timeout", lent::lend_connect_timeout(c, 12))?;
    let b = take(
        rt,
        "set_tcp_user_timeout",
        lent::lend_tcp_user_timeout(a, 13),
    )?;
    let d = take(rt, "set_keepalives_idle", lent::lend_keepalives_idle(b, 14))?;
    take(
        rt,
        "set_keepalives_interval",
        lent::lend_keepalives_interval(d, 15),
    )
}

// Ports in place: the 17th is refused, and leaves the record as it was.
fn fill_ports<R: Print>(rt: &R, c: Config) -> io::Result<Config> {
    let mut own = c;
    for i in 0..16 {
        own = take(rt, "set_port", lent::lend_port(own, i))?;
    }
    Ok(own)
}

fn put_report<R: Print>(rt: &R, c: Config, decode: &[u8]) -> io::Result<()> {
    let mut out = [0u8; 13795];
    match report::report(c, decode, &mut out) {
        Ok(n) => rt.write_all(byte::part(&out, 0, n))?,
        refused => tell(rt, "refused", report::number_of(refused))?,
    }
    rt.write_all(b"\n")
}

// A record with a list count above 16, which no text gives: every setter answers 17.
fn forge<R: Print>(rt: &R, c: Config) -> io::Result<()> {
    let mut forged = c;
    forged.port.count = 17;
    take(rt, "forged", setters::keepalives(forged, true))?;
    take(rt, "forged", lent::lend_port(forged, 1))?;
    Ok(())
}

fn change<R: Print>(rt: &R, c: Config, decode: &[u8]) -> io::Result<()> {
    put_report(rt, c, decode)?;
    let words = set_words(rt, set_ssl(rt, c)?)?;
    let times = set_probes(rt, set_times(rt, words)?)?;
    let lists = set_lists(rt, times)?;
    put_report(rt, lists, decode)?;
    let own = fill_ports(rt, set_in_place(rt, lists)?)?;
    put_report(rt, own, decode)?;
    forge(rt, own)
}

fn main(rt: HostRuntime) -> io::Result<()> {
    let mut decode = [0u8; 64];
    let read = reader::read(b"host=db1,/run/pg user=ann port=6000", &mut decode);
    change(&rt, read.config, &decode)
}
