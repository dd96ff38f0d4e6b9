// Settings applied one after the other, and the report of the record that they make: exported for the runs beside Rust and for nothing else.
#![tactic(auto)]

ghost use Rattle.std.specs.Prelude.{◌≡◌, ◌≤◌, length};
ghost use Rattle.report.specs.Answer.{reported_into};
ghost use Rattle.lists.specs.Fault.{number_of, key_of};
ghost use Rattle.config.specs.Config.{defaults};
ghost use Rattle.probe_record.specs.Settled.{value_at, given_at, first, settled, reached_of, told_len, told};

use config::Config;
use lists::Fault;
use report::ReportError;

// A setting's kind, and where its value stands.
#[derive(Clone, Copy)]
pub struct Given {
    pub kind: usize,
    pub start: usize,
    pub end: usize,
}

// How far the settings went: the first refusal's number and key, 0 where there is none, and the place of the first setting that was not applied.
#[derive(Clone, Copy)]
pub struct Reached {
    pub number: usize,
    pub key: usize,
    pub at: usize,
}

// The same with the record, which is the default one behind a refusal.
#[derive(Clone, Copy)]
pub struct Settled {
    pub number: usize,
    pub key: usize,
    pub at: usize,
    pub config: Config,
}

#[repr(C)]
#[derive(Clone, Copy)]
pub struct Told {
    pub number: usize,
    pub key: usize,
    pub at: usize,
    pub len: usize,
}

// A setting of some kind whose value's length stands at a place.
fn value_at(list: &[u8], kind: usize, at: usize) -> Given
    requires { at ≤ 131072 }
    ensures { result ≡ value_at list.now kind at }
{
    let high = byte::at(list, at) as usize;
    let low = byte::at(list, at + 1) as usize;
    let start = at + 2;
    Given {
        kind,
        start,
        end: start + (high * 256 + low),
    }
}

// The setting at a place.
fn given_at(list: &[u8], at: usize) -> Given
    requires { at ≤ 65536 }
    ensures { result ≡ given_at list.now at }
{
    let b = byte::at(list, at);
    let from = at + 1;
    if b == 255 {
        return value_at(list, 20, from);
    }
    let to = from + (b as usize);
    value_at(list, names::key_number(byte::part(list, from, to)), to)
}

// Settings applied up to a place, and none refused.
fn reach(at: usize) -> Reached
    ensures { result ≡ record { number = 0; key = 0; at = at } }
{
    Reached {
        number: 0,
        key: 0,
        at,
    }
}

// The setting of a kind refused that stands at a place.
fn refuse_at(verdict: Result<(), Fault>, kind: usize, at: usize) -> Reached
    ensures { result ≡ record { number = number_of verdict; key = key_of verdict kind; at = at } }
{
    Reached {
        number: lists::number_of(verdict),
        key: lists::key_of(verdict, kind),
        at,
    }
}

// The first n settings of a list, applied in order to a record.
fn settle_into(n: usize, list: &[u8], config: &mut Config) -> Reached
    requires { config.old ≡ defaults }
    ensures value { result ≡ reached_of (settled n list.now first) }
    ensures config_after { result.number ≡ 0 → config.new ≡ (settled n list.now first).config }
{
    let mut at: usize = 0;
    for _ in 0..n {
        if 65536 < at {
            return reach(at);
        }
        let g = given_at(list, at);
        let verdict = param::param(config, g.kind, list, g.start, g.end);
        if verdict.is_err() {
            return refuse_at(verdict, g.kind, at);
        }
        at = g.end;
    }
    reach(at)
}

// The first n settings of a list. A refusal gives the default record.
fn settle(n: usize, list: &[u8]) -> Settled
    ensures { result ≡ settled n list.now first }
{
    let mut config = Config::new();
    let e = settle_into(n, list, &mut config);
    if e.number != 0 {
        config = Config::new();
    }
    Settled {
        number: e.number,
        key: e.key,
        at: e.at,
        config,
    }
}

// A report's length, or 1,000,000 plus the refusal.
fn tell_len(answer: Result<usize, ReportError>) -> usize
    ensures { result ≡ told_len answer }
{
    match answer {
        Ok(n) => n,
        Err(ReportError::Short) => 1000016,
        Err(ReportError::Unsound) => 1000017,
    }
}

// Applies the first n settings of a list and writes the report of the record, whose values are parts of the list.
#[unsafe(no_mangle)]
pub extern "C" fn probe_settings(n: usize, list: &[u8], dst: &mut [u8]) -> Told
    ensures value { result ≡ told (settled n list.now first) list.now (length dst.old) }
    ensures dst_after { dst.new ≡ reported_into list.now (settled n list.now first).config dst.old }
{
    let s = settle(n, list);
    let a = report::report(s.config, list, dst);
    Told {
        number: s.number,
        key: s.key,
        at: s.at,
        len: tell_len(a),
    }
}
