// The settings of one field: what a value says, written into the field that is lent. A refused value leaves it as it was.
#![tactic(auto)]

ghost use Rattle.std.specs.Prelude.{ℕ, ◌≡◌, ◌-◌, ◌^◌, Some, Ok};
ghost use Rattle.number.specs.Number.{unsigned_of};
ghost use Rattle.names.specs.Find.{word_number};
ghost use Rattle.apply.specs.Apply.{ssl_mode_of, ssl_negotiation_of, target_session_attrs_of, channel_binding_of, load_balance_hosts_of, word_fault, number_fault, seconds_of, seconds_in, time_after, idle_after, keepalives_after, retries_after};
ghost use Rattle.field_keys.specs.Fields.{number_or_fault, word_after};

use config::{ChannelBinding, LoadBalanceHosts, SslMode, SslNegotiation, TargetSessionAttrs};
use lists::{Fault, Place};

// A field that holds a word: its key, and its words by their numbers.
pub trait Word: Copy {
    ghost KEY: { ℕ };

    ghost word: { ℕ → Self };

    const KEY: usize;

    fn from_number(n: usize) -> Self
        ensures { result ≡ word n };
}

impl Word for SslMode {
    ghost KEY = { 6 };

    ghost word = { ssl_mode_of };

    const KEY: usize = 6;

    fn from_number(n: usize) -> SslMode {
        match n {
            1 => SslMode::Disable,
            2 => SslMode::Prefer,
            _ => SslMode::Require,
        }
    }
}

impl Word for SslNegotiation {
    ghost KEY = { 7 };

    ghost word = { ssl_negotiation_of };

    const KEY: usize = 7;

    fn from_number(n: usize) -> SslNegotiation {
        match n {
            1 => SslNegotiation::Postgres,
            _ => SslNegotiation::Direct,
        }
    }
}

impl Word for TargetSessionAttrs {
    ghost KEY = { 17 };

    ghost word = { target_session_attrs_of };

    const KEY: usize = 17;

    fn from_number(n: usize) -> TargetSessionAttrs {
        match n {
            1 => TargetSessionAttrs::Any,
            2 => TargetSessionAttrs::ReadWrite,
            _ => TargetSessionAttrs::ReadOnly,
        }
    }
}

impl Word for ChannelBinding {
    ghost KEY = { 18 };

    ghost word = { channel_binding_of };

    const KEY: usize = 18;

    fn from_number(n: usize) -> ChannelBinding {
        match n {
            1 => ChannelBinding::Disable,
            2 => ChannelBinding::Prefer,
            _ => ChannelBinding::Require,
        }
    }
}

impl Word for LoadBalanceHosts {
    ghost KEY = { 19 };

    ghost word = { load_balance_hosts_of };

    const KEY: usize = 19;

    fn from_number(n: usize) -> LoadBalanceHosts {
        match n {
            1 => LoadBalanceHosts::Disable,
            _ => LoadBalanceHosts::Random,
        }
    }
}

// A text, kept where it stands; it is never refused.
pub fn put_text(field: &mut Option<Place>, start: usize, len: usize) -> Result<(), Fault>
    ensures value { result ≡ Ok tt }
    ensures field_after { field.new ≡ Some (record { start = start; len = len }) }
{
    *field = Some(Place { start, len });
    Ok(())
}

// A word among those of any key. The key need not be the field's own: the number of the word is what the field goes by.
pub fn put_word_of<W: Word>(key: usize, field: &mut W, v: &[u8]) -> Result<(), Fault>
    ensures value { result ≡ word_fault (word_number key v.now) }
    ensures field_after { field.new ≡ word_after W.word field.old (word_number key v.now) }
{
    let n = names::word_number(key, v);
    if n == 0 {
        return Err(Fault::Word);
    }
    *field = W::from_number(n);
    Ok(())
}

// A word of the field's key.
pub fn put_word<W: Word>(field: &mut W, v: &[u8]) -> Result<(), Fault>
    ensures value { result ≡ word_fault (word_number W.KEY v.now) }
    ensures field_after { field.new ≡ word_after W.word field.old (word_number W.KEY v.now) }
{
    put_word_of(W::KEY, field, v)
}

// The seconds of a signed number: only a positive one is cast, zero or below is 0.
fn seconds_of(t: i64) -> u64
    ensures { result ≡ seconds_of t }
{
    if t > 0 { t as u64 } else { 0 }
}

// The seconds that a value says. Always inlined: a field's setter is little more than this call.
#[inline(always)]
fn read_seconds(v: &[u8]) -> Result<u64, Fault>
    ensures { result ≡ number_or_fault (seconds_in v.now) }
{
    Ok(seconds_of(integer::read_signed(v)?))
}

// A time; 0 seconds leave it as it stands.
pub fn put_time(field: &mut Option<u64>, v: &[u8]) -> Result<(), Fault>
    ensures value { result ≡ number_fault (seconds_in v.now) }
    ensures field_after { field.new ≡ time_after field.old (seconds_in v.now) }
{
    let seconds = read_seconds(v)?;
    if seconds != 0 {
        *field = Some(seconds);
    }
    Ok(())
}

// Key 14, keepalives_idle, which 0 seconds leave as it stands.
pub fn put_idle(field: &mut u64, v: &[u8]) -> Result<(), Fault>
    ensures value { result ≡ number_fault (seconds_in v.now) }
    ensures field_after { field.new ≡ idle_after field.old (seconds_in v.now) }
{
    let idle = read_seconds(v)?;
    if idle != 0 {
        *field = idle;
    }
    Ok(())
}

// Key 13, keepalives: 0 is off.
pub fn put_keepalives(field: &mut bool, v: &[u8]) -> Result<(), Fault>
    ensures value { result ≡ number_fault (unsigned_of (2 ^ 64 - 1) v.now) }
    ensures field_after { field.new ≡ keepalives_after field.old (unsigned_of (2 ^ 64 - 1) v.now) }
{
    *field = 0 < number::read_unsigned(v, u64::MAX)?;
    Ok(())
}

// Key 16, keepalives_retries.
pub fn put_retries(field: &mut Option<u32>, v: &[u8]) -> Result<(), Fault>
    ensures value { result ≡ number_fault (unsigned_of (2 ^ 32 - 1) v.now) }
    ensures field_after { field.new ≡ retries_after field.old (unsigned_of (2 ^ 32 - 1) v.now) }
{
    *field = Some(integer::read_u32(v)?);
    Ok(())
}
