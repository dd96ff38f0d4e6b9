// The setters of numbers, with the record passed by value: the record with one setting changed, or the record as it was and why.
#![tactic(auto, using(crate::proofs::Answers::refused_set))]

ghost use Rattle.std.specs.Prelude.{◌≡◌};
ghost use Rattle.byte.specs.Byte.{pick};
ghost use Rattle.config.specs.Sound.{counted};
ghost use Rattle.setters.specs.Setter.{number, switch, set, answer_of};

use config::Config;
use lists::Fault;

// The number of a record with a list count above 16.
const UNSOUND: usize = 17;

// 0 and the record with the setting changed; or the number of a refusal, and the record as it was. No Result: the record comes back on a
// refusal too, and the theorem `judged` of crate setter_laws speaks of the number.
#[derive(Clone, Copy)]
pub struct Answer {
    pub number: usize,
    pub config: Config,
}

// Where every setter begins: the record as it stands, and the number of one whose counts can't be believed, else 0. The setter then changes
// the answer's own record in place: each copy of a record that is made on the way costs more than all the rest of a setter.
#[inline(always)]
pub fn believed(c: Config) -> Answer
    ensures { result ≡ record { number = pick (counted c) 0 17; config = c } }
{
    Answer {
        number: if sound::counts_in(c) { 0 } else { UNSOUND },
        config: c,
    }
}

// What a setter answers of the record `c` to whoever has the changed record at hand, or why that has no room. The setters below and those of
// word_setters and list_setters change the answer's own record instead, which takes fewer copies.
#[tactic(auto, unfolding(crate::specs::Setter::answer_of))]
pub fn answered(c: Config, changed: Result<Config, Fault>) -> Answer
    ensures { result ≡ answer_of changed c }
{
    let begun = believed(c);
    if begun.number != 0 {
        return begun;
    }
    match changed {
        Ok(next) => Answer {
            number: 0,
            config: next,
        },
        Err(fault) => Answer {
            number: fault.number(),
            config: c,
        },
    }
}

// Key 11, connect_timeout: zero is stored, unlike zero in a text.
pub fn connect_timeout(c: Config, seconds: u64) -> Answer
    ensures { result ≡ set 11 (number seconds) c }
{
    let mut a = believed(c);
    if a.number == 0 {
        a.config.connect_timeout = Some(seconds);
    }
    a
}

// Key 12, tcp_user_timeout: zero is stored, unlike zero in a text.
pub fn tcp_user_timeout(c: Config, seconds: u64) -> Answer
    ensures { result ≡ set 12 (number seconds) c }
{
    let mut a = believed(c);
    if a.number == 0 {
        a.config.tcp_user_timeout = Some(seconds);
    }
    a
}

// Key 13, keepalives.
pub fn keepalives(c: Config, on: bool) -> Answer
    ensures { result ≡ set 13 (switch on) c }
{
    let mut a = believed(c);
    if a.number == 0 {
        a.config.keepalives = on;
    }
    a
}

// Key 14, keepalives_idle: a time that is never unset; zero is stored.
pub fn keepalives_idle(c: Config, seconds: u64) -> Answer
    ensures { result ≡ set 14 (number seconds) c }
{
    let mut a = believed(c);
    if a.number == 0 {
        a.config.keepalives_idle = seconds;
    }
    a
}

// Key 15, keepalives_interval: zero is stored, unlike zero in a text.
pub fn keepalives_interval(c: Config, seconds: u64) -> Answer
    ensures { result ≡ set 15 (number seconds) c }
{
    let mut a = believed(c);
    if a.number == 0 {
        a.config.keepalives_interval = Some(seconds);
    }
    a
}

// Key 16, keepalives_retries.
pub fn keepalives_retries(c: Config, retries: u32) -> Answer
    ensures { result ≡ set 16 (number retries) c }
{
    let mut a = believed(c);
    if a.number == 0 {
        a.config.keepalives_retries = Some(retries);
    }
    a
}

#[cfg(test)]
mod tests;
