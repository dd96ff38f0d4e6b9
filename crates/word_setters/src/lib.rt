// The setters of words, as crate setters has those of numbers.
#![tactic(auto, using(setters::proofs::Answers::refused_set))]

ghost use Rattle.std.specs.Prelude.{◌≡◌};
ghost use Rattle.setters.specs.Setter.{mode, negotiation, target, binding, balance, set};

use config::{
    ChannelBinding, Config, LoadBalanceHosts, SslMode, SslNegotiation, TargetSessionAttrs,
};
use setters::{Answer, believed};

// Key 6, sslmode.
pub fn ssl_mode(c: Config, word: SslMode) -> Answer
    ensures { result ≡ set 6 (mode word) c }
{
    let mut a = believed(c);
    if a.number == 0 {
        a.config.ssl_mode = word;
    }
    a
}

// Key 7, sslnegotiation.
pub fn ssl_negotiation(c: Config, word: SslNegotiation) -> Answer
    ensures { result ≡ set 7 (negotiation word) c }
{
    let mut a = believed(c);
    if a.number == 0 {
        a.config.ssl_negotiation = word;
    }
    a
}

// Key 17, target_session_attrs.
pub fn target_session_attrs(c: Config, word: TargetSessionAttrs) -> Answer
    ensures { result ≡ set 17 (target word) c }
{
    let mut a = believed(c);
    if a.number == 0 {
        a.config.target_session_attrs = word;
    }
    a
}

// Key 18, channel_binding.
pub fn channel_binding(c: Config, word: ChannelBinding) -> Answer
    ensures { result ≡ set 18 (binding word) c }
{
    let mut a = believed(c);
    if a.number == 0 {
        a.config.channel_binding = word;
    }
    a
}

// Key 19, load_balance_hosts.
pub fn load_balance_hosts(c: Config, word: LoadBalanceHosts) -> Answer
    ensures { result ≡ set 19 (balance word) c }
{
    let mut a = believed(c);
    if a.number == 0 {
        a.config.load_balance_hosts = word;
    }
    a
}
