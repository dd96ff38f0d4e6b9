// Setters that change the caller's own record: each calls the one that takes the record by value and stores its record over the old one.
#![tactic(auto)]

ghost use Rattle.std.specs.Prelude.{◌≡◌};
ghost use Rattle.setters.specs.Setter.{number, set};

use config::Config;
use setters::Answer;

// Key 10, port.
pub fn set_port(c: &mut Config, port: u16) -> usize
    ensures { (result ≡ (set 10 (number port) c.old).number) × (c.new ≡ (set 10 (number port) c.old).config) }
{
    set_by(c, port, list_setters::port)
}

// Key 11, connect_timeout.
pub fn set_connect_timeout(c: &mut Config, seconds: u64) -> usize
    ensures { (result ≡ (set 11 (number seconds) c.old).number) × (c.new ≡ (set 11 (number seconds) c.old).config) }
{
    set_by(c, seconds, setters::connect_timeout)
}

// Key 12, tcp_user_timeout.
pub fn set_tcp_user_timeout(c: &mut Config, seconds: u64) -> usize
    ensures { (result ≡ (set 12 (number seconds) c.old).number) × (c.new ≡ (set 12 (number seconds) c.old).config) }
{
    set_by(c, seconds, setters::tcp_user_timeout)
}

// Key 14, keepalives_idle.
pub fn set_keepalives_idle(c: &mut Config, seconds: u64) -> usize
    ensures { (result ≡ (set 14 (number seconds) c.old).number) × (c.new ≡ (set 14 (number seconds) c.old).config) }
{
    set_by(c, seconds, setters::keepalives_idle)
}

// Key 15, keepalives_interval.
pub fn set_keepalives_interval(c: &mut Config, seconds: u64) -> usize
    ensures { (result ≡ (set 15 (number seconds) c.old).number) × (c.new ≡ (set 15 (number seconds) c.old).config) }
{
    set_by(c, seconds, setters::keepalives_interval)
}

// What every setter above is: whatever X is, where `set` answers `def` of the record and `x` by value, the number is that answer's, and
// the record left is that answer's.
pub fn set_by<X, F: FnOnce(Config, X) -> Answer>(c: &mut Config, x: X, set: F) -> usize
    requires { F.pre set c.old x }
    ensures ran { (a : Answer) × F.post set c.old x a × (result ≡ a.number) × (c.new ≡ a.config) }
    ensures defined { (def : Config → X → Answer) → ((a : Answer) → F.post set c.old x a → a ≡ def c.old x) → (result ≡ (def c.old x).number) × (c.new ≡ (def c.old x).config) }
{
    let a = set(*c, x);
    *c = a.config;
    a.number
}
