// The setters in place, called with a record of one's own: it is lent to the setter and handed back.
#![tactic(auto)]

ghost use Rattle.std.specs.Prelude.{ℕ, ◌≡◌};
ghost use Rattle.setters.specs.Setter.{number, set};

use config::Config;
use setters::Answer;

// Key 10, port.
pub fn lend_port(c: Config, port: u16) -> Answer
    ensures { result ≡ set 10 (number port) c }
{
    lend_by(c, port, in_place::set_port)
}

// Key 11, connect_timeout.
pub fn lend_connect_timeout(c: Config, seconds: u64) -> Answer
    ensures { result ≡ set 11 (number seconds) c }
{
    lend_by(c, seconds, in_place::set_connect_timeout)
}

// Key 12, tcp_user_timeout.
pub fn lend_tcp_user_timeout(c: Config, seconds: u64) -> Answer
    ensures { result ≡ set 12 (number seconds) c }
{
    lend_by(c, seconds, in_place::set_tcp_user_timeout)
}

// Key 14, keepalives_idle.
pub fn lend_keepalives_idle(c: Config, seconds: u64) -> Answer
    ensures { result ≡ set 14 (number seconds) c }
{
    lend_by(c, seconds, in_place::set_keepalives_idle)
}

// Key 15, keepalives_interval.
pub fn lend_keepalives_interval(c: Config, seconds: u64) -> Answer
    ensures { result ≡ set 15 (number seconds) c }
{
    lend_by(c, seconds, in_place::set_keepalives_interval)
}

// What every function above is: whatever X is, where `set`, lent this record, hands back the number of `def` and leaves its record in
// place, the answer is that of `def`.
pub fn lend_by<X, F: FnOnce(&mut Config, X) -> usize>(c: Config, x: X, set: F) -> Answer
    requires { (own : _) → own.now ≡ c → F.pre set own x }
    ensures ran { (own : _) × (back : _) × (own.now ≡ c) × F.post set own x result.number back × (result.config ≡ back.now) }
    ensures defined { (def : Config → X → Answer) → ((own : _) (r : ℕ) (back : _) → own.now ≡ c → F.post set own x r back → (r ≡ (def c x).number) × (back.now ≡ (def c x).config)) → result ≡ def c x }
{
    let mut own = c;
    let number = set(&mut own, x);
    Answer {
        number: number,
        config: own,
    }
}
