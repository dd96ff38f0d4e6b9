// The setters that append an address or a port, as crate setters has those of numbers.
#![tactic(auto, using(setters::proofs::Answers::refused_set))]

ghost use Rattle.std.specs.Prelude.{◌≡◌};
ghost use Rattle.setters.specs.Setter.{address, number, set};

use address::Address;
use config::Config;
use lists::Fault;
use setters::{Answer, believed};

// Key 9, hostaddr: one more, where there is room.
pub fn hostaddr(c: Config, a: Address) -> Answer
    ensures { result ≡ set 9 (address a) c }
{
    let mut answer = believed(c);
    if answer.number == 0 {
        let list = &mut answer.config.hostaddr;
        let kept = lists::keep(&mut list.list, &mut list.count, a, Fault::ManyHostaddrs);
        answer.number = lists::number_of(kept);
    }
    answer
}

// Key 10, port: one more, where there is room.
pub fn port(c: Config, port: u16) -> Answer
    ensures { result ≡ set 10 (number port) c }
{
    let mut answer = believed(c);
    if answer.number == 0 {
        let list = &mut answer.config.port;
        let kept = lists::keep(&mut list.list, &mut list.count, port, Fault::ManyPorts);
        answer.number = lists::number_of(kept);
    }
    answer
}
