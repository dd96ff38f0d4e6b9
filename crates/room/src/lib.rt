// Whether a report surely has room, told from a record's lengths and counts alone, so that it needn't be measured first.
#![tactic(auto, unfolding(crate::specs::Room::text_threes, crate::specs::Room::kind_len))]

ghost use Rattle.std.specs.Prelude.{◌≡◌, ◌-◌, take};
ghost use Rattle.room.specs.Room.{text_threes, kind_len, host_threes, surely_fits};

use config::Config;
use lists::{Host, HostKind, Hosts, Place};

fn without_text(left: usize, t: Option<Place>) -> usize
    ensures { result ≡ left - text_threes t }
{
    match t {
        Some(p) => left.saturating_sub(p.len),
        None => left,
    }
}

fn host_len(h: Host) -> usize
    ensures { result ≡ kind_len h.kind }
{
    match h.kind {
        HostKind::Tcp(p) => p.len,
        HostKind::Unix(p) => p.len,
    }
}

fn without_hosts(from: usize, h: Hosts) -> usize
    ensures { result ≡ from - host_threes (take h.count h.list) }
{
    h.list.iter().take(h.count).fold(
        from,
        |left, &host| left.saturating_sub(4).saturating_sub(host_len(host)),
    )
}

// Whether n bytes are enough for the report whatever the texts' bytes are; `false` tells nothing.
#[tactic(auto, using(crate::proofs::Left::few_addresses, crate::proofs::Left::few_ports, crate::proofs::Left::uncounted))]
pub fn surely_fits(c: Config, n: usize) -> bool
    ensures { result ≡ surely_fits n c }
{
    if !sound::counts_in(c) {
        return false;
    }
    let user = without_text(n / 3, c.user);
    let dbname = without_text(user, c.dbname);
    let options = without_text(dbname, c.options);
    let name = without_text(options, c.application_name);
    let left = without_hosts(name, c.host);
    127 + 17 * c.hostaddr.count + 9 * c.port.count < left
}
