// Which records a report takes: those whose counts and places can be believed.
#![tactic(auto, unfolding(config::specs::Sound::counted, config::specs::Sound::place_in, config::specs::Sound::text_in, config::specs::Sound::kind_in, config::specs::Sound::sound))]

ghost use Rattle.std.specs.Prelude.{◌≡◌};
ghost use Rattle.config.specs.Sound.{counted, place_in, text_in, kind_in, hosts_in, sound};

use config::Config;
use lists::{Host, HostKind, Hosts, Place};

fn place_in(p: Place, n: usize) -> bool
    ensures { result ≡ place_in n p }
{
    p.start <= n && p.len <= n - p.start
}

fn text_in(t: Option<Place>, n: usize) -> bool
    ensures { result ≡ text_in n t }
{
    match t {
        Some(p) => place_in(p, n),
        None => true,
    }
}

fn host_in(h: Host, n: usize) -> bool
    ensures { result ≡ kind_in n h.kind }
{
    match h.kind {
        HostKind::Tcp(p) => place_in(p, n),
        HostKind::Unix(p) => place_in(p, n),
    }
}

// The counted hosts are in, those of the sixteen where more are counted.
fn hosts_in(h: Hosts, n: usize) -> bool
    ensures { result ≡ hosts_in n h }
{
    lists::used(&h.list, h.count)
        .iter()
        .all(|host| host_in(*host, n))
}

// Whether no list count is above 16.
pub fn counts_in(c: Config) -> bool
    ensures { result ≡ counted c }
{
    c.host.count <= 16 && c.hostaddr.count <= 16 && c.port.count <= 16
}

// Whether every list count is at most 16, and every set text and counted host lies in the decode buffer, of n bytes.
pub fn is_sound(c: Config, n: usize) -> bool
    ensures { result ≡ sound n c }
{
    counts_in(c)
        && text_in(c.user, n)
        && text_in(c.password, n)
        && text_in(c.dbname, n)
        && text_in(c.options, n)
        && text_in(c.application_name, n)
        && hosts_in(c.host, n)
}
