// One setting applied to the record, by the number of its key.
#![tactic(auto)]

ghost use Rattle.std.specs.Prelude.{◌≡◌};
ghost use Rattle.byte.specs.Byte.{part_of};
ghost use Rattle.apply.specs.Apply.{applied};
ghost use Rattle.param.specs.Sets.{Sets};

use config::Config;
use field_keys::{put_idle, put_keepalives, put_retries, put_text, put_time, put_word};
use list_keys::{append, append_all, append_each};
use lists::Fault;

// Applies the setting of a kind (1 to 19 its key, 20 one host from a URI) whose value is the part of the buffer from `start` up to `end`.
// A kind stays a number: any other one is promised to be an unknown key, and a narrower type would ask more of callers.
// After a fault nothing is promised of the record: the text is refused, and nobody reads it.
pub fn param(
    config: &mut Config,
    kind: usize,
    buffer: &[u8],
    start: usize,
    end: usize,
) -> Result<(), Fault>
    ensures { Sets result (applied kind (part_of start end buffer.now) start config.old) config.new }
{
    let v = byte::part(buffer, start, end);
    let len = v.len();
    match kind {
        1 => put_text(&mut config.user, start, len),
        2 => put_text(&mut config.password, start, len),
        3 => put_text(&mut config.dbname, start, len),
        4 => put_text(&mut config.options, start, len),
        5 => put_text(&mut config.application_name, start, len),
        6 => put_word(&mut config.ssl_mode, v),
        7 => put_word(&mut config.ssl_negotiation, v),
        8 => append_all(&mut config.host.list, &mut config.host.count, start, v),
        9 => append_each(&mut config.hostaddr.list, &mut config.hostaddr.count, v),
        10 => append_each(&mut config.port.list, &mut config.port.count, v),
        11 => put_time(&mut config.connect_timeout, v),
        12 => put_time(&mut config.tcp_user_timeout, v),
        13 => put_keepalives(&mut config.keepalives, v),
        14 => put_idle(&mut config.keepalives_idle, v),
        15 => put_time(&mut config.keepalives_interval, v),
        16 => put_retries(&mut config.keepalives_retries, v),
        17 => put_word(&mut config.target_session_attrs, v),
        18 => put_word(&mut config.channel_binding, v),
        19 => put_word(&mut config.load_balance_hosts, v),
        20 => append(&mut config.host.list, &mut config.host.count, start, v),
        _ => Err(Fault::UnknownKey),
    }
}
