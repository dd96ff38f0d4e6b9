// A text read into a record: the limits, UTF-8, then its settings applied in order.
#![tactic(auto)]

ghost use Rattle.std.specs.Prelude.{◌≡◌, ◌≤◌, length};
ghost use Rattle.config.specs.Config.{defaults};
ghost use Rattle.outcome.specs.Outcome.{outcome_of, filled, answer, left, ending_of};

use config::Config;
use ending::Ending;
use outcome::Answer;

// The settings of a text, applied in order to a record.
fn read_settings(text: &[u8], decode: &mut [u8], config: &mut Config) -> Ending
    requires { (length text.now ≤ 4096) × (length text.now ≤ length decode.old) × (config.old ≡ defaults) }
    ensures value { result ≡ ending_of (outcome_of text.now).answer }
    ensures decode_after { decode.new ≡ filled text.now (outcome_of text.now).packed decode.old }
    ensures config_after { result.number ≡ 0 → config.new ≡ (outcome_of text.now).answer.config }
{
    let n = text.len();
    let prefix = names::prefix_len(text);
    let uri = 0 < prefix;
    let mut packed: usize = 0;
    let mut url = url_parser::start(prefix);
    let mut count: usize = 0;
    // The place moves by a setting, to the reading's end: this loop counts no index.
    loop {
        let t = match taking::take_setting(text, decode, uri, url, packed) {
            Ok(t) => t,
            Err(None) => return ending::accept(decode, n, packed, count),
            Err(Some(refusal)) => {
                return ending::refuse_text(decode, n, refusal.number() as usize, 0, count);
            }
        };
        let verdict = param::param(config, t.kind, decode, packed, t.end);
        if verdict.is_err() {
            return ending::refuse_setting(decode, n, verdict, t.kind, count);
        }
        packed = t.packed;
        url = t.next;
        count += 1;
    }
}

// A text read into a record, for any bytes and any two lengths.
fn read_into(text: &[u8], decode: &mut [u8], config: &mut Config) -> Ending
    requires { config.old ≡ defaults }
    ensures value { result ≡ ending_of (answer text.now (length decode.old)) }
    ensures decode_after { decode.new ≡ left text.now decode.old }
    ensures config_after { result.number ≡ 0 → config.new ≡ (answer text.now (length decode.old)).config }
{
    if 4096 < text.len() {
        return ending::end(1, 0, 0);
    }
    if decode.len() < text.len() {
        return ending::end(2, 0, 0);
    }
    if !utf8_valid::valid(text) {
        return ending::refuse_text(decode, text.len(), 3, 0, 0);
    }
    read_settings(text, decode, config)
}

// A text's number, key and count; the record is made in place, and not handed back.
pub fn judge(text: &[u8], decode: &mut [u8]) -> Ending
    ensures value { result ≡ ending_of (answer text.now (length decode.old)) }
    ensures decode_after { decode.new ≡ left text.now decode.old }
{
    let mut config = Config::new();
    read_into(text, decode, &mut config)
}

// Reads a text of at most 4,096 bytes, for any bytes and any two lengths. A refusal gives the default record.
pub fn read(text: &[u8], decode: &mut [u8]) -> Answer
    ensures value { result ≡ answer text.now (length decode.old) }
    ensures decode_after { decode.new ≡ left text.now decode.old }
{
    let mut config = Config::new();
    let e = read_into(text, decode, &mut config);
    if e.number != 0 {
        config = Config::new();
    }
    Answer {
        number: e.number,
        key: e.key,
        count: e.count,
        config,
    }
}
