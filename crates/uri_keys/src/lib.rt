// Which kind of setting a URI's parameter gives, by its key.
#![tactic(auto)]

ghost use Rattle.std.specs.Prelude.{◌≡◌};
ghost use Rattle.percent.specs.Percent.{decoded};
ghost use Rattle.uri_keys.specs.Kind.{param_kind, key_kind};

// Kinds of settings: a key's number, and one host from a URI. A key that is not UTF-8 gives none.
const HOST_KEY: usize = 8;

pub const ONE_HOST: usize = 20;

pub const NO_KEY: usize = 21;

// The kind that a key gives, or 21 where it is not UTF-8 once decoded. The known keys are, so that they are read once.
pub fn parse_key(key: &[u8]) -> usize
    ensures { result ≡ key_kind (decoded key.now) }
{
    let kind = param_kind(key);
    if kind != 0 {
        return kind;
    }
    let c = percent_check::check(key);
    if c.utf8 { 0 } else { NO_KEY }
}

// The kind of a setting with this key. A known key has no `%`, so that it is looked up as it stands first.
fn param_kind(key: &[u8]) -> usize
    ensures { result ≡ param_kind (decoded key.now) }
{
    let known = names::key_number(key);
    if known == HOST_KEY {
        return ONE_HOST;
    }
    if known != 0 {
        return known;
    }
    decoded_kind(key)
}

// The same of the key decoded: no key is longer than 20 bytes, and one that is too long to be decoded here has no number.
fn decoded_kind(key: &[u8]) -> usize
    ensures { result ≡ param_kind (decoded key.now) }
{
    let mut name = [0u8; 20];
    let n = percent_decode::decode(key, &mut name, 0);
    let number = names::key_number(byte::part(&name, 0, n));
    if number == HOST_KEY { ONE_HOST } else { number }
}
