// The next setting of a text, a URI or key-value pairs, read and written into the buffer.
#![tactic(auto)]

ghost use Rattle.std.specs.Prelude.{◌≡◌};
ghost use Rattle.byte.specs.Byte.{pick};
ghost use Rattle.byte.specs.Put.{written, after};
ghost use Rattle.keyvalue.specs.KeyValue.{parameter_at};
ghost use Rattle.taking.specs.Taking.{keeps, as_url_step, next_at, value_at, taken_of, taken_leaves};

use setting::Refusal;
use url_parser::{Found, Stage, Url};

// A setting taken from the text: its kind, the place behind its value in the buffer, the place behind what is packed once it is applied, and how far
// the text is read.
#[derive(Clone, Copy)]
pub struct Taken {
    pub kind: usize,
    pub end: usize,
    pub packed: usize,
    pub next: Url,
}

// Whether a setting's value is kept in the buffer.
fn keeps_value(kind: usize) -> bool
    ensures { result ≡ keeps kind }
{
    // An arm for each: a compiler makes one test of a set of bits of them, and a chain of comparisons of alternatives.
    match kind {
        1 => true,
        2 => true,
        3 => true,
        4 => true,
        5 => true,
        8 => true,
        20 => true,
        _ => false,
    }
}

// A parameter of a key-value text in the words of a URI's step.
fn next_parameter(text: &[u8], at: usize) -> Result<Found, Option<Refusal>>
    ensures { result ≡ as_url_step (parameter_at text.now at) }
{
    let p = keyvalue::parameter(text, at)?;
    Ok(Found {
        kind: p.key.number,
        from: p.value.from,
        to: p.value.to,
        len: p.value.len,
        fixed: false,
        next: Url {
            stage: Stage::Credentials,
            at: p.next,
        },
    })
}

// The flag stays: it is an argument of the public take_setting and of the definitions next_at and value_at, on which theorems of crate demands stand.
fn next_setting(text: &[u8], uri: bool, u: Url) -> Result<Found, Option<Refusal>>
    ensures { result ≡ next_at text.now uri u }
{
    if uri {
        return uri_step::step(text, u);
    }
    next_parameter(text, u.at)
}

// Writes a setting's value, decoded, at a place of the buffer.
fn put_value(text: &[u8], uri: bool, f: Found, decode: &mut [u8], at: usize) -> usize
    ensures value { result ≡ after decode.old at (value_at text.now uri f) }
    ensures decode_after { decode.new ≡ written decode.old at (value_at text.now uri f) }
{
    if uri {
        return uri_values::put_value(text, f, decode, at);
    }
    keyvalue::unescape(byte::part(text, f.from, f.to), decode, at)
}

// The place behind what is packed, once a setting's value stands from `at` up to `end`.
fn packed_after(kind: usize, at: usize, end: usize) -> usize
    ensures { result ≡ pick (keeps kind) end at }
{
    if keeps_value(kind) { end } else { at }
}

// One setting read, and its value written behind what is packed; or the reading's end, clean or a refusal.
pub fn take_setting(
    text: &[u8],
    decode: &mut [u8],
    uri: bool,
    u: Url,
    at: usize,
) -> Result<Taken, Option<Refusal>>
    ensures value { result ≡ taken_of text.now uri u at decode.old }
    ensures decode_after { decode.new ≡ taken_leaves text.now uri u at decode.old }
{
    let f = next_setting(text, uri, u)?;
    let end = put_value(text, uri, f, decode, at);
    Ok(Taken {
        kind: f.kind,
        end,
        packed: packed_after(f.kind, at, end),
        next: f.next,
    })
}
