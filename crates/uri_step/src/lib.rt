// One step of the reading of a URI, at any stage: a pure scan of the lent text from a place on, which writes nothing.
#![tactic(auto)]

ghost use Rattle.std.specs.Prelude.{◌≡◌, drop};
ghost use Rattle.url_parser.specs.Step.{credentials_step, password_step, host_step, path_step, database_step, params_step, parameter_step, value_step, step_at};

use setting::Refusal;
use url_parser::{DBNAME, Found, NO_KEY, ONE_HOST, PASSWORD, Stage, USER, Url};

pub fn step(s: &[u8], u: Url) -> Result<Found, Option<Refusal>>
    ensures { result ≡ step_at s.now u }
{
    let stage = u.stage;
    let at = u.at;
    match stage {
        Stage::Credentials => parse_credentials(s, at),
        Stage::Password => parse_password(s, at),
        Stage::Host => parse_host(s, at),
        Stage::Chunk => uri_hosts::parse_chunk(s, at),
        Stage::Port => uri_hosts::parse_port(s, at),
        Stage::Path => parse_path(s, at),
        Stage::Params => parse_params(s, at),
        Stage::Parameter => parse_parameter(s, at),
    }
}

// "If an `@` stands anywhere in the rest": the user up to the first `:` before it.
fn parse_credentials(s: &[u8], at: usize) -> Result<Found, Option<Refusal>>
    ensures { result ≡ credentials_step at (drop at s.now) }
{
    let end = split::find(s, at, b'@');
    if s.len() <= end {
        return parse_host(s, at);
    }
    let user = percent_check::check_until(byte::part(s, at, end), 0, b':');
    let judged = user.judged;
    let colon = at + user.end;
    if colon < end {
        let password = colon + 1;
        let next = Url {
            stage: Stage::Password,
            at: password,
        };
        return uri_values::decode(USER, at, colon, judged, next);
    }
    let host = end + 1;
    let next = Url {
        stage: Stage::Host,
        at: host,
    };
    uri_values::decode(USER, at, colon, judged, next)
}

// The password, which needn't be UTF-8, up to the same `@`.
fn parse_password(s: &[u8], at: usize) -> Result<Found, Option<Refusal>>
    ensures { result ≡ password_step at (drop at s.now) }
{
    let password = percent_check::check_until(s, at, b'@');
    let end = password.end;
    let judged = password.judged;
    let next = Url {
        stage: Stage::Host,
        at: uri_values::skip(s, end),
    };
    Ok(Found {
        kind: PASSWORD,
        from: at,
        to: end,
        len: judged.len,
        fixed: false,
        next,
    })
}

// Chunks of hosts, unless there is none.
fn parse_host(s: &[u8], at: usize) -> Result<Found, Option<Refusal>>
    ensures { result ≡ host_step at (drop at s.now) }
{
    if s.len() <= at {
        return parse_path(s, at);
    }
    if uri_chunks::ends_hosts(s[at]) {
        return parse_path(s, at);
    }
    uri_hosts::parse_chunk(s, at)
}

fn parse_path(s: &[u8], at: usize) -> Result<Found, Option<Refusal>>
    ensures { result ≡ path_step at (drop at s.now) }
{
    if byte::at(s, at) != b'/' {
        return parse_params(s, at);
    }
    parse_database(s, at + 1)
}

// The dbname, set only if it is not empty.
fn parse_database(s: &[u8], at: usize) -> Result<Found, Option<Refusal>>
    ensures { result ≡ database_step at (drop at s.now) }
{
    let dbname = percent_check::check_until(s, at, b'?');
    let end = dbname.end;
    if end <= at {
        return parse_params(s, at);
    }
    let judged = dbname.judged;
    let next = Url {
        stage: Stage::Params,
        at: end,
    };
    uri_values::decode(DBNAME, at, end, judged, next)
}

fn parse_params(s: &[u8], at: usize) -> Result<Found, Option<Refusal>>
    ensures { result ≡ params_step at (drop at s.now) }
{
    if byte::at(s, at) != b'?' {
        return Err(None);
    }
    parse_parameter(s, at + 1)
}

// One parameter: its `=` is looked for before its key is decoded, and its key is judged before its value.
fn parse_parameter(s: &[u8], at: usize) -> Result<Found, Option<Refusal>>
    ensures { result ≡ parameter_step at (drop at s.now) }
{
    if s.len() <= at {
        return Err(None);
    }
    let end = split::find(s, at, b'=');
    if s.len() <= end {
        return Err(Some(Refusal::NoEquals));
    }
    let kind = uri_keys::parse_key(byte::part(s, at, end));
    if kind == NO_KEY {
        return Err(Some(Refusal::NotUtf8));
    }
    parse_value(s, kind, end + 1)
}

fn parse_value(s: &[u8], kind: usize, at: usize) -> Result<Found, Option<Refusal>>
    ensures { result ≡ value_step kind at (drop at s.now) }
{
    if kind == ONE_HOST {
        return uri_values::parse_one_host(s, at);
    }
    let value = percent_check::check_until(s, at, b'&');
    let end = value.end;
    let judged = value.judged;
    let next = Url {
        stage: Stage::Parameter,
        at: uri_values::skip(s, end),
    };
    uri_values::decode(kind, at, end, judged, next)
}
