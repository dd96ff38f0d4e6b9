// The steps of a URI's host part: a chunk's host, then its port.
#![tactic(auto)]

ghost use Rattle.std.specs.Prelude.{◌≡◌, drop};
ghost use Rattle.url_parser.specs.Step.{chunk_step, port_step, behind_chunk};

use setting::Refusal;
use url_parser::{Found, ONE_HOST, PORT, Stage, Url};

// A chunk's host, read once where it is plain.
pub fn parse_chunk(s: &[u8], at: usize) -> Result<Found, Option<Refusal>>
    ensures { result ≡ chunk_step at (drop at s.now) }
{
    if byte::at(s, at) == b'[' {
        return parse_placed(s, at);
    }
    let to = uri_chunks::plain_host(s, at);
    if uri_chunks::host_ends_at(s, to) {
        let len = to - at;
        let next = Url {
            stage: Stage::Port,
            at: to,
        };
        return Ok(Found {
            kind: ONE_HOST,
            from: at,
            to,
            len,
            fixed: false,
            next,
        });
    }
    parse_placed(s, at)
}

// A chunk's host by its place; a bracket fault is told before anything is decoded.
fn parse_placed(s: &[u8], at: usize) -> Result<Found, Option<Refusal>>
    ensures { result ≡ chunk_step at (drop at s.now) }
{
    let end = uri_chunks::chunk_end(s, at);
    let c = byte::part(s, at, end);
    match uri_chunks::host_place(c) {
        None => Err(Some(Refusal::Bracket)),
        Some(p) => {
            let judged = uri_values::host_param(byte::part(c, p.from, p.to));
            let next = Url {
                stage: Stage::Port,
                at: at + p.tail,
            };
            uri_values::decode(ONE_HOST, at + p.from, at + p.to, judged, next)
        }
    }
}

// What is read behind a chunk.
fn behind_chunk(s: &[u8], at: usize) -> Url
    ensures { result ≡ behind_chunk at (drop at s.now) }
{
    if byte::at(s, at) == b',' {
        let next = at + 1;
        return Url {
            stage: Stage::Chunk,
            at: next,
        };
    }
    Url {
        stage: Stage::Path,
        at,
    }
}

// The port of the chunk whose host was given: what stands behind its `:`, or 5432.
pub fn parse_port(s: &[u8], at: usize) -> Result<Found, Option<Refusal>>
    ensures { result ≡ port_step at (drop at s.now) }
{
    let end = uri_chunks::chunk_end(s, at);
    let next = behind_chunk(s, end);
    if end <= at {
        return Ok(Found {
            kind: PORT,
            from: at,
            to: at,
            len: 4,
            fixed: true,
            next,
        });
    }
    let from = at + 1;
    let judged = percent_check::check(byte::part(s, from, end));
    uri_values::decode(PORT, from, end, judged, next)
}
