// A URI behind its prefix, read a setting a step: what stands where, what a step gives, and what the steps come to.
#![tactic(auto)]

ghost use Rattle.std.specs.Prelude.{◌≡◌};
ghost use Rattle.url_parser.specs.Step.{url};

pub use uri_keys::{NO_KEY, ONE_HOST};

// What stands at the place that is read next.
#[derive(Clone, Copy)]
pub enum Stage {
    Credentials,
    Password,
    Host,
    Chunk,
    Port,
    Path,
    Params,
    Parameter,
}

// How far a URI is read.
#[derive(Clone, Copy)]
pub struct Url {
    pub stage: Stage,
    pub at: usize,
}

// A setting: its kind, where its raw value stands, how long the value is once decoded, and how far the text is read then.
// The value of a port that is not written is the fixed text `5432`, and no part of the text.
#[derive(Clone, Copy)]
pub struct Found {
    pub kind: usize,
    pub from: usize,
    pub to: usize,
    pub len: usize,
    pub fixed: bool,
    pub next: Url,
}

// Where in a chunk its host stands, and where what follows the host begins.
#[derive(Clone, Copy, Debug, PartialEq, Eq, Hash)]
pub struct HostPlace {
    pub from: usize,
    pub to: usize,
    pub tail: usize,
}

// Kinds of settings: a key's number, and one host from a URI. A key that is not UTF-8 gives none.
pub const USER: usize = 1;

pub const PASSWORD: usize = 2;

pub const DBNAME: usize = 3;

pub const PORT: usize = 10;

// Reading begins behind the prefix.
pub fn start(at: usize) -> Url
    ensures { result ≡ url Stage.Credentials at }
{
    Url {
        stage: Stage::Credentials,
        at,
    }
}
