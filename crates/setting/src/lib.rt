// What a text says before any of it is applied: the definitions, and the refusals of a reading, which the parsers, the record and the reader share.
#![tactic(auto)]

ghost use Rattle.std.specs.Prelude.{◌≡◌};
ghost use Rattle.setting.specs.Refusal.{refusal_number};

// Why a reading ends before the text does.
#[derive(Clone, Copy, Debug, PartialEq, Eq, Hash)]
pub enum Refusal {
    // Another character in place of a key's `=`.
    NoSign,
    // The text's end in place of a key's `=`.
    KeyAlone,
    EmptyValue,
    OpenQuote,
    // A bracket that is not closed, or something else than `:` behind it.
    Bracket,
    // A parameter of a URI without `=`.
    NoEquals,
    NotUtf8,
}

impl Refusal {
    // The number that the refusal hands back.
    pub fn number(self) -> u8
        ensures { result ≡ refusal_number self }
    {
        match self {
            Refusal::NoSign => 6,
            Refusal::KeyAlone => 7,
            Refusal::EmptyValue => 8,
            Refusal::OpenQuote => 9,
            Refusal::Bracket => 10,
            Refusal::NoEquals => 11,
            Refusal::NotUtf8 => 12,
        }
    }
}
