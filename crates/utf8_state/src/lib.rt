// UTF-8 by RFC 3629, judged byte by byte.
#![tactic(auto)]

ghost use Rattle.std.specs.Prelude.{◌≡◌};
ghost use Rattle.utf8_state.specs.Bytewise.{start_state, first_state, next_state, whole_state};

// How many bytes a character still lacks, and between which two the next one lies.
#[derive(Clone, Copy)]
pub struct State {
    pub left: u8,
    pub lo: u8,
    pub hi: u8,
}

const WHOLE: State = State {
    left: 0,
    lo: 0x80,
    hi: 0xbf,
};

// It lacks a byte that no byte can be.
const BROKEN: State = State {
    left: 1,
    lo: 1,
    hi: 0,
};

pub fn start() -> State
    ensures { result ≡ start_state }
{
    WHOLE
}

fn begin(a: u8) -> State
    ensures { result ≡ first_state a }
{
    if a < 0x80 {
        return WHOLE;
    }
    if byte::is_between(0xc2, 0xdf, a) {
        return State {
            left: 1,
            lo: 0x80,
            hi: 0xbf,
        };
    }
    let lo = utf8_tail::least_of(a);
    let hi = utf8_tail::greatest_of(a);
    if byte::is_between(0xe0, 0xef, a) {
        return State {
            left: 2,
            lo: lo,
            hi: hi,
        };
    }
    if byte::is_between(0xf0, 0xf4, a) {
        return State {
            left: 3,
            lo: lo,
            hi: hi,
        };
    }
    BROKEN
}

pub fn next(state: State, b: u8) -> State
    ensures { result ≡ next_state state b }
{
    if state.left == 0 {
        return begin(b);
    }
    if byte::is_between(state.lo, state.hi, b) {
        return State {
            left: state.left - 1,
            lo: 0x80,
            hi: 0xbf,
        };
    }
    BROKEN
}

pub fn is_whole(state: State) -> bool
    ensures { result ≡ whole_state state }
{
    state.left == 0
}
