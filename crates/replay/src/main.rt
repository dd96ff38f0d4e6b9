// Replays vectors from standard input, made from the answers of the Rust that is ported (differential/beside/vectors.rs says what a
// vector is), and says how many are as they should be and how many differ.
#![tactic(auto)]

use ending::Ending;
use outcome::Answer;
use std::io;
use std::io::{Input, Read};

// What the decode buffer has before a text is read.
const BEFORE: [u8; 4097] = [170; 4097];

// A vector's head: the text's length; how many bytes of the decode buffer are given, and where the report ends behind them; the answer.
#[derive(Clone, Copy)]
struct Head {
    text: usize,
    given: usize,
    end: usize,
    told: Ending,
}

fn head_of(b: [u8; 10]) -> Head {
    let given = vector_parts::pair(b[2], b[3]);
    let report = vector_parts::pair(b[4], b[5]);
    Head {
        text: vector_parts::pair(b[0], b[1]),
        given,
        end: given + report,
        told: Ending {
            number: b[8] as usize,
            key: b[9] as usize,
            count: vector_parts::pair(b[6], b[7]),
        },
    }
}

// Whether the decode buffer begins with the bytes that are given, and is as it was behind them.
fn is_left(decode: &[u8], want: &[u8], given: usize) -> bool {
    byte::part(decode, 0, given) == byte::part(want, 0, given)
        && byte::part(decode, given, 4097) == byte::part(&BEFORE, given, 4097)
}

// Whether the report is the one that is wanted; a refused text has none.
fn is_reported(a: Answer, decode: &[u8], dst: &mut [u8], want: &[u8]) -> bool {
    if a.number != 0 {
        return true;
    }
    match report::report(a.config, decode, dst) {
        Ok(n) => byte::part(dst, 0, n) == want,
        Err(_) => false,
    }
}

// Whether a text is answered as the vector says: number, key and count, every byte of the decode buffer, and the report.
fn agrees(text: &[u8], decode: &mut [u8], dst: &mut [u8], want: &[u8], h: Head) -> bool {
    byte::copy(&BEFORE, decode, 0);
    let a = reader::read(text, decode);
    ending::end(a.number, a.key, a.count) == h.told
        && is_left(decode, want, h.given)
        && is_reported(a, decode, dst, byte::part(want, h.given, h.end))
}

// Whether the next vector agrees, which one that is cut off does not; none where the vectors are at their end.
fn judge<R: Read>(
    from: &mut R,
    text: &mut [u8; 4097],
    decode: &mut [u8; 4097],
    dst: &mut [u8; 16384],
    want: &mut [u8; 20480],
) -> io::Result<Option<bool>> {
    let mut b = [0u8; 10];
    if filling::read_full(from, &mut b)? != 10 {
        return Ok(None);
    }
    let h = head_of(b);
    if !vector_parts::fill(from, text, h.text)? {
        return Ok(Some(false));
    }
    if !vector_parts::fill(from, want, h.end)? {
        return Ok(Some(false));
    }
    Ok(Some(agrees(byte::part(text, 0, h.text), decode, dst, want, h)))
}

fn main(rt: HostRuntime) -> io::Result<()> {
    let mut from = rt.reader();
    let mut good: u64 = 0;
    let mut bad: u64 = 0;
    let mut text = [0u8; 4097];
    let mut decode = [0u8; 4097];
    let mut dst = [0u8; 16384];
    let mut want = [0u8; 20480];
    for _ in 0..1000000u64 {
        match judge(&mut from, &mut text, &mut decode, &mut dst, &mut want)? {
            None => break,
            Some(true) => good += 1,
            Some(false) => bad += 1,
        }
    }
    println!(rt; "{good} as they should be, {bad} differ")
}
