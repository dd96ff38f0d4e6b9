// Reads one text from standard input, and writes the report of its settings or `refused` and the number.
#![tactic(auto)]

ghost use Rattle.std.specs.Prelude.{◌≡◌, ◌≤◌, length, take, IfOk};
ghost use Rattle.byte.specs.Put.{put};
ghost use Rattle.nyimbrak.specs.Output.{output_of};

use std::io;
use std::io::{Input, Print, Read};

// What a refusal's number is added to where the report's length might stand.
const REFUSED: u32 = 1000000;

// What is written for a text, in front of a buffer as long as the longest report; its length is answered.
fn answer_into(text: &[u8], out: &mut [u8; 13795]) -> usize
    ensures value { result ≡ length (output_of text.now) }
    ensures out_after { out.new ≡ put out.old 0 (output_of text.now) }
{
    let mut decode = [0u8; 4097];
    let r = dock::nyimbrak_read(text, &mut decode, out);
    if r < REFUSED {
        return r as usize;
    }
    refusal_line::refusal_into((r - REFUSED) as u64, out)
}

// Writes bytes that are the whole output of a text.
fn write_output<R: Print>(rt: &R, text: &[u8], output: &[u8]) -> io::Result<()>
    requires { output.now ≡ output_of text.now }
{
    rt.write_all(output)
}

fn write_answer<R: Print>(rt: &R, text: &[u8]) -> io::Result<()> {
    let mut out = [0u8; 13795];
    let len = answer_into(text, &mut out);
    write_output(rt, text, byte::part(&out, 0, len))
}

// One byte over the limit, so that a text that is too long is seen. Where a read fails, its error is the answer, and which bytes `text`
// holds is not promised.
fn read_text<R: Read>(from: &mut R, text: &mut [u8; 4097]) -> io::Result<usize>
    ensures within { IfOk result (λ n. n ≤ length text.new) }
    ensures prefix { IfOk result (λ n. n ≡ length (take n text.new)) }
    ensures length_after { length text.new ≡ length text.old }
{
    filling::read_full(from, text)
}

// A read that fails is no end of the text: then nothing is answered.
fn main(rt: HostRuntime) -> io::Result<()> {
    let mut text = [0u8; 4097];
    match read_text(&mut rt.reader(), &mut text) {
        Ok(n) => write_answer(&rt, &text[..n]),
        Err(e) => eprintln!(rt; "standard input: {e}"),
    }
}
