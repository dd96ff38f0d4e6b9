// Two texts read and reported: what came back meets the demand on two texts (specs of crate demands).
#![tactic(auto)]

ghost use Rattle.std.specs.Prelude.{◌≡◌, length};
ghost use Rattle.outcome.specs.Outcome.{left};
ghost use Rattle.demands.specs.Telling.{DemandThree};
ghost use Rattle.witness.specs.Seen.{seen_of, buffer_of, run_of};

use report::ReportError;

// What a text gave: the reader's answer, and the report's over its record.
#[derive(Clone, Copy)]
pub struct Seen {
    pub answer: outcome::Answer,
    pub report: Result<usize, ReportError>,
}

#[derive(Clone, Copy)]
pub struct Both {
    pub first: Seen,
    pub second: Seen,
}

// One text read into `decode`, and its record reported into `dst`.
pub fn show(text: &[u8], decode: &mut [u8], dst: &mut [u8]) -> Seen
    ensures value { result ≡ seen_of text.now decode.old (length dst.old) }
    ensures decode_after { decode.new ≡ left text.now decode.old }
    ensures dst_after { dst.new ≡ buffer_of text.now decode.old dst.old }
{
    let answer = reader::read(text, decode);
    let report = report::report(answer.config, decode, dst);
    Seen { answer, report }
}

// Two texts, each with buffers of its own.
pub fn show_both(
    text: &[u8],
    decode: &mut [u8],
    dst: &mut [u8],
    text2: &[u8],
    decode2: &mut [u8],
    dst2: &mut [u8],
) -> Both
    ensures first_value { result.first ≡ seen_of text.now decode.old (length dst.old) }
    ensures second_value { result.second ≡ seen_of text2.now decode2.old (length dst2.old) }
    ensures decode_after { decode.new ≡ left text.now decode.old }
    ensures dst_after { dst.new ≡ buffer_of text.now decode.old dst.old }
    ensures decode2_after { decode2.new ≡ left text2.now decode2.old }
    ensures dst2_after { dst2.new ≡ buffer_of text2.now decode2.old dst2.old }
    ensures demand_three { DemandThree text.now decode.old dst.old text2.now decode2.old dst2.old (run_of result.first decode.new dst.new) (run_of result.second decode2.new dst2.new) }
{
    let first = show(text, decode, dst);
    let second = show(text2, decode2, dst2);
    Both { first, second }
}
