// The report of a record, or why there is none, as one number; and what the dock's entry answers and leaves.
#![tactic(auto)]

ghost use Rattle.std.specs.Prelude.{◌≡◌, length};
ghost use Rattle.report.specs.Answer.{reported};
ghost use Rattle.entry.specs.Entry.{told, used, report_left};

use config::Config;
use report::ReportError;

// What a refusal's number is added to where the report's length might stand.
pub const REFUSED: u32 = 1000000;

// How much of a report buffer is used.
#[tactic(auto, using(crate::proofs::Entry::used_is))]
fn used_of(room: usize) -> usize
    ensures { result ≡ used room }
{
    room.min(999999)
}

// The report of a record, or why there is none, as one number.
pub fn report_into(c: Config, kept: &[u8], dst: &mut [u8]) -> u32
    ensures value { result ≡ told (reported kept.now c (used (length dst.old))) }
    ensures dst_after { dst.new ≡ report_left kept.now c dst.old }
{
    let n = used_of(dst.len());
    match report::report(c, kept, &mut dst[..n]) {
        Ok(len) => len as u32,
        Err(ReportError::Short) => REFUSED + 16,
        Err(ReportError::Unsound) => REFUSED + 17,
    }
}
