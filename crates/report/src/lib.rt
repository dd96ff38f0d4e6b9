// The report of a record: written only where it fits.
#![tactic(auto)]

ghost use Rattle.std.specs.Prelude.{◌≡◌, leb, length};
ghost use Rattle.config.specs.Values.{shown};
ghost use Rattle.report.specs.Report.{report as whole};
ghost use Rattle.report.specs.Answer.{number_of, reported, reported_into};

use config::Config;
use draw::Pen;

// Why there is no report.
#[derive(Clone, Copy, Debug, PartialEq, Eq)]
pub enum ReportError {
    // The report buffer is too short.
    Short,
    // A list count above 16, or a set text or counted host outside the decode buffer.
    Unsound,
}

// The number that an answer hands back; 0 where there is a report.
pub fn number_of(answer: Result<usize, ReportError>) -> usize
    ensures { result ≡ number_of answer }
{
    match answer {
        Ok(_) => 0,
        Err(ReportError::Short) => 16,
        Err(ReportError::Unsound) => 17,
    }
}

// Whether the report fits: measured, by a pen without ink, only where that can't be told from the record's lengths.
fn fits(c: Config, decode: &[u8], dst: &mut [u8]) -> bool
    ensures value { result ≡ leb (length (whole (shown decode.now c))) (length dst.old) }
    ensures dst_unchanged { dst.new ≡ dst.old }
{
    if room::surely_fits(c, dst.len()) {
        return true;
    }
    let measure = Pen {
        at: 0,
        ok: true,
        ink: false,
    };
    let measured = report_lines::put_all(c, decode, dst, measure);
    measured.ok
}

// Writes the report of the record into `dst` from its start, and answers its length. A record that is not sound (17) is refused before a buffer that is too short (16); both leave `dst` untouched.
pub fn report(c: Config, decode: &[u8], dst: &mut [u8]) -> Result<usize, ReportError>
    ensures value { result ≡ reported decode.now c (length dst.old) }
    ensures dst_after { dst.new ≡ reported_into decode.now c dst.old }
{
    if !sound::is_sound(c, decode.len()) {
        return Err(ReportError::Unsound);
    }
    if !fits(c, decode, dst) {
        return Err(ReportError::Short);
    }
    let write = Pen {
        at: 0,
        ok: true,
        ink: true,
    };
    let written = report_lines::put_all(c, decode, dst, write);
    Ok(written.at)
}
