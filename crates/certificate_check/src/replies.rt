//! The status and the text that go with a verdict.

ghost use Rattle.std.specs.Prelude.{◌≡◌, IfOk, string_bytes};
ghost use Rattle.certificate_check.specs.VerdictTexts.{HasChecked, certified_status, certified_text, uncovered_line};
ghost use Rattle.certificate_check.specs.VerdictTexts.{too_long_line, verdict_status, verdict_text};

use crate::checks::check;
use crate::verdicts::Verdict;
use program_streams::Status;
use std::alloc::Global;
use tm_lattice::NoMemory;
use tm_terms::{Report, plain, refusal_line};

/// A status and the whole text that goes with it.
#[derive(Drop)]
pub struct CheckReply {
    pub status: Status,
    pub text: String,
}

/// The line of a certificate that is too long.
pub fn too_long_line() -> &'static str
    ensures { result.now ≡ too_long_line }
{
    "refused Limit certificate 67108864\n"
}

/// The status of a report that is certified.
fn certified_status(report: &Report) -> Status
    ensures { result ≡ certified_status report.now.alarms.items }
{
    if report.alarms.is_empty() {
        Status::NoAlarm
    } else {
        Status::Alarms
    }
}

/// The lines of a report that is certified.
fn certified_text(alloc: Global, report: &Report) -> Result<String, NoMemory>
    ensures { IfOk result (λ text. string_bytes text ≡ certified_text report.now.alarms.items) }
{
    let mut text = plain(alloc, report)?;
    text.push_str("certified\n")?;
    Ok(text)
}

/// The line of an edge that is not covered.
fn uncovered_line(alloc: Global, body: u32, edge: usize) -> Result<String, NoMemory>
    ensures { IfOk result (λ text. string_bytes text ≡ uncovered_line body edge) }
{
    match format!(in alloc; "uncovered {body} {edge}\n") {
        Ok(text) => Ok(text),
        Err(_) => Err(NoMemory),
    }
}

/// The text of a verdict.
fn verdict_text(alloc: Global, verdict: &Verdict) -> Result<String, NoMemory>
    ensures { IfOk result (λ text. string_bytes text ≡ verdict_text verdict.now) }
{
    match verdict {
        Verdict::TooLong => Ok(String::from_str(alloc, too_long_line())?),
        Verdict::NoCertificate => Ok(String::from_str(alloc, "refused certificate\n")?),
        Verdict::Refused(refusal) => refusal_line(alloc, refusal),
        Verdict::Uncovered { body, edge } => uncovered_line(alloc, *body, *edge),
        Verdict::UncoveredStore => Ok(String::from_str(alloc, "uncovered store\n")?),
        Verdict::Certified(report) => certified_text(alloc, report),
    }
}

/// The status of a verdict.
fn verdict_status(verdict: &Verdict) -> Status
    ensures { result ≡ verdict_status verdict.now }
{
    match verdict {
        Verdict::TooLong => Status::Refused,
        Verdict::NoCertificate => Status::Refused,
        Verdict::Refused(_) => Status::Refused,
        Verdict::Uncovered { body: _, edge: _ } => Status::Alarms,
        Verdict::UncoveredStore => Status::Alarms,
        Verdict::Certified(report) => certified_status(report),
    }
}

/// The answer of `check` to bytes.
pub fn checked(alloc: Global, bytes: Vec<u8>) -> Result<CheckReply, NoMemory>
    ensures { IfOk result (λ reply. HasChecked bytes.items reply.status (string_bytes reply.text)) }
{
    let verdict = check(alloc, bytes)?;
    let text = verdict_text(alloc, &verdict)?;
    Ok(CheckReply {
        status: verdict_status(&verdict),
        text,
    })
}
