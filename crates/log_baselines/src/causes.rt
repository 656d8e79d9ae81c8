//! Why there is no log.

ghost use Rattle.std.specs.Prelude.{◌≡◌, ◌++◌, IfOk, string_bytes};
ghost use Rattle.log_baselines.specs.Causes.{cause_text, flaw_text, refused};

use std::alloc::{AllocError, Global};

/// What is wrong with a log.
#[derive(Clone, Copy)]
pub enum Flaw {
    /// It has more than 67,108,864 bytes.
    Long,
    /// It is no JSON.
    NotJson,
    /// It is JSON, and no log of one run with results.
    NotLog,
    /// It is a log of another tool.
    OtherTool,
    /// It is a log of this tool, and has a result without a fingerprint.
    NoFingerprint,
}

/// Why there is no log.
#[derive(Clone, Copy)]
pub enum Cause {
    /// What is wrong with the new log.
    New(Flaw),
    /// What is wrong with the old log.
    Old(Flaw),
    /// A suppression that is to be kept does not say why.
    NoReason,
    /// The remarks are not as many as the results of the new log, or no array.
    OtherRemarks,
}

/// What is wrong with a log, in words.
fn flaw_words(flaw: Flaw) -> &'static str
    ensures { result.now ≡ flaw_text flaw }
{
    match flaw {
        Flaw::Long => " has more than 67108864 bytes",
        Flaw::NotJson => " is no JSON",
        Flaw::NotLog => " is no log of one run with results",
        Flaw::OtherTool => " is of another tool",
        Flaw::NoFingerprint => " has a result without a fingerprint cedratcleat/v1",
    }
}

/// A line of two texts behind the word that tells of a refusal.
fn refused_line(alloc: Global, text: &str, behind: &str) -> Result<String, AllocError>
    ensures { IfOk result (λ line. string_bytes line ≡ refused (text.now ++ behind.now)) }
{
    let mut line = String::from_str(alloc, "refused: ")?;
    line.push_str(text)?;
    line.push_str(behind)?;
    line.push('\n')?;
    Ok(line)
}

/// The line that tells a cause.
pub fn cause_line(alloc: Global, cause: Cause) -> Result<String, AllocError>
    ensures { IfOk result (λ line. string_bytes line ≡ cause_text cause) }
{
    match cause {
        Cause::New(flaw) => refused_line(alloc, "the new log", flaw_words(flaw)),
        Cause::Old(flaw) => refused_line(alloc, "the old log", flaw_words(flaw)),
        Cause::NoReason => refused_line(
            alloc,
            "an external suppression of the old log has no justification",
            "",
        ),
        Cause::OtherRemarks => refused_line(
            alloc,
            "the remarks are no array with one for each result of the new log",
            "",
        ),
    }
}
