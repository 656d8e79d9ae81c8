//! What is told of a source and its report.

ghost use Rattle.std.specs.Prelude.{◌≡◌, IfOk, string_bytes};
ghost use Rattle.big_source.specs.GeneratedSources.{summary_text};

use std::alloc::Global;
use tm_lattice::NoMemory;
use tm_terms::Report;

/// Two lines: how many bytes the source has, and how many alarms the report.
pub fn summary(alloc: Global, source: &[u8], report: &Report) -> Result<String, NoMemory>
    ensures { IfOk result (λ text. string_bytes text ≡ summary_text source.now report.now.alarms.items) }
{
    let bytes = source.len();
    let count = report.alarms.len();
    match format!(in alloc; "source {bytes} bytes\nalarms {count}\n") {
        Ok(text) => Ok(text),
        Err(_) => Err(NoMemory),
    }
}
