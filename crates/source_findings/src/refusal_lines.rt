//! The line of a refusal on a scale.

ghost use Rattle.std.specs.Prelude.{◌≡◌, IfOk, string_bytes};
ghost use Rattle.source_findings.specs.RefusalTexts.{limit_line_on, refusal_text_on};

use std::alloc::Global as Heap;
use tm_laid::Scale;
use tm_lattice::NoMemory;
use tm_terms::{Limit, Refusal, limit_word, refusal_line};

/// The line of a refusal that a limit makes.
fn limit_line_on(alloc: Heap, scale: Scale, limit: Limit) -> Result<String, NoMemory>
    ensures { IfOk result (λ text. string_bytes text ≡ limit_line_on scale limit) }
{
    let word = limit_word(limit);
    let number = scale.number(limit);
    match format!(in alloc; "refused Limit {word} {number}\n") {
        Ok(text) => Ok(text),
        Err(_) => Err(NoMemory),
    }
}

/// The refusal as text: its limit and the limit's number on the scale, or else its place and kind.
pub fn refusal_line_on(alloc: Heap, scale: Scale, refusal: &Refusal) -> Result<String, NoMemory>
    ensures { IfOk result (λ text. string_bytes text ≡ refusal_text_on scale refusal.now) }
{
    match refusal.limit {
        Some(limit) => limit_line_on(alloc, scale, limit),
        None => refusal_line(alloc, refusal),
    }
}
