//! From the text of the units to the joined one.

ghost use Rattle.std.specs.Prelude.{◌≡◌, ◌≤◌, All, IfErr, IfOk, IsTrue, List, Ok, Some, ℕ, [], filter, length, map};
ghost use Rattle.source_marks.specs.Marks.{origins_of};
ghost use Rattle.source_marks.specs.reading.Seen.{origin_seen};
ghost use Rattle.tm_terms.specs.Limits.{most_bytes, most_tokens};
ghost use Rattle.tm_terms.specs.Spelling.{Lexes};
ghost use Rattle.unit_joins.specs.Causes.{IsCause};
ghost use Rattle.unit_joins.specs.Joins.{AreWritten, IsJoined};
ghost use Rattle.unit_joins.specs.Parts.{AreBorders};
ghost use Rattle.unit_plans.specs.Plans.{AreFates, IsRefusal};
ghost use Rattle.unit_tokens.specs.Fates.{IsRightlyLeft, is_kept};
ghost use Rattle.unit_tokens.specs.Units.{IsNowhere};

use crate::borders::parted;
use crate::checks::{Texts, are_fates, are_written};
use crate::pairs::is_pair_apart;
use crate::writing::{Plan, written};
use c_lexer::lex;
use source_marks::{MarkFail, Origin, line_origins};
use std::alloc::Global;
use tm_lattice::NoMemory;
use tm_terms::limits::{MOST_BYTES, MOST_TOKENS};
use tm_terms::{Fail, Token};
use unit_plans::{Cause, JoinFail, fates_of_units};
use unit_tokens::{Fated, Renaming, are_rightly_left, is_nowhere, kept, with_fates};

/// The most `_` that may follow each other.
const LONGEST_RUN: usize = 30;

/// The tokens of a text.
fn lexed(alloc: Global, text: &[u8]) -> Result<Vec<Token>, JoinFail>
    ensures ok { IfOk result (λ tokens. Lexes most_tokens text.now (Ok tokens.items)) }
    ensures short { IfOk result (λ tokens. length text.now ≤ most_bytes) }
    ensures refused { IfErr result (IsCause text.now) }
{
    if text.len() > MOST_BYTES as usize {
        return Err(JoinFail::Refused(Cause::Long));
    }
    match lex(alloc, text, MOST_TOKENS as usize) {
        Ok(tokens) => Ok(tokens),
        Err(Fail::Refused(refusal)) => Err(JoinFail::Refused(Cause::Lexis(refusal))),
        Err(Fail::NoMemory) => Err(JoinFail::NoMemory),
    }
}

/// The origins of the lines of a text.
fn traced<'a>(alloc: Global, text: &'a [u8]) -> Result<Vec<Origin<'a>>, JoinFail>
    ensures ok { IfOk result (λ origins. origins_of [] text.now ≡ Some (map origin_seen origins.items)) }
    ensures refused { IfErr result (IsCause text.now) }
{
    match line_origins(alloc, &[], text) {
        Ok(origins) => Ok(origins),
        Err(MarkFail::Broken(number)) => Err(JoinFail::Refused(Cause::BrokenMark(number))),
        Err(MarkFail::NoMemory) => Err(JoinFail::NoMemory),
    }
}

/// Why units are not joined, where neither a refusal of the lexis, a mark nor their tokens tell it.
fn other_fail(fail: JoinFail) -> JoinFail
    ensures { (units : List ℕ) → IsCause units result }
{
    match fail {
        JoinFail::NoMemory => JoinFail::NoMemory,
        JoinFail::Refused(Cause::NotUnits) => JoinFail::Refused(Cause::NotUnits),
        JoinFail::Refused(Cause::Long) => JoinFail::Refused(Cause::Long),
        JoinFail::Refused(Cause::LongRun) => JoinFail::Refused(Cause::LongRun),
        JoinFail::Refused(
            Cause::Lexis(_)
            | Cause::BrokenMark(_)
            | Cause::Open(_)
            | Cause::Twice(_, _)
            | Cause::Linkage(_, _)
            | Cause::Shared(_, _)
            | Cause::Unlike,
        ) => JoinFail::Refused(Cause::Unlike),
    }
}

/// Why the tokens of units have no fates.
fn plan_fail(borders: &[u32], tokens: &[Token], fail: JoinFail) -> JoinFail
    ensures { (units : List ℕ) → Lexes most_tokens units (Ok tokens.now) → AreBorders units borders.now
        → IsRefusal borders.now tokens.now fail → IsCause units result }
{
    match fail {
        JoinFail::Refused(Cause::Twice(first, second)) => {
            if is_pair_apart(borders, tokens, first, second) {
                JoinFail::Refused(Cause::Twice(first, second))
            } else {
                JoinFail::Refused(Cause::Unlike)
            }
        }
        JoinFail::Refused(Cause::Open(place)) => JoinFail::Refused(Cause::Open(place)),
        JoinFail::Refused(Cause::Linkage(first, second)) => {
            JoinFail::Refused(Cause::Linkage(first, second))
        }
        JoinFail::Refused(Cause::Shared(first, second)) => {
            JoinFail::Refused(Cause::Shared(first, second))
        }
        other => other_fail(other),
    }
}

/// What becomes of the tokens of units.
fn planned(alloc: Global, borders: &[u32], tokens: &[Token]) -> Result<Vec<Fated>, JoinFail>
    ensures ok { IfOk result (λ fated. map (λ f. f.token) fated.items ≡ tokens.now) }
    ensures fates { IfOk result (λ fated. AreFates borders.now tokens.now (map (λ f. f.fate) fated.items)) }
    ensures refused { IfErr result (λ fail. (units : List ℕ) → Lexes most_tokens units (Ok tokens.now)
        → AreBorders units borders.now → IsCause units fail) }
{
    let fates = match fates_of_units(alloc, borders, tokens) {
        Ok(fates) => fates,
        Err(fail) => return Err(plan_fail(borders, tokens, fail)),
    };
    match with_fates(alloc, tokens, &fates) {
        Ok(fated) => {
            if are_fates(&fated, &fates) {
                Ok(fated)
            } else {
                Err(JoinFail::Refused(Cause::Unlike))
            }
        }
        Err(NoMemory) => Err(JoinFail::NoMemory),
    }
}

/// How many `_` follow each other at most in a text.
fn longest_run(text: &[u8]) -> usize {
    let mut longest: usize = 0;
    let mut present: usize = 0;
    for byte in text {
        present = if *byte == b'_' {
            present.saturating_add(1)
        } else {
            0
        };
        longest = longest.max(present);
    }
    longest
}

/// A run of `_` that stands nowhere in a text.
fn mark_for(alloc: Global, text: &[u8]) -> Result<Vec<u8>, JoinFail>
    ensures ok { IfOk result (λ mark. IsNowhere mark.items text.now) }
    ensures refused { IfErr result (IsCause text.now) }
{
    let count = longest_run(text);
    if count > LONGEST_RUN {
        return Err(JoinFail::Refused(Cause::LongRun));
    }
    let mut mark = Vec::new(alloc);
    mark.push(b'_')?;
    for _ in 0..count {
        mark.push(b'_')?;
    }
    if is_nowhere(&mark, text) {
        Ok(mark)
    } else {
        Err(JoinFail::Refused(Cause::Unlike))
    }
}

/// The tokens of a text that is made, where the lexis takes it.
fn lexed_anew(alloc: Global, text: &[u8]) -> Result<Vec<Token>, JoinFail>
    ensures ok { IfOk result (λ tokens. Lexes most_tokens text.now (Ok tokens.items)) }
    ensures refused { IfErr result (λ fail. (units : List ℕ) → IsCause units fail) }
{
    match lexed(alloc, text) {
        Ok(tokens) => Ok(tokens),
        Err(fail) => Err(other_fail(fail)),
    }
}

/// The origins of the lines of a text that is made.
fn traced_anew<'a>(alloc: Global, text: &'a [u8]) -> Result<Vec<Origin<'a>>, JoinFail>
    ensures ok { IfOk result (λ origins. origins_of [] text.now ≡ Some (map origin_seen origins.items)) }
    ensures refused { IfErr result (λ fail. (units : List ℕ) → IsCause units fail) }
{
    match traced(alloc, text) {
        Ok(origins) => Ok(origins),
        Err(fail) => Err(other_fail(fail)),
    }
}

/// Whether the tokens of a text that is made are those of the units.
fn is_alike(
    alloc: Global,
    texts: Texts<'_>,
    fated: &[Fated],
    tokens: &[Token],
) -> Result<bool, NoMemory>
    ensures { IfOk result (λ is. IsTrue is → All (IsRightlyLeft fated.now) fated.now
        × AreWritten texts.entry.renaming.units.now texts.entry.renaming.mark.now
        texts.entry.renaming.borders.now (map origin_seen texts.entry.origins.now) texts.entry.joined.now
        (map origin_seen texts.entry.joined_origins.now) (filter is_kept fated.now) tokens.now) }
{
    if !are_rightly_left(fated) {
        return Ok(false);
    }
    let kept = kept(alloc, fated)?;
    are_written(alloc, texts, &kept, tokens)
}

/// Whether a text is the joined one of the units.
fn is_joined(alloc: Global, plan: Plan<'_>, text: &[u8]) -> Result<bool, JoinFail>
    requires lexed { Lexes most_tokens plan.text.now (Ok plan.tokens.now) }
    requires traced { origins_of [] plan.text.now ≡ Some (map origin_seen plan.origins.now) }
    requires parted { AreBorders plan.text.now plan.borders.now }
    requires nowhere { IsNowhere plan.mark.now plan.text.now }
    requires all { map (λ f. f.token) plan.fated.now ≡ plan.tokens.now }
    requires fates { AreFates plan.borders.now plan.tokens.now (map (λ f. f.fate) plan.fated.now) }
    ensures ok { IfOk result (λ is. IsTrue is → IsJoined plan.entry.text.now text.now) }
    ensures refused { IfErr result (λ fail. (units : List ℕ) → IsCause units fail) }
{
    let tokens = lexed_anew(alloc, text)?;
    let origins = traced_anew(alloc, text)?;
    let texts = Texts {
        renaming: Renaming {
            units: plan.text,
            mark: plan.mark,
            borders: plan.borders,
        },
        origins: plan.origins,
        joined: text,
        joined_origins: &origins,
    };
    match is_alike(alloc, texts, plan.fated, &tokens) {
        Ok(is) => Ok(is),
        Err(NoMemory) => Err(JoinFail::NoMemory),
    }
}

/// The text that is made of the units.
fn made(alloc: Global, plan: Plan<'_>) -> Result<Vec<u8>, JoinFail>
    ensures { IfErr result (IsCause plan.entry.text.now) }
{
    match written(alloc, plan) {
        Ok(text) => Ok(text),
        Err(fail) => Err(other_fail(fail)),
    }
}

/// The joined text of units.
pub fn join(alloc: Global, text: &[u8]) -> Result<Vec<u8>, JoinFail>
    // The text says what the units say, each token at its place in its file; what becomes of their names and their
    // declarations is told by linkage alone.
    ensures ok { IfOk result (λ joined. IsJoined text.now joined.items) }

    // What is refused has its cause.
    ensures refused { IfErr result (IsCause text.now) }
{
    let tokens = match lexed(alloc, text) {
        Ok(tokens) => tokens,
        Err(fail) => return Err(fail),
    };
    let origins = match traced(alloc, text) {
        Ok(origins) => origins,
        Err(fail) => return Err(fail),
    };
    let borders = parted(alloc, text)?;
    let fated = planned(alloc, &borders, &tokens)?;
    let mark = mark_for(alloc, text)?;
    let plan = Plan {
        text,
        origins: &origins,
        borders: &borders,
        tokens: &tokens,
        fated: &fated,
        mark: &mark,
    };
    let joined = made(alloc, plan)?;
    match is_joined(alloc, plan, &joined) {
        Ok(is) => {
            if is {
                Ok(joined)
            } else {
                Err(JoinFail::Refused(Cause::Unlike))
            }
        }
        Err(fail) => Err(fail),
    }
}
