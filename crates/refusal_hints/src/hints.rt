//! What stands where a source is refused.

ghost use Rattle.std.specs.Prelude.{◌≡◌, ◌≤◌, ◌++◌, length, map, take, IfOk};
ghost use Rattle.tm_terms.specs.Limits.{most_bytes};
ghost use Rattle.tm_terms.specs.declared.refusals.Kind.TheVariants as KindVariants;
ghost use Rattle.refusal_hints.specs.Hints.{construct_among, construct_at, is_end, opening_of, stands};
ghost use Rattle.refusal_hints.specs.Rows.{rows_of};
ghost use Rattle.refusal_hints.specs.reading.Seen.{row_seen, words_seen};

use crate::constructs::Construct;
use crate::other_rows::{
    constant_rows, lexical_rows, mismatch_rows, undeclared_rows, unsupported_rows,
};
use crate::patterns::{fits, fits_last};
use crate::places::offset_of;
use crate::rows::Row;
use crate::syntax_rows::{member_rows, name_rows, place_rows, type_rows, word_rows};
use crate::words::{first_piece, push, words_before, words_from, words_of};
use std::alloc::Global;
use tm_lattice::NoMemory;
use tm_terms::{Kind, Place};

/// Whether a declaration or a statement may begin behind a word.
fn is_end(word: &[u8]) -> bool
    ensures { result ≡ is_end word.now }
{
    word == b";".as_slice() || word == b"{".as_slice() || word == b"}".as_slice()
}

/// The first word of the declaration or statement that these words end in.
fn opening_of<'a>(words: &[&'a [u8]]) -> &'a [u8]
    ensures { result.now ≡ opening_of (words_seen words.now) }
{
    let mut first: &'a [u8] = &[];
    for word in words {
        if is_end(*word) {
            first = &[];
        } else if first.is_empty() {
            first = *word;
        }
    }
    first
}

/// Whether the patterns of a row stand at a place: by all words up to that at the place, those before it, those from it
/// on, and the first of the declaration or statement there.
fn stands(
    alloc: Global,
    context: &[&[u8]],
    before: &[&[u8]],
    behind: &[&[u8]],
    row: &Row<'_>,
) -> Result<bool, NoMemory>
    requires { words_seen context.now ≡ words_seen before.now ++ take 1 (words_seen behind.now) }
    ensures { IfOk result (λ fits. fits
        ≡ stands (record { before = words_seen before.now; behind = words_seen behind.now }) (row_seen row.now)) }
{
    let opening = [opening_of(before)];
    let first = words_of(alloc, row.0)?;
    if !fits(context, &first, &opening) {
        return Ok(false);
    }
    let last = words_of(alloc, row.1)?;
    if !fits_last(context, &last, before) {
        return Ok(false);
    }
    let next = words_of(alloc, row.2)?;
    Ok(fits(context, &next, behind))
}

/// What the first row that fits says.
fn construct_among(
    alloc: Global,
    context: &[&[u8]],
    before: &[&[u8]],
    behind: &[&[u8]],
    rows: &[Row<'_>],
) -> Result<Option<Construct>, NoMemory>
    requires { words_seen context.now ≡ words_seen before.now ++ take 1 (words_seen behind.now) }
    ensures { IfOk result (λ construct. construct
        ≡ construct_among (record { before = words_seen before.now; behind = words_seen behind.now })
        (map row_seen rows.now)) }
{
    for row in rows {
        if stands(alloc, context, before, behind, row)? {
            return Ok(Some(row.3));
        }
    }
    Ok(None)
}

/// What the first row of the grammar's that fits says.
fn construct_of_syntax(
    alloc: Global,
    context: &[&[u8]],
    before: &[&[u8]],
    behind: &[&[u8]],
) -> Result<Option<Construct>, NoMemory>
    requires { words_seen context.now ≡ words_seen before.now ++ take 1 (words_seen behind.now) }
    ensures { IfOk result (λ construct. construct
        ≡ construct_among (record { before = words_seen before.now; behind = words_seen behind.now })
        (rows_of KindVariants.Syntax)) }
{
    if let Some(construct) = construct_among(alloc, context, before, behind, word_rows())? {
        return Ok(Some(construct));
    }
    if let Some(construct) = construct_among(alloc, context, before, behind, member_rows())? {
        return Ok(Some(construct));
    }
    if let Some(construct) = construct_among(alloc, context, before, behind, type_rows())? {
        return Ok(Some(construct));
    }
    if let Some(construct) = construct_among(alloc, context, before, behind, place_rows())? {
        return Ok(Some(construct));
    }
    construct_among(alloc, context, before, behind, name_rows())
}

/// What the first row of a kind that fits says.
fn construct_of(
    alloc: Global,
    context: &[&[u8]],
    before: &[&[u8]],
    behind: &[&[u8]],
    kind: Kind,
) -> Result<Option<Construct>, NoMemory>
    requires { words_seen context.now ≡ words_seen before.now ++ take 1 (words_seen behind.now) }
    ensures { IfOk result (λ construct. construct
        ≡ construct_among (record { before = words_seen before.now; behind = words_seen behind.now })
        (rows_of kind)) }
{
    match kind {
        Kind::Lexical => construct_among(alloc, context, before, behind, lexical_rows()),
        Kind::Syntax => construct_of_syntax(alloc, context, before, behind),
        Kind::Unsupported => construct_among(alloc, context, before, behind, unsupported_rows()),
        Kind::NotConstant => construct_among(alloc, context, before, behind, constant_rows()),
        Kind::Mismatch => construct_among(alloc, context, before, behind, mismatch_rows()),
        Kind::Undeclared => construct_among(alloc, context, before, behind, undeclared_rows()),
        _ => Ok(None),
    }
}

/// What stands at a place of a text that is refused there, if a row says so.
pub fn construct_at(
    alloc: Global,
    text: &[u8],
    place: Place,
    kind: Kind,
) -> Result<Option<Construct>, NoMemory>
    requires { length text.now ≤ most_bytes }
    ensures { IfOk result (λ construct. construct ≡ construct_at text.now place kind) }
{
    let Some(offset) = offset_of(text, place) else {
        return Ok(None);
    };
    let rest = &text[offset..];
    let mut context = words_before(alloc, &text[..offset])?;
    let behind = words_from(alloc, rest)?;
    let count = context.len();
    push(&mut context, first_piece(rest))?;
    construct_of(alloc, &context, &context[..count], &behind, kind)
}
