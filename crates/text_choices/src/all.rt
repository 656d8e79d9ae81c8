//! All that the text and the tree of a source leave open.
ghost use Rattle.std.specs.Prelude.{◌≡◌, ◌≤◌, IfOk, OnOk, length};
ghost use Rattle.tm_terms.specs.Limits.{most_bytes};
ghost use Rattle.tm_typed.specs.TypedFiles.{typed_file_tree};
ghost use Rattle.tm_laid.specs.Layable.{IsLayable};
ghost use Rattle.tm_laid.specs.Layouts.{laid_tree};
ghost use Rattle.text_choices.specs.Choices.{Adds};
ghost use Rattle.text_choices.specs.Texts.{AreOpens};
ghost use Rattle.text_choices.specs.Lists.{IsOfText};
ghost use Rattle.text_choices.specs.reading.Added.{AddsTo};
ghost use Rattle.text_choices.specs.reading.Tokens.{AreOpensAmong, AreTokens, is_open, open_at};
ghost use Rattle.text_choices.specs.reading.Trees.{AreItems, IsOfTokens, IsOfTree};
ghost use Rattle.text_choices.specs.reading.Typed.{IsOfTyped, IsWithoutTokens};

use crate::enumerations::add_enumerations;
use crate::kinds::Choice;
use crate::pragmas::add_pragmas;
use crate::reserved::add_reserved_names;
use crate::restricted::add_restricted;
use crate::sizes::add_sizes;
use crate::static_initialisers::add_static_moves;
use c_lexer::lex;
use c_parser::laws::one_answer;
use c_parser::parse;
use std::alloc::Global;
use tm_laid::Laid;
use tm_lattice::NoMemory;
use tm_terms::limits::MOST_TOKENS;
use tm_terms::{Fail, Place, Shape, Sign, Token};
use tm_trees::File;

// The tokens of a source, if it has some.
fn tokens_of(alloc: Global, bytes: &[u8]) -> Result<Option<Vec<Token>>, NoMemory>
    requires { length bytes.now ≤ most_bytes }
    ensures { IfOk result (AreTokens bytes.now) }
{
    match lex(alloc, bytes, MOST_TOKENS as usize) {
        Ok(tokens) => Ok(Some(tokens)),
        Err(Fail::Refused(_)) => Ok(None),
        Err(Fail::NoMemory) => Err(NoMemory),
    }
}

// The file that tokens spell, if they spell one.
fn file_of(alloc: Global, tokens: &[Token]) -> Result<Option<File>, NoMemory>
    ensures { IfOk result (AreItems tokens.now) }
{
    one_answer();
    match parse(alloc, tokens) {
        Ok(file) => Ok(Some(file)),
        Err(Fail::Refused(_)) => Ok(None),
        Err(Fail::NoMemory) => Err(NoMemory),
    }
}

// Adds what the tree of tokens leaves open.
fn add_of_tree(
    alloc: Global,
    bytes: &[u8],
    tokens: &[Token],
    laid: &Laid,
    choices: &mut Vec<Choice>,
) -> Result<(), NoMemory>
    requires layable { IsLayable (typed_file_tree laid.now.file) laid.now.file.order.items }
    requires few { length laid.now.cells.items ≤ 65536 }
    ensures { OnOk result (Adds choices.old.items choices.new.items
        (IsOfTree bytes.now (laid_tree laid.now) tokens.now)) }
{
    let Some(file) = file_of(alloc, tokens)? else {
        return Ok(());
    };
    add_reserved_names(alloc, bytes, &file, choices)?;
    add_static_moves(alloc, laid, &file, choices)?;
    Ok(())
}

// Adds what tokens leave open.
fn add_of_tokens(
    alloc: Global,
    bytes: &[u8],
    tokens: &[Token],
    laid: &Laid,
    choices: &mut Vec<Choice>,
) -> Result<(), NoMemory>
    requires layable { IsLayable (typed_file_tree laid.now.file) laid.now.file.order.items }
    requires few { length laid.now.cells.items ≤ 65536 }
    ensures { OnOk result (Adds choices.old.items choices.new.items
        (IsOfTokens bytes.now (laid_tree laid.now) tokens.now)) }
{
    add_restricted(tokens, choices)?;
    add_of_tree(alloc, bytes, tokens, laid, choices)?;
    Ok(())
}

// Adds what a typed file leaves open.
fn add_of_typed(laid: &Laid, choices: &mut Vec<Choice>) -> Result<(), NoMemory>
    ensures { OnOk result (Adds choices.old.items choices.new.items (IsOfTyped (laid_tree laid.now))) }
{
    add_sizes(&laid.file.sizes, choices)?;
    add_enumerations(laid, choices)?;
    Ok(())
}

// Adds what a source leaves open whether or not it has tokens.
fn add_without_tokens(bytes: &[u8], laid: &Laid, choices: &mut Vec<Choice>) -> Result<(), NoMemory>
    requires { length bytes.now ≤ most_bytes }
    ensures { OnOk result (Adds choices.old.items choices.new.items (IsWithoutTokens bytes.now (laid_tree laid.now))) }
{
    add_pragmas(bytes, choices)?;
    add_of_typed(laid, choices)?;
    Ok(())
}

/// Adds what a source leaves open by its text and its tree; its objects are laid out so.
pub fn add_text_choices(
    alloc: Global,
    bytes: &[u8],
    laid: &Laid,
    choices: &mut Vec<Choice>,
) -> Result<(), NoMemory>
    requires short { length bytes.now ≤ most_bytes }
    requires layable { IsLayable (typed_file_tree laid.now.file) laid.now.file.order.items }
    requires few { length laid.now.cells.items ≤ 65536 }
    ensures { OnOk result (Adds choices.old.items choices.new.items (IsOfText bytes.now (laid_tree laid.now))) }
{
    add_without_tokens(bytes, laid, choices)?;
    let Some(tokens) = tokens_of(alloc, bytes)? else {
        return Ok(());
    };
    add_of_tokens(alloc, bytes, &tokens, laid, choices)?;
    Ok(())
}

// Whether a token is the sign `(`.
fn is_open(shape: Shape) -> bool
    ensures { result ≡ is_open shape }
{
    match shape {
        Shape::Sign(Sign::OpenParenthesis) => true,
        _ => false,
    }
}

// Adds the place of a token that is the sign.
fn add_open(token: Token, places: &mut Vec<Place>) -> Result<(), NoMemory>
    ensures { OnOk result (AddsTo places.old.items places.new.items (λ place. token ≡ open_at place)) }
{
    if is_open(token.shape) {
        places.push(token.place)?;
    }
    Ok(())
}

// The places of the signs `(` among tokens.
fn opens_among(alloc: Global, tokens: &[Token]) -> Result<Vec<Place>, NoMemory>
    ensures { IfOk result (λ places. AreOpensAmong tokens.now places.items) }
{
    let mut places = Vec::new(alloc);
    for token in tokens {
        add_open(*token, &mut places)?;
    }
    Ok(places)
}

/// The places of the signs `(` of a source, in their order.
pub fn opening_places(alloc: Global, bytes: &[u8]) -> Result<Vec<Place>, NoMemory>
    requires { length bytes.now ≤ most_bytes }
    ensures { IfOk result (λ places. AreOpens bytes.now places.items) }
{
    match tokens_of(alloc, bytes)? {
        Some(tokens) => opens_among(alloc, &tokens),
        None => Ok(Vec::new(alloc)),
    }
}
