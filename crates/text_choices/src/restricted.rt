//! RESTRICT: the words `restrict`.
ghost use Rattle.std.specs.Prelude.{◌≡◌, Contains, OnOk};
ghost use Rattle.text_choices.specs.Choices.{Adds, OfKind};
ghost use Rattle.text_choices.specs.reading.Tokens.{is_restrict, restrict_at};

use crate::adding::add_where;
use crate::kinds::{Choice, Kind};
use tm_lattice::NoMemory;
use tm_terms::{Shape, Token, Word};

// Whether a token is the word `restrict`.
fn is_restrict(shape: Shape) -> bool
    ensures { result ≡ is_restrict shape }
{
    match shape {
        Shape::Word(Word::Restrict) => true,
        _ => false,
    }
}

// Adds the place of a token that is the word.
fn add_restrict(token: Token, choices: &mut Vec<Choice>) -> Result<(), NoMemory>
    ensures { OnOk result (Adds choices.old.items choices.new.items
        (OfKind Kind.Restrict (λ place. token ≡ restrict_at place))) }
{
    let choice = Choice {
        place: token.place,
        kind: Kind::Restrict,
    };
    add_where(is_restrict(token.shape), choice, choices)
}

/// Adds the places of the words `restrict` (C99 6.7.3.1).
pub(crate) fn add_restricted(tokens: &[Token], choices: &mut Vec<Choice>) -> Result<(), NoMemory>
    ensures { OnOk result (Adds choices.old.items choices.new.items
        (OfKind Kind.Restrict (λ place. Contains tokens.now (restrict_at place)))) }
{
    for token in tokens {
        add_restrict(*token, choices)?;
    }
    Ok(())
}
