//! What becomes of tokens.

ghost use Rattle.std.specs.Prelude.{◌≡◌, All, IfOk, IsTrue, filter, map};
ghost use Rattle.unit_tokens.specs.Fates.{StandsBefore, IsRightlyLeft, is_kept, is_staying};

use crate::shapes::is_same_shape;
use std::alloc::Global;
use tm_lattice::NoMemory;
use tm_terms::Token;

/// What becomes of a token.
#[derive(Clone, Copy, PartialEq, Eq)]
pub enum Fate {
    /// It stands as it is.
    Stays,
    /// It gets the new name of its unit.
    Renamed,
    /// It is left out, as the token with this number stands before.
    LeftOut(usize),
}

/// A token of the units, and what becomes of it.
#[derive(Clone, Copy)]
pub struct Fated {
    pub token: Token,
    pub fate: Fate,
}

/// Tokens with what becomes of them.
pub fn with_fates(alloc: Global, tokens: &[Token], fates: &[Fate]) -> Result<Vec<Fated>, NoMemory>
    ensures { IfOk result (λ made. map (λ f. f.token) made.items ≡ tokens.now) }
{
    let mut made = Vec::new(alloc);
    for (index, token) in tokens.iter().enumerate() {
        let fate = match fates.get(index) {
            Some(fate) => *fate,
            None => Fate::Stays,
        };
        made.push(Fated {
            token: *token,
            fate,
        })?;
    }
    Ok(made)
}

/// Whether a token is written.
fn is_kept(fated: Fated) -> bool
    ensures { result ≡ is_kept fated }
{
    match fated.fate {
        Fate::LeftOut(_) => false,
        Fate::Stays | Fate::Renamed => true,
    }
}

/// The tokens that are written.
pub fn kept(alloc: Global, fated: &[Fated]) -> Result<Vec<Fated>, NoMemory>
    ensures { IfOk result (λ made. made.items ≡ filter is_kept fated.now) }
{
    let mut made = Vec::new(alloc);
    for one in fated {
        if is_kept(*one) {
            made.push(*one)?;
        }
    }
    Ok(made)
}

/// Whether a token stands as it is.
fn is_staying(fated: Fated) -> bool
    ensures { result ≡ is_staying fated }
{
    match fated.fate {
        Fate::Stays => true,
        Fate::LeftOut(_) | Fate::Renamed => false,
    }
}

/// Whether the token with a number is this one, and stands before it as it is.
fn stands_before(fated: &[Fated], number: usize, token: Token) -> bool
    ensures { IsTrue result → StandsBefore fated.now number token }
{
    let Some(other) = fated.get(number) else {
        return false;
    };
    if !is_staying(*other) {
        return false;
    }
    if !is_same_shape(other.token.shape, token.shape) {
        return false;
    }
    if other.token.place.line >= token.place.line {
        return false;
    }
    true
}

/// Whether a token is written, or stands before.
fn is_rightly_left(fated: &[Fated], one: Fated) -> bool
    ensures { IsTrue result → IsRightlyLeft fated.now one }
{
    match one.fate {
        Fate::LeftOut(number) => stands_before(fated, number, one.token),
        Fate::Stays | Fate::Renamed => true,
    }
}

/// Whether each token that is left out stands before.
pub fn are_rightly_left(fated: &[Fated]) -> bool
    ensures { IsTrue result → All (IsRightlyLeft fated.now) fated.now }
{
    for one in fated {
        if !is_rightly_left(fated, *one) {
            return false;
        }
    }
    true
}
