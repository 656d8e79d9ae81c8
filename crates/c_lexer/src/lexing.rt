ghost use Rattle.std.specs.Prelude.{◌≡◌, ◌≤◌, List, length, Result, Some, vec_len, find, IfSome};
ghost use Rattle.tm_terms.specs.Spelling.{Lexes, answer_of, checked, is_unsupported};
ghost use Rattle.tm_terms.specs.declared.refusals.Refusal.{Refusal as RefusalOf};
ghost use Rattle.tm_terms.specs.declared.tokens.Token.{Token as TokenOf};
ghost use Rattle.tm_terms.specs.Limits.{most_bytes};

use crate::names::tell_names;
use crate::readings::read;
use std::alloc::Global;
use tm_terms::{Fail, Kind, Limit, Place, Refusal, Shape, Sign, Token, Word};

fn is_unsupported(shape: Shape) -> bool
    ensures { result ≡ is_unsupported shape }
{
    match shape {
        Shape::Word(
            Word::Float | Word::Double | Word::Union | Word::Goto | Word::Complex | Word::Imaginary,
        ) => true,
        Shape::Sign(Sign::Ellipsis) => true,
        _ => false,
    }
}

fn first_unsupported(tokens: &[Token]) -> Option<Token>
    ensures { result ≡ find (λ t. is_unsupported t.shape) tokens.now }
{
    for token in tokens {
        if is_unsupported(token.shape) {
            return Some(*token);
        }
    }
    None
}

// The tokens, unless one of them is unsupported.
#[tactic(auto, unfolding(tm_terms::specs::Spelling::checked))]
fn supported(tokens: Vec<Token>, most: usize) -> Result<Vec<Token>, Fail>
    requires { vec_len tokens ≤ most }
    ensures { answer_of result ≡ Some (checked most tokens.items) }
{
    match first_unsupported(&tokens) {
        Some(token) => {
            Err(Fail::Refused(Refusal {
                kind: Kind::Unsupported,
                place: token.place,
                limit: None,
            }))
        }
        None => Ok(tokens),
    }
}

fn answered(alloc: Global, bytes: &[u8], most: usize) -> Result<Vec<Token>, Fail>
    requires { length bytes.now ≤ most_bytes }
    ensures { IfSome (answer_of result) (λ answer. Lexes most bytes.now answer) }
{
    let mut tokens = match read(alloc, bytes, most) {
        Ok(tokens) => tokens,
        Err(fail) => return Err(fail),
    };
    if tokens.len() > most {
        let nowhere = Place { line: 0, col: 0 };
        return Err(Fail::Refused(Refusal {
            kind: Kind::Limit,
            place: nowhere,
            limit: Some(Limit::Tokens),
        }));
    }
    match tell_names(alloc, bytes, &mut tokens) {
        Ok(()) => supported(tokens, most),
        Err(_) => Err(Fail::NoMemory),
    }
}

/// The tokens of a source that may have `most` of them, with their places. It is refused as `Lexical`
/// at the first byte where no token, blank, comment or skipped line begins; else by the limit
/// `Tokens` where it has more; else as `Unsupported` at the first word or sign that no source may
/// have.
pub fn lex(alloc: Global, bytes: &[u8], most: usize) -> Result<Vec<Token>, Fail>
    requires { length bytes.now ≤ most_bytes }

    // Every answer but want of memory is the lexis's.
    ensures told { IfSome (answer_of result) (λ answer. Lexes most bytes.now answer) }

    // The lexis's answer comes, unless memory runs out.
    ensures only { (answer : Result (List TokenOf) RefusalOf) → Lexes most bytes.now answer
        → IfSome (answer_of result) (λ given. given ≡ answer) }
{
    answered(alloc, bytes, most)
}
