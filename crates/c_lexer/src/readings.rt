ghost use Rattle.std.specs.Prelude.{◌≡◌, ◌+◌, ◌≤◌, ◌++◌, length, take, vec_len, Bool, IfOk, IfErr, OnOk, OnErr, Err};
ghost use Rattle.tm_terms.specs.Spelling.{Lexes, lexical, token_of};
ghost use Rattle.tm_terms.specs.declared.places.Place.{Place as PlaceOf};
ghost use Rattle.c_lexer.specs.reading.Refused.{ForRefusal};
ghost use Rattle.c_lexer.specs.reading.Kept.{Stands};
ghost use Rattle.tm_terms.specs.Limits.{most_bytes};

use crate::pieces::begins;
use crate::places::{bare_after, place_after};
use std::alloc::Global;
use tm_terms::{Fail, Kind, Place, Refusal, Shape, Token, behind, front};

// Keeps the token of this shape, if there is one and no more than `most` are kept.
fn keep(
    tokens: &mut Vec<Token>,
    place: Place,
    shape: Option<Shape>,
    most: usize,
) -> Result<(), Fail>
    requires { vec_len tokens.old ≤ most + 1 }
    ensures kept { OnOk result (tokens.new.items ≡ take (most + 1) (tokens.old.items ++ token_of place shape)) }
    ensures few { OnOk result (vec_len tokens.new ≤ most + 1) }
    ensures memory { OnErr result (result ≡ Err Fail.NoMemory) }
{
    let Some(shape) = shape else {
        return Ok(());
    };
    if tokens.len() > most {
        return Ok(());
    }
    match tokens.push(Token { shape, place }) {
        Ok(()) => Ok(()),
        Err(_) => Err(Fail::NoMemory),
    }
}

fn lexical(place: Place) -> Refusal
    ensures { result ≡ lexical place }
{
    Refusal {
        kind: Kind::Lexical,
        place,
        limit: None,
    }
}

/// The tokens of a source, each name where it stands, up to one more than `most`; or a refusal where
/// nothing begins.
pub fn read(alloc: Global, bytes: &[u8], most: usize) -> Result<Vec<Token>, Fail>
    requires { length bytes.now ≤ most_bytes }
    ensures whole { IfOk result (λ v. (place : PlaceOf) × (bare : Bool)
        × Stands most bytes.now (length bytes.now) place bare v.items) }
    ensures stops { IfErr result (λ f. ForRefusal f (λ refusal. Lexes most bytes.now (Err refusal))) }
{
    let mut tokens = Vec::new(alloc);
    let mut at = 0;
    let mut place = Place { line: 1, col: 1 };
    let mut bare = true;
    while at < bytes.len() {
        let rest = behind(bytes, at);
        let Some(piece) = begins(at as u32, bare, rest) else {
            return Err(Fail::Refused(lexical(place)));
        };
        keep(&mut tokens, place, piece.shape, most)?;
        let text = front(rest, piece.length);
        place = place_after(place, text);
        bare = bare_after(bare, text);
        at += piece.length;
    }
    Ok(tokens)
}
