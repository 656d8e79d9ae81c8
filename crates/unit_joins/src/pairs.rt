//! That a refusal with two places is one of two tokens with one name, in two units.

ghost use Rattle.std.specs.Prelude.{◌≡◌, ◌≢◌, IfSome, IsTrue};
ghost use Rattle.unit_joins.specs.Causes.{IsNameAt, IsPair};
ghost use Rattle.unit_tokens.specs.Units.{unit_of};

use tm_terms::{Name, Place, Shape, Token};
use unit_tokens::unit_of;

/// The name that stands at a place.
fn name_at(tokens: &[Token], place: Place) -> Option<Name>
    ensures { IfSome result (λ name. IsNameAt tokens.now name place) }
{
    for k in 0..tokens.len() {
        let here = tokens[k].place;
        if here.line == place.line && here.col == place.col {
            return match tokens[k].shape {
                Shape::Name(name) => Some(name),
                _ => None,
            };
        }
    }
    None
}

/// Whether one name stands at two places.
fn is_pair(tokens: &[Token], first: Place, second: Place) -> bool
    ensures { IsTrue result → IsPair tokens.now first second }
{
    let Some(one) = name_at(tokens, first) else {
        return false;
    };
    let Some(other) = name_at(tokens, second) else {
        return false;
    };
    if one.start != other.start {
        return false;
    }
    one.length == other.length
}

/// Whether one name stands at two places, in two units.
pub fn is_pair_apart(borders: &[u32], tokens: &[Token], first: Place, second: Place) -> bool
    ensures pair { IsTrue result → IsPair tokens.now first second }
    ensures apart { IsTrue result → unit_of borders.now first.line ≢ unit_of borders.now second.line }
{
    if unit_of(borders, first.line) == unit_of(borders, second.line) {
        return false;
    }
    is_pair(tokens, first, second)
}
