//! Where a place stands in a text.

ghost use Rattle.std.specs.Prelude.{◌≡◌, ◌<◌, ◌≤◌, ◌+◌, ◌^◌, length, IfSome};
ghost use Rattle.tm_terms.specs.Limits.{most_bytes};
ghost use Rattle.tm_terms.specs.Spelling.{next_place};
ghost use Rattle.refusal_hints.specs.Places.{is_same, offset_of};

use tm_terms::Place;

/// Whether these are one place.
fn is_same(a: Place, b: Place) -> bool
    ensures { result ≡ is_same a b }
{
    a.line == b.line && a.col == b.col
}

/// The place behind a byte.
fn next_place(place: Place, byte: u8) -> Place
    requires few { (place.line + 1 < 2 ^ 32) × (place.col + 1 < 2 ^ 32) }
    ensures { result ≡ next_place place byte }
{
    if byte == b'\n' {
        Place {
            line: place.line + 1,
            col: 1,
        }
    } else {
        Place {
            line: place.line,
            col: place.col + 1,
        }
    }
}

/// How many bytes of a text stand before a place, if it has a byte there.
pub fn offset_of(text: &[u8], place: Place) -> Option<usize>
    requires { length text.now ≤ most_bytes }
    ensures value { result ≡ offset_of text.now place }
    ensures within { IfSome result (λ n. n < length text.now) }
{
    let mut at = Place { line: 1, col: 1 };
    for (i, byte) in text.iter().enumerate() {
        if is_same(at, place) {
            return Some(i);
        }
        at = next_place(at, *byte);
    }
    None
}
