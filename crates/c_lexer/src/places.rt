ghost use Rattle.std.specs.Prelude.{◌≡◌, ◌+◌, ◌<◌, ◌≤◌, ◌^◌, length};
ghost use Rattle.tm_terms.specs.Spelling.{bare_after, place_after};

use tm_terms::{Place, is_blank};

/// The place behind a text that begins at a place.
pub fn place_after(place: Place, text: &[u8]) -> Place
    requires line { place.line + length text.now < 2 ^ 32 }
    requires col { place.col + length text.now < 2 ^ 32 }
    requires counted { 1 ≤ place.col }
    ensures value { result ≡ place_after place text.now }
    ensures line { result.line ≤ place.line + length text.now }
    ensures col { result.col ≤ place.col + length text.now }
    ensures counted { 1 ≤ result.col }
{
    let mut here = place;
    for byte in text {
        here = if *byte == b'\n' {
            Place {
                line: here.line + 1,
                col: 1,
            }
        } else {
            Place {
                line: here.line,
                col: here.col + 1,
            }
        };
    }
    here
}

/// Whether only blanks stand on the line before the byte behind a text.
pub fn bare_after(bare: bool, text: &[u8]) -> bool
    ensures { result ≡ bare_after bare text.now }
{
    let mut so_far = bare;
    for byte in text {
        so_far = *byte == b'\n' || (so_far && is_blank(*byte));
    }
    so_far
}
