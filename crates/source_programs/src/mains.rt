//! The name that is spelled `main`.

ghost use Rattle.std.specs.Prelude.{◌≡◌};
ghost use Rattle.source_programs.specs.LaidSources.{is_main, main_in};

use tm_terms::{Name, Shape, Token, behind, front};

/// Whether a name is spelled `main`.
fn is_main(bytes: &[u8], name: Name) -> bool
    ensures { result ≡ is_main bytes.now name }
{
    front(behind(bytes, name.start as usize), name.length as usize) == b"main".as_slice()
}

/// The name that is spelled `main`, where it stands among the tokens.
pub(crate) fn main_in(bytes: &[u8], tokens: &[Token]) -> Option<Name>
    ensures { result ≡ main_in bytes.now tokens.now }
{
    'tokens: for token in tokens {
        if let Shape::Name(name) = token.shape {
            if is_main(bytes, name) {
                return Some(name);
            }
        }
    }
    None
}
