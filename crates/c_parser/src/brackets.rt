//! Brackets that are open.
ghost use Rattle.std.specs.Prelude.{◌≡◌, ◌≤◌};
ghost use Rattle.tm_trees.specs.Parsing.{first_deep, open_behind, open_behind_sign};

use tm_terms::{Place, Shape, Sign, Token};

// The most brackets that may be open at once.
const MAX_OPEN: u32 = 200;

// How many brackets are open behind a token, where so many are before it.
fn open_behind(count: u32, shape: Shape) -> u32
    requires { count ≤ 200 }
    ensures { result ≡ open_behind count shape }
{
    match shape {
        Shape::Sign(sign) => open_behind_sign(count, sign),
        _ => count,
    }
}

fn open_behind_sign(count: u32, sign: Sign) -> u32
    requires { count ≤ 200 }
    ensures { result ≡ open_behind_sign count sign }
{
    match sign {
        Sign::OpenParenthesis | Sign::OpenBracket | Sign::OpenBrace => count + 1,
        Sign::CloseParenthesis | Sign::CloseBracket | Sign::CloseBrace => count.saturating_sub(1),
        _ => count,
    }
}

// The place of the first token behind which more than `MAX_OPEN` brackets are open.
pub(crate) fn first_deep(tokens: &[Token]) -> Option<Place>
    ensures { result ≡ first_deep 0 tokens.now }
{
    let mut count = 0;
    for token in tokens {
        count = open_behind(count, token.shape);
        if count > MAX_OPEN {
            return Some(token.place);
        }
    }
    None
}
