ghost use Rattle.std.specs.Prelude.{◌≡◌, ◌<◌, ◌≤◌, [], ◌∷◌, length, slice_index, IfSome};
ghost use Rattle.tm_terms.specs.Lexis.{double_signs, long_signs, sign_in, sign_of, single_signs};

use tm_terms::{Piece, Shape, Sign, byte_at};

#[tactic(auto, unfolding(tm_terms::specs::Lexis::long_signs))]
fn long_sign(first: u8, second: u8, third: u8) -> Option<Sign>
    ensures value { result ≡ sign_in long_signs (first ∷ second ∷ third ∷ []) }
    ensures whole { IfSome result (λ _. 0 < third) }
{
    match (first, second, third) {
        (b'<', b'<', b'=') => Some(Sign::ShiftLeftEqual),
        (b'>', b'>', b'=') => Some(Sign::ShiftRightEqual),
        (b'.', b'.', b'.') => Some(Sign::Ellipsis),
        _ => None,
    }
}

#[tactic(auto, unfolding(tm_terms::specs::Lexis::double_signs))]
fn double_sign(first: u8, second: u8) -> Option<Sign>
    ensures value { result ≡ sign_in double_signs (first ∷ second ∷ []) }
    ensures whole { IfSome result (λ _. 0 < second) }
{
    match (first, second) {
        (b'-', b'>') => Some(Sign::Arrow),
        (b'+', b'+') => Some(Sign::PlusPlus),
        (b'-', b'-') => Some(Sign::MinusMinus),
        (b'<', b'<') => Some(Sign::ShiftLeft),
        (b'>', b'>') => Some(Sign::ShiftRight),
        (b'<', b'=') => Some(Sign::LessEqual),
        (b'>', b'=') => Some(Sign::GreaterEqual),
        (b'=', b'=') => Some(Sign::EqualEqual),
        (b'!', b'=') => Some(Sign::NotEqual),
        (b'&', b'&') => Some(Sign::AndAnd),
        (b'|', b'|') => Some(Sign::OrOr),
        (b'*', b'=') => Some(Sign::StarEqual),
        (b'/', b'=') => Some(Sign::SlashEqual),
        (b'%', b'=') => Some(Sign::PercentEqual),
        (b'+', b'=') => Some(Sign::PlusEqual),
        (b'-', b'=') => Some(Sign::MinusEqual),
        (b'&', b'=') => Some(Sign::AndEqual),
        (b'^', b'=') => Some(Sign::CaretEqual),
        (b'|', b'=') => Some(Sign::OrEqual),
        _ => None,
    }
}

#[tactic(auto, unfolding(tm_terms::specs::Lexis::single_signs))]
fn single_sign(first: u8) -> Option<Sign>
    ensures value { result ≡ sign_in single_signs (first ∷ []) }
    ensures whole { IfSome result (λ _. 0 < first) }
{
    match first {
        b'[' => Some(Sign::OpenBracket),
        b']' => Some(Sign::CloseBracket),
        b'(' => Some(Sign::OpenParenthesis),
        b')' => Some(Sign::CloseParenthesis),
        b'{' => Some(Sign::OpenBrace),
        b'}' => Some(Sign::CloseBrace),
        b'.' => Some(Sign::Dot),
        b'&' => Some(Sign::And),
        b'*' => Some(Sign::Star),
        b'+' => Some(Sign::Plus),
        b'-' => Some(Sign::Minus),
        b'~' => Some(Sign::Tilde),
        b'!' => Some(Sign::Not),
        b'/' => Some(Sign::Slash),
        b'%' => Some(Sign::Percent),
        b'<' => Some(Sign::Less),
        b'>' => Some(Sign::Greater),
        b'^' => Some(Sign::Caret),
        b'|' => Some(Sign::Or),
        b'?' => Some(Sign::Question),
        b':' => Some(Sign::Colon),
        b';' => Some(Sign::Semicolon),
        b'=' => Some(Sign::Equal),
        b',' => Some(Sign::Comma),
        _ => None,
    }
}

/// The longest sign that begins the text, if one does.
#[tactic(auto, unfolding(tm_terms::specs::Lexis::sign_of))]
pub fn sign_of(text: &[u8]) -> Option<Piece>
    ensures value { result ≡ sign_of text.now }
    ensures within { IfSome result (λ p. (0 < p.length) × (p.length ≤ length text.now)) }
{
    let first = byte_at(text, 0);
    let second = byte_at(text, 1);
    let third = byte_at(text, 2);
    if let Some(sign) = long_sign(first, second, third) {
        Some(Piece {
            shape: Some(Shape::Sign(sign)),
            length: 3,
        })
    } else if let Some(sign) = double_sign(first, second) {
        Some(Piece {
            shape: Some(Shape::Sign(sign)),
            length: 2,
        })
    } else if let Some(sign) = single_sign(first) {
        Some(Piece {
            shape: Some(Shape::Sign(sign)),
            length: 1,
        })
    } else {
        None
    }
}
