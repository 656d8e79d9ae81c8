//! Numbers that bytes write.
ghost use Rattle.std.specs.Prelude.{◌≡◌, ◌<◌, ◌^◌, ◌∷◌, ℕ, suc, ℤ, MatchOption, decimal};
ghost use Rattle.std.specs.Char.{is_ascii_digit};
ghost use Rattle.std.specs.List.{list_all};
ghost use Rattle.certificate_words.specs.reading.Digits.{has_digits_alone, is_plain, IsNumber};

/// The most digits of a number below 2^64.
const MOST_DIGITS: usize = 20;

/// Whether all bytes are digits.
fn are_digits(bytes: &[u8]) -> bool
    ensures { result ≡ list_all is_ascii_digit bytes.now }
{
    bytes.iter().all(|byte| byte.is_ascii_digit())
}

/// Whether bytes are digits, one at least and not too many.
fn has_digits_alone(bytes: &[u8]) -> bool
    ensures { result ≡ has_digits_alone bytes.now }
{
    let count = bytes.len();
    if count == 0 || MOST_DIGITS < count {
        return false;
    }
    are_digits(bytes)
}

/// Whether bytes are such digits, of which the first is no zero, or there is one only.
fn is_plain(bytes: &[u8]) -> bool
    ensures { result ≡ is_plain bytes.now }
{
    if !has_digits_alone(bytes) {
        return false;
    }
    match bytes {
        [] => false,
        [_] => true,
        [first, ..] => *first != b'0',
    }
}

/// The number below 2^64 that bytes write: none exactly where they write none.
pub fn natural(bytes: &[u8]) -> Option<u64>
    ensures { MatchOption result ((n : ℕ) → n < 2 ^ 64 → bytes.now ≡ decimal n → ⊥) (λ n. bytes.now ≡ decimal n) }
{
    if !is_plain(bytes) {
        return None;
    }
    match std::str::from_utf8(bytes) {
        Ok(text) => match text.parse::<u64>() {
            Ok(value) => Some(value),
            Err(_) => None,
        },
        Err(_) => None,
    }
}

/// The number below 0 of which these are the digits behind a minus sign.
fn negative(digits: &[u8]) -> Option<i128>
    ensures { MatchOption result ((n : ℕ) → suc n < 2 ^ 64 → digits.now ≡ decimal (suc n) → ⊥)
        (λ z. IsNumber (45 ∷ digits.now) z) }
{
    match natural(digits) {
        None => None,
        Some(n) => { if n == 0 { None } else { Some(-i128::from(n)) } }
    }
}

/// The number of a size below 2^64 that bytes write, with a minus sign where it is negative: none exactly where they
/// write none.
pub fn number(bytes: &[u8]) -> Option<i128>
    ensures { MatchOption result ((z : ℤ) → IsNumber bytes.now z → ⊥) (λ z. IsNumber bytes.now z) }
{
    match bytes {
        [] => None,
        [first, rest @ ..] => {
            if *first == b'-' {
                negative(rest)
            } else {
                match natural(bytes) {
                    None => None,
                    Some(n) => Some(i128::from(n)),
                }
            }
        }
    }
}
