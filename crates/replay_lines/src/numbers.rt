//! The numbers of choices.
ghost use Rattle.std.specs.Prelude.{◌≡◌, option_map, pos};
ghost use Rattle.cmd_words.specs.Numbers.{number_of};
ghost use Rattle.replay_lines.specs.Choices.{digits_of, has_digits_alone, value_of};
ghost use Rattle.replay_lines.specs.reading.Choices.{negated};

use cmd_words::{are_digits, read_number};

/// The most digits of a value.
const MOST_DIGITS: usize = 20;

/// The task that bytes name.
pub(crate) fn task_of(bytes: &[u8]) -> Option<u32>
    ensures { result ≡ number_of bytes.now }
{
    match std::str::from_utf8(bytes) {
        Ok(text) => read_number(text),
        Err(_) => None,
    }
}

/// Whether bytes are digits, one at least and not too many.
fn has_digits_alone(bytes: &[u8]) -> bool
    ensures { result ≡ has_digits_alone bytes.now }
{
    let count = bytes.len();
    if count == 0 || MOST_DIGITS < count {
        return false;
    }
    are_digits(bytes)
}

/// The value of digits.
fn digits_of(bytes: &[u8]) -> Option<i128>
    ensures { result ≡ option_map pos (digits_of bytes.now) }
{
    if !has_digits_alone(bytes) {
        return None;
    }
    match std::str::from_utf8(bytes) {
        Ok(text) => match text.parse::<i128>() {
            Ok(value) => Some(value),
            Err(_) => None,
        },
        Err(_) => None,
    }
}

/// The opposite of the value of digits.
fn negated(bytes: &[u8]) -> Option<i128>
    ensures { result ≡ negated bytes.now }
{
    match digits_of(bytes) {
        Some(value) => Some(-value),
        None => None,
    }
}

/// The value that bytes write: digits, with a minus sign before them or not.
pub(crate) fn value_of(bytes: &[u8]) -> Option<i128>
    ensures { result ≡ value_of bytes.now }
{
    match bytes {
        [] => None,
        [first, rest @ ..] => {
            if *first == b'-' {
                negated(rest)
            } else {
                digits_of(bytes)
            }
        }
    }
}
