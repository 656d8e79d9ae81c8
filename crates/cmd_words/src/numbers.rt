//! The numbers of a command line.

ghost use Rattle.std.specs.Prelude.{◌≡◌, true};
ghost use Rattle.std.specs.Str.Parse.{digits_value};
ghost use Rattle.std.specs.Char.{is_ascii_digit};
ghost use Rattle.std.specs.List.{list_all};
ghost use Rattle.cmd_words.specs.Numbers.{is_digits, number_of, up_to_greatest};

/// The most digits of a number.
const MOST_DIGITS: usize = 10;

/// The greatest number.
const GREATEST: u32 = 2_147_483_647;

/// Whether all bytes are ASCII digits.
pub fn are_digits(text: &[u8]) -> bool
    ensures { result ≡ list_all is_ascii_digit text.now }
{
    text.iter().all(|byte| byte.is_ascii_digit())
}

/// Whether a text has digits alone, one at least and not too many.
fn is_digits(text: &str) -> bool
    ensures { result ≡ is_digits text.now }
{
    let count = text.len();
    if count == 0 || MOST_DIGITS < count {
        return false;
    }
    are_digits(text.as_bytes())
}

/// The value of digits, unless it is too great.
fn value_of(digits: &str) -> Option<u32>
    requires { is_digits digits.now ≡ true }
    ensures { result ≡ up_to_greatest (digits_value 10 digits.now) }
{
    match digits.parse::<u32>() {
        Ok(value) => { if value <= GREATEST { Some(value) } else { None } }
        Err(_) => None,
    }
}

/// The number that a text writes: 1 to 10 ASCII digits, with a value of at most 2,147,483,647. Zeros may stand in
/// front; a sign may not.
pub fn read_number(text: &str) -> Option<u32>
    ensures { result ≡ number_of text.now }
{
    if is_digits(text) {
        value_of(text)
    } else {
        None
    }
}
