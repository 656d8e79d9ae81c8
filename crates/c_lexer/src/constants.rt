ghost use Rattle.std.specs.Prelude.{◌≡◌, ◌+◌, ◌*◌, ◌^◌, ◌<◌, ◌≤◌, SomeIff};
ghost use Rattle.tm_terms.specs.Lexis.{constant_in, constant_of, digit_value as digit_value_of, longs_of, suffix_of};
ghost use Rattle.tm_terms.specs.Lexis.{value_in};

use crate::runs::{Run, digit_value, run_length};
use tm_terms::{IntConstant, Longs, behind, byte_at};

/// No constant reaches this value.
const BOUND: u128 = 1 << 127;

// The value with one more digit, below the bound.
fn with_digit(base: u8, value: u128, byte: u8) -> Option<u128>
    ensures { SomeIff result (value * base + digit_value_of byte < 2 ^ 127) (value * base + digit_value_of byte) }
{
    let shifted = value.checked_mul(u128::from(base))?;
    let next = shifted.checked_add(u128::from(digit_value(byte)))?;
    if next < BOUND { Some(next) } else { None }
}

/// The number that these digits spell, if it is below 2^127.
pub fn value_in(base: u8, digits: &[u8]) -> Option<u128>
    requires { 1 ≤ base }
    ensures { SomeIff result (value_in base digits.now < 2 ^ 127) (value_in base digits.now) }
{
    let mut value = 0;
    for byte in digits {
        match with_digit(base, value, *byte) {
            None => return None,
            Some(next) => value = next,
        }
    }
    Some(value)
}

fn is_u(byte: u8) -> bool
    ensures { result ≡ Rattle.tm_terms.specs.Lexis.is_u byte }
{
    byte == b'u' || byte == b'U'
}

fn is_l(byte: u8) -> bool
    ensures { result ≡ Rattle.tm_terms.specs.Lexis.is_l byte }
{
    byte == b'l' || byte == b'L'
}

fn longs_of(text: &[u8]) -> Option<Longs>
    ensures { result ≡ longs_of text.now }
{
    match text {
        [] => Some(Longs::None),
        [a] => if is_l(*a) { Some(Longs::One) } else { None },
        [a, b] => if is_l(*a) && *a == *b {
            Some(Longs::Two)
        } else {
            None
        },
        _ => None,
    }
}

fn suffix_of(text: &[u8]) -> Option<(bool, Longs)>
    ensures { result ≡ suffix_of text.now }
{
    if text.is_empty() {
        return Some((false, Longs::None));
    }
    let last = text.len() - 1;
    if is_u(text[0]) {
        let longs = longs_of(&text[1..])?;
        Some((true, longs))
    } else if is_u(text[last]) {
        let longs = longs_of(&text[..last])?;
        Some((true, longs))
    } else {
        let longs = longs_of(text)?;
        Some((false, longs))
    }
}

#[tactic(auto, unfolding(tm_terms::specs::Lexis::constant_in))]
fn constant_in(base: u8, text: &[u8]) -> Option<IntConstant>
    requires { 1 ≤ base }
    ensures { result ≡ constant_in base text.now }
{
    let digits = run_length(text, Run::Digits(base));
    if digits == 0 {
        return None;
    }
    let value = value_in(base, &text[..digits])?;
    let (unsigned, longs) = suffix_of(&text[digits..])?;
    Some(IntConstant {
        value,
        decimal: base == 10,
        unsigned,
        longs,
    })
}

/// The integer constant that a run of letters, digits, `_` and `.` spells, if it spells one.
#[tactic(auto, unfolding(tm_terms::specs::Lexis::constant_of))]
pub fn constant_of(text: &[u8]) -> Option<IntConstant>
    ensures { result ≡ constant_of text.now }
{
    let first = byte_at(text, 0);
    let second = byte_at(text, 1);
    if first == b'0' && (second == b'x' || second == b'X') {
        constant_in(16, behind(text, 2))
    } else if first == b'0' {
        constant_in(8, text)
    } else {
        constant_in(10, text)
    }
}
