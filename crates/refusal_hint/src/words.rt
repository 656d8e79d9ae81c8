//! The words of the command.

ghost use Rattle.std.specs.Prelude.{◌≡◌, map, option_map, string_bytes};
ghost use Rattle.refusal_hint.specs.Words.{asked_of, kind_of};
ghost use Rattle.refusal_hint.specs.reading.Seen.{asked_seen};

use cmd_words::read_number;
use tm_terms::{Kind, Place};

/// What words ask for: the place and the kind of a refusal.
#[derive(Clone, Copy)]
pub struct Asked {
    pub place: Place,
    pub kind: Kind,
}

/// The kind that a word names.
fn kind_of(word: &str) -> Option<Kind>
    ensures { result ≡ kind_of word.now }
{
    if word == "Lexical" {
        Some(Kind::Lexical)
    } else if word == "Unsupported" {
        Some(Kind::Unsupported)
    } else if word == "Syntax" {
        Some(Kind::Syntax)
    } else if word == "Undeclared" {
        Some(Kind::Undeclared)
    } else if word == "Mismatch" {
        Some(Kind::Mismatch)
    } else if word == "NotConstant" {
        Some(Kind::NotConstant)
    } else {
        None
    }
}

/// What words ask for, if they are two numbers and a kind of which a hint may tell.
pub fn read_words(words: &[String]) -> Option<Asked>
    ensures { option_map asked_seen result ≡ asked_of (map (λ w. string_bytes w) words.now) }
{
    match words {
        [line, col, kind] => {
            let line = read_number(line.as_str())?;
            let col = read_number(col.as_str())?;
            let kind = kind_of(kind.as_str())?;
            Some(Asked {
                place: Place { line, col },
                kind,
            })
        }
        _ => None,
    }
}
