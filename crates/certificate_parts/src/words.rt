//! Words of a line, from the first on.
ghost use Rattle.std.specs.Prelude.{◌≡◌, ◌↔◌, [], ◌∷◌, IsTrue, MatchOption};
ghost use Rattle.certificate_words.specs.Words.{tag, number};
ghost use Rattle.certificate_words.specs.Lines.{word_of, words_of};
ghost use Rattle.certificate_parts.specs.Fronts.{BeginsWithNoNumber, IsNotBegun, IsNotNumbered, numbered_words};

use certificate_words::Word;

/// Whether a word is this tag.
fn is_tag(word: Word, letters: &[u8]) -> bool
    ensures { IsTrue result ↔ (word_of word.entry ≡ tag letters.now) }
{
    match word {
        Word::Tag(found) => found == letters,
        Word::Number(_) => false,
    }
}

/// Whether a word is this number.
fn is_number(word: Word, value: &i128) -> bool
    ensures { IsTrue result ↔ (word_of word.entry ≡ number value.now) }
{
    match word {
        Word::Tag(_) => false,
        Word::Number(found) => found == *value,
    }
}

/// The words behind these numbers: none exactly where the words do not begin with them.
fn behind_numbers<'w, 'a>(words: &'w [Word<'a>], numbers: &[i128]) -> Option<&'w [Word<'a>]>
    ensures { MatchOption result (IsNotNumbered (words_of words.now) numbers.now)
        (λ more. words_of words.now ≡ numbered_words numbers.now (words_of more.now)) }
{
    if words.len() < numbers.len() {
        return None;
    }
    for at in 0..numbers.len() {
        if !is_number(words[at], &numbers[at]) {
            return None;
        }
    }
    Some(&words[numbers.len()..])
}

/// The words behind a tag and these numbers: none exactly where the words do not begin with them.
pub fn behind<'w, 'a>(
    words: &'w [Word<'a>],
    letters: &[u8],
    numbers: &[i128],
) -> Option<&'w [Word<'a>]>
    ensures { MatchOption result (IsNotBegun (words_of words.now) letters.now numbers.now)
        (λ more. words_of words.now ≡ tag letters.now ∷ numbered_words numbers.now (words_of more.now)) }
{
    match words.split_first() {
        None => None,
        Some((first, more)) => {
            if is_tag(*first, letters) {
                behind_numbers(more, numbers)
            } else {
                None
            }
        }
    }
}

/// Whether the words are a tag and these numbers.
pub fn are_words(words: &[Word], letters: &[u8], numbers: &[i128]) -> bool
    ensures { IsTrue result ↔ (words_of words.now ≡ tag letters.now ∷ numbered_words numbers.now []) }
{
    match behind(words, letters, numbers) {
        None => false,
        Some(more) => more.is_empty(),
    }
}

/// The number with which the words begin, and the words behind it.
pub fn first_number<'w, 'a>(words: &'w [Word<'a>]) -> Option<(i128, &'w [Word<'a>])>
    ensures { MatchOption result (BeginsWithNoNumber (words_of words.now))
        (λ found. words_of words.now ≡ number found.0 ∷ words_of found.1.now) }
{
    match words.split_first() {
        None => None,
        Some((first, more)) => match *first {
            Word::Tag(_) => None,
            Word::Number(value) => Some((value, more)),
        },
    }
}
