//! Lines that may stand for keys, in the order of the keys.
ghost use Rattle.std.specs.Prelude.{◌≡◌, ◌↔◌, false, true, get_or, IfOk, IsTrue, MatchOption};
ghost use Rattle.certificate_words.specs.Lines.{words_of};
ghost use Rattle.certificate_parts.specs.Runs.{AreDistinct, IsRun, IsStep};
ghost use Rattle.certificate_parts.specs.Numbers.{FitsNumber, IsAllowed, IsNoPair, IsPair, IsSomeWithin, number_after};
ghost use Rattle.certificate_parts.specs.Numbers.{number_row};
ghost use Rattle.certificate_parts.specs.Rows.{AnyMark, IsTag, mark_after, mark_row};

use crate::ahead::Ahead;
use crate::words::{behind, first_number};
use certificate_words::Word;
use std::alloc::Global;
use tm_lattice::NoMemory;

/// Which numbers may stand behind a key.
#[derive(Clone, Copy)]
pub enum Allowed<'a> {
    /// Sets of mutexes, as bits, that are not empty and within this one.
    Within(u16),
    /// The numbers that have a mark.
    Marked(&'a [bool]),
}

/// For each key whether the line of the tag and the key stands there.
pub fn marks_in(
    alloc: Global,
    ahead: &mut Ahead,
    letters: &[u8],
    keys: &[u32],
) -> Result<Vec<bool>, NoMemory>
    requires distinct { AreDistinct keys.now }
    requires letters { IsTag letters.now }
    ensures { IfOk result (λ marks. IsRun (mark_row letters.now) AnyMark (mark_after letters.now) keys.now ahead.old
        marks.items ahead.new) }
{
    let mut marks = Vec::new(alloc);
    for key in keys {
        let mark = ahead.take(letters, &[i128::from(*key)])?;
        marks.push(mark)?;
    }
    Ok(marks)
}

/// Whether a number may stand in a line.
fn is_allowed(allowed: &Allowed, number: u64) -> bool
    ensures { IsTrue result ↔ IsAllowed allowed.now number }
{
    match allowed {
        Allowed::Within(set) => is_within(*set, number),
        Allowed::Marked(marks) => is_marked(marks, number),
    }
}

/// Whether a number is a set of mutexes, not empty, within this one.
fn is_within(set: u16, number: u64) -> bool
    ensures { IsTrue result ↔ IsSomeWithin set number }
{
    if number == 0 {
        return false;
    }
    let all = u64::from(set);
    if number | all != all {
        return false;
    }
    true
}

/// Whether a number has a mark.
fn is_marked(marks: &[bool], number: u64) -> bool
    ensures { IsTrue result ↔ (get_or marks.now number false ≡ true) }
{
    match marks.get(number as usize) {
        None => false,
        Some(mark) => *mark,
    }
}

/// The number behind a tag and a key, where the words are these three, and it may stand there.
fn allowed_at(words: &[Word], letters: &[u8], key: u32, allowed: &Allowed) -> Option<u64>
    ensures { MatchOption result (IsNoPair allowed.now (words_of words.now) letters.now key)
        (IsPair allowed.now (words_of words.now) letters.now key) }
{
    let Some(more) = behind(words, letters, &[i128::from(key)]) else {
        return None;
    };
    let Some(found) = first_number(more) else {
        return None;
    };
    if !found.1.is_empty() {
        return None;
    }
    match u64::try_from(found.0) {
        Err(_) => None,
        Ok(number) => {
            if is_allowed(allowed, number) {
                Some(number)
            } else {
                None
            }
        }
    }
}

/// The number behind a tag and a key, where their line stands there.
fn number_in(
    ahead: &mut Ahead,
    letters: &[u8],
    key: u32,
    allowed: &Allowed,
) -> Result<Option<u64>, NoMemory>
    requires { IsTag letters.now }
    ensures { IfOk result (λ z. IsStep (number_row letters.now) (FitsNumber allowed.now) (number_after letters.now) key
        ahead.old z ahead.new) }
{
    match allowed_at(ahead.words(), letters, key, allowed) {
        None => Ok(None),
        Some(number) => {
            ahead.step()?;
            Ok(Some(number))
        }
    }
}

/// For each key the number in the line of the tag and the key, where there is one and it may stand there.
pub fn numbers_in(
    alloc: Global,
    ahead: &mut Ahead,
    letters: &[u8],
    keys: &[u32],
    allowed: &Allowed,
) -> Result<Vec<Option<u64>>, NoMemory>
    requires distinct { AreDistinct keys.now }
    requires letters { IsTag letters.now }
    ensures { IfOk result (λ numbers. IsRun (number_row letters.now) (FitsNumber allowed.now) (number_after letters.now)
        keys.now ahead.old numbers.items ahead.new) }
{
    let mut numbers = Vec::new(alloc);
    for key in keys {
        let number = number_in(ahead, letters, *key, allowed)?;
        numbers.push(number)?;
    }
    Ok(numbers)
}
