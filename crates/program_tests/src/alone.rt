//! Words and a source, answered on the calling thread alone, by devices that give and take one byte a call.

use analyser::{analyse_alone, asks_workers};
use std::alloc::Global;
use std::process::Abort;
use std::test::Fail;
use tm_io::{MemorySink, MemorySource};

fn push_words(alloc: Global, words: &mut Vec<String>, given: &[&str]) -> Result<(), Fail> {
    for word in given {
        words.push(String::from_str(alloc, word)?)?;
    }
    Ok(())
}

/// Each word as a text of its own. (The list is filled by reference, and what owns words or devices has one way out
/// behind it: how they are let go is proved for each way out.)
pub fn owned(alloc: Global, given: &[&str]) -> Result<Vec<String>, Fail> {
    let mut words = Vec::new(alloc);
    push_words(alloc, &mut words, given)?;
    Ok(words)
}

/// A text and the number of a status are as wanted. (What an `assert_eq!` prints of its sides is proved each time that one
/// stands somewhere, so all that compare an answer call this.)
pub fn assert_answer(rt: &impl Abort, text: &[u8], wanted: &[u8], number: u8, wanted_number: u8) {
    assert_eq!(rt; text, wanted);
    assert_eq!(rt; number, wanted_number);
}

/// Bytes that are given one at a time.
pub fn slow_source(alloc: Global, bytes: &[u8]) -> Result<MemorySource, Fail> {
    Ok(MemorySource::new(bytes.to_vec(alloc)?, 1, Vec::new(alloc)))
}

/// What the words, which ask for no workers, answer to a source: the number of the status.
pub fn number_alone(
    rt: &impl Abort,
    alloc: Global,
    words: &[String],
    source: &mut MemorySource,
    out: &mut MemorySink,
) -> Result<u8, Fail> {
    if asks_workers(alloc, words)? {
        assert!(rt; false, "the words ask for workers");
        Ok(255)
    } else {
        Ok(analyse_alone(alloc, words, source, out).number())
    }
}

/// The words, which ask for no workers, have this answer to the source.
pub fn expect_words_alone(
    rt: &impl Abort,
    alloc: Global,
    words: &[String],
    bytes: &[u8],
    number: u8,
    text: &[u8],
) -> Result<(), Fail> {
    let mut source = slow_source(alloc, bytes)?;
    let mut out = MemorySink::new(alloc, 1, Vec::new(alloc));
    let told = number_alone(rt, alloc, words, &mut source, &mut out)?;
    assert_answer(rt, out.taken(), text, told, number);
    Ok(())
}

/// The same of words that are given as texts.
pub fn expect_alone(
    rt: &impl Abort,
    alloc: Global,
    given: &[&str],
    bytes: &[u8],
    number: u8,
    text: &[u8],
) -> Result<(), Fail> {
    let words = owned(alloc, given)?;
    expect_words_alone(rt, alloc, &words, bytes, number, text)
}
