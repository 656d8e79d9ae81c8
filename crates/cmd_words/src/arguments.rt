//! What the words behind a command stand for, one after the other.

ghost use Rattle.std.specs.Prelude.{◌≡◌, ◌≤◌, [], ◌∷◌, ◌++◌, IfOk, IfSome, OnOk, codes, length, option_map};
ghost use Rattle.std.specs.List.{filter_map};
ghost use Rattle.cmd_words.specs.Words.{after_prefix, argument_of, arguments_of, numbers_of, texts_of, workers_of};
ghost use Rattle.cmd_words.specs.Words.{history_count, json_count, numbers_in, value_or_number, workers_asked};
ghost use Rattle.cmd_words.specs.reading.Steps.{IsNext, all_items, behind, next_of};

use crate::numbers::read_number;
use std::alloc::Global;
use tm_lattice::NoMemory;

/// What a word, or a word with its value, stands for.
#[derive(Clone, Copy, PartialEq, Eq)]
pub enum Argument {
    /// `--workers N` or `--workers=N`.
    Workers(u32),
    /// `--json`.
    Json,
    /// `--history`.
    History,
    /// A number by itself.
    Number(u32),
}

impl Argument {
    ghost use Rattle.std.specs.Prelude.{◌≡◌};
    ghost use Rattle.cmd_words.specs.Words.{is_history, is_json, number_given, workers_asked};

    /// The number of workers that is asked for.
    fn workers(self) -> Option<u32>
        ensures { result ≡ workers_asked self }
    {
        match self {
            Argument::Workers(workers) => Some(workers),
            _ => None,
        }
    }

    /// The number that stands by itself.
    fn number(self) -> Option<u32>
        ensures { result ≡ number_given self }
    {
        match self {
            Argument::Number(number) => Some(number),
            _ => None,
        }
    }

    /// Whether this is `--json`.
    fn is_json(self) -> bool
        ensures { result ≡ is_json self }
    {
        matches!(self, Argument::Json)
    }

    /// Whether this is `--history`.
    fn is_history(self) -> bool
        ensures { result ≡ is_history self }
    {
        matches!(self, Argument::History)
    }
}

/// How often `--json` stands among the arguments.
pub fn json_count(arguments: &[Argument]) -> usize
    ensures { result ≡ json_count arguments.now }
{
    arguments
        .iter()
        .filter(|argument| argument.is_json())
        .count()
}

/// How often `--history` stands among the arguments.
pub fn history_count(arguments: &[Argument]) -> usize
    ensures { result ≡ history_count arguments.now }
{
    arguments
        .iter()
        .filter(|argument| argument.is_history())
        .count()
}

/// The numbers of workers that are asked for.
pub fn workers_asked(alloc: Global, arguments: &[Argument]) -> Result<Vec<u32>, NoMemory>
    ensures { IfOk result (λ asked. asked.items ≡ filter_map workers_asked arguments.now) }
{
    match arguments
        .iter()
        .filter_map(|argument| argument.workers())
        .collect(alloc)
    {
        Ok(asked) => Ok(asked),
        Err(_) => Err(NoMemory),
    }
}

/// The numbers that stand by themselves, in their order.
pub fn numbers_in(alloc: Global, arguments: &[Argument]) -> Result<Vec<u32>, NoMemory>
    ensures { IfOk result (λ numbers. numbers.items ≡ numbers_in arguments.now) }
{
    match arguments
        .iter()
        .filter_map(|argument| argument.number())
        .collect(alloc)
    {
        Ok(numbers) => Ok(numbers),
        Err(_) => Err(NoMemory),
    }
}

/// What stands behind `--workers=` in a word that begins so.
pub(crate) fn workers_value(word: &str) -> Option<&str>
    ensures { option_map (λ value. value.now) result ≡ after_prefix (codes "--workers=") word.now }
{
    word.strip_prefix("--workers=")
}

/// The number of workers that a text writes.
fn read_workers(text: &str) -> Option<Argument>
    ensures { result ≡ workers_of text.now }
{
    read_number(text).map(Argument::Workers)
}

/// The value behind `--workers=`, if there is one, or else the number that the word is.
fn read_value_or_number(word: &str) -> Option<Argument>
    ensures { result ≡ value_or_number (after_prefix (codes "--workers=") word.now) word.now }
{
    match workers_value(word) {
        Some(value) => read_workers(value),
        None => read_number(word).map(Argument::Number),
    }
}

/// What one word by itself stands for.
fn read_argument(word: &str) -> Option<Argument>
    ensures { result ≡ argument_of word.now }
{
    if word == "--json" {
        Some(Argument::Json)
    } else if word == "--history" {
        Some(Argument::History)
    } else {
        read_value_or_number(word)
    }
}

/// One more argument.
fn push(arguments: &mut Vec<Argument>, argument: Argument) -> Result<(), NoMemory>
    ensures { OnOk result (arguments.new.items ≡ arguments.old.items ++ argument ∷ []) }
{
    match arguments.push(argument) {
        Ok(()) => Ok(()),
        Err(_) => Err(NoMemory),
    }
}

/// Appends the numbers that the words are; None where one is no number.
fn read_numbers(
    arguments: Vec<Argument>,
    words: &[String],
) -> Result<Option<Vec<Argument>>, NoMemory>
    ensures { IfOk result (λ read. all_items read ≡ behind arguments.items (numbers_of (texts_of words.now))) }
{
    let mut arguments = arguments;
    let mut rest = words;
    'words: while let Some((word, after)) = rest.split_first() {
        let Some(number) = read_number(word.as_str()) else {
            return Ok(None)
        };
        push(&mut arguments, Argument::Number(number))?;
        rest = after;
    }
    Ok(Some(arguments))
}

/// What a word other than `--` stands for, if need be with the word behind it, and the words behind that.
fn read_next<'a>(word: &str, after: &'a [String]) -> Option<(Argument, &'a [String])>
    ensures next { IsNext (next_of word.now (texts_of after.now))
        (option_map (λ next. (next.0, texts_of next.1.now)) result) }
    ensures less { IfSome result (λ next. length next.1.now ≤ length after.now) }
{
    if word == "--workers" {
        let (value, rest) = after.split_first()?;
        let argument = read_workers(value.as_str())?;
        return Some((argument, rest));
    }
    let argument = read_argument(word)?;
    Some((argument, after))
}

/// What the words behind the command stand for, in their order; None where they stand for nothing.
pub fn read_arguments(alloc: Global, words: &[String]) -> Result<Option<Vec<Argument>>, NoMemory>
    ensures { IfOk result (λ read. all_items read ≡ arguments_of (texts_of words.now)) }
{
    let mut arguments = Vec::new(alloc);
    let mut rest = words;
    'words: while let Some((word, after)) = rest.split_first() {
        if word.as_str() == "--" {
            return read_numbers(arguments, after);
        }
        let Some((argument, behind)) = read_next(word.as_str(), after) else {
            return Ok(None)
        };
        push(&mut arguments, argument)?;
        rest = behind;
    }
    Ok(Some(arguments))
}
