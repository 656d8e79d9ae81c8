//! The table of commands.

ghost use Rattle.std.specs.Prelude.{◌≡◌, IfOk, IfSome, length, option_and_then};
ghost use Rattle.cmd_words.specs.Words.{IsWithin, analyse_of, arguments_of, command_of, demo_of, from_one, generate_of};
ghost use Rattle.cmd_words.specs.Words.{alone, named_command, size_by, size_in, texts_of, workers_by, workers_in};
ghost use Rattle.cmd_words.specs.Words.{workers_named};

use crate::arguments::{
    Argument, history_count, json_count, numbers_in, read_arguments, workers_asked, workers_value,
};
use crate::commands::{AnalyseWords, Command, DemoWords, Thresholds};
use crate::numbers::read_number;
use std::alloc::Global;
use tm_lattice::NoMemory;

/// The most workers.
const MOST_WORKERS: u32 = 16;

/// The most functions of a generated source.
const MOST_FUNCTIONS: u32 = 400;

/// The number, where it lies from 1 to the most.
fn from_one(most: u32, number: u32) -> Option<u32>
    ensures { result ≡ from_one most number }
{
    if 1 <= number && number <= most {
        Some(number)
    } else {
        None
    }
}

/// The number of workers that a word asks for: `--workers=` and a number from 1 to 16.
pub fn workers_named(word: &str) -> Option<u32>
    ensures { result ≡ workers_named word.now }
{
    let value = workers_value(word)?;
    let workers = read_number(value)?;
    from_one(MOST_WORKERS, workers)
}

/// How many workers there are, by the numbers that were asked for.
fn workers_by(asked: &[u32]) -> Option<u32>
    ensures { result ≡ workers_by asked.now }
{
    match asked {
        [] => Some(1),
        [workers] => from_one(MOST_WORKERS, *workers),
        _ => None,
    }
}

/// The size of a generated source, by the numbers that were given.
fn size_by(numbers: &[u32]) -> Option<u32>
    ensures { result ≡ size_by numbers.now }
{
    match numbers {
        [count] => from_one(MOST_FUNCTIONS, *count),
        _ => None,
    }
}

/// How many workers the arguments ask for.
fn workers_in(alloc: Global, arguments: &[Argument]) -> Result<Option<u32>, NoMemory>
    ensures { IfOk result (λ workers. workers ≡ workers_in arguments.now) }
{
    let asked = workers_asked(alloc, arguments)?;
    Ok(workers_by(&asked))
}

/// The size of a generated source that the arguments ask for.
fn size_in(alloc: Global, arguments: &[Argument]) -> Result<Option<u32>, NoMemory>
    ensures { IfOk result (λ count. count ≡ size_in arguments.now) }
{
    let numbers = numbers_in(alloc, arguments)?;
    Ok(size_by(&numbers))
}

/// The command `analyse` with its arguments.
fn analyse(alloc: Global, arguments: &[Argument]) -> Result<Option<Command>, NoMemory>
    ensures { IfOk result (λ command. command ≡ analyse_of arguments.now) }
{
    let json = json_count(arguments);
    let history = history_count(arguments);
    if json > 1 || history > 1 {
        return Ok(None);
    }
    let Some(workers) = workers_in(alloc, arguments)? else {
        return Ok(None)
    };
    let numbers = numbers_in(alloc, arguments)?;
    Ok(Some(Command::Analyse(AnalyseWords {
        workers,
        json: json > 0,
        history: history > 0,
        thresholds: Thresholds::new(numbers),
    })))
}

/// The command `generate` with its arguments.
fn generate(alloc: Global, arguments: &[Argument]) -> Result<Option<Command>, NoMemory>
    ensures { IfOk result (λ command. command ≡ generate_of arguments.now) }
{
    if arguments.len() != 1 {
        return Ok(None);
    }
    match size_in(alloc, arguments)? {
        Some(count) => Ok(Some(Command::Generate(count))),
        None => Ok(None),
    }
}

/// The command `demo` with its arguments.
fn demo(alloc: Global, arguments: &[Argument]) -> Result<Option<Command>, NoMemory>
    ensures { IfOk result (λ command. command ≡ demo_of arguments.now) }
{
    if json_count(arguments) > 0 || history_count(arguments) > 0 {
        return Ok(None);
    }
    let Some(workers) = workers_in(alloc, arguments)? else {
        return Ok(None)
    };
    let Some(count) = size_in(alloc, arguments)? else {
        return Ok(None)
    };
    Ok(Some(Command::Demo(DemoWords { workers, count })))
}

/// The words behind `analyse`.
fn read_analyse(alloc: Global, words: &[String]) -> Result<Option<Command>, NoMemory>
    ensures { IfOk result (λ command. command ≡ option_and_then analyse_of (arguments_of (texts_of words.now))) }
{
    match read_arguments(alloc, words)? {
        Some(arguments) => analyse(alloc, &arguments),
        None => Ok(None),
    }
}

/// A command that takes no further words.
fn alone(command: Command, words: &[String]) -> Option<Command>
    ensures { result ≡ alone command (texts_of words.now) }
{
    if words.is_empty() {
        Some(command)
    } else {
        None
    }
}

/// The words behind `generate`.
fn read_generate(alloc: Global, words: &[String]) -> Result<Option<Command>, NoMemory>
    ensures { IfOk result (λ command. command ≡ option_and_then generate_of (arguments_of (texts_of words.now))) }
{
    match read_arguments(alloc, words)? {
        Some(arguments) => generate(alloc, &arguments),
        None => Ok(None),
    }
}

/// The words behind `demo`.
fn read_demo(alloc: Global, words: &[String]) -> Result<Option<Command>, NoMemory>
    ensures { IfOk result (λ command. command ≡ option_and_then demo_of (arguments_of (texts_of words.now))) }
{
    match read_arguments(alloc, words)? {
        Some(arguments) => demo(alloc, &arguments),
        None => Ok(None),
    }
}

/// The command of a name and the words behind it.
fn read_named(alloc: Global, name: &str, words: &[String]) -> Result<Option<Command>, NoMemory>
    ensures { IfOk result (λ command. command ≡ named_command name.now (texts_of words.now)) }
{
    match name {
        "analyse" => read_analyse(alloc, words),
        "replay" => Ok(alone(Command::Replay, words)),
        "generate" => read_generate(alloc, words),
        "demo" => read_demo(alloc, words),
        "waits" => Ok(alone(Command::Waits, words)),
        "ranges" => Ok(alone(Command::Ranges, words)),
        "certify" => Ok(alone(Command::Certify, words)),
        "check" => Ok(alone(Command::Check, words)),
        _ => Ok(None),
    }
}

/// The command that the words are, without the program's name; None where they are none.
pub fn read_words(alloc: Global, words: &[String]) -> Result<Option<Command>, NoMemory>
    // The words are this command, or none.
    ensures command { IfOk result (λ command. command ≡ command_of (texts_of words.now)) }

    // It asks for 1 to 16 workers, and for 1 to 400 functions.
    ensures within { IfOk result (λ command. IfSome command IsWithin) }
{
    match words.split_first() {
        Some((name, rest)) => read_named(alloc, name.as_str(), rest),
        None => Ok(None),
    }
}
