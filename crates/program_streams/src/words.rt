//! The words that a program is given, and what it says of words that are no command.

ghost use Rattle.std.specs.Prelude.{◌≡◌, ◌⊎◌, ℕ, IsErrOf};
ghost use Rattle.program_streams.specs.Statuses.{no_words, number_without_words, status_number};

use crate::statuses::Status;
use std::env;
use std::env::Env;
use std::io::ErrorKind;

/// The number with which a program ends where the system does not give it its words.
const NO_WORDS: u8 = 7;

/// The number where the words cannot be had for this reason: memory may run out while they are copied.
fn number_without_words(reason: ErrorKind) -> u8
    ensures { result ≡ number_without_words reason }
{
    match reason {
        ErrorKind::OutOfMemory => Status::NoMemory.number(),
        _ => NO_WORDS,
    }
}

/// The words behind the program's own name; or the number with which it ends where the system does not give it them.
pub fn program_words<R: Env + AllocGlobal>(rt: &R) -> Result<Vec<String>, u8>
    ensures { (number : ℕ) → IsErrOf result number → (number ≡ status_number Status.NoMemory) ⊎ (number ≡ no_words) }
{
    let mut words = match env::args(rt) {
        Ok(words) => words,
        Err(error) => return Err(number_without_words(error.kind())),
    };
    let _program = words.next();
    match words.collect::<Vec<String>>(rt.alloc()) {
        Ok(words) => Ok(words),
        Err(_) => Err(Status::NoMemory.number()),
    }
}

/// Writes the line that says how a program is used to standard error.
pub fn tell_usage<R: Eprint>(rt: &R, line: &str) -> Status
    ensures { (result ≡ Status.Usage) ⊎ (result ≡ Status.WriteFault) }
{
    match rt.eprintln(line) {
        Ok(()) => Status::Usage,
        Err(_) => Status::WriteFault,
    }
}
