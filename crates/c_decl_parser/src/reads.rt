//! What a reader answers.
ghost use Rattle.std.specs.Prelude.{◌≡◌, [], ◌∷◌, ◌++◌, OnOk};

use tm_lattice::NoMemory;
use tm_terms::Token;

/// What was read from the front of a text and what follows it, or the tokens from the one on at which
/// nothing could be read.
#[derive(Drop)]
pub enum Read<'a, T> {
    Found(T, &'a [Token]),
    Stuck(&'a [Token]),
}

/// One more at the end of what was read.
pub fn push<T: Drop>(items: &mut Vec<T>, item: T) -> Result<(), NoMemory>
    ensures { OnOk result (items.new.items ≡ items.old.items ++ item ∷ []) }
{
    match items.push(item) {
        Ok(()) => Ok(()),
        Err(_) => Err(NoMemory),
    }
}
