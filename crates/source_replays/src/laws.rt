//! Laws of answers to replays: each is the contract of a function that does nothing.
ghost use Rattle.source_replays.specs.Laws.{LongOnesAreAlike, NoneIsBoth};

/// No bytes are replayed and refused.
pub fn none_is_both()
    ensures { NoneIsBoth }
{}

/// More bytes behind too many change no answer.
pub fn long_ones_are_alike()
    ensures { LongOnesAreAlike }
{}
