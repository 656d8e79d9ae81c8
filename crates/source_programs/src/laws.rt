//! The laws. They speak of definitions alone: no call is made.
ghost use Rattle.source_programs.specs.Laws.{LargeAcceptsMore, NoneIsBoth, OneProgram, OneRefusal};
ghost use Rattle.source_programs.specs.Laws.{ProgramsAreOne, SomeSource};

/// A layout, graphs, their configured graphs and thresholds are those of one program: what live temporaries, heads and
/// written cells are is fixed by the graphs.
pub fn programs_are_one()
    ensures { ProgramsAreOne }
{}

/// A source has one answer on each scale: it is never accepted and refused, it is one program for each list of given
/// numbers, the same on both scales, or it has one refusal, but for the place of a syntax error. The large scale
/// accepts what the limits of the commands accept.
pub fn one_source()
    ensures apart { NoneIsBoth }
    ensures program { OneProgram }
    ensures refusal { OneRefusal }
    ensures more { LargeAcceptsMore }
{}

/// A source is refused, or has a program: its layout, and the graphs of its bodies with their configured graphs. Where
/// no length of its arrays is above 2^100, it is accepted.
pub fn some_source()
    ensures { SomeSource }
{}
