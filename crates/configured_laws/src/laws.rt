//! The laws. They speak of definitions alone: no call is made.
ghost use Rattle.configured_laws.specs.Laws.{FactsOfGraphs, NeverBoth, OneLimit, ProgramsAreAlike, SomeProgram};

/// The layout of a typed file has a program on a scale: the graph of each body with its configured graph. Or else it
/// exceeds the limit of nodes, or that of work.
pub fn some_program()
    ensures { SomeProgram }
{}

/// No layout has a program on a scale and exceeds a limit; it exceeds one limit, or its program is one, on whatever
/// scales.
pub fn one_answer()
    ensures apart { NeverBoth }
    ensures limit { OneLimit }
    ensures program { ProgramsAreAlike }
{}

/// What a program has of each graph is there, whatever the graph: its live temporaries, and its heads with the cells
/// that are written in their regions.
pub fn facts_of_graphs()
    ensures { FactsOfGraphs }
{}
