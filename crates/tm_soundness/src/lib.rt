//! Soundness of the thread-modular analysis, over abstract layers: every error that occurs in a run that priorities
//! and mutexes allow is listed by every pair of tables and store that covers each edge.
//!
//! What it knows of a program is `Shape`: tasks, cells, abstract cells, the edges of the configured graphs and what a
//! calculation may do. What it knows of an analysis is `Tables`, in terms of members. It knows no C, no strided set,
//! no rounding and no least solution; which crate owes which of its premises, docs/PROVED.md says.
//!
//! A small run, step by step, is told at the head of `specs/Invariant.antt`.
#![tactic(auto)]

ghost use Rattle.std.specs.Prelude.{◌≡◌};
ghost use Rattle.tm_soundness.specs.Section.{alone};
ghost use Rattle.tm_soundness.specs.Numbered.{Program, Answer, Entries, Interpreter, Main, shape_of, section_of};
ghost use Rattle.tm_soundness.specs.Numbered.{KeepsTheInvariant, ListsEveryError};
ghost use Rattle.tm_soundness.specs.Numbered.{KnowsEveryWorld, KnowsEveryWholeWorld};

/// In every reached world the concurrent invariant holds, for every pair that covers each edge (after Miné, LMCS 2012,
/// section 5): a world of the graphs stands for the world over answers, and the parts of the invariant hold in it, for
/// some last writers.
pub fn invariant_holds()
    ensures law { (p : Program) (a : Answer) (s : Entries p) (n : Interpreter (shape_of p))
        → KeepsTheInvariant p a s n }
{}

/// Each fault's class is listed at its place, and the places of each race both, in the initial section and in the
/// tasks after it.
pub fn every_error_is_listed()
    ensures law { (p : Program) (a : Answer) (s : Entries p) (n : Interpreter (shape_of p)) (x : Main) (b : Answer)
        (o : Interpreter (alone (shape_of p) (section_of p x)))
        → ListsEveryError p a s n x b o }
{}

/// Of every reached world it is known where each task stands, that the invariant holds there, and what cells hold; a
/// task that is blocked requests the mutex from there, and a circle of tasks that wait for each other is a circle of
/// such requests. With an initial section so it is of the section while it runs, and of the tasks over what it leaves.
pub fn every_world_is_known()
    ensures plain { (p : Program) (a : Answer) (s : Entries p) (n : Interpreter (shape_of p))
        → KnowsEveryWorld p a s n }
    ensures with_section { (p : Program) (a : Answer) (s : Entries p) (n : Interpreter (shape_of p)) (x : Main)
        (b : Answer) (o : Interpreter (alone (shape_of p) (section_of p x)))
        → KnowsEveryWholeWorld p a s n x b o }
{}
