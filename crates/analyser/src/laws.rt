//! The laws of the answers, each the contract of a function that does nothing.

ghost use Rattle.analyser.specs.Laws.{OneReport};

/// A source has one report, whatever order the passes of its tasks came in.
pub fn one_report()
    ensures { OneReport }
{}
