//! The law of pages, as the contract of a function that does nothing.

ghost use Rattle.report_pages.specs.Laws.{AllListed};

/// A page has a row for each alarm, and no other: whatever the texts beside the report say, none is left out, told twice
/// or made up.
pub fn all_listed()
    ensures { AllListed }
{}
