//! The law of escaped texts, as the contract of a function that does nothing.

ghost use Rattle.page_pieces.specs.Laws.{NoMarkup};

/// No text puts markup on a page: escaped, it has none of `<`, `>` and both quotes, and each `&` begins a reference.
pub fn no_markup()
    ensures { NoMarkup }
{}
