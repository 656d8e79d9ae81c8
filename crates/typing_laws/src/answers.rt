//! Answers for files.
ghost use Rattle.typing_laws.specs.Answers.{HasAnAnswer, HasOneAnswer};

/// A file has one answer: two answers that typing may give for it are the same.
pub fn a_file_has_one_answer()
    ensures { HasOneAnswer }
{}

/// A file has an answer: it is typed, or refused.
pub fn a_file_has_an_answer()
    ensures { HasAnAnswer }
{}
