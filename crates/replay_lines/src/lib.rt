//! The lines of a replay: where the source ends, which choices stand behind it, and the text that tells how they went.
//! What a choice does, this crate does not know.
//!
//! In the bytes `int x;`, `#replay`, `wake 0` and `run 0 -5`, a line each, the source is `int x;`, and the choices are
//! to wake task 0 and to run it with the number -5. Where both are done the text is `ran 2`.
#![tactic(auto)]

mod choices;
mod cuts;
mod endings;
mod numbers;
mod texts;

pub use choices::choices_in;
pub use cuts::source_in;
pub use endings::Ending;
pub use texts::replay_text;
