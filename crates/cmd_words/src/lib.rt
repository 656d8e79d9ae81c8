//! The words of a command line: which of them are a command of the program, and what they ask for. It reads the words
//! alone, and knows nothing of what a command does.
//!
//! `analyse --workers 4 17` is the analysis by four workers with the thresholds 17 and -17 beside those of the source;
//! `analyse --json --json` is no command, since `--json` stands once at most.
#![tactic(auto)]

mod arguments;
mod commands;
mod numbers;
mod words;

pub use commands::{AnalyseWords, Command, DemoWords, Thresholds};
pub use numbers::{are_digits, read_number};
pub use words::{read_words, workers_named};
