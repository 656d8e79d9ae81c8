//! The commands, and what each asks for.

use std::marker::Model;

/// The numbers that are given as thresholds, in their order. Each is at most 2,147,483,647.
#[derive(Drop)]
pub struct Thresholds {
    numbers: Vec<u32>,
}

impl Model for Thresholds {
    ghost use Rattle.std.specs.Prelude.{ℕ, List};

    ghost Value = { List ℕ };

    ghost view = { λ t. t.numbers.items };
}

impl Thresholds {
    ghost use Rattle.std.specs.Prelude.{◌≡◌};

    /// These numbers.
    pub(crate) fn new(numbers: Vec<u32>) -> Thresholds
        ensures { result ≡ numbers.items }
    {
        Thresholds { numbers }
    }

    /// The numbers as a slice.
    pub fn as_slice(&self) -> &[u32]
        ensures { result.now ≡ self.now }
    {
        self.numbers.as_slice()
    }
}

/// What `analyse` is asked for.
#[derive(Drop)]
pub struct AnalyseWords {
    /// How many workers analyse the tasks, from 1 to 16.
    pub workers: u32,
    /// Whether the report is written as JSON.
    pub json: bool,
    /// Whether the history of the workers stands before the report.
    pub history: bool,
    /// The numbers that, with their opposites, are thresholds beside those of the source.
    pub thresholds: Thresholds,
}

/// What `demo` is asked for.
#[derive(Clone, Copy)]
pub struct DemoWords {
    /// How many workers analyse the tasks, from 1 to 16.
    pub workers: u32,
    /// How many functions the generated source has, from 1 to 400.
    pub count: u32,
}

/// A command, with what its words ask for.
#[derive(Drop)]
pub enum Command {
    /// The report of a source.
    Analyse(AnalyseWords),
    /// The run of a source by given choices.
    Replay,
    /// A source with this many functions, from 1 to 400.
    Generate(u32),
    /// The analysis of a generated source, in two lines.
    Demo(DemoWords),
    /// The places of locks of a source at which tasks may wait for each other in a circle.
    Waits,
    /// The least and the greatest number of each object of a source, and its dead places.
    Ranges,
    /// A certificate of a source: its text with its least solution.
    Certify,
    /// Whether a text is a certificate, and what it certifies.
    Check,
}
