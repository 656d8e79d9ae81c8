//! The limits of a source: it is refused exactly where a count is greater than its limit.

use crate::refusals::Limit;

/// Bytes of the source.
pub const SOURCE: u32 = 1_048_576;

/// Tokens of the source.
pub const TOKENS: u32 = 200_000;

/// Tasks of the program.
pub const TASKS: u32 = 32;

/// Mutexes of the program.
pub const MUTEXES: u32 = 16;

/// Call paths over all tasks, a task's own body being one.
pub const PATHS: u32 = 4_096;

/// Concrete cells of all objects.
pub const CELLS: u32 = 65_536;

/// Abstract cells of all objects.
pub const ABSTRACT: u32 = 4_096;

/// Nodes of the graph of one task; after that, configured nodes of one task.
pub const NODES: u32 = 20_000;

/// The sum over the tasks of the task's configured nodes times the abstract cells that are of
/// static storage or its own.
pub const WORK: u32 = 8_000_000;

/// Bytes of a source, on any scale.
pub const MOST_BYTES: u32 = 16_777_216;

/// Tokens of a source, on any scale.
pub const MOST_TOKENS: u32 = 4_000_000;

impl Limit {
    ghost use Rattle.std.specs.Prelude.{◌≡◌};
    ghost use Rattle.tm_terms.specs.Limits.{limit_number};

    /// The greatest count that this limit allows.
    pub fn number(self) -> u32
        ensures { result ≡ limit_number self }
    {
        match self {
            Limit::Source => SOURCE,
            Limit::Tokens => TOKENS,
            Limit::Tasks => TASKS,
            Limit::Mutexes => MUTEXES,
            Limit::Paths => PATHS,
            Limit::Cells => CELLS,
            Limit::Abstract => ABSTRACT,
            Limit::Nodes => NODES,
            Limit::Work => WORK,
        }
    }
}
