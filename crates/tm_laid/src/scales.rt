//! The limits of programs on two scales.
ghost use Rattle.std.specs.Prelude.{◌≡◌};
ghost use Rattle.tm_laid.specs.Scales.{number_on};

use tm_typed::Limit;

/// The scale of a program: how large it may be.
#[derive(Clone, Copy, PartialEq, Eq)]
pub enum Scale {
    /// The limits that the commands have.
    Usual,
    /// More bytes, tokens, call paths, abstract cells, nodes and work; tasks, mutexes and cells as usual.
    Large,
}

impl Scale {
    /// The greatest count that a limit allows on this scale.
    pub fn number(self, limit: Limit) -> u64
        ensures { result ≡ number_on self limit }
    {
        match self {
            Scale::Usual => u64::from(limit.number()),
            Scale::Large => match limit {
                Limit::Source => 16_777_216,
                Limit::Tokens => 4_000_000,
                Limit::Paths => 65_536,
                Limit::Abstract => 65_536,
                Limit::Nodes => 200_000,
                Limit::Work => 12_800_000_000,
                Limit::Tasks | Limit::Mutexes | Limit::Cells => u64::from(limit.number()),
            },
        }
    }
}
