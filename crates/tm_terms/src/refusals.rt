use crate::places::Place;
use tm_lattice::NoMemory;

/// Why a source is refused, in the order in which refusals are looked for.
#[derive(Clone, Copy, PartialEq, Eq, PartialOrd, Ord, Debug)]
pub enum Kind {
    Lexical,
    Unsupported,
    Deep,
    Syntax,
    Undeclared,
    Redeclared,
    Mismatch,
    NotConstant,
    NotLvalue,
    NoBody,
    Recursive,
    BadTask,
    Limit,
}

/// What a limit counts.
#[derive(Clone, Copy, PartialEq, Eq, PartialOrd, Ord, Debug)]
pub enum Limit {
    Source,
    Tokens,
    Tasks,
    Mutexes,
    Paths,
    Cells,
    Abstract,
    Nodes,
    Work,
}

/// A refusal of a source. `limit` is there exactly for the kind `Limit`, whose place is 0:0.
#[derive(Clone, Copy, PartialEq, Eq, Debug)]
pub struct Refusal {
    pub kind: Kind,
    pub place: Place,
    pub limit: Option<Limit>,
}

/// The answer of a call that gives no value: a refusal, or want of memory.
#[derive(Clone, Copy, PartialEq, Eq, Debug)]
pub enum Fail {
    Refused(Refusal),
    NoMemory,
}

impl From<NoMemory> for Fail {
    ghost use Rattle.std.specs.Prelude.{◌≡◌};
    ghost use Rattle.tm_terms.specs.declared.refusals.Fail.TheVariants.{NoMemory as OutOfMemory};

    ghost from_gives = { λ _ made. made ≡ OutOfMemory };

    fn from(_: NoMemory) -> Fail {
        Fail::NoMemory
    }
}
