//! Kinds of choices.
ghost use Rattle.std.specs.Prelude.{◌≡◌};

use tm_terms::Place;

/// What is left open at a place, in the order of the words.
#[derive(Clone, Copy, PartialEq, Eq, PartialOrd, Ord)]
pub enum Kind {
    /// A pointer loses a `const`, or a `const` object is stored to (C99 6.5.16.1p1, 6.7.3p5).
    Const,
    /// A negative number in an enumeration, or beside one, that compilers may make unsigned (C99 6.7.2.2p4).
    Enum,
    /// A conversion to a signed type of what it may not hold, or `>>` of what may be negative (C99 6.3.1.3p3, 6.5.7p5).
    Implementation,
    /// The size of a type that depends on the alignment of `long long` (C99 6.7.2.1p12).
    Layout,
    /// An object is used outside of its block, or a pointer to an earlier instance may be left over (C99 6.2.4p2).
    Lifetime,
    /// A pointer leaves the array into which it points, or the end of one object is compared with another (C99 6.5.6p8,
    /// 6.5.9p6).
    Member,
    /// Operands whose order is open touch the same (C99 6.5p2).
    Order,
    /// A line that is skipped (C99 6.10.6).
    Pragma,
    /// A name of the library (C99 7.1.3p1).
    Reserved,
    /// The word `restrict` (C99 6.7.3.1).
    Restrict,
    /// A value that was never stored (C99 6.3.2.1p2, 6.9.1p12).
    Unset,
}

impl Kind {
    ghost use Rattle.text_choices.specs.Choices.{word as word_of};

    /// The word of a kind.
    pub fn word(self) -> &'static str
        ensures { result.now ≡ word_of self }
    {
        match self {
            Kind::Const => "CONST",
            Kind::Enum => "ENUM",
            Kind::Implementation => "IMPLEMENTATION",
            Kind::Layout => "LAYOUT",
            Kind::Lifetime => "LIFETIME",
            Kind::Member => "MEMBER",
            Kind::Order => "ORDER",
            Kind::Pragma => "PRAGMA",
            Kind::Reserved => "RESERVED",
            Kind::Restrict => "RESTRICT",
            Kind::Unset => "UNSET",
        }
    }
}

/// A place, and what is left open there.
#[derive(Clone, Copy, PartialEq, Eq, PartialOrd, Ord)]
pub struct Choice {
    pub place: Place,
    pub kind: Kind,
}
