//! What the words of a list of specifiers say together.
ghost use Rattle.std.specs.Prelude.{◌≡◌};
ghost use Rattle.tm_typed.specs.Types.{int_number};
ghost use Rattle.tm_typed.specs.Specifiers.{nothing_said, said_qualifier, said_basic, said_type, plain, integer_said};
ghost use Rattle.tm_typed.specs.Specifiers.{type_said, base, by_sign};

use tm_cint::IntType;
use tm_terms::{Basic, Qualifier};
use tm_typed::{Qualified, Said};

/// No word so far.
pub fn nothing_said() -> Said
    ensures { result ≡ nothing_said }
{
    Said {
        storage: None,
        constant: false,
        volatile: false,
        void: false,
        boolean: false,
        character: false,
        short: false,
        unsigned: false,
        long: false,
        long_long: false,
        declared: None,
    }
}

pub(crate) fn said_qualifier(said: Said, qualifier: Qualifier) -> Said
    ensures { result ≡ said_qualifier said qualifier }
{
    match qualifier {
        Qualifier::Const => Said {
            constant: true,
            ..said
        },
        Qualifier::Volatile => Said {
            volatile: true,
            ..said
        },
        Qualifier::Inline | Qualifier::Restrict => said,
    }
}

pub(crate) fn said_basic(said: Said, basic: Basic) -> Said
    ensures { result ≡ said_basic said basic }
{
    match basic {
        Basic::Void => Said { void: true, ..said },
        Basic::Bool => Said {
            boolean: true,
            ..said
        },
        Basic::Char => Said {
            character: true,
            ..said
        },
        Basic::Short => Said {
            short: true,
            ..said
        },
        Basic::Long => Said {
            long: true,
            long_long: said.long,
            ..said
        },
        Basic::Unsigned => Said {
            unsigned: true,
            ..said
        },
        Basic::Int | Basic::Signed => said,
    }
}

/// A type that a declaration names.
pub fn said_type(said: Said, of: Qualified) -> Said
    ensures { result ≡ said_type said of }
{
    Said {
        declared: Some(of),
        ..said
    }
}

/// A type without qualifiers.
pub fn plain(number: u32) -> Qualified
    ensures { result ≡ plain number }
{
    Qualified {
        number,
        constant: false,
        volatile: false,
    }
}

fn by_sign(unsigned: bool, with: IntType, without: IntType) -> IntType
    ensures { result ≡ by_sign unsigned with without }
{
    if unsigned { with } else { without }
}

// The integer type that the words name (C99 6.7.2).
fn integer_said(said: Said) -> IntType
    ensures { result ≡ integer_said said }
{
    let unsigned = said.unsigned;
    if said.boolean {
        IntType::Bool
    } else if said.character {
        by_sign(unsigned, IntType::UChar, IntType::Char)
    } else if said.short {
        by_sign(unsigned, IntType::UShort, IntType::Short)
    } else if said.long_long {
        by_sign(unsigned, IntType::ULLong, IntType::LLong)
    } else if said.long {
        by_sign(unsigned, IntType::ULong, IntType::Long)
    } else {
        by_sign(unsigned, IntType::UInt, IntType::Int)
    }
}

/// The number of an integer type.
pub fn int_number(of: IntType) -> u32
    ensures { result ≡ int_number of }
{
    match of {
        IntType::Bool => 1,
        IntType::Char => 2,
        IntType::UChar => 3,
        IntType::Short => 4,
        IntType::UShort => 5,
        IntType::Int => 6,
        IntType::UInt => 7,
        IntType::Long => 8,
        IntType::ULong => 9,
        IntType::LLong => 10,
        IntType::ULLong => 11,
    }
}

fn type_said(said: Said) -> Qualified
    ensures { result ≡ type_said said said.declared }
{
    match said.declared {
        Some(of) => of,
        None => {
            if said.void {
                plain(0)
            } else {
                plain(int_number(integer_said(said)))
            }
        }
    }
}

/// The type that specifiers name, with their qualifiers and those of the named type.
pub fn base(said: Said) -> Qualified
    ensures { result ≡ base said }
{
    let of = type_said(said);
    Qualified {
        number: of.number,
        constant: of.constant || said.constant,
        volatile: of.volatile || said.volatile,
    }
}
