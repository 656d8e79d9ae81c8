//! The patterns of constructs that the lexis or typing refuses.

ghost use Rattle.std.specs.Prelude.{◌≡◌, map};
ghost use Rattle.refusal_hints.specs.Rows.{constant_rows, lexical_rows, mismatch_rows, undeclared_rows, unsupported_rows};
ghost use Rattle.refusal_hints.specs.reading.Seen.{row_seen};

use crate::constructs::Construct;
use crate::rows::Row;

/// Of `Lexical`.
static LEXICAL_ROWS: [Row<'static>; 14] = [
    (b"", b"", b"@exponent", Construct::FloatingConstant),
    (b"", b"", b"@number . . .", Construct::LabelRange),
    (b"", b"", b"@number .", Construct::FloatingConstant),
    (b"", b"", b"@binary", Construct::BinaryConstant),
    (b"", b"@asm (", b"@string", Construct::Assembly),
    (b"", b"@asm @volatile (", b"@string", Construct::Assembly),
    (
        b"",
        b"@asm @volatile @volatile (",
        b"@string",
        Construct::Assembly,
    ),
    (b"@assertion", b"", b"@string", Construct::StaticAssertion),
    (b"", b"", b"@string", Construct::StringLiteral),
    (b"", b"", b"@character", Construct::CharacterConstant),
    (b"", b"", b"@comment", Construct::ContinuedComment),
    (b"", b"", b"$", Construct::DollarName),
    (b"", b"", b"@directive", Construct::Directive),
    (b"", b"", b"@backslash", Construct::Backslash),
];

/// The rows of this table.
#[tactic(auto, unfolding(crate::specs::Rows::lexical_rows))]
pub fn lexical_rows() -> &'static [Row<'static>]
    ensures { map row_seen result.now ≡ lexical_rows }
{
    &LEXICAL_ROWS
}

/// Of `Unsupported`.
static UNSUPPORTED_ROWS: [Row<'static>; 31] = [
    (b"", b"", b"@floating", Construct::FloatingType),
    (b"", b"", b"@complex", Construct::ComplexType),
    (b"", b"", b"union", Construct::Union),
    (b"", b"", b"goto", Construct::Goto),
    (b"case", b"", b". . .", Construct::LabelRange),
    (b"", b"[ @constant", b". . .", Construct::Designator),
    (b"", b"", b". . . )", Construct::VariableArguments),
    (b"", b"void *", b"@name", Construct::VoidPointer),
    (b"", b"void * *", b"@name", Construct::VoidPointer),
    (b"", b"void * const", b"@name", Construct::VoidPointer),
    (b"", b"", b"void *", Construct::VoidPointer),
    (b"", b"", b"const void *", Construct::VoidPointer),
    (b"", b"", b"( void *", Construct::VoidPointer),
    (b"", b"", b"( const void *", Construct::VoidPointer),
    (b"", b"", b"sizeof ( void *", Construct::VoidPointer),
    (b"", b"* volatile", b"@name", Construct::VolatilePointer),
    (b"", b"", b"=", Construct::StructureValue),
    (b"", b"", b"return", Construct::StructureValue),
    (b"", b"@type @name =", b"@name", Construct::FunctionValue),
    (b"", b"@name @name =", b"@name", Construct::StructureValue),
    (b"", b"@name @name =", b"*", Construct::StructureValue),
    (b"", b"@name", b"@name", Construct::StructureValue),
    (b"", b"(", b"@name )", Construct::FunctionValue),
    (b"", b"(", b"@name ,", Construct::FunctionValue),
    (b"", b"&", b"@name", Construct::FunctionValue),
    (b"@none", b"", b"@name ;", Construct::FunctionValue),
    (b"", b"", b"@name (", Construct::StructureValue),
    (b"", b"", b"(", Construct::PointerConversion),
    (b"", b"", b"-", Construct::PointerDifference),
    (b"", b"", b"<", Construct::PointerOrder),
    (b"", b"", b">", Construct::PointerOrder),
];

/// The rows of this table.
#[tactic(auto, unfolding(crate::specs::Rows::unsupported_rows))]
pub fn unsupported_rows() -> &'static [Row<'static>]
    ensures { map row_seen result.now ≡ unsupported_rows }
{
    &UNSUPPORTED_ROWS
}

/// Of `NotConstant`.
static CONSTANT_ROWS: [Row<'static>; 3] = [
    (b"", b"[", b"@name", Construct::VariableLength),
    (b"", b"[ @name", b"@sign", Construct::VariableLength),
    (b"", b"[ @number", b"@sign", Construct::VariableLength),
];

/// The rows of this table.
#[tactic(auto, unfolding(crate::specs::Rows::constant_rows))]
pub fn constant_rows() -> &'static [Row<'static>]
    ensures { map row_seen result.now ≡ constant_rows }
{
    &CONSTANT_ROWS
}

/// Of `Mismatch`.
static MISMATCH_ROWS: [Row<'static>; 2] = [
    (b"", b"", b"@name [ ] ; }", Construct::ArrayWithoutLength),
    (b"typedef", b"", b"@name (", Construct::FunctionPointer),
];

/// The rows of this table.
#[tactic(auto, unfolding(crate::specs::Rows::mismatch_rows))]
pub fn mismatch_rows() -> &'static [Row<'static>]
    ensures { map row_seen result.now ≡ mismatch_rows }
{
    &MISMATCH_ROWS
}

/// Of `Undeclared`.
static UNDECLARED_ROWS: [Row<'static>; 4] = [
    (b"", b"", b"@attribute", Construct::Attribute),
    (b"", b"", b"@extension", Construct::ExtensionWord),
    (b"@none", b"", b"@once * @name ;", Construct::UndeclaredType),
    (b"@none", b"", b"@once * @name =", Construct::UndeclaredType),
];

/// The rows of this table.
#[tactic(auto, unfolding(crate::specs::Rows::undeclared_rows))]
pub fn undeclared_rows() -> &'static [Row<'static>]
    ensures { map row_seen result.now ≡ undeclared_rows }
{
    &UNDECLARED_ROWS
}
