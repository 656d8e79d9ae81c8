//! The patterns of constructs that the grammar refuses.

ghost use Rattle.std.specs.Prelude.{◌≡◌, map};
ghost use Rattle.refusal_hints.specs.Rows.{member_rows, name_rows, place_rows, type_rows, word_rows};
ghost use Rattle.refusal_hints.specs.reading.Seen.{row_seen};

use crate::constructs::Construct;
use crate::rows::Row;

/// Of `Syntax`: attributes, and words of C11 and of compilers.
static WORD_ROWS: [Row<'static>; 13] = [
    (b"", b"", b"@attribute", Construct::Attribute),
    (b"", b"@attribute", b"", Construct::Attribute),
    (b"", b"@attribute (", b"", Construct::Attribute),
    (b"@attribute", b"", b"", Construct::Attribute),
    (
        b"",
        b"@attribute ( ( @name ) )",
        b"@name",
        Construct::Attribute,
    ),
    (b"", b"", b"[ [", Construct::Attribute),
    (b"", b"", b"@assertion", Construct::StaticAssertion),
    (b"", b"", b"@extension", Construct::ExtensionWord),
    (b"", b"@extension", b"", Construct::ExtensionWord),
    (b"", b"@extension (", b"", Construct::ExtensionWord),
    (b"@extension", b"", b"", Construct::ExtensionWord),
    (b"", b"_Generic ( @name ,", b"", Construct::ExtensionWord),
    (
        b"",
        b"@extension ( @name ) )",
        b"",
        Construct::ExtensionWord,
    ),
];

/// The rows of this table.
#[tactic(auto, unfolding(crate::specs::Rows::word_rows))]
pub fn word_rows() -> &'static [Row<'static>]
    ensures { map row_seen result.now ≡ word_rows }
{
    &WORD_ROWS
}

/// Of `Syntax`: labels, members, values in braces.
static MEMBER_ROWS: [Row<'static>; 19] = [
    (b"", b"@ended @once", b":", Construct::Label),
    (b"", b"@member @type @name", b":", Construct::BitField),
    (b"", b"@member @name @name", b":", Construct::BitField),
    (b"", b"enum @name @name", b":", Construct::BitField),
    (b"", b"@member @type", b":", Construct::BitField),
    (b"@specifier", b", @name", b":", Construct::BitField),
    (b"", b"?", b":", Construct::OmittedOperand),
    (b"", b"@operand (", b"{", Construct::StatementExpression),
    (b"", b"", b". @number", Construct::FloatingConstant),
    (b"", b"{", b". @name", Construct::Designator),
    (b"", b",", b". @name", Construct::Designator),
    (b"", b"{", b"[", Construct::Designator),
    (b"", b",", b"[", Construct::Designator),
    (b"", b"= {", b"}", Construct::EmptyBraces),
    (b"", b", {", b"}", Construct::EmptyBraces),
    (b"", b"{ {", b"}", Construct::EmptyBraces),
    (b"", b"struct {", b"}", Construct::EmptyStructure),
    (b"", b"struct @name {", b"}", Construct::EmptyStructure),
    (b"", b"}", b";", Construct::UnnamedMember),
];

/// The rows of this table.
#[tactic(auto, unfolding(crate::specs::Rows::member_rows))]
pub fn member_rows() -> &'static [Row<'static>]
    ensures { map row_seen result.now ≡ member_rows }
{
    &MEMBER_ROWS
}

/// Of `Syntax`: pointers to functions, arrays, compound literals.
static TYPE_ROWS: [Row<'static>; 41] = [
    (b"", b"@type ( * @name )", b"(", Construct::FunctionPointer),
    (b"", b"@name ( * @name )", b"(", Construct::FunctionPointer),
    (
        b"",
        b"@type * ( * @name )",
        b"(",
        Construct::FunctionPointer,
    ),
    (
        b"",
        b"struct @name * ( * @name )",
        b"(",
        Construct::FunctionPointer,
    ),
    (b"", b"( * const @name )", b"(", Construct::FunctionPointer),
    (b"", b"( * @name [ ] )", b"(", Construct::FunctionPointer),
    (
        b"",
        b"( * @name [ @constant ] )",
        b"(",
        Construct::FunctionPointer,
    ),
    (
        b"",
        b"( * @name [ @constant ] [ @constant ] )",
        b"(",
        Construct::FunctionPointer,
    ),
    (
        b"",
        b"( * const @name [ ] )",
        b"(",
        Construct::FunctionPointer,
    ),
    (
        b"",
        b"( * const @name [ @constant ] )",
        b"(",
        Construct::FunctionPointer,
    ),
    (b"", b"@type ( * @name", b"(", Construct::FunctionPointer),
    (b"", b"@name ( * @name", b"(", Construct::FunctionPointer),
    (b"", b"( *", b") (", Construct::FunctionPointer),
    (b"", b"@type", b"( * ) (", Construct::FunctionPointer),
    (b"", b"@name", b"( * ) (", Construct::FunctionPointer),
    (b"", b"( @type @name", b"(", Construct::FunctionPointer),
    (b"", b", @type @name", b"(", Construct::FunctionPointer),
    (b"", b"( *", b") [", Construct::ArrayType),
    (b"", b"@type", b"( * ) [", Construct::ArrayType),
    (b"", b"@name", b"( * ) [", Construct::ArrayType),
    (
        b"",
        b"@operand ( @type",
        b"[ ] ) {",
        Construct::CompoundLiteral,
    ),
    (
        b"",
        b"@operand ( @name",
        b"[ ] ) {",
        Construct::CompoundLiteral,
    ),
    (
        b"",
        b"@operand ( const @type",
        b"[ ] ) {",
        Construct::CompoundLiteral,
    ),
    (
        b"",
        b"@operand ( const @name",
        b"[ ] ) {",
        Construct::CompoundLiteral,
    ),
    (
        b"",
        b"@operand ( @type",
        b"[ @constant ] ) {",
        Construct::CompoundLiteral,
    ),
    (
        b"",
        b"@operand ( @name",
        b"[ @constant ] ) {",
        Construct::CompoundLiteral,
    ),
    (b"", b"( @type", b"[", Construct::ArrayType),
    (b"", b"( @name", b"[", Construct::ArrayType),
    (b"", b"( struct @name", b"[", Construct::ArrayType),
    (b"", b"( @type @type", b"[", Construct::ArrayType),
    (b"", b"( const @type", b"[", Construct::ArrayType),
    (b"", b"( const @name", b"[", Construct::ArrayType),
    (b"", b"( @type *", b"[", Construct::ArrayType),
    (b"", b"( @name *", b"[", Construct::ArrayType),
    (b"", b", @type", b"[", Construct::ArrayType),
    (b"", b", @name", b"[", Construct::ArrayType),
    (b"", b", struct @name", b"[", Construct::ArrayType),
    (b"", b", const @type", b"[", Construct::ArrayType),
    (b"", b", const @name", b"[", Construct::ArrayType),
    (b"", b"[", b"@qualifier", Construct::ArrayBrackets),
    (b"", b"[ *", b"]", Construct::ArrayBrackets),
];

/// The rows of this table.
#[tactic(auto, unfolding(crate::specs::Rows::type_rows))]
pub fn type_rows() -> &'static [Row<'static>]
    ensures { map row_seen result.now ≡ type_rows }
{
    &TYPE_ROWS
}

/// Of `Syntax`: what stands where it may not, typedefs.
static PLACE_ROWS: [Row<'static>; 27] = [
    (b"", b"( @type )", b"{", Construct::CompoundLiteral),
    (b"", b"( @type @type )", b"{", Construct::CompoundLiteral),
    (b"", b"( const @type )", b"{", Construct::CompoundLiteral),
    (
        b"",
        b"( const @type @type )",
        b"{",
        Construct::CompoundLiteral,
    ),
    (b"", b"( @type * )", b"{", Construct::CompoundLiteral),
    (b"", b"( @type @type * )", b"{", Construct::CompoundLiteral),
    (b"", b"( const @type * )", b"{", Construct::CompoundLiteral),
    (
        b"",
        b"( const @type @type * )",
        b"{",
        Construct::CompoundLiteral,
    ),
    (b"", b"( struct @name )", b"{", Construct::CompoundLiteral),
    (
        b"",
        b"( const struct @name )",
        b"{",
        Construct::CompoundLiteral,
    ),
    (b"", b"@operand ( @name )", b"{", Construct::CompoundLiteral),
    (
        b"",
        b"@operand ( const @name )",
        b"{",
        Construct::CompoundLiteral,
    ),
    (b"", b"@wide", b"@character", Construct::WideCharacter),
    (b"", b"", b"< :", Construct::Digraph),
    (b"", b"", b"< %", Construct::Digraph),
    (b"", b"", b"case", Construct::SwitchLabel),
    (b"", b"", b"default", Construct::SwitchLabel),
    (b"", b";", b"@specifier", Construct::SwitchDeclaration),
    (b"", b") {", b"@specifier", Construct::SwitchDeclaration),
    (b"", b":", b"@specifier", Construct::SwitchDeclaration),
    (b"typedef", b"@type", b"@name ;", Construct::RepeatedTypedef),
    (b"typedef", b"@name", b"@name ;", Construct::RepeatedTypedef),
    (b"", b"@frame @type", b"@name ;", Construct::TypedefName),
    (b"", b"@frame @type", b"@name ,", Construct::TypedefName),
    (b"", b"@frame @type", b"@name =", Construct::TypedefName),
    (b"", b"@frame @type", b"@name )", Construct::TypedefName),
    (b"", b"@frame @type", b"@name [", Construct::TypedefName),
];

/// The rows of this table.
#[tactic(auto, unfolding(crate::specs::Rows::place_rows))]
pub fn place_rows() -> &'static [Row<'static>]
    ensures { map row_seen result.now ≡ place_rows }
{
    &PLACE_ROWS
}

/// Of `Syntax`: calls, functions, names without a type.
static NAME_ROWS: [Row<'static>; 40] = [
    (
        b"",
        b"@operand ( @once )",
        b"@number",
        Construct::UndeclaredType,
    ),
    (
        b"",
        b"@operand ( @once )",
        b"@name",
        Construct::UndeclaredType,
    ),
    (b"", b"@starter ( @once )", b"(", Construct::UndeclaredType),
    (
        b"",
        b"@starter ( @name )",
        b"(",
        Construct::CallOfExpression,
    ),
    (
        b"",
        b"@starter ( & @name )",
        b"(",
        Construct::CallOfExpression,
    ),
    (
        b"",
        b"@starter ( * @name )",
        b"(",
        Construct::CallOfExpression,
    ),
    (b"", b". @name", b"(", Construct::CallOfExpression),
    (b"", b"- > @name", b"(", Construct::CallOfExpression),
    (b"", b"]", b"(", Construct::CallOfExpression),
    (b"", b"@type ( @name )", b"(", Construct::ParenthesisedName),
    (b"@specifier", b", @name", b"(", Construct::SeveralFunctions),
    (
        b"@specifier",
        b", * @name",
        b"(",
        Construct::SeveralFunctions,
    ),
    (b"@specifier", b")", b",", Construct::SeveralFunctions),
    (b"", b"@type @name", b"(", Construct::BlockFunction),
    (b"", b"@name @name", b"(", Construct::BlockFunction),
    (b"", b"@type * @name", b"(", Construct::BlockFunction),
    (b"", b"@name * @name", b"(", Construct::BlockFunction),
    (b"", b"(", b"@name ) @specifier", Construct::OldDefinition),
    (
        b"",
        b"(",
        b"@name , @name ) @specifier",
        Construct::OldDefinition,
    ),
    (
        b"",
        b"(",
        b"@name , @name , @name ) @specifier",
        Construct::OldDefinition,
    ),
    (b"@none", b"", b"@once @type", Construct::ExtensionWord),
    (b"", b"@storage", b"@once @type", Construct::ExtensionWord),
    (b"@none", b"", b"@once @name", Construct::UndeclaredType),
    (b"@none", b"", b"@once *", Construct::UndeclaredType),
    (b"", b"(", b"@once @name", Construct::UndeclaredType),
    (b"", b"(", b"@once *", Construct::UndeclaredType),
    (b"", b"(", b"@once ) ;", Construct::UndeclaredType),
    (b"", b",", b"@once @name", Construct::UndeclaredType),
    (b"", b",", b"@once *", Construct::UndeclaredType),
    (b"", b"@storage", b"@once @name", Construct::UndeclaredType),
    (b"", b"@storage", b"@once *", Construct::UndeclaredType),
    (b"", b"@ended @once", b"@name", Construct::UndeclaredType),
    (b"", b"for ( @once", b"@name", Construct::UndeclaredType),
    (b"", b"@none", b"@name (", Construct::ImplicitInt),
    (b"", b"@none", b"@name ;", Construct::ImplicitInt),
    (b"", b";", b"@name (", Construct::ImplicitInt),
    (b"", b";", b"@name ;", Construct::ImplicitInt),
    (b"@storage", b"@storage", b"@once (", Construct::ImplicitInt),
    (b"@storage", b"@storage", b"@once ;", Construct::ImplicitInt),
    (b"@storage", b"@storage", b"@once =", Construct::ImplicitInt),
];

/// The rows of this table.
#[tactic(auto, unfolding(crate::specs::Rows::name_rows))]
pub fn name_rows() -> &'static [Row<'static>]
    ensures { map row_seen result.now ≡ name_rows }
{
    &NAME_ROWS
}
