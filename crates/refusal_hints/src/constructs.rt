//! The constructs of C that the language leaves out, and what to write instead.

ghost use Rattle.std.specs.Prelude.{◌≡◌};
ghost use Rattle.refusal_hints.specs.Sentences.{sentence_text};

/// What stands where a source is refused.
#[derive(Clone, Copy)]
pub enum Construct {
    FloatingConstant,
    LabelRange,
    BinaryConstant,
    Assembly,
    StaticAssertion,
    StringLiteral,
    CharacterConstant,
    ContinuedComment,
    DollarName,
    Directive,
    Backslash,
    Attribute,
    ExtensionWord,
    Label,
    BitField,
    OmittedOperand,
    StatementExpression,
    Designator,
    EmptyBraces,
    EmptyStructure,
    UnnamedMember,
    FunctionPointer,
    ArrayType,
    CompoundLiteral,
    ArrayBrackets,
    WideCharacter,
    Digraph,
    SwitchLabel,
    SwitchDeclaration,
    RepeatedTypedef,
    TypedefName,
    UndeclaredType,
    CallOfExpression,
    ParenthesisedName,
    SeveralFunctions,
    BlockFunction,
    OldDefinition,
    ImplicitInt,
    FloatingType,
    ComplexType,
    Union,
    Goto,
    VariableArguments,
    VoidPointer,
    VolatilePointer,
    StructureValue,
    FunctionValue,
    PointerConversion,
    PointerDifference,
    PointerOrder,
    VariableLength,
    ArrayWithoutLength,
}

/// What a construct is, and what to write instead.
pub fn sentence(construct: Construct) -> &'static str
    ensures { result.now ≡ sentence_text construct }
{
    match construct {
        Construct::FloatingConstant =>
            "a floating constant: write an integer of a fixed scale, as millivolts",
        Construct::LabelRange => "a range of labels: write a label for each value",
        Construct::BinaryConstant => "a binary constant: write it as `3`, `03` or `0x3`",
        Construct::Assembly =>
            "assembly: let a function say what it does, with `__input` for what it reads",
        Construct::StaticAssertion =>
            "a static assertion: leave it to the compiler, as by `-D'_Static_assert(...)='`",
        Construct::StringLiteral =>
            "a string literal: write its characters in braces, as `char s[] = { 'a', 'b', 0 };`",
        Construct::CharacterConstant =>
            "a character constant that is not one byte or an escape of C99 for one: write its number",
        Construct::ContinuedComment =>
            "a comment that goes on in the next line, or ends before its own, for a compiler: end it with another byte",
        Construct::DollarName => "a name with `$`: take letters, digits and `_`",
        Construct::Directive =>
            "a directive, or one that goes on in the next line: let the preprocessor take it, as by `cc -E`",
        Construct::Backslash =>
            "a backslash, which joins lines or begins a universal name: write one line, and letters of ASCII",
        Construct::Attribute => "an attribute: leave it out, as by `-D'__attribute__(x)='`",
        Construct::ExtensionWord =>
            "a word that C99 does not have, or a macro that is not defined: leave it out, as by `-DWORD=`",
        Construct::Label =>
            "a label: take a loop with `break` and `continue`, or a function with `return`",
        Construct::BitField => "a bit-field: take a member of its own, or shifts and masks",
        Construct::OmittedOperand => "`?:` without its middle: write `x ? x : y`",
        Construct::StatementExpression => "statements in an expression: write a function",
        Construct::Designator =>
            "a designated initialiser: write the values in their order, up to the last",
        Construct::EmptyBraces => "braces without a value: write `{ 0 }`",
        Construct::EmptyStructure => "a structure without members: have no object of it",
        Construct::UnnamedMember => "a member without a name: give it one",
        Construct::FunctionPointer =>
            "a pointer to a function, or a type of functions: take a `switch` over a number, with a call in each case",
        Construct::ArrayType =>
            "an array type without a name: take an object or a parameter of that type, or `3 * sizeof(int)`",
        Construct::CompoundLiteral => "a compound literal: take an object with an initialiser",
        Construct::ArrayBrackets =>
            "a qualifier, `static` or `*` in the brackets of a parameter: leave it out",
        Construct::WideCharacter => "a wide character: write its number",
        Construct::Digraph => "a digraph: write the sign itself",
        Construct::SwitchLabel =>
            "a label of a `switch` that stands not directly in its braces: let it stand there",
        Construct::SwitchDeclaration =>
            "a declaration directly in a `switch`: write it before the `switch`, or in a block behind a label",
        Construct::RepeatedTypedef =>
            "a typedef in a block, or a second one of a name: write one, before the functions",
        Construct::TypedefName =>
            "the name of a typedef, declared as something else: take another name",
        Construct::UndeclaredType =>
            "a name as a type that no typedef declares: include the header that does, as <stdint.h>",
        Construct::CallOfExpression =>
            "a call of something else than a name: write `f(1)`, or a `switch` with a call in each case",
        Construct::ParenthesisedName => "a function's name in parentheses: write `int f(void);`",
        Construct::SeveralFunctions =>
            "a function beside others in one declaration: write a declaration for each",
        Construct::BlockFunction =>
            "a function that is declared or defined within another, or within a structure: write it at file scope, before",
        Construct::OldDefinition =>
            "parameters by name alone, with their types behind: write `int f(int a)`",
        Construct::ImplicitInt =>
            "a declaration without a type, or a macro that is not defined: write the type, or define the macro",
        Construct::FloatingType =>
            "a floating type: take integers of a fixed scale, as millivolts in a `long`",
        Construct::ComplexType => "a complex type: take two objects",
        Construct::Union =>
            "a union: take a structure with a member for each use, or shifts and masks for the bytes of a number",
        Construct::Goto =>
            "`goto`: take a loop with `break` and `continue`, or a function with `return`",
        Construct::VariableArguments =>
            "a variable number of arguments: write a function for each number",
        Construct::VoidPointer => "a pointer to `void`: take a pointer to the type that is meant",
        Construct::VolatilePointer =>
            "a pointer that is volatile itself: let only what it points to be volatile",
        Construct::StructureValue =>
            "a structure by value: take a member at a time, or a pointer to it",
        Construct::FunctionValue => "a function's or a task's name as a value: write a call",
        Construct::PointerConversion =>
            "a number as a pointer, a pointer as a number, or a pointer as one to another type: for a register take a `volatile` object",
        Construct::PointerDifference =>
            "the difference of pointers: keep an index beside the array",
        Construct::PointerOrder =>
            "the order of pointers: keep an index beside the array, or compare by `!=`",
        Construct::VariableLength =>
            "an array whose length is not a constant: take the greatest length, and the length beside it",
        Construct::ArrayWithoutLength =>
            "an array without a length: give it the greatest that it may have",
    }
}
