//! What is open at an assumption of each kind, and what to write instead.

ghost use Rattle.std.specs.Prelude.{◌≡◌};
ghost use Rattle.report_views.specs.Kinds.{kind_help, kind_sentence};

use report_reading::AssumptionKind;

/// What is open there.
pub fn kind_sentence(kind: AssumptionKind) -> &'static str
    ensures { result.now ≡ kind_sentence kind }
{
    match kind {
        AssumptionKind::Const =>
            "a pointer loses a const here, or what is declared const may be stored to",
        AssumptionKind::Enum =>
            "gcc and clang may make this enumeration unsigned, and a negative number is another one there",
        AssumptionKind::Implementation =>
            "the result is the choice of the compiler, and gcc and clang choose as the analyser does",
        AssumptionKind::Layout =>
            "this size is another one where long long is aligned to 4, as on 32-bit x86",
        AssumptionKind::Lifetime =>
            "a pointer may lead to a local object whose block or call has ended, or be left over from an earlier one",
        AssumptionKind::Member =>
            "a pointer may leave the array into which it points, or be compared where an object ends",
        AssumptionKind::Order =>
            "C leaves open in which order these operands are evaluated, and it matters",
        AssumptionKind::Pragma => "this line is skipped",
        AssumptionKind::Reserved =>
            "compilers may put a function of their own in the place of this one",
        AssumptionKind::Restrict => "this word is skipped, and compilers build on it",
        AssumptionKind::Unset => "a value may be used that was never stored",
    }
}

/// What to write instead.
pub fn kind_help(kind: AssumptionKind) -> &'static str
    ensures { result.now ≡ kind_help kind }
{
    match kind {
        AssumptionKind::Const => "Keep the qualifier, or cast.",
        AssumptionKind::Enum => "Give it a constant below 0, or cast to int before.",
        AssumptionKind::Implementation =>
            "Test the value before, or convert it in an unsigned type.",
        AssumptionKind::Layout => "Write a number, or order the members so that no gap is left.",
        AssumptionKind::Lifetime => "Declare the object outside, or as static.",
        AssumptionKind::Member =>
            "Index the object by its name, or let the pointer stay within the array.",
        AssumptionKind::Order => "Evaluate one of them in a statement before.",
        AssumptionKind::Pragma => "See that it changes nothing that runs.",
        AssumptionKind::Reserved => "Give it another name, or declare it static.",
        AssumptionKind::Restrict => "See that no other pointer leads there.",
        AssumptionKind::Unset =>
            "Initialise the object where it is declared, or return a value on each way.",
    }
}
