//! What each rule says, and what helps against what it finds.

ghost use Rattle.std.specs.Prelude.{◌≡◌};
ghost use Rattle.report_views.specs.Sentences.{help_text, level_text, rule_help, rule_sentence, rule_text};
ghost use Rattle.report_views.specs.Sentences.{sentence_text};

use crate::kinds::{kind_help, kind_sentence};
use report_reading::{AssumptionKind, kind_word};
use tm_cint::Class;
use tm_terms::class_word;

/// What a result tells of: an alarm of a class, a lock at which tasks may wait for each other in a ring, a place that no
/// run reaches, or an assumption of a kind.
#[derive(Clone, Copy)]
pub enum Rule {
    Alarm(Class),
    Wait,
    Dead,
    Assumption(AssumptionKind),
}

/// All rules, in their order.
pub static RULES: [Rule; 21] = [
    Rule::Alarm(Class::Overflow),
    Rule::Alarm(Class::Div),
    Rule::Alarm(Class::Shift),
    Rule::Alarm(Class::Index),
    Rule::Alarm(Class::Pointer),
    Rule::Alarm(Class::Deref),
    Rule::Alarm(Class::Lock),
    Rule::Alarm(Class::Race),
    Rule::Wait,
    Rule::Dead,
    Rule::Assumption(AssumptionKind::Const),
    Rule::Assumption(AssumptionKind::Enum),
    Rule::Assumption(AssumptionKind::Implementation),
    Rule::Assumption(AssumptionKind::Layout),
    Rule::Assumption(AssumptionKind::Lifetime),
    Rule::Assumption(AssumptionKind::Member),
    Rule::Assumption(AssumptionKind::Order),
    Rule::Assumption(AssumptionKind::Pragma),
    Rule::Assumption(AssumptionKind::Reserved),
    Rule::Assumption(AssumptionKind::Restrict),
    Rule::Assumption(AssumptionKind::Unset),
];

/// All classes, in their order.
pub static CLASSES: [Class; 8] = [
    Class::Overflow,
    Class::Div,
    Class::Shift,
    Class::Index,
    Class::Pointer,
    Class::Deref,
    Class::Lock,
    Class::Race,
];

/// What an alarm of this class says.
pub fn sentence(class: Class) -> &'static str
    ensures { result.now ≡ sentence_text class }
{
    match class {
        Class::Overflow => "signed arithmetic may leave the range of its type",
        Class::Div => "the divisor may be zero",
        Class::Shift => "the shift may have a count or a left operand for which it is not defined",
        Class::Index => "the subscript may lie outside the array",
        Class::Pointer =>
            "pointer arithmetic may leave its object, or the pointer may be null or invalid",
        Class::Deref =>
            "the dereferenced pointer may be null or invalid, or point to no value of its type",
        Class::Lock =>
            "the task may lock a mutex that it holds, or unlock one that it does not hold",
        Class::Race =>
            "another task may access this object at the same time, and one of the two stores",
    }
}

/// What helps against alarms of this class.
pub fn help(class: Class) -> &'static str
    ensures { result.now ≡ help_text class }
{
    match class {
        Class::Overflow =>
            "Compute in a wider or an unsigned type, or test the operands before the operation.",
        Class::Div => "Test the divisor where no other task can change it before the division.",
        Class::Shift =>
            "Shift an unsigned operand, by a count from 0 to the bits of its type less one.",
        Class::Index => "Test the subscript where no other task can change it before the access.",
        Class::Pointer => "Move the pointer within its object only, and set it before its use.",
        Class::Deref =>
            "Set the pointer before its use, test it against null, and let its object be alive.",
        Class::Lock => "Lock and unlock each mutex in turn, once on each path.",
        Class::Race => "Access the object under a mutex that both tasks lock.",
    }
}

/// The word of a rule.
pub fn rule_word(rule: Rule) -> &'static str
    ensures { result.now ≡ rule_text rule }
{
    match rule {
        Rule::Alarm(class) => class_word(class),
        Rule::Wait => "WAIT",
        Rule::Dead => "DEAD",
        Rule::Assumption(kind) => kind_word(kind),
    }
}

/// What a rule says.
pub fn rule_sentence(rule: Rule) -> &'static str
    ensures { result.now ≡ rule_sentence rule }
{
    match rule {
        Rule::Alarm(class) => sentence(class),
        Rule::Wait => "tasks may come to wait for each other for ever, one of them at this lock",
        Rule::Dead => "no run reaches this",
        Rule::Assumption(kind) => kind_sentence(kind),
    }
}

/// What helps against what a rule finds.
pub fn rule_help(rule: Rule) -> &'static str
    ensures { result.now ≡ rule_help rule }
{
    match rule {
        Rule::Alarm(class) => help(class),
        Rule::Wait => "Let all tasks lock the mutexes in one order, or one mutex around them.",
        Rule::Dead =>
            "Remove what cannot run, or mend the condition or the error before it that keeps each run out.",
        Rule::Assumption(kind) => kind_help(kind),
    }
}

/// The level of what a rule finds: whether it is to be mended, or only to be known. What a human is to look at, as an
/// assumption, has none.
pub fn level(rule: Rule) -> &'static str
    ensures { result.now ≡ level_text rule }
{
    match rule {
        Rule::Alarm(_) => "warning",
        Rule::Wait => "warning",
        Rule::Dead => "note",
        Rule::Assumption(_) => "none",
    }
}
