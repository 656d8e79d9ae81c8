//! The rules of statements, over parts that are typed.
ghost use Rattle.std.specs.Prelude.{◌≡◌, IfOk};
ghost use Rattle.tm_cint.specs.Conversions.{promoted_type};
ghost use Rattle.tm_typed.specs.TypedTrees.{boxed_tree, rated};
ghost use Rattle.tm_typed.specs.Refusals.{Gives};
ghost use Rattle.tm_typed.specs.Operands.{converted};
ghost use Rattle.tm_typed.specs.StatementRules.{in_body, looping, switching, condition_rules, selector_rules};
ghost use Rattle.tm_typed.specs.StatementRules.{break_rules, continue_rules, return_rules, return_value_rules};
ghost use Rattle.tm_typed.specs.StatementRules.{mutex_rules};
ghost use Rattle.c_statements.specs.Views.{around_of, selector_of, statement_in_box};

use crate::nodes::boxed;
use c_expr_rules::given;
use c_scope::Scope;
use c_type_names::{is_void, refusal};
use std::alloc::Global;
use tm_cint::{IntType, promote};
use tm_lattice::NoMemory;
use tm_terms::{Fail, Kind, Place};
use tm_typed::{Named, Rvalue, Sort, TypedStatement, Valued, is_same_int};

/// Where a statement stands: the type of the function's result, and whether a loop or a `switch` is around it.
#[derive(Clone, Copy)]
pub(crate) struct Around {
    pub(crate) result: u32,
    pub(crate) in_loop: bool,
    pub(crate) in_switch: bool,
}

/// In the outermost block of a function with a result of this type.
pub(crate) fn in_body(number: u32) -> Around
    ensures { around_of result ≡ in_body number }
{
    Around {
        result: number,
        in_loop: false,
        in_switch: false,
    }
}

/// In a loop.
pub(crate) fn looping(around: Around) -> Around
    ensures { around_of result ≡ looping (around_of around) }
{
    Around {
        in_loop: true,
        ..around
    }
}

/// In a `switch`.
pub(crate) fn switching(around: Around) -> Around
    ensures { around_of result ≡ switching (around_of around) }
{
    Around {
        in_switch: true,
        ..around
    }
}

/// A condition: an integer or a pointer.
pub(crate) fn condition(place: Place, valued: Valued) -> Result<Box<Rvalue>, Fail>
    ensures { Gives boxed_tree result (condition_rules place (rated valued)) }
{
    if valued.sort.is_condition() {
        Ok(valued.value)
    } else {
        Err(refusal(Kind::Mismatch, place))
    }
}

/// The type in which a `switch` compares, and its value in that type.
#[derive(Drop)]
pub(crate) struct Selector {
    pub(crate) works_in: IntType,
    pub(crate) value: Box<Rvalue>,
}

// An integer as one of another type; of the same type it stays as it is.
fn converted(
    alloc: Global,
    from: IntType,
    to: IntType,
    valued: Valued,
) -> Result<Box<Rvalue>, NoMemory>
    ensures { IfOk result (λ b. boxed_tree b ≡ converted from to (rated valued)) }
{
    if is_same_int(from, to) {
        return Ok(valued.value);
    }
    let Valued {
        value,
        sort: _sort,
        place,
    } = valued;
    Ok(Box::new(
        alloc,
        Rvalue::Convert {
            from,
            to,
            value,
            place,
        },
    )?)
}

// An integer expression of a `switch`, promoted.
fn promoted(alloc: Global, of: IntType, valued: Valued) -> Result<Selector, NoMemory>
    ensures works_in { IfOk result (λ s. s.works_in ≡ promoted_type of) }
    ensures value { IfOk result (λ s. boxed_tree s.value ≡ converted of (promoted_type of) (rated valued)) }
{
    let works_in = promote(of);
    let value = converted(alloc, of, works_in, valued)?;
    Ok(Selector { works_in, value })
}

/// The expression of a `switch`: an integer, which is promoted.
pub(crate) fn selector_by(alloc: Global, place: Place, valued: Valued) -> Result<Selector, Fail>
    ensures { Gives selector_of result (selector_rules place (rated valued) valued.sort) }
{
    match valued.sort {
        Sort::Integer(of, _) => {
            let selector = promoted(alloc, of, valued)?;
            Ok(selector)
        }
        Sort::Pointer(_) | Sort::Null | Sort::Structure(_) | Sort::Nothing => {
            Err(refusal(Kind::Mismatch, place))
        }
    }
}

/// `break` stands in a loop or in a `switch`.
pub(crate) fn break_out(
    alloc: Global,
    around: Around,
    place: Place,
) -> Result<Box<TypedStatement>, Fail>
    ensures { Gives statement_in_box result (break_rules (around_of around) place) }
{
    if !around.in_loop && !around.in_switch {
        return Err(refusal(Kind::Mismatch, place));
    }
    Ok(boxed(alloc, TypedStatement::Break)?)
}

/// `continue` stands in a loop.
pub(crate) fn continue_on(
    alloc: Global,
    around: Around,
    place: Place,
) -> Result<Box<TypedStatement>, Fail>
    ensures { Gives statement_in_box result (continue_rules (around_of around) place) }
{
    if !around.in_loop {
        return Err(refusal(Kind::Mismatch, place));
    }
    Ok(boxed(alloc, TypedStatement::Continue)?)
}

/// `return;` stands where the function has no result.
pub(crate) fn return_nothing(
    alloc: Global,
    scope: &Scope,
    number: u32,
    place: Place,
) -> Result<Box<TypedStatement>, Fail>
    ensures { Gives statement_in_box result (return_rules scope.now number place) }
{
    if !is_void(scope.ctype(number)) {
        return Err(refusal(Kind::Mismatch, place));
    }
    Ok(boxed(alloc, TypedStatement::Return(None))?)
}

/// `return e;` stands where the function has a result of a type that takes the value; a structure is left out.
pub(crate) fn return_value(
    alloc: Global,
    scope: &Scope,
    number: u32,
    place: Place,
    valued: Valued,
) -> Result<Box<TypedStatement>, Fail>
    ensures { Gives statement_in_box result (return_value_rules scope.now number place (rated valued)) }
{
    if valued.sort.is_structure() {
        return Err(refusal(Kind::Unsupported, place));
    }
    match given(alloc, scope, valued, number)? {
        Some(value) => Ok(boxed(alloc, TypedStatement::Return(Some(value)))?),
        None => Err(refusal(Kind::Mismatch, place)),
    }
}

/// The number of the mutex that `__lock` or `__unlock` names.
pub(crate) fn mutex(place: Place, named: Option<Named>) -> Result<u32, Fail>
    ensures { Gives (λ m. m) result (mutex_rules place named) }
{
    match named {
        None => Err(refusal(Kind::Undeclared, place)),
        Some(Named::Mutex(mutex)) => Ok(mutex),
        Some(_) => Err(refusal(Kind::Mismatch, place)),
    }
}
