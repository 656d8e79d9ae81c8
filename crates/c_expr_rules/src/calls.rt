//! Calls (C99 6.5.2.2).
ghost use Rattle.std.specs.Prelude.{◌≡◌, map, Some};
ghost use Rattle.tm_typed.specs.Scopes.{function_of};
ghost use Rattle.tm_typed.specs.TypedTrees.{rated, operand_tree, a_function_call, as_rvalues};
ghost use Rattle.tm_typed.specs.Refusals.{Gives, GivesOption, refused};
ghost use Rattle.tm_typed.specs.Operands.{made};
ghost use Rattle.tm_typed.specs.Rules.{callee, has_structure, all_given, function_rules, call_rules};
ghost use Rattle.c_expr_rules.specs.Pairs.{arguments_tree};

use crate::conversions::given;
use crate::forms::{made, refused};
use c_scope::Scope;
use std::alloc::Global;
use tm_lattice::NoMemory;
use tm_terms::{Fail, Kind, Place, Refusal};
use tm_typed::{FunctionEntry, Named, Operand, Rvalue, Sort, Valued};

fn not_callable(kind: Kind, place: Place) -> Result<Named, Fail>
    ensures { Gives (λ n. n) result (refused kind place) }
{
    Err(Fail::Refused(Refusal {
        kind,
        place,
        limit: None,
    }))
}

/// What may be called, before the arguments are looked at.
pub fn callee(place: Place, named: Option<Named>) -> Result<Named, Fail>
    ensures { Gives (λ n. n) result (callee place named) }
{
    match named {
        None => not_callable(Kind::Undeclared, place),
        Some(named) => match named {
            Named::Alias(_) => not_callable(Kind::Undeclared, place),
            Named::Mutex(_) => not_callable(Kind::Mismatch, place),
            Named::Object { object, of } => Ok(Named::Object { object, of }),
            Named::Function(function) => Ok(Named::Function(function)),
            Named::Task => Ok(Named::Task),
            Named::Enumerator(value) => Ok(Named::Enumerator(value)),
        },
    }
}

// Whether some argument is a structure.
fn has_structure(arguments: &[Valued]) -> bool
    ensures { result ≡ has_structure (map rated arguments.now) }
{
    for argument in arguments {
        if argument.sort.is_structure() {
            return true;
        }
    }
    false
}

// The arguments as values of the parameters' types, of which there are as many.
fn all_given(
    alloc: Global,
    scope: &Scope,
    arguments: Vec<Valued>,
    parameters: &[u32],
) -> Result<Option<Vec<Rvalue>>, NoMemory>
    ensures { GivesOption arguments_tree result (all_given scope.now (map rated arguments.items) parameters.now) }
{
    let mut all = Vec::new(alloc);
    let mut index = 0;
    'each: for argument in arguments {
        if index == parameters.len() {
            return Ok(None);
        }
        match given(alloc, scope, argument, parameters[index])? {
            Some(value) => match all.push(Box::into_inner(value)) {
                Ok(()) => index += 1,
                Err(_) => return Err(NoMemory),
            },
            None => return Ok(None),
        }
    }
    if index == parameters.len() {
        Ok(Some(all))
    } else {
        Ok(None)
    }
}

// A call as an operand.
fn call_made(
    alloc: Global,
    function: u32,
    site: u32,
    arguments: Vec<Rvalue>,
    sort: Sort,
    place: Place,
) -> Result<Operand, Fail>
    ensures { Gives operand_tree result
        (made (a_function_call function site (as_rvalues arguments.items) place) sort place) }
{
    made(
        alloc,
        Rvalue::Call {
            function,
            site,
            arguments,
            place,
        },
        sort,
        place,
    )
}

// A call of a function.
fn function_call(
    alloc: Global,
    scope: &Scope,
    place: Place,
    function: u32,
    site: u32,
    arguments: Vec<Valued>,
    entry: &FunctionEntry,
) -> Result<Operand, Fail>
    ensures { Gives operand_tree result
        (function_rules scope.now place function site (map rated arguments.items) (Some (function_of entry.now))) }
{
    if has_structure(&arguments) {
        return refused(Kind::Unsupported, place);
    }
    let sort = Sort::kept(scope.ctype(entry.result));
    match all_given(alloc, scope, arguments, &entry.parameters)? {
        Some(arguments) => call_made(alloc, function, site, arguments, sort, place),
        None => refused(Kind::Mismatch, place),
    }
}

/// A call, its arguments being typed.
pub fn call(
    alloc: Global,
    scope: &Scope,
    place: Place,
    site: u32,
    arguments: Vec<Valued>,
    named: Named,
) -> Result<Operand, Fail>
    ensures { Gives operand_tree result (call_rules scope.now place site (map rated arguments.items) named) }
{
    match named {
        Named::Function(function) => match scope.function(function) {
            None => refused(Kind::Mismatch, place),
            Some(entry) => function_call(alloc, scope, place, function, site, arguments, entry),
        },
        Named::Task => refused(Kind::BadTask, place),
        Named::Object { .. } | Named::Alias(_) | Named::Mutex(_) | Named::Enumerator(_) => {
            refused(Kind::Mismatch, place)
        }
    }
}
