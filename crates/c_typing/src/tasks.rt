//! Tasks and mutexes.
ghost use Rattle.std.specs.Prelude.{◌≡◌, OnOk};
ghost use Rattle.tm_terms.specs.ExprTrees.{tree_of};
ghost use Rattle.tm_trees.specs.FileTrees.{block_tree};
ghost use Rattle.tm_typed.specs.States.{in_scope};
ghost use Rattle.tm_typed.specs.Refusals.{Gives};
ghost use Rattle.tm_typed.specs.Files.{priority_of, task_scope, with_task, named_task_in, task_in, mutex_in};
ghost use Rattle.c_typing.specs.Views.{found_of, body_of};

use crate::bodies::{FoundBody, body_in};
use crate::found::{Found, number, push};
use c_type_names::refusal;
use c_typing_state::{State, folded_value, is_declared_here};
use std::alloc::Global;
use tm_lattice::NoMemory;
use tm_terms::{Expr, Fail, Kind, Name, Place};
use tm_trees::Block;
use tm_typed::{FunctionEntry, MutexEntry, Named, TypedFunction, TypedTask};

/// The number of `void`, which is the result of a task.
const VOID: u32 = 0;

// A priority is 0 to 255.
fn priority_of(value: Option<i128>) -> Option<u8>
    ensures { result ≡ priority_of value }
{
    match value {
        None => None,
        Some(value) => match u8::try_from(value) {
            Ok(priority) => Some(priority),
            Err(_) => None,
        },
    }
}

// A task is a function without parameters and result, which is not called.
fn add_task_name(alloc: Global, state: &mut State, name: Name) -> Result<(), NoMemory>
    ensures { OnOk result (state.new ≡ in_scope state.old (task_scope state.old.scope name)) }
{
    state.add_function(FunctionEntry {
        result: VOID,
        parameters: Vec::new(alloc),
        defined: true,
    })?;
    state.add_name(name, Named::Task)
}

// A further task, with its body.
fn add_task(
    alloc: Global,
    found: &mut Found,
    priority: u8,
    name: Name,
    place: Place,
    body: FoundBody,
) -> Result<(), NoMemory>
    ensures { OnOk result (found_of found.new ≡ with_task (found_of found.old) priority name place
        (body_of found.old.state body) found.old.state) }
{
    let FoundBody { body, calls } = body;
    let function = number(found.functions.len())?;
    push(
        &mut found.functions,
        TypedFunction {
            name,
            place,
            result: VOID,
            parameters: Vec::new(alloc),
            body: Some(body),
        },
    )?;
    push(&mut found.calls, calls)?;
    push(&mut found.tasks, TypedTask { function, priority })?;
    push(&mut found.definitions, function)
}

// A task of this priority: its name is declared once, and its body follows.
#[tactic(auto, using(c_typing_state::proofs::Frames::passes, c_typing_state::proofs::Frames::goes_on))]
fn named_task_in(
    alloc: Global,
    found: &mut Found,
    priority: u8,
    name: Name,
    place: Place,
    block: &Block,
) -> Result<(), Fail>
    ensures { Gives (λ u. found_of found.new) result (named_task_in (found_of found.old) priority name place
        (block_tree block.now)) }
{
    if is_declared_here(&found.state, name) || found.state.linked(name).is_some() {
        return Err(refusal(Kind::Redeclared, place));
    }
    add_task_name(alloc, &mut found.state, name)?;
    let _locals = found.state.begin_body(alloc);
    found.state.enter();
    let body = body_in(alloc, &mut found.state, VOID, block)?;
    found.state.leave_to_file();
    add_task(alloc, found, priority, name, place, body)?;
    Ok(())
}

/// A task: its priority is folded and in range.
#[tactic(auto, using(c_typing_state::proofs::Frames::passes, c_typing_state::proofs::Frames::goes_on))]
pub(crate) fn task_in(
    alloc: Global,
    found: &mut Found,
    priority: &Expr,
    name: Name,
    name_place: Place,
    block: &Block,
    place: Place,
) -> Result<(), Fail>
    ensures { Gives (λ u. found_of found.new) result (task_in (found_of found.old)
        (tree_of priority.now) name name_place (block_tree block.now) place) }
{
    let operand = found.state.measured(alloc, priority)?;
    match priority_of(folded_value(&operand)) {
        None => Err(refusal(Kind::BadTask, place)),
        Some(priority) => named_task_in(alloc, found, priority, name, name_place, block),
    }
}

/// A mutex.
#[tactic(auto, using(c_typing_state::proofs::Frames::passes, c_typing_state::proofs::Frames::goes_on))]
pub(crate) fn mutex_in(found: &mut Found, name: Name, place: Place) -> Result<(), Fail>
    ensures { Gives (λ u. found_of found.new) result (mutex_in (found_of found.old) name place) }
{
    if is_declared_here(&found.state, name) {
        return Err(refusal(Kind::Redeclared, place));
    }
    let mutex = number(found.mutexes.len())?;
    found.state.add_name(name, Named::Mutex(mutex))?;
    push(&mut found.mutexes, MutexEntry { name, place })?;
    Ok(())
}
