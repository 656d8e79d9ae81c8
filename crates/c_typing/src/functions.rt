//! Functions (C99 6.7.5.3, 6.9.1): their parameters and their outermost block are one scope.
ghost use Rattle.std.specs.Prelude.{◌≡◌, IfOk, OnOk, None, [], ◌∷◌, ◌++◌, get_or, length, map, slice_set, Some, Option};
ghost use Rattle.tm_trees.specs.FileTrees.{function_tree, block_tree, body_tree};
ghost use Rattle.tm_typed.specs.Scopes.{Scope as PlainScope};
ghost use Rattle.tm_typed.specs.States.{in_scope};
ghost use Rattle.tm_typed.specs.TypedFiles.{typed_body_tree, typed_function_tree};
ghost use Rattle.tm_typed.specs.Refusals.{Gives};
ghost use Rattle.tm_typed.specs.Functions.{with_function, number_of};
ghost use Rattle.tm_typed.specs.Files.{no_typed_function, declared_function, defined_function, with_body, headed};
ghost use Rattle.tm_typed.specs.Files.{function_in};
ghost use Rattle.c_typing.specs.Views.{found_of, head_of_code, body_of};
ghost use Rattle.c_typing.specs.reading.FunctionParts.{function_by, function_said};

use crate::bodies::{FoundBody, body_in};
use crate::found::{Found, number, push};
use crate::heads::{Head, function_rules, head_of};
use crate::parameters::parameters_in;
use c_specifiers::{declared_pointers, specified};
use c_type_names::base;
use c_typing_state::State;
use std::alloc::Global;
use tm_lattice::NoMemory;
use tm_terms::{Fail, Place, Storage};
use tm_trees::{Block, Function};
use tm_typed::{Binding, FunctionEntry, Named, Said, Shape, TypedBody, TypedFunction};

// The function is in the scope from now on: the first time it gets the next number.
fn add_to_scope(
    alloc: Global,
    state: &mut State,
    head: &Head,
    already: Option<Named>,
) -> Result<u32, NoMemory>
    ensures state { OnOk result (state.new ≡ in_scope state.old
        (with_function state.old.scope (head_of_code head.now) already)) }
    ensures number { IfOk result (λ k. k ≡ number_of state.old.scope already) }
{
    if let Some(Named::Function(number)) = already {
        if head.is_definition {
            state.define_function(number);
        }
        return Ok(number);
    }
    let number = number(state.functions_len())?;
    let parameters = head.parameters.to_vec(alloc)?;
    state.add_function(FunctionEntry {
        result: head.result,
        parameters,
        defined: head.is_definition,
    })?;
    state.add_name(head.name, Named::Function(number))?;
    Ok(number)
}

// A function that is declared for the first time has no body and no calls so far.
fn add_function(alloc: Global, found: &mut Found, head: &Head) -> Result<(), NoMemory>
    ensures { OnOk result (found_of found.new ≡ declared_function (found_of found.old) found.old.state
        (head_of_code head.now) None) }
{
    let parameters = head.parameters.to_vec(alloc)?;
    push(
        &mut found.functions,
        TypedFunction {
            name: head.name,
            place: head.place,
            result: head.result,
            parameters,
            body: None,
        },
    )?;
    push(&mut found.calls, Vec::new(alloc))
}

// A function is declared.
fn declare(
    alloc: Global,
    found: &mut Found,
    head: &Head,
    already: Option<Named>,
) -> Result<u32, NoMemory>
    ensures found { OnOk result (found_of found.new ≡ declared_function (found_of found.old)
        (in_scope found.old.state (with_function found.old.state.scope (head_of_code head.now) already))
        (head_of_code head.now) already) }
    ensures number { IfOk result (λ k. k ≡ number_of found.old.state.scope already) }
{
    let number = add_to_scope(alloc, &mut found.state, head, already)?;
    match already {
        Some(Named::Function(_)) => {}
        _ => add_function(alloc, found, head)?,
    }
    Ok(number)
}

// The function at this index has this place and body.
fn set_body(functions: &mut [TypedFunction], index: usize, place: Place, body: TypedBody)
    ensures { let fs = map typed_function_tree functions.old in map typed_function_tree functions.new
        ≡ slice_set fs index (record (get_or fs index no_typed_function)
        { place = place; body = Some (typed_body_tree body) }) }
{
    if index < functions.len() {
        let function = &mut functions[index];
        function.place = place;
        function.body = Some(body);
    }
}

// The function at this index has these calls.
fn set_calls(calls: &mut [Vec<u32>], index: usize, called: Vec<u32>)
    ensures { map (λ v. v.items) calls.new ≡ slice_set (map (λ v. v.items) calls.old) index called.items }
{
    if index < calls.len() {
        calls[index] = called;
    }
}

// The body of a function, whose name stands at this place.
fn define(found: &mut Found, number: u32, place: Place, body: FoundBody) -> Result<(), NoMemory>
    ensures { OnOk result (found_of found.new ≡ defined_function (found_of found.old) number place
        (body_of found.old.state body) found.old.state) }
{
    let FoundBody { body, calls } = body;
    push(&mut found.definitions, number)?;
    set_body(&mut found.functions, number as usize, place, body);
    set_calls(&mut found.calls, number as usize, calls);
    Ok(())
}

// The body of a function behind its head, whose parameters have these names.
#[tactic(auto, using(c_typing_state::proofs::Frames::passes, c_typing_state::proofs::Frames::goes_on))]
fn body_behind(
    alloc: Global,
    found: &mut Found,
    names: &[Binding],
    number: u32,
    head: &Head,
    block: &Block,
) -> Result<(), Fail>
    ensures { Gives (λ u. found_of found.new) result (with_body (found_of found.old) names.now number
        (head_of_code head.now) (Some (block_tree block.now))) }
{
    found.state.enter_names_with(names)?;
    let body = body_in(alloc, &mut found.state, head.result, block)?;
    found.state.leave_to_file();
    define(found, number, head.place, body)?;
    Ok(())
}

// The function behind its head: the block of a declaration ends, and the body of a definition follows in it.
fn with_body(
    alloc: Global,
    found: &mut Found,
    names: &[Binding],
    number: u32,
    head: &Head,
    body: &Option<Block>,
) -> Result<(), Fail>
    ensures { Gives (λ u. found_of found.new) result (with_body (found_of found.old) names.now number
        (head_of_code head.now) (body_tree body.now)) }
{
    match body {
        None => {
            found.state.leave_tags();
            let _locals = found.state.begin_body(alloc);
            Ok(())
        }
        Some(block) => body_behind(alloc, found, names, number, head, block),
    }
}

// The head of a function is declared at file scope, outside its parameters.
#[tactic(auto, using(c_typing_state::proofs::Frames::passes, c_typing_state::proofs::Frames::goes_on))]
fn headed(
    alloc: Global,
    found: &mut Found,
    names: &[Binding],
    head: &Head,
    body: &Option<Block>,
) -> Result<(), Fail>
    ensures { Gives (λ u. found_of found.new) result (headed (found_of found.old) names.now (head_of_code head.now)
        (body_tree body.now)) }
{
    let already = found.state.scope().named_here(head.name);
    let number = declare(alloc, found, head, already)?;
    with_body(alloc, found, names, number, head, body)
}

// A function whose result has this shape.
#[tactic(auto, using(c_typing_state::proofs::Frames::passes, c_typing_state::proofs::Frames::goes_on))]
fn function_by(
    alloc: Global,
    found: &mut Found,
    storage: Option<Storage>,
    shape: Shape,
    function: &Function,
) -> Result<(), Fail>
    ensures { Gives (λ u. found_of found.new) result (function_by (found_of found.old) storage shape
        (function_tree function.now)) }
{
    let _locals = found.state.begin_body(alloc);
    found.state.enter();
    parameters_in(alloc, &mut found.state, &function.parameters)?;
    let head = head_of(alloc, function, shape, found.state.locals())?;
    let names = found.state.names_here(alloc)?;
    found.state.leave_names();
    function_rules(&found.state, &head, storage, shape)?;
    headed(alloc, found, &names, &head, &function.body)
}

// A function behind its specifiers.
fn function_said(
    alloc: Global,
    found: &mut Found,
    said: Said,
    function: &Function,
) -> Result<(), Fail>
    ensures { Gives (λ u. found_of found.new) result (function_said (found_of found.old) said
        (function_tree function.now)) }
{
    let shape = declared_pointers(&mut found.state, base(said), &function.pointers)?;
    function_by(alloc, found, said.storage, shape, function)
}

/// A function.
#[tactic(auto, using(c_typing_state::proofs::Frames::passes, c_typing_state::proofs::Frames::goes_on))]
pub(crate) fn function_in(alloc: Global, found: &mut Found, function: &Function) -> Result<(), Fail>
    ensures { Gives (λ u. found_of found.new) result (function_in (found_of found.old) (function_tree function.now)) }
{
    let said = specified(alloc, &mut found.state, &function.specifiers)?;
    function_said(alloc, found, said, function)
}
