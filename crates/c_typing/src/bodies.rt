//! The bodies of functions and tasks.
ghost use Rattle.std.specs.Prelude.{◌≡◌, IfOk, OnOk, drop, [], ◌++◌};
ghost use Rattle.std.specs.List.{filter_map, cons_option};
ghost use Rattle.tm_trees.specs.FileTrees.{block_tree};
ghost use Rattle.tm_typed.specs.Refusals.{Gives};
ghost use Rattle.tm_typed.specs.Functions.{called_function, body_in};
ghost use Rattle.c_typing.specs.Views.{body_of};

use crate::found::{number, push};
use c_statements::body_parts;
use c_typing_state::State;
use std::alloc::Global;
use tm_lattice::NoMemory;
use tm_terms::Fail;
use tm_trees::Block;
use tm_typed::{TypedBody, Use, Used};

/// A body with the functions that it calls, in the order of the text.
#[derive(Drop)]
pub(crate) struct FoundBody {
    pub(crate) body: TypedBody,
    pub(crate) calls: Vec<u32>,
}

// The uses behind the first n.
fn since(uses: &[Use], n: usize) -> &[Use]
    ensures { result.now ≡ drop n uses.now }
{
    if n < uses.len() { &uses[n..] } else { &[] }
}

// The function that a use calls, behind others.
fn push_called(calls: &mut Vec<u32>, one: Use) -> Result<(), NoMemory>
    ensures { OnOk result (calls.new.items ≡ calls.old.items ++ cons_option (called_function one) []) }
{
    match one.used {
        Used::Function(function) => push(calls, function),
        Used::Static(_) => Ok(()),
    }
}

// The functions that some uses call.
fn called(alloc: Global, uses: &[Use]) -> Result<Vec<u32>, NoMemory>
    ensures { IfOk result (λ v. v.items ≡ filter_map called_function uses.now) }
{
    let mut calls = Vec::new(alloc);
    'uses: for one in uses {
        push_called(&mut calls, *one)?;
    }
    Ok(calls)
}

/// A body in a state in which its parameters are declared, of a function with a result of this type.
#[tactic(auto, using(c_typing_state::proofs::Frames::passes, c_typing_state::proofs::Frames::goes_on))]
pub(crate) fn body_in(
    alloc: Global,
    state: &mut State,
    of: u32,
    block: &Block,
) -> Result<FoundBody, Fail>
    ensures { Gives (λ b. body_of state.new b) result (body_in state.old of (block_tree block.now)) }
{
    let parameters = number(state.locals_len())?;
    let before = state.uses().len();
    let statements = body_parts(alloc, state, of, block)?;
    let calls = called(alloc, since(state.uses(), before))?;
    let locals = state.begin_body(alloc);
    Ok(FoundBody {
        body: TypedBody {
            locals,
            parameters,
            statements,
        },
        calls,
    })
}
