//! The body of a function: its statements, the value that it gives where they end without `return`, and its end.
ghost use Rattle.std.specs.Prelude.{◌≡◌, OnOk, IfOk, option_map, map};
ghost use Rattle.tm_cint.specs.IntTypes.{lo_of, hi_of};
ghost use Rattle.flow_graph.specs.declared.operations.Operation.TheVariants as Op;
ghost use Rattle.body_builder.specs.concrete_steps.Places.{result_type};
ghost use Rattle.body_builder.specs.concrete_steps.NextAction.{function_at};
ghost use Rattle.tm_typed.specs.TypedStatements.{as_typed_trees};
ghost use Rattle.body_builder.specs.lowering.Built.{nothing_piece, fallen_piece, result_of, result_at, is_return};
ghost use Rattle.body_builder.specs.lowering.Built.{nodes_by};
ghost use Rattle.body_builder.specs.lowering.Built.{function_piece};
ghost use Rattle.body_builder.specs.Fragments.{tree_in, so_far, calls_on, IsPart};
ghost use Rattle.statement_builder.specs.Waiting.{waiting};
ghost use Rattle.graph_builder.specs.Ends.{closing};
ghost use Rattle.graph_builder.specs.reading.Bodies.{result_placed, ended};

use crate::ends::End;
use body_builder::{Fragment, Here, function_on, is_value_type, more, result_type};
use concrete_values::{Pointer, Value};
use flow_graph::Operation;
use statement_builder::{Passed, Pending, Way, build_statements, meet_all};
use std::alloc::Global;
use tm_cint::IntType;
use tm_laid::Laid;
use tm_lattice::NoMemory;
use tm_typed::{CType, TypedStatement};

/// Where there is no body, the value is the invalid pointer.
#[tactic(auto, unfolding(body_builder::specs::Placing::new_value))]
pub(crate) fn build_nothing(here: &Here<'_>, to: &mut Fragment) -> Result<Option<u32>, NoMemory>
    ensures { IfOk result (λ t. IsPart (nothing_piece (so_far (tree_in here.now.laid.now) to.old))
        (so_far (tree_in here.now.laid.now) to.new) t) }
{
    let op = Operation::Const {
        to: here.temps(to),
        value: Value::Pointer(Pointer::Invalid),
    };
    let temp = here.new_value(to, op)?;
    Ok(Some(temp))
}

// The temporary of the value of the call in which control is.
fn result_of(here: &Here<'_>, to: &Fragment, known: Option<u32>) -> u32
    ensures { result ≡ result_of known (so_far (tree_in here.now.laid.now) to.now) }
{
    match known {
        Some(temp) => temp,
        None => here.temps(to),
    }
}

// That temporary, if the function gives a value.
fn result_at(here: &Here<'_>, to: &Fragment, valued: bool, known: Option<u32>) -> Option<u32>
    ensures { result ≡ result_at valued known (so_far (tree_in here.now.laid.now) to.now) }
{
    if valued {
        Some(result_of(here, to, known))
    } else {
        None
    }
}

// An operation that gives the value of the call.
#[tactic(auto, unfolding(crate::specs::reading::Bodies::result_placed))]
fn place_result(
    here: &Here<'_>,
    to: &mut Fragment,
    known: Option<u32>,
    op: Operation,
) -> Result<(), NoMemory>
    ensures { OnOk result (so_far (tree_in here.now.laid.now) to.new ≡ result_placed known op
        (so_far (tree_in here.now.laid.now) to.old)) }
{
    match known {
        Some(_) => here.place(to, op),
        None => {
            let temps = more(here.temps(to), 1)?;
            here.place_with(to, temps, op)
        }
    }
}

// Any value of an integer type.
fn any_of(temp: u32, of: IntType) -> Operation
    ensures { result ≡ Op.Any temp (lo_of of) (hi_of of) }
{
    Operation::Any {
        to: temp,
        low: of.lo(),
        high: of.hi(),
    }
}

// A function that ends without `return` gives any value of its type, or the invalid pointer.
#[tactic(auto, using(crate::proofs::BodyPieces::pointer_placed))]
fn fall(
    here: &Here<'_>,
    to: &mut Fragment,
    ctype: CType,
    known: Option<u32>,
) -> Result<(), NoMemory>
    ensures { OnOk result (so_far (tree_in here.now.laid.now) to.new ≡ fallen_piece ctype known
        (so_far (tree_in here.now.laid.now) to.old)) }
{
    let temp = result_of(here, to, known);
    match ctype {
        CType::Int(of) => {
            let op = any_of(temp, of);
            place_result(here, to, known, op)
        }
        CType::Pointer(_) => {
            let op = Operation::Const {
                to: temp,
                value: Value::Pointer(Pointer::Invalid),
            };
            place_result(here, to, known, op)
        }
        CType::Void | CType::Array { .. } | CType::Struct(_) => Ok(()),
    }
}

// The nodes from which control returns.
#[tactic(auto, using(crate::proofs::BodyPieces::none_left))]
fn returning(alloc: Global, pending: &[Pending]) -> Result<Vec<u32>, NoMemory>
    ensures { IfOk result (λ nodes. nodes.items ≡ nodes_by is_return (map waiting pending.now)) }
{
    let mut nodes = Vec::new(alloc);
    for one in pending {
        match one.way {
            Way::Return => nodes.push(one.node)?,
            Way::Break | Way::Continue => {}
        }
    }
    Ok(nodes)
}

// The end of a body, from which control returns at these nodes.
fn close(here: &Here<'_>, to: &mut Fragment, end: End, mut from: Vec<u32>) -> Result<(), NoMemory>
    ensures { OnOk result (so_far (tree_in here.now.laid.now) to.new ≡ closing end from.items
        (so_far (tree_in here.now.laid.now) to.old)) }
{
    match end {
        End::Task if from.is_empty() => Ok(()),
        End::Task | End::Function => {
            from.push(here.node(to))?;
            meet_all(here, to, &from)
        }
    }
}

// What stands behind the statements of a function.
#[tactic(auto, unfolding(crate::specs::reading::Bodies::ended))]
fn finish(
    here: &Here<'_>,
    to: &mut Fragment,
    end: End,
    passed: &Passed,
) -> Result<Option<u32>, NoMemory>
    ensures { IfOk result (λ t. IsPart (ended (closing end)
        (result_type (tree_in here.now.laid.now) (function_at (tree_in here.now.laid.now) here.now.path))
        (nodes_by is_return (map waiting passed.now.pending.items)) passed.now.result
        (so_far (tree_in here.now.laid.now) to.old)) (so_far (tree_in here.now.laid.now) to.new) t) }
{
    let ctype = result_type(here.laid, here.path);
    let temp = result_at(here, to, is_value_type(ctype), passed.result);
    let from = returning(here.alloc, &passed.pending)?;
    fall(here, to, ctype, passed.result)?;
    close(here, to, end, from)?;
    Ok(temp)
}

// The statements of the function of a path, if it has a body.
#[tactic(auto, using(body_builder::proofs::FileTables::reads), unfolding(body_builder::specs::Fragments::tree_in))]
fn statements_on(laid: &Laid, path: u32) -> Option<&[TypedStatement]>
    ensures { option_map (λ ss. as_typed_trees ss.now) result ≡ option_map (λ b. b.statements)
        (function_at (tree_in laid.now) path).body }
{
    match laid.file.functions.get(function_on(laid, path) as usize) {
        Some(function) => match &function.body {
            Some(body) => Some(&body.statements),
            None => None,
        },
        None => None,
    }
}

/// The body of the function of a path.
#[tactic(auto, using(crate::proofs::BodyPieces::by_statements), unfolding(crate::specs::reading::Bodies::body_piece))]
pub(crate) fn build_body(
    here: &Here<'_>,
    to: &mut Fragment,
    end: End,
) -> Result<Option<u32>, NoMemory>
    ensures { IfOk result (λ t. IsPart (function_piece
        (calls_on (tree_in here.now.laid.now) here.now.depth here.now.path) (tree_in here.now.laid.now) here.now.path
        (closing end) (result_type (tree_in here.now.laid.now) (function_at (tree_in here.now.laid.now) here.now.path))
        (function_at (tree_in here.now.laid.now) here.now.path).body (so_far (tree_in here.now.laid.now) to.old))
        (so_far (tree_in here.now.laid.now) to.new) t) }
{
    match statements_on(here.laid, here.path) {
        Some(statements) => {
            let passed = build_statements(here, to, statements)?;
            finish(here, to, end, &passed)
        }
        None => build_nothing(here, to),
    }
}
