//! Initialisers (C99 6.7.8): which cells of an object they give, and what they are.
ghost use Rattle.std.specs.Prelude.{◌≡◌, ◌++◌, [], ◌∷◌, map, OnOk};
ghost use Rattle.tm_terms.specs.ExprTrees.{tree_of};
ghost use Rattle.tm_trees.specs.DeclarationTrees.{a_list, value_tree, as_values};
ghost use Rattle.tm_typed.specs.TypedTrees.{boxed_tree, rated, operand_tree};
ghost use Rattle.tm_typed.specs.TypedStatements.{given_tree};
ghost use Rattle.tm_typed.specs.Operands.{valued};
ghost use Rattle.tm_typed.specs.Evaluation.{typed_in};
ghost use Rattle.tm_typed.specs.Refusals.{then_with};
ghost use Rattle.tm_typed.specs.Initialisers.{scalar_rules, lone_rules, initial, initials};
ghost use Rattle.c_typing_state.specs.Steps.{StepsTo};
ghost use Rattle.c_initialisers.specs.GivenCells.{given_trees};
ghost use Rattle.c_initialisers.specs.reading.Pushed.{Pushes};

use crate::parts::{is_aggregate, lone, part};
use crate::static_values::static_value;
use c_expr_rules::{given, valued};
use c_scope::clipped_sum;
use c_type_names::refusal;
use c_typing_state::State;
use std::alloc::Global;
use tm_lattice::NoMemory;
use tm_terms::{Expr, Fail, Kind, Place};
use tm_trees::Value;
use tm_typed::{GivenCell, Operand, Rvalue, Scalar, Valued};

// One more cell at the end.
fn push_cell(
    cells: &mut Vec<GivenCell>,
    cell: u32,
    scalar: Scalar,
    value: Box<Rvalue>,
) -> Result<(), NoMemory>
    ensures { OnOk result (map given_tree cells.new.items
        ≡ map given_tree cells.old.items ++ record { cell = cell; scalar = scalar; value = boxed_tree value } ∷ []) }
{
    match cells.push(GivenCell {
        cell,
        scalar,
        value,
    }) {
        Ok(()) => Ok(()),
        Err(_) => Err(NoMemory),
    }
}

// A scalar takes what it would be assigned; one of static storage takes constants alone.
fn push_scalar(
    alloc: Global,
    is_static: bool,
    state: &State,
    of: u32,
    cell: u32,
    valued: Valued,
    cells: &mut Vec<GivenCell>,
) -> Result<(), Fail>
    ensures { Pushes cells.old.items cells.new.items state.now result
        (scalar_rules is_static state.now of cell (rated valued)) }
{
    let place = valued.place;
    if valued.sort.is_structure() {
        return Err(refusal(Kind::Unsupported, place));
    }
    match state.scope().scalar(of) {
        None => Err(refusal(Kind::Mismatch, place)),
        Some(scalar) => match given(alloc, state.scope(), valued, of)? {
            None => Err(refusal(Kind::Mismatch, place)),
            Some(value) => {
                if is_static && static_value(state, &value).is_none() {
                    return Err(refusal(Kind::NotConstant, place));
                }
                push_cell(cells, cell, scalar, value)?;
                Ok(())
            }
        },
    }
}

// An expression that stands alone in the braces of an aggregate of aggregates: a folded 0 gives no cell.
fn push_lone(
    alloc: Global,
    is_static: bool,
    state: &State,
    of: u32,
    cell: u32,
    valued: Valued,
    cells: &mut Vec<GivenCell>,
) -> Result<(), Fail>
    ensures { Pushes cells.old.items cells.new.items state.now result
        (lone_rules is_static state.now of cell (rated valued)) }
{
    if valued.sort.is_integer() && valued.sort.is_null() {
        Ok(())
    } else {
        push_scalar(alloc, is_static, state, of, cell, valued, cells)
    }
}

// The cell that an expression gives.
fn push_expression(
    alloc: Global,
    is_static: bool,
    state: &mut State,
    of: u32,
    cell: u32,
    expr: &Expr,
    cells: &mut Vec<GivenCell>,
) -> Result<(), Fail>
    ensures { Pushes cells.old.items cells.new.items state.new result
        (then_with (typed_in state.old (tree_of expr.now)) (λ o.
        scalar_rules is_static o.1 of cell (valued o.1.scope o.0))) }
{
    match state.typed_in(alloc, expr) {
        Ok(operand) => {
            let value = valued(alloc, state.scope(), operand)?;
            push_scalar(alloc, is_static, state, of, cell, value, cells)
        }
        Err(fail) => Err(fail),
    }
}

// The cell that an expression gives that stands alone in braces.
fn push_lone_expression(
    alloc: Global,
    is_static: bool,
    state: &mut State,
    of: u32,
    cell: u32,
    expr: &Expr,
    cells: &mut Vec<GivenCell>,
) -> Result<(), Fail>
    ensures { Pushes cells.old.items cells.new.items state.new result
        (then_with (typed_in state.old (tree_of expr.now)) (λ o.
        lone_rules is_static o.1 of cell (valued o.1.scope o.0))) }
{
    match state.typed_in(alloc, expr) {
        Ok(operand) => {
            let value = valued(alloc, state.scope(), operand)?;
            push_lone(alloc, is_static, state, of, cell, value, cells)
        }
        Err(fail) => Err(fail),
    }
}

// Values in braces, for the parts of an object from the first on: no more than there are.
#[cycle(initialisers)]
fn push_values(
    alloc: Global,
    is_static: bool,
    state: &mut State,
    of: u32,
    cell: u32,
    values: &[Value],
    place: Place,
    cells: &mut Vec<GivenCell>,
) -> Result<(), Fail>
    ensures { Pushes cells.old.items cells.new.items state.new result
        (initials is_static state.old of cell 0 (as_values (map value_tree values.now)) place) }
{
    'values: for (index, value) in values.iter().enumerate() {
        match part(state.scope(), of, index) {
            Some(part) => {
                let at = clipped_sum(cell, part.cell);
                match push_value(alloc, is_static, state, part.of.number, at, value, cells) {
                    Ok(()) => {}
                    Err(fail) => return Err(fail),
                }
            }
            None => return Err(refusal(Kind::Mismatch, place)),
        }
    }
    Ok(())
}

// A braced list.
#[cycle(initialisers)]
fn push_list(
    alloc: Global,
    is_static: bool,
    state: &mut State,
    of: u32,
    cell: u32,
    values: &[Value],
    place: Place,
    cells: &mut Vec<GivenCell>,
) -> Result<(), Fail>
    ensures { Pushes cells.old.items cells.new.items state.new result
        (initial is_static state.old of cell (a_list (as_values (map value_tree values.now)) place)) }
{
    match (part(state.scope(), of, 0), lone(values)) {
        (Some(part), Some(expr)) => {
            if is_aggregate(state.scope(), part.of.number) {
                push_lone_expression(alloc, is_static, state, part.of.number, cell, expr, cells)
            } else {
                push_values(alloc, is_static, state, of, cell, values, place, cells)
            }
        }
        _ => {
            if is_aggregate(state.scope(), of) {
                push_values(alloc, is_static, state, of, cell, values, place, cells)
            } else {
                Err(refusal(Kind::Mismatch, place))
            }
        }
    }
}

// The cells from the cell `cell` on that a value gives to an object of the type `of`.
#[cycle(initialisers)]
fn push_value(
    alloc: Global,
    is_static: bool,
    state: &mut State,
    of: u32,
    cell: u32,
    value: &Value,
    cells: &mut Vec<GivenCell>,
) -> Result<(), Fail>
    ensures { Pushes cells.old.items cells.new.items state.new result
        (initial is_static state.old of cell (value_tree value.now)) }
{
    match value {
        Value::Expression(expr) => push_expression(alloc, is_static, state, of, cell, expr, cells),
        Value::List { values, place } => {
            push_list(alloc, is_static, state, of, cell, values, *place, cells)
        }
    }
}

/// The cells that a value gives to an object of the type `of`, in rising order, or the first construct that meets a
/// row of the rules. An object of static storage takes constants alone.
pub fn initial(
    alloc: Global,
    is_static: bool,
    state: &mut State,
    of: u32,
    value: &Value,
) -> Result<Vec<GivenCell>, Fail>
    ensures { StepsTo given_trees state.new result (initial is_static state.old of 0 (value_tree value.now)) }
{
    let mut cells = Vec::new(alloc);
    match push_value(alloc, is_static, state, of, 0, value, &mut cells) {
        Ok(()) => Ok(cells),
        Err(fail) => Err(fail),
    }
}
