//! Declarations of local objects.
ghost use Rattle.std.specs.Prelude.{◌≡◌, ℕ, IfOk, OnOk, map, []};
ghost use Rattle.tm_typed.specs.TypedStatements.{given_tree, local_tree, local_initialiser_tree};
ghost use Rattle.tm_laid.specs.Layouts.{object_at};
ghost use Rattle.body_builder.specs.concrete_steps.NextAction.{is_given, rest_of, scalar_at};
ghost use Rattle.body_builder.specs.lowering.Table.{is_scalar_object, is_alone, locals_steps};
ghost use Rattle.body_builder.specs.lowering.Built.{steps_piece};
ghost use Rattle.body_builder.specs.Fragments.{tree_in, so_far, calls_on};
ghost use Rattle.body_builder.specs.Placing.{Gives};
ghost use Rattle.statement_builder.specs.reading.Locals.{nothing_in, value_in, part_in, cell_in, cells_in};
ghost use Rattle.statement_builder.specs.reading.Locals.{initialised_in, local_in};

use body_builder::{
    Fragment, Here, build_operand, is_given, is_value_type, object_of, rest_of, scalar_at, temp_of,
    type_at,
};
use concrete_values::{Pointer, Value};
use flow_graph::{Into, Operation};
use tm_laid::Laid;
use tm_lattice::NoMemory;
use tm_terms::Place;
use tm_typed::{GivenCell, LocalInitialiser, LocalObject, ObjectNumber, Scalar};

// How many cells an object has.
#[tactic(auto, unfolding(body_builder::specs::Fragments::tree_in))]
fn cells_of(laid: &Laid, object: u32) -> u32
    ensures { result ≡ (object_at (tree_in laid.now) object).cells }
{
    match laid.objects.get(object as usize) {
        Some(found) => found.cells,
        None => 0,
    }
}

// The number of the type of an object.
#[tactic(auto, unfolding(body_builder::specs::Fragments::tree_in))]
fn type_of(laid: &Laid, object: u32) -> u32
    ensures { result ≡ (object_at (tree_in laid.now) object).of.number }
{
    match laid.objects.get(object as usize) {
        Some(found) => found.of.number,
        None => 0,
    }
}

// Whether an object is a scalar.
fn is_scalar_object(laid: &Laid, object: u32) -> bool
    ensures { (path : ℕ) → result ≡ is_scalar_object (tree_in laid.now) path object }
{
    is_value_type(type_at(laid, type_of(laid, object)))
}

// Whether a cell is the first one of a scalar object.
fn is_alone(laid: &Laid, object: u32, cell: u32) -> bool
    ensures { (path : ℕ) → result ≡ is_alone (tree_in laid.now) path object cell }
{
    cell == 0 && is_scalar_object(laid, object)
}

// What a cell holds that no initialiser gives: zero or null.
#[tactic(auto, unfolding(body_builder::specs::Placing::new_value))]
fn build_nothing(here: &Here<'_>, to: &mut Fragment, scalar: Scalar) -> Result<u32, NoMemory>
    ensures { IfOk result (λ t. Gives (nothing_in scalar (so_far (tree_in here.now.laid.now) to.old))
        (so_far (tree_in here.now.laid.now) to.new) t) }
{
    let value = match scalar {
        Scalar::Int(_) => Value::Number(0),
        Scalar::Pointer(_) => Value::Pointer(Pointer::Null),
    };
    let op = Operation::Const {
        to: here.temps(to),
        value,
    };
    here.new_value(to, op)
}

// The value of a cell, which is zero or null unless it is given.
fn build_cell_value(
    here: &Here<'_>,
    to: &mut Fragment,
    scalar: Scalar,
    is_given: bool,
    given: &[GivenCell],
) -> Result<u32, NoMemory>
    ensures { IfOk result (λ t. Gives (value_in (tree_in here.now.laid.now) here.now.depth here.now.path scalar
        is_given (map given_tree given.now) (so_far (tree_in here.now.laid.now) to.old))
        (so_far (tree_in here.now.laid.now) to.new) t) }
{
    match given {
        [first, ..] if is_given => Ok(temp_of(build_operand(here, to, &first.value)?)),
        _ => build_nothing(here, to, scalar),
    }
}

// The address of a cell, of which this is the one of its object.
fn build_part(
    here: &Here<'_>,
    to: &mut Fragment,
    alone: bool,
    cell: u32,
    address: u32,
) -> Result<u32, NoMemory>
    ensures { IfOk result (λ t. Gives (part_in alone cell address (so_far (tree_in here.now.laid.now) to.old))
        (so_far (tree_in here.now.laid.now) to.new) t) }
{
    if alone {
        return Ok(address);
    }
    let op = Operation::Offset {
        to: here.temps(to),
        from: address,
        cells: cell,
    };
    here.new_value(to, op)
}

// A cell of an object that is stored: its number there, whether it is the only one, its type, and the place of the `=`.
#[derive(Clone, Copy)]
struct StoredCell {
    object: u32,
    number: u32,
    alone: bool,
    scalar: Scalar,
    place: Place,
}

// One cell is stored.
#[tactic(auto, unfolding(crate::specs::reading::Locals::cell_in))]
fn build_cell(
    here: &Here<'_>,
    to: &mut Fragment,
    cell: StoredCell,
    is_given: bool,
    given: &[GivenCell],
) -> Result<(), NoMemory>
    ensures { OnOk result (so_far (tree_in here.now.laid.now) to.new ≡ cell_in (tree_in here.now.laid.now)
        here.now.depth here.now.path cell.alone cell.object cell.place cell.number cell.scalar is_given
        (map given_tree given.now) (so_far (tree_in here.now.laid.now) to.old)) }
{
    let base = here.base(to, cell.object)?;
    let address = build_part(here, to, cell.alone, cell.number, base)?;
    let value = build_cell_value(here, to, cell.scalar, is_given, given)?;
    here.place(
        to,
        Operation::Store {
            address,
            value,
            scalar: cell.scalar,
            into: Into::Object(cell.object),
            place: cell.place,
        },
    )
}

// The cells of an object are stored, in order; those that its initialiser gives stand in rising order.
fn build_cells(
    here: &Here<'_>,
    to: &mut Fragment,
    object: u32,
    place: Place,
    given: &[GivenCell],
) -> Result<(), NoMemory>
    ensures { OnOk result (so_far (tree_in here.now.laid.now) to.new ≡ cells_in (tree_in here.now.laid.now)
        here.now.depth here.now.path object place (object_at (tree_in here.now.laid.now) object).cells 0
        (map given_tree given.now) (so_far (tree_in here.now.laid.now) to.old)) }
{
    let mut rest = given;
    for number in 0..cells_of(here.laid, object) {
        let found = is_given(number, rest);
        let cell = StoredCell {
            object,
            number,
            alone: is_alone(here.laid, object, number),
            scalar: scalar_at(here.laid, object, number)?,
            place,
        };
        build_cell(here, to, cell, found, rest)?;
        rest = rest_of(found, rest);
    }
    Ok(())
}

// An object is initialised.
fn build_initialiser(
    here: &Here<'_>,
    to: &mut Fragment,
    object: u32,
    initialiser: &Option<LocalInitialiser>,
) -> Result<(), NoMemory>
    ensures { OnOk result (so_far (tree_in here.now.laid.now) to.new ≡ initialised_in (tree_in here.now.laid.now)
        here.now.depth here.now.path object (local_initialiser_tree initialiser.now)
        (so_far (tree_in here.now.laid.now) to.old)) }
{
    match initialiser {
        Some(initialiser) => {
            build_cells(here, to, object, initialiser.place, &initialiser.given)
        }
        None => Ok(()),
    }
}

// A local object is cleared and initialised.
#[tactic(auto, unfolding(crate::specs::reading::Locals::local_in))]
fn build_local(here: &Here<'_>, to: &mut Fragment, local: &LocalObject) -> Result<(), NoMemory>
    ensures { OnOk result (so_far (tree_in here.now.laid.now) to.new ≡ local_in (tree_in here.now.laid.now)
        here.now.depth here.now.path (local_tree local.now) (so_far (tree_in here.now.laid.now) to.old)) }
{
    let object = object_of(here.laid, here.path, ObjectNumber::Local(local.object))?;
    here.place(to, Operation::Clear { object })?;
    build_initialiser(here, to, object, &local.initialiser)
}

/// The declarations of local objects: each is cleared, and stored cell by cell where it has an initialiser.
pub(crate) fn build_locals(
    here: &Here<'_>,
    to: &mut Fragment,
    locals: &[LocalObject],
) -> Result<(), NoMemory>
    ensures { OnOk result (so_far (tree_in here.now.laid.now) to.new ≡ (steps_piece
        (calls_on (tree_in here.now.laid.now) here.now.depth here.now.path)
        (locals_steps (tree_in here.now.laid.now) here.now.path (map local_tree locals.now)) []
        (so_far (tree_in here.now.laid.now) to.old)).at) }
{
    for local in locals {
        build_local(here, to, local)?;
    }
    Ok(())
}
