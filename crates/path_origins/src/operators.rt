//! Operators, and what changes objects, are walked.
ghost use Rattle.std.specs.Prelude.{◌≡◌, false, true, IfOk, OnOk, is_some};
ghost use Rattle.tm_typed.specs.Rules.{is_comparison};
ghost use Rattle.tm_typed.specs.TypedTrees.{rvalue_tree};
ghost use Rattle.body_builder.specs.concrete_steps.Places.{rvalue_place};
ghost use Rattle.body_builder.specs.lowering.Table.{conversion, implied};
ghost use Rattle.path_origins.specs.Types.{either, computed};
ghost use Rattle.path_origins.specs.Noted.{one, one_if, behind};
ghost use Rattle.path_origins.specs.Shown.{shown};
ghost use Rattle.path_origins.specs.reading.Walks.{IsBehind, end_by, operands_added, reload_added};
ghost use Rattle.path_origins.specs.reading.Walks.{stored_from};
ghost use Rattle.path_origins.specs.reading.Ends.{operator_end, compared_end, equality_end, change_end};
ghost use Rattle.path_origins.specs.reading.Reading.{IsGiven, IsTyped, IsRead, IsReadRight, IsAddressed};

use crate::addresses::walk_address;
use crate::expressions::{note_implied, walk_against, walk_part, walk_rvalue};
use crate::lookups::{is_conversion, is_implied};
use crate::notes::{
    end_with, note, note_end, note_if, note_operands, note_passing, note_reload, note_store,
    note_tests, note_value, since,
};
use crate::origins::{Form, Notes, Span};
use crate::types::{
    Given, class_target, computed, held_by, is_changed, is_either_changed, number_if,
};
use crate::walks::{Here, Wanted};
use body_builder::{is_comparison, rvalue_place, type_at};
use tm_cint::{BinOp, IntType};
use tm_lattice::NoMemory;
use tm_terms::Place;
use tm_typed::{Lvalue, Qualified, Rvalue, Scalar, is_pointer_scalar};

/// An operator, or else what changes an object.
#[cycle(walk)]
pub(crate) fn walk_operator(
    here: &Here<'_>,
    to: &mut Notes,
    rvalue: &Rvalue,
    wanted: Wanted,
    used: bool,
) -> Result<Given, NoMemory>
    ensures noted { IfOk result (λ g. IsRead here.now.laid.now here.now.opens.now here.now.sizes.now
        here.now.path wanted used rvalue.now to.old to.new) }
    ensures given { IfOk result (λ g. IsGiven here.now.laid.now here.now.opens.now here.now.path rvalue.now
        g) }
{
    match rvalue {
        Rvalue::Unary { value, place, .. } => {
            let given = walk_rvalue(here, to, value, Wanted::Value, true)?;
            let is_enumeration = given.is_unsigned_by_some();
            let form = Form::Unary(is_enumeration);
            note_value(to, *place, form, wanted, false, number_if(is_enumeration))
        }
        Rvalue::Binary {
            operator,
            left,
            right,
            place,
            ..
        } => {
            let first = walk_part(here, to, left, Wanted::Bare)?;
            let second = walk_against(here, to, first.edges, right, Wanted::Bare, *place)?;
            let operands = Operands {
                first: first.given,
                second: second.given,
            };
            binary_end(to, *operator, left, right, operands, wanted, *place)
        }
        Rvalue::Pointers {
            left,
            right,
            place,
            ..
        } => {
            let first = walk_part(here, to, left, Wanted::Value)?;
            let _second = walk_against(here, to, first.edges, right, Wanted::Value, *place)?;
            pointers_end(to, wanted, *place)
        }
        Rvalue::Move {
            index_first,
            pointer,
            index,
            place,
            ..
        } => {
            if *index_first {
                let first = walk_part(here, to, index, Wanted::Value)?;
                let second = walk_against(here, to, first.edges, pointer, Wanted::Value, *place)?;
                let form = Form::Move(second.given.target_or(0));
                note_value(to, *place, form, wanted, true, second.given)
            } else {
                let first = walk_part(here, to, pointer, Wanted::Value)?;
                let _second = walk_against(here, to, first.edges, index, Wanted::Value, *place)?;
                let form = Form::Move(first.given.target_or(0));
                note_value(to, *place, form, wanted, true, first.given)
            }
        }
        _ => walk_change(here, to, rvalue, wanted, used),
    }
}

// A comparison: a value by this form, or as a branch tests by that one.
fn comparison_ends(
    to: &mut Notes,
    wanted: Wanted,
    place: Place,
    value: Form,
    test: Form,
) -> Result<(), NoMemory>
    ensures { OnOk result (IsBehind to.old to.new (compared_end wanted place value test)) }
{
    match wanted {
        Wanted::Branch => note_tests(to, place, test),
        Wanted::Value | Wanted::Bare => note(to, place, value),
    }
}

// An operator on converted operands, of which one may be a value of an enumeration.
fn operator_ends(
    to: &mut Notes,
    is_comparison: bool,
    is_either: bool,
    wanted: Wanted,
    place: Place,
) -> Result<(), NoMemory>
    ensures { OnOk result (IsBehind to.old to.new (operator_end is_comparison is_either wanted place)) }
{
    if is_comparison {
        return comparison_ends(
            to,
            wanted,
            place,
            Form::Binary(is_either),
            Form::Test(is_either),
        );
    }
    note(to, place, Form::Binary(is_either))?;
    note_end(to, wanted, false, place)
}

// What both operands give.
#[derive(Clone, Copy)]
struct Operands {
    first: Given,
    second: Given,
}

// The conversions of both operands, and the operator.
fn binary_end(
    to: &mut Notes,
    operator: BinOp,
    left: &Rvalue,
    right: &Rvalue,
    operands: Operands,
    wanted: Wanted,
    place: Place,
) -> Result<Given, NoMemory>
    ensures noted { OnOk result (IsBehind to.old to.new (behind (behind
        (one_if (is_some (implied (rvalue_tree left.now))) (rvalue_place (rvalue_tree left.now)) Form.Conversion)
        (one_if (is_some (implied (rvalue_tree right.now))) (rvalue_place (rvalue_tree right.now)) Form.Conversion))
        (operator_end (is_comparison operator) (either operands.first operands.second) wanted place))) }
    ensures given { IfOk result (λ g. g ≡ computed operator operands.first operands.second) }
{
    note_implied(to, left)?;
    note_implied(to, right)?;
    let is_either = operands.first.either(operands.second);
    operator_ends(to, is_comparison(operator), is_either, wanted, place)?;
    Ok(computed(operator, operands.first, operands.second))
}

// A comparison of pointers, once they are known to be usable.
fn pointers_end(to: &mut Notes, wanted: Wanted, place: Place) -> Result<Given, NoMemory>
    ensures noted { OnOk result (IsBehind to.old to.new (behind (behind (one place Form.Usable)
        (one place Form.Usable)) (equality_end wanted place))) }
    ensures given { IfOk result (λ g. g ≡ Given.Number) }
{
    note(to, place, Form::Usable)?;
    note(to, place, Form::Usable)?;
    comparison_ends(to, wanted, place, Form::Equality, Form::EqualityTest)?;
    Ok(Given::Number)
}

// The operator of `op=`, `++` or `--`: the type of what is changed and that in which it works, and whether one of its
// operands is a value of an enumeration.
#[derive(Clone, Copy)]
struct Change {
    cell: IntType,
    of: IntType,
    is_either: bool,
    load_place: Place,
    place: Place,
}

// The operator on what is loaded and on an operand, which converts both, and the store, behind stores of the operands.
fn change_ends(
    to: &mut Notes,
    change: Change,
    operand_place: Place,
    is_converted: bool,
    pending: usize,
) -> Result<(), NoMemory>
    ensures { OnOk result (shown to.new ≡ stored_from pending change.place (behind (shown to.old)
        (change_end change.is_either (is_some (conversion change.cell change.of)) change.load_place is_converted
        operand_place (is_some (conversion change.of change.cell)) change.place))) }
{
    let loaded = is_conversion(change.cell, change.of);
    let back = is_conversion(change.of, change.cell);
    note_if(to, loaded, change.load_place, Form::Conversion)?;
    note_if(to, is_converted, operand_place, Form::Conversion)?;
    note(to, change.place, Form::Binary(change.is_either))?;
    note_if(to, back, change.place, Form::Conversion)?;
    note_store(to, change.place, pending)
}

// The same with its end.
fn changed_end(
    to: &mut Notes,
    change: Change,
    operand_place: Place,
    is_converted: bool,
    pending: usize,
    wanted: Wanted,
    gives: Given,
) -> Result<Given, NoMemory>
    ensures noted { OnOk result (shown to.new ≡ behind (stored_from pending change.place (behind (shown to.old)
        (change_end change.is_either (is_some (conversion change.cell change.of)) change.load_place is_converted
        operand_place (is_some (conversion change.of change.cell)) change.place)))
        (end_by wanted false change.place)) }
    ensures given { IfOk result (λ g. g ≡ gives) }
{
    change_ends(to, change, operand_place, is_converted, pending)?;
    end_with(to, wanted, false, change.place, gives)
}

// The same behind what is loaded and a constant, for `++` and `--`.
fn step_end(
    to: &mut Notes,
    change: Change,
    is_converted: bool,
    pending: usize,
    wanted: Wanted,
    gives: Given,
) -> Result<Given, NoMemory>
    ensures noted { OnOk result (shown to.new ≡ behind (stored_from pending change.place (behind (behind (behind
        (shown to.old) (one change.load_place Form.Load)) (one change.place Form.Constant))
        (change_end change.is_either (is_some (conversion change.cell change.of)) change.load_place is_converted
        change.place (is_some (conversion change.of change.cell)) change.place)))
        (end_by wanted false change.place)) }
    ensures given { IfOk result (λ g. g ≡ gives) }
{
    note(to, change.load_place, Form::Load)?;
    note(to, change.place, Form::Constant)?;
    changed_end(
        to,
        change,
        change.place,
        is_converted,
        pending,
        wanted,
        gives,
    )
}

// A store behind stores of the operands, and its end.
fn store_end(
    to: &mut Notes,
    wanted: Wanted,
    pointer: bool,
    place: Place,
    pending: usize,
    gives: Given,
) -> Result<Given, NoMemory>
    ensures noted { OnOk result (shown to.new ≡ behind (stored_from pending place (shown to.old))
        (end_by wanted pointer place)) }
    ensures given { IfOk result (λ g. g ≡ gives) }
{
    note_store(to, place, pending)?;
    end_with(to, wanted, pointer, place, gives)
}

// The same of a pointer that is moved first.
fn moved_end(
    to: &mut Notes,
    wanted: Wanted,
    target: u32,
    place: Place,
    pending: usize,
    gives: Given,
) -> Result<Given, NoMemory>
    ensures noted { OnOk result (shown to.new ≡ behind (stored_from pending place (behind (shown to.old)
        (one place (Form.Move target)))) (end_by wanted true place)) }
    ensures given { IfOk result (λ g. g ≡ gives) }
{
    note(to, place, Form::Move(target))?;
    store_end(to, wanted, true, place, pending, gives)
}

// The same behind what is loaded and a constant, for `++` and `--`.
fn step_moved_end(
    to: &mut Notes,
    load_place: Place,
    wanted: Wanted,
    target: u32,
    place: Place,
    pending: usize,
    gives: Given,
) -> Result<Given, NoMemory>
    ensures noted { OnOk result (shown to.new ≡ behind (stored_from pending place (behind (behind (behind
        (shown to.old) (one load_place Form.Load)) (one place Form.Constant)) (one place (Form.Move target))))
        (end_by wanted true place)) }
    ensures given { IfOk result (λ g. g ≡ gives) }
{
    note(to, load_place, Form::Load)?;
    note(to, place, Form::Constant)?;
    moved_end(to, wanted, target, place, pending, gives)
}

// The address of what is changed, and its edges and type.
#[derive(Clone, Copy)]
struct Target {
    edges: Span,
    of: Qualified,
}

#[cycle(walk)]
fn walk_target(here: &Here<'_>, to: &mut Notes, target: &Lvalue) -> Result<Target, NoMemory>
    ensures noted { IfOk result (λ t. IsAddressed here.now.laid.now here.now.opens.now here.now.sizes.now
        here.now.path target.now to.old to.new) }
    ensures of { IfOk result (λ t. IsTyped here.now.laid.now here.now.opens.now here.now.path target.now t.of) }
    ensures edges { IfOk result (λ t. (t.edges.first ≡ to.old.size) × (t.edges.end ≡ to.new.size)) }
{
    let begin = to.size;
    let of = walk_address(here, to, target)?;
    Ok(Target {
        edges: since(to, begin),
        of,
    })
}

// The right side of `op=` stands against the address of the target and against what is loaded of it.
fn note_right(
    to: &mut Notes,
    place: Place,
    target: Target,
    load: u32,
    right: Span,
) -> Result<(), NoMemory>
    ensures { OnOk result (shown to.new ≡ reload_added place load right (operands_added place target.edges right
        (shown to.old))) }
{
    note_operands(to, place, target.edges, right)?;
    note_reload(to, place, load, right)
}

// What is loaded of the target of `op=`, and the right side behind it: what that gives.
#[cycle(walk)]
fn walk_right(
    here: &Here<'_>,
    to: &mut Notes,
    value: &Rvalue,
    target: Target,
    load_place: Place,
    wanted: Wanted,
    place: Place,
) -> Result<Given, NoMemory>
    ensures noted { IfOk result (λ g. IsReadRight here.now.laid.now here.now.opens.now here.now.sizes.now
        here.now.path wanted value.now load_place place target.edges to.old to.new) }
    ensures given { IfOk result (λ g. IsGiven here.now.laid.now here.now.opens.now here.now.path value.now g) }
{
    let load = to.size;
    note(to, load_place, Form::Load)?;
    let right = walk_part(here, to, value, wanted)?;
    note_right(to, place, target, load, right.edges)?;
    Ok(right.given)
}

// An assignment, or else `++` or `--`.
#[cycle(walk)]
fn walk_change(
    here: &Here<'_>,
    to: &mut Notes,
    rvalue: &Rvalue,
    wanted: Wanted,
    used: bool,
) -> Result<Given, NoMemory>
    ensures noted { IfOk result (λ g. IsRead here.now.laid.now here.now.opens.now here.now.sizes.now
        here.now.path wanted used rvalue.now to.old to.new) }
    ensures given { IfOk result (λ g. IsGiven here.now.laid.now here.now.opens.now here.now.path rvalue.now
        g) }
{
    let pending = to.pending.len();
    match rvalue {
        Rvalue::Assign {
            scalar,
            target,
            value,
            place,
        } => {
            let address = walk_target(here, to, target)?;
            let right = walk_against(here, to, address.edges, value, Wanted::Value, *place)?;
            let ctype = type_at(here.laid, address.of.number);
            note_passing(to, rvalue_place(value), right.given, ctype)?;
            let gives = held_by(here.laid, *scalar, address.of);
            store_end(
                to,
                wanted,
                is_pointer_scalar(*scalar),
                *place,
                pending,
                gives,
            )
        }
        Rvalue::Compound {
            cell,
            of,
            target,
            value,
            place,
            ..
        } => {
            let address = walk_target(here, to, target)?;
            let load_place = target.place();
            let right = walk_right(here, to, value, address, load_place, Wanted::Bare, *place)?;
            let change = Change {
                cell: *cell,
                of: *of,
                is_either: is_either_changed(*of, address.of, right),
                load_place,
                place: *place,
            };
            let is_converted = is_implied(value);
            let gives = held_by(here.laid, Scalar::Int(*cell), address.of);
            changed_end(
                to,
                change,
                rvalue_place(value),
                is_converted,
                pending,
                wanted,
                gives,
            )
        }
        Rvalue::CompoundMove {
            class,
            target,
            value,
            place,
            ..
        } => {
            let address = walk_target(here, to, target)?;
            let load_place = target.place();
            let _right = walk_right(here, to, value, address, load_place, Wanted::Value, *place)?;
            let gives = held_by(here.laid, Scalar::Pointer(*class), address.of);
            moved_end(
                to,
                wanted,
                class_target(here.laid, *class),
                *place,
                pending,
                gives,
            )
        }
        _ => walk_step(here, to, rvalue, wanted, used),
    }
}

// `++` or `--`. The other forms never come here.
#[cycle(walk)]
fn walk_step(
    here: &Here<'_>,
    to: &mut Notes,
    rvalue: &Rvalue,
    wanted: Wanted,
    used: bool,
) -> Result<Given, NoMemory>
    ensures noted { IfOk result (λ g. IsRead here.now.laid.now here.now.opens.now here.now.sizes.now
        here.now.path wanted used rvalue.now to.old to.new) }
    ensures given { IfOk result (λ g. IsGiven here.now.laid.now here.now.opens.now here.now.path rvalue.now
        g) }
{
    let pending = to.pending.len();
    match rvalue {
        Rvalue::Step {
            cell,
            of,
            target,
            place,
            ..
        } => {
            let changed = walk_address(here, to, target)?;
            let change = Change {
                cell: *cell,
                of: *of,
                is_either: is_changed(*of, changed),
                load_place: target.place(),
                place: *place,
            };
            let is_converted = is_conversion(IntType::Int, *of);
            let gives = held_by(here.laid, Scalar::Int(*cell), changed);
            step_end(to, change, is_converted, pending, wanted, gives)
        }
        Rvalue::StepMove {
            class,
            target,
            place,
            ..
        } => {
            let changed = walk_address(here, to, target)?;
            let to_type = class_target(here.laid, *class);
            let gives = held_by(here.laid, Scalar::Pointer(*class), changed);
            step_moved_end(to, target.place(), wanted, to_type, *place, pending, gives)
        }
        _ => Err(NoMemory),
    }
}
