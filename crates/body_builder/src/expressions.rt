//! Expressions are built.
ghost use Rattle.std.specs.Prelude.{◌≡◌, IfOk};
ghost use Rattle.tm_typed.specs.TypedTrees.{rvalue_tree, lvalue_tree, as_rvalues};
ghost use Rattle.body_builder.specs.Fragments.{tree_in, so_far};
ghost use Rattle.body_builder.specs.reading.Expressions.{value_at, address_at, values_at, Lists, Holds};
ghost use Rattle.body_builder.specs.Placing.{Finds, Gives};

use crate::forms::{Change, Moved, temp_if, temp_of};
use crate::fragments::{Found, Fragment, Wanted};
use crate::here::Here;
use crate::lookups::{
    call_gives_pointer, conversion, gives_pointer, has_value, implied, into, is_same_place,
    object_of, rvalue_place, step_operator,
};
use concrete_values::{Pointer, Value};
use flow_graph::{Into, Operation};
use tm_lattice::NoMemory;
use tm_typed::{Lvalue, Rvalue, Scalar};

/// An expression, for its value or as a branch.
#[cycle(value)]
pub(crate) fn build_value(
    here: &Here<'_>,
    to: &mut Fragment,
    rvalue: &Rvalue,
    wanted: Wanted,
) -> Result<Found, NoMemory>
    ensures { IfOk result (λ x. Finds (value_at (tree_in here.now.laid.now) here.now.depth here.now.path
        (rvalue_tree rvalue.now) wanted (so_far (tree_in here.now.laid.now) to.old))
        (so_far (tree_in here.now.laid.now) to.new) x) }
{
    match rvalue {
        Rvalue::Folded {
            value: number,
            form,
        } => match wanted {
            Wanted::Branch => build_value(here, to, form, Wanted::Branch),
            Wanted::Value | Wanted::Bare => here.number(to, *number),
        },
        Rvalue::Load {
            scalar,
            volatile,
            lvalue,
        } => {
            let place = lvalue.place();
            let address = build_address(here, to, lvalue)?;
            here.load_ends(to, wanted, *volatile, *scalar, place, address)
        }
        Rvalue::Address { lvalue, place } => {
            let address = build_address(here, to, lvalue)?;
            here.ends(to, wanted, true, *place, Some(address))
        }
        Rvalue::Structure { lvalue } => {
            let place = lvalue.place();
            let _address = build_address(here, to, lvalue)?;
            here.ends(to, wanted, false, place, None)
        }
        Rvalue::Same { value, place } => {
            let found = build_value(here, to, value, Wanted::Value)?;
            here.same_ends(to, wanted, value, *place, found.temp)
        }
        Rvalue::Call {
            function,
            site,
            arguments,
            place,
        } => {
            let pointer = call_gives_pointer(here.laid, *function);
            let temps = build_values(here, to, arguments)?;
            here.call_ends(to, wanted, pointer, *site, *place, &temps)
        }
        Rvalue::Comma { left, right, place } => {
            let has = has_value(here.laid, here.path, right);
            let pointer = gives_pointer(here.laid, right);
            let _first = build_value(here, to, left, Wanted::Value)?;
            let second = build_value(here, to, right, Wanted::Value)?;
            let temp = temp_if(has, temp_of(second.temp));
            here.ends(to, wanted, pointer, *place, temp)
        }
        Rvalue::Convert {
            from,
            to: of,
            value,
            place,
        } => {
            let is_same = is_same_place(*place, rvalue_place(value));
            let found = build_value(here, to, value, Wanted::Value)?;
            let conversion = conversion(*from, *of);
            here.conversion_ends(to, wanted, is_same, *place, conversion, found.temp)
        }
        Rvalue::Discard { value, place } => {
            let _found = build_value(here, to, value, Wanted::Value)?;
            here.ends(to, wanted, false, *place, None)
        }
        _ => build_operator(here, to, rvalue, wanted),
    }
}

// An operator, or else a choice or what changes an object.
#[cycle(value)]
fn build_operator(
    here: &Here<'_>,
    to: &mut Fragment,
    rvalue: &Rvalue,
    wanted: Wanted,
) -> Result<Found, NoMemory>
    ensures { IfOk result (λ x. Finds (value_at (tree_in here.now.laid.now) here.now.depth here.now.path
        (rvalue_tree rvalue.now) wanted (so_far (tree_in here.now.laid.now) to.old))
        (so_far (tree_in here.now.laid.now) to.new) x) }
{
    match rvalue {
        Rvalue::Unary {
            operator,
            of,
            value,
            place,
        } => {
            let found = build_value(here, to, value, Wanted::Value)?;
            let op = Operation::Un {
                to: here.temps(to),
                operator: *operator,
                of: *of,
                from: temp_of(found.temp),
                place: *place,
            };
            here.ends_new(to, wanted, false, *place, op)
        }
        Rvalue::Binary {
            operator,
            of,
            left,
            right,
            place,
        } => {
            let first = build_value(here, to, left, Wanted::Bare)?;
            let second = build_value(here, to, right, Wanted::Bare)?;
            let first = (implied(left), temp_of(first.temp));
            let second = (implied(right), temp_of(second.temp));
            here.binary_ends(to, wanted, *operator, *of, *place, first, second)
        }
        Rvalue::Pointers {
            equal,
            left,
            right,
            place,
        } => {
            let first = build_value(here, to, left, Wanted::Value)?;
            let second = build_value(here, to, right, Wanted::Value)?;
            here.pointers_ends(
                to,
                wanted,
                *equal,
                *place,
                temp_of(first.temp),
                temp_of(second.temp),
            )
        }
        Rvalue::Move {
            minus,
            cells,
            index_first,
            pointer,
            index,
            place,
        } => {
            if *index_first {
                let by = build_value(here, to, index, Wanted::Value)?;
                let from = build_value(here, to, pointer, Wanted::Value)?;
                let (from, by) = (temp_of(from.temp), temp_of(by.temp));
                here.moved_ends(to, wanted, *minus, *cells, *place, from, by)
            } else {
                let from = build_value(here, to, pointer, Wanted::Value)?;
                let by = build_value(here, to, index, Wanted::Value)?;
                let (from, by) = (temp_of(from.temp), temp_of(by.temp));
                here.moved_ends(to, wanted, *minus, *cells, *place, from, by)
            }
        }
        _ => build_choice(here, to, rvalue, wanted),
    }
}

// What goes one of two ways, or else what changes an object.
#[cycle(value)]
fn build_choice(
    here: &Here<'_>,
    to: &mut Fragment,
    rvalue: &Rvalue,
    wanted: Wanted,
) -> Result<Found, NoMemory>
    ensures { IfOk result (λ x. Finds (value_at (tree_in here.now.laid.now) here.now.depth here.now.path
        (rvalue_tree rvalue.now) wanted (so_far (tree_in here.now.laid.now) to.old))
        (so_far (tree_in here.now.laid.now) to.new) x) }
{
    match rvalue {
        Rvalue::Not { value, .. } => {
            let found = build_value(here, to, value, Wanted::Branch)?;
            let node = here.node(to);
            here.goto(to, found.other);
            here.ends_fork(to, wanted, node)
        }
        Rvalue::And { left, right, .. } => {
            let first = build_value(here, to, left, Wanted::Branch)?;
            let second = build_value(here, to, right, Wanted::Branch)?;
            here.both_meet(to, wanted, first.other, second.other)
        }
        Rvalue::Or { left, right, .. } => {
            let first = build_value(here, to, left, Wanted::Branch)?;
            let node = here.node(to);
            here.goto(to, first.other);
            let second = build_value(here, to, right, Wanted::Branch)?;
            let other = here.node(to);
            here.either_meet(to, wanted, node, other, second.other)
        }
        Rvalue::Conditional {
            condition,
            first,
            second,
            place,
        } => {
            let has = has_value(here.laid, here.path, first);
            let pointer = gives_pointer(here.laid, first);
            let fork = build_value(here, to, condition, Wanted::Branch)?;
            let one = build_value(here, to, first, Wanted::Value)?;
            let temp = here.temps(to);
            here.copied_if(to, has, temp_of(one.temp))?;
            let node = here.node(to);
            here.goto(to, fork.other);
            let other = build_value(here, to, second, Wanted::Value)?;
            here.choice_ends(
                to,
                wanted,
                has,
                pointer,
                *place,
                node,
                temp,
                temp_of(other.temp),
            )
        }
        _ => build_change(here, to, rvalue, wanted),
    }
}

// What changes an object, or else what has no parts.
#[cycle(value)]
fn build_change(
    here: &Here<'_>,
    to: &mut Fragment,
    rvalue: &Rvalue,
    wanted: Wanted,
) -> Result<Found, NoMemory>
    ensures { IfOk result (λ x. Finds (value_at (tree_in here.now.laid.now) here.now.depth here.now.path
        (rvalue_tree rvalue.now) wanted (so_far (tree_in here.now.laid.now) to.old))
        (so_far (tree_in here.now.laid.now) to.new) x) }
{
    match rvalue {
        Rvalue::Assign {
            scalar,
            target,
            value,
            place,
        } => {
            let into = into(here.laid, here.path, target)?;
            let address = build_address(here, to, target)?;
            let found = build_value(here, to, value, Wanted::Value)?;
            here.stored(
                to,
                wanted,
                *scalar,
                into,
                *place,
                address,
                temp_of(found.temp),
            )
        }
        Rvalue::Compound {
            operator,
            cell,
            of,
            volatile,
            target,
            value,
            place,
        } => {
            let held = build_held(here, to, *volatile, Scalar::Int(*cell), target)?;
            let found = build_value(here, to, value, Wanted::Bare)?;
            let change = Change {
                operator: *operator,
                cell: *cell,
                of: *of,
                into: held.into,
                place: *place,
            };
            let right = (implied(value), temp_of(found.temp));
            here.compound_ends(to, wanted, change, held.address, held.value, right)
        }
        Rvalue::CompoundMove {
            minus,
            cells,
            class,
            target,
            value,
            place,
        } => {
            let held = build_held(here, to, false, Scalar::Pointer(*class), target)?;
            let found = build_value(here, to, value, Wanted::Value)?;
            let moved = Moved {
                minus: *minus,
                cells: *cells,
                class: *class,
                into: held.into,
                place: *place,
            };
            let by = temp_of(found.temp);
            here.compound_move_ends(to, wanted, moved, held.address, held.value, by)
        }
        _ => build_step(here, to, rvalue, wanted),
    }
}

// `++` and `--`, or else what has no parts.
#[cycle(value)]
fn build_step(
    here: &Here<'_>,
    to: &mut Fragment,
    rvalue: &Rvalue,
    wanted: Wanted,
) -> Result<Found, NoMemory>
    ensures { IfOk result (λ x. Finds (value_at (tree_in here.now.laid.now) here.now.depth here.now.path
        (rvalue_tree rvalue.now) wanted (so_far (tree_in here.now.laid.now) to.old))
        (so_far (tree_in here.now.laid.now) to.new) x) }
{
    match rvalue {
        Rvalue::Step {
            step,
            cell,
            of,
            volatile,
            target,
            place,
        } => {
            let held = build_held(here, to, *volatile, Scalar::Int(*cell), target)?;
            let change = Change {
                operator: step_operator(*step),
                cell: *cell,
                of: *of,
                into: held.into,
                place: *place,
            };
            here.unit_step_ends(to, wanted, step.postfix, change, held.address, held.value)
        }
        Rvalue::StepMove {
            step,
            cells,
            class,
            target,
            place,
        } => {
            let held = build_held(here, to, false, Scalar::Pointer(*class), target)?;
            let moved = Moved {
                minus: step.minus,
                cells: *cells,
                class: *class,
                into: held.into,
                place: *place,
            };
            here.pointer_step_ends(to, wanted, step.postfix, moved, held.address, held.value)
        }
        _ => build_leaf(here, to, rvalue, wanted),
    }
}

// What has no parts. The other forms never come here.
fn build_leaf(
    here: &Here<'_>,
    to: &mut Fragment,
    rvalue: &Rvalue,
    wanted: Wanted,
) -> Result<Found, NoMemory>
    ensures { IfOk result (λ x. Finds (value_at (tree_in here.now.laid.now) here.now.depth here.now.path
        (rvalue_tree rvalue.now) wanted (so_far (tree_in here.now.laid.now) to.old))
        (so_far (tree_in here.now.laid.now) to.new) x) }
{
    match rvalue {
        Rvalue::Constant {
            value: number,
            place,
            ..
        } => {
            let op = Operation::Const {
                to: here.temps(to),
                value: Value::Number(*number),
            };
            here.ends_new(to, wanted, false, *place, op)
        }
        Rvalue::Null { place } => {
            let op = Operation::Const {
                to: here.temps(to),
                value: Value::Pointer(Pointer::Null),
            };
            here.ends_new(to, wanted, true, *place, op)
        }
        Rvalue::Input { low, high, place } => {
            let op = Operation::Any {
                to: here.temps(to),
                low: *low,
                high: *high,
            };
            here.ends_new(to, wanted, false, *place, op)
        }
        Rvalue::Probe { mutex, place } => {
            let op = Operation::Probe {
                to: here.temps(to),
                mutex: *mutex,
                place: *place,
            };
            here.ends_new(to, wanted, false, *place, op)
        }
        _ => Err(NoMemory),
    }
}

// An object that is changed: where its value goes, its address, and what it holds.
#[derive(Clone, Copy)]
struct Held {
    into: Into,
    address: u32,
    value: u32,
}

// An object that is changed is loaded.
#[cycle(value)]
fn build_held(
    here: &Here<'_>,
    to: &mut Fragment,
    volatile: bool,
    scalar: Scalar,
    target: &Lvalue,
) -> Result<Held, NoMemory>
    ensures { IfOk result (λ x. Holds (tree_in here.now.laid.now) here.now.depth here.now.path volatile scalar
        (lvalue_tree target.now) (so_far (tree_in here.now.laid.now) to.old)
        (so_far (tree_in here.now.laid.now) to.new) x) }
{
    let into = into(here.laid, here.path, target)?;
    let address = build_address(here, to, target)?;
    let value = here.loaded(to, volatile, scalar, target.place(), address)?;
    Ok(Held {
        into,
        address,
        value,
    })
}

/// The address of an lvalue.
#[cycle(value)]
pub(crate) fn build_address(
    here: &Here<'_>,
    to: &mut Fragment,
    lvalue: &Lvalue,
) -> Result<u32, NoMemory>
    ensures { IfOk result (λ t. Gives (address_at (tree_in here.now.laid.now) here.now.depth here.now.path
        (lvalue_tree lvalue.now) (so_far (tree_in here.now.laid.now) to.old))
        (so_far (tree_in here.now.laid.now) to.new) t) }
{
    match lvalue {
        Lvalue::Object { object, .. } => {
            let object = object_of(here.laid, here.path, *object)?;
            here.base(to, object)
        }
        Lvalue::Element {
            array,
            index,
            length,
            cells,
            place,
        } => {
            let from = build_address(here, to, array)?;
            let by = build_value(here, to, index, Wanted::Value)?;
            let op = Operation::Index {
                to: here.temps(to),
                from,
                length: *length,
                cells: *cells,
                by: temp_of(by.temp),
                place: *place,
            };
            here.new_value(to, op)
        }
        Lvalue::Subscript {
            pointer,
            index,
            cells,
            target,
            place,
        } => {
            let from = build_value(here, to, pointer, Wanted::Value)?;
            let by = build_value(here, to, index, Wanted::Value)?;
            let (from, by) = (temp_of(from.temp), temp_of(by.temp));
            here.pointed_element(to, from, *cells, by, *target, *place)
        }
        Lvalue::Pointed {
            pointer,
            target,
            place,
        } => {
            let from = build_value(here, to, pointer, Wanted::Value)?;
            here.followed(to, temp_of(from.temp), *target, *place)
        }
        Lvalue::Arrow {
            pointer,
            target,
            cell,
            place,
        } => {
            let from = build_value(here, to, pointer, Wanted::Value)?;
            here.pointed_part(to, temp_of(from.temp), *target, *cell, *place)
        }
        Lvalue::Member {
            structure,
            cell,
            ..
        } => {
            let from = build_address(here, to, structure)?;
            let op = Operation::Offset {
                to: here.temps(to),
                from,
                cells: *cell,
            };
            here.new_value(to, op)
        }
    }
}

// Arguments, from left to right.
#[cycle(value)]
#[tactic(auto, using(crate::proofs::Arguments::left_more, crate::proofs::Arguments::left_first, crate::proofs::Arguments::left_last))]
fn build_values(
    here: &Here<'_>,
    to: &mut Fragment,
    arguments: &[Rvalue],
) -> Result<Vec<u32>, NoMemory>
    ensures { IfOk result (λ v. Lists (values_at (tree_in here.now.laid.now) here.now.depth here.now.path
        (as_rvalues arguments.now) (so_far (tree_in here.now.laid.now) to.old))
        (so_far (tree_in here.now.laid.now) to.new) v.items) }
{
    let mut temps = Vec::new(here.alloc);
    for argument in arguments {
        let found = build_value(here, to, argument, Wanted::Value)?;
        temps.push(temp_of(found.temp))?;
    }
    Ok(temps)
}
