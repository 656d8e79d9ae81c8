//! Alarms that the body's own values would exclude.
use crate::expressions::{Part, parts_of};
use crate::own_values::{Own, known_of, negated, operated, own_at, own_values};
use access_groups::AccessGroup;
use alarm_contexts::{AlarmContexts, ContextEdge};
use flow_graph::Operation;
use std::alloc::Global;
use strided_dom::Strided;
use tm_cint::Class;
use tm_laid::Unary;
use tm_lattice::NoMemory;
use transfer_int::{Classes, Outcome};
use value_origins::{
    Access, Analysed, Extent, Use, cells_at, is_flagged, is_within, operation_at, value_at,
};

// Whether a class is among those that are not excluded.
fn has_class(classes: Classes, class: Class) -> bool {
    match class {
        Class::Overflow => classes.overflow,
        Class::Div => classes.div,
        Class::Shift => classes.shift,
        Class::Index => classes.index,
        Class::Pointer => classes.pointer,
        Class::Deref => classes.deref,
        Class::Lock => classes.lock,
        Class::Race => false,
    }
}

// Whether an outcome, if it is known, excludes a class.
fn excludes(outcome: Option<Outcome>, class: Class) -> bool {
    match outcome {
        None => false,
        Some(outcome) => !has_class(outcome.classes, class),
    }
}

// Whether all numbers are subscripts of an array of this length.
fn are_subscripts(numbers: &Strided, length: u32) -> bool {
    if numbers.is_empty() {
        return true;
    }
    0 <= numbers.lo() && numbers.hi() < i128::from(length)
}

// The own values of a temporary that an edge uses.
fn own_of(analysed: Analysed<'_>, known: &[Own], edge: ContextEdge, temp: u32) -> Extent {
    own_at(analysed, known, Use { edge, temp })
}

// Whether the own values of the operands of an edge exclude the class of an alarm there. What is wrong with pointers to
// objects is not looked at again.
fn is_excluded(
    analysed: Analysed<'_>,
    known: &[Own],
    alarm: &AlarmContexts,
    edge: ContextEdge,
) -> bool {
    match operation_at(analysed, edge) {
        Operation::Bin {
            operator,
            of,
            left,
            right,
            ..
        } => {
            let left = own_of(analysed, known, edge, left);
            let right = own_of(analysed, known, edge, right);
            let outcome = operated(operator, of, &left.numbers, &right.numbers);
            excludes(outcome, alarm.class)
        }
        Operation::Un {
            operator: Unary::Negate,
            of,
            from,
            ..
        } => {
            let own = own_of(analysed, known, edge, from);
            excludes(negated(of, &own.numbers), alarm.class)
        }
        Operation::Index { length, by, .. } => {
            let own = own_of(analysed, known, edge, by);
            are_subscripts(&own.numbers, length)
        }
        Operation::Move { from, .. } | Operation::Deref { from, .. } => {
            let own = own_of(analysed, known, edge, from);
            alarm.flaws.is_empty() && !is_flagged(&own)
        }
        Operation::Usable { pointer, .. } => {
            let own = own_of(analysed, known, edge, pointer);
            !own.invalid
        }
        _ => false,
    }
}

// The same with the own values found first.
fn is_excluded_at(
    alloc: Global,
    analysed: Analysed<'_>,
    alarm: &AlarmContexts,
    edge: ContextEdge,
) -> Result<bool, NoMemory> {
    let parts = parts_of(alloc, analysed, edge)?;
    let known = own_values(alloc, analysed, edge.body, &parts)?;
    Ok(is_excluded(analysed, &known, alarm, edge))
}

/// Whether the body's own values of what the operands are loaded from exclude the class of an alarm at all of its
/// edges.
pub(crate) fn is_interference(
    alloc: Global,
    analysed: Analysed<'_>,
    alarm: &AlarmContexts,
) -> Result<bool, NoMemory> {
    for edge in &alarm.edges {
        if !is_excluded_at(alloc, analysed, alarm, *edge)? {
            return Ok(false);
        }
    }
    Ok(!alarm.edges.is_empty())
}

// The position of the group of an object.
fn group_of(groups: &[AccessGroup], object: u32) -> Option<usize> {
    for position in 0..groups.len() {
        if groups[position].object == object {
            return Some(position);
        }
    }
    None
}

// The position of the group of an abstract cell.
fn group_of_cell(analysed: Analysed<'_>, groups: &[AccessGroup], cell: u32) -> Option<usize> {
    match analysed.program.laid.abstract_cells.get(cell as usize) {
        None => None,
        Some(found) => group_of(groups, found.object),
    }
}

// The position of the first group of some abstract cells.
fn group_among(analysed: Analysed<'_>, groups: &[AccessGroup], cells: &[u32]) -> Option<usize> {
    for cell in cells {
        let found = group_of_cell(analysed, groups, *cell);
        if found.is_some() {
            return found;
        }
    }
    None
}

// Whether a temporary has other values than the own ones that are known.
fn is_widened(analysed: Analysed<'_>, known: &[Own], used: Use) -> bool {
    match known_of(known, used.temp) {
        None => false,
        Some(own) => !is_within(&value_at(analysed, used), &own),
    }
}

// The position of the group of what an operation loads, if it loads more than own values.
fn group_of_part(
    alloc: Global,
    analysed: Analysed<'_>,
    groups: &[AccessGroup],
    known: &[Own],
    body: u32,
    part: Part,
) -> Result<Option<usize>, NoMemory> {
    let edge = ContextEdge {
        body,
        edge: part.giver,
    };
    let Operation::Load {
        address,
        scalar,
        ..
    } = operation_at(analysed, edge)
    else {
        return Ok(None);
    };
    let user = ContextEdge {
        body,
        edge: part.user,
    };
    if !is_widened(
        analysed,
        known,
        Use {
            edge: user,
            temp: part.temp,
        },
    ) {
        return Ok(None);
    }
    let load = Access {
        edge,
        address,
        scalar,
    };
    let cells = cells_at(alloc, analysed, load)?;
    Ok(group_among(analysed, groups, &cells))
}

/// The position of the group of the object from which other values than own ones come to an edge.
pub(crate) fn race_at(
    alloc: Global,
    analysed: Analysed<'_>,
    groups: &[AccessGroup],
    edge: ContextEdge,
) -> Result<Option<usize>, NoMemory> {
    let parts = parts_of(alloc, analysed, edge)?;
    let known = own_values(alloc, analysed, edge.body, &parts)?;
    let mut race = None;
    for part in parts.iter() {
        if race.is_none() {
            race = group_of_part(alloc, analysed, groups, &known, edge.body, *part)?;
        }
    }
    Ok(race)
}
