//! The places of calls.
ghost use Rattle.std.specs.Prelude.{◌≡◌, IfOk, length};

use std::alloc::Global;
use tm_lattice::NoMemory;
use tm_typed::{
    LocalObject, Lvalue, Place, Rvalue, TypedBody, TypedFile, TypedStatement, TypedSwitchPart,
};

// A call of a function, by its number among the calls there, with its place. They are found in any order, and sorted.
#[derive(Clone, Copy, PartialEq, Eq, PartialOrd, Ord)]
struct Site {
    site: u32,
    place: Place,
}

// Those of arguments.
#[cycle(call_sites)]
fn push_all(values: &[Rvalue], sites: &mut Vec<Site>) -> Result<(), NoMemory> {
    for value in values {
        push_of_value(value, sites)?;
    }
    Ok(())
}

// Those of what an lvalue evaluates.
#[cycle(call_sites)]
fn push_of_lvalue(lvalue: &Lvalue, sites: &mut Vec<Site>) -> Result<(), NoMemory> {
    match lvalue {
        Lvalue::Object { .. } => Ok(()),
        Lvalue::Element { array, index, .. } => {
            push_of_lvalue(array, sites)?;
            push_of_value(index, sites)
        }
        Lvalue::Subscript { pointer, index, .. } => {
            push_of_value(pointer, sites)?;
            push_of_value(index, sites)
        }
        Lvalue::Pointed { pointer, .. } | Lvalue::Arrow { pointer, .. } => {
            push_of_value(pointer, sites)
        }
        Lvalue::Member { structure, .. } => push_of_lvalue(structure, sites),
    }
}

// Those of an expression.
#[cycle(call_sites)]
fn push_of_value(value: &Rvalue, sites: &mut Vec<Site>) -> Result<(), NoMemory> {
    match value {
        Rvalue::Constant { .. }
        | Rvalue::Folded { .. }
        | Rvalue::Null { .. }
        | Rvalue::Input { .. }
        | Rvalue::Probe { .. } => Ok(()),
        Rvalue::Load { lvalue, .. }
        | Rvalue::Address { lvalue, .. }
        | Rvalue::Structure { lvalue }
        | Rvalue::Step { target: lvalue, .. }
        | Rvalue::StepMove { target: lvalue, .. } => push_of_lvalue(lvalue, sites),
        Rvalue::Same { value, .. }
        | Rvalue::Unary { value, .. }
        | Rvalue::Not { value, .. }
        | Rvalue::Convert { value, .. }
        | Rvalue::Discard { value, .. } => push_of_value(value, sites),
        Rvalue::Binary { left, right, .. }
        | Rvalue::Pointers { left, right, .. }
        | Rvalue::And { left, right, .. }
        | Rvalue::Or { left, right, .. }
        | Rvalue::Comma { left, right, .. }
        | Rvalue::Move {
            pointer: left,
            index: right,
            ..
        } => {
            push_of_value(left, sites)?;
            push_of_value(right, sites)
        }
        Rvalue::Conditional {
            condition,
            first,
            second,
            ..
        } => {
            push_of_value(condition, sites)?;
            push_of_value(first, sites)?;
            push_of_value(second, sites)
        }
        Rvalue::Assign { target, value, .. }
        | Rvalue::Compound { target, value, .. }
        | Rvalue::CompoundMove { target, value, .. } => {
            push_of_lvalue(target, sites)?;
            push_of_value(value, sites)
        }
        Rvalue::Call {
            site,
            arguments,
            place,
            ..
        } => {
            sites.push(Site {
                site: *site,
                place: *place,
            })?;
            push_all(arguments, sites)
        }
    }
}

// Those of an expression that there may be.
fn push_of_optional(value: &Option<Box<Rvalue>>, sites: &mut Vec<Site>) -> Result<(), NoMemory> {
    match value {
        None => Ok(()),
        Some(value) => push_of_value(value, sites),
    }
}

// Those of the condition and the step of a `for`.
fn push_of_header(
    condition: &Option<Box<Rvalue>>,
    step: &Option<Box<Rvalue>>,
    sites: &mut Vec<Site>,
) -> Result<(), NoMemory> {
    push_of_optional(condition, sites)?;
    push_of_optional(step, sites)
}

// Those of an initialiser.
fn push_of_local(local: &LocalObject, sites: &mut Vec<Site>) -> Result<(), NoMemory> {
    match &local.initialiser {
        None => Ok(()),
        Some(initialiser) => {
            for given in &initialiser.given {
                push_of_value(&given.value, sites)?;
            }
            Ok(())
        }
    }
}

// Those of a declaration.
fn push_of_locals(locals: &[LocalObject], sites: &mut Vec<Site>) -> Result<(), NoMemory> {
    for local in locals {
        push_of_local(local, sites)?;
    }
    Ok(())
}

// Those of a part of a `switch`.
#[cycle(statement_sites)]
fn push_of_part(part: &TypedSwitchPart, sites: &mut Vec<Site>) -> Result<(), NoMemory> {
    match part {
        TypedSwitchPart::Case { .. } | TypedSwitchPart::Default { .. } => Ok(()),
        TypedSwitchPart::Statement(statement) => push_of_statement(statement, sites),
    }
}

// Those of the parts.
#[cycle(statement_sites)]
fn push_of_parts(parts: &[TypedSwitchPart], sites: &mut Vec<Site>) -> Result<(), NoMemory> {
    for part in parts {
        push_of_part(part, sites)?;
    }
    Ok(())
}

// Those of statements.
#[cycle(statement_sites)]
fn push_of_statements(
    statements: &[TypedStatement],
    sites: &mut Vec<Site>,
) -> Result<(), NoMemory> {
    for statement in statements {
        push_of_statement(statement, sites)?;
    }
    Ok(())
}

// Those of a statement.
#[cycle(statement_sites)]
fn push_of_statement(statement: &TypedStatement, sites: &mut Vec<Site>) -> Result<(), NoMemory> {
    match statement {
        TypedStatement::Evaluate(value) | TypedStatement::Return(value) => {
            push_of_optional(value, sites)
        }
        TypedStatement::Declare(locals) => push_of_locals(locals, sites),
        TypedStatement::Block(statements) => push_of_statements(statements, sites),
        TypedStatement::If {
            condition,
            first,
            second,
        } => {
            push_of_value(condition, sites)?;
            push_of_statement(first, sites)?;
            match second {
                None => Ok(()),
                Some(statement) => push_of_statement(statement, sites),
            }
        }
        TypedStatement::While { condition, body } | TypedStatement::Do { body, condition } => {
            push_of_value(condition, sites)?;
            push_of_statement(body, sites)
        }
        TypedStatement::For {
            first,
            condition,
            step,
            body,
        } => {
            push_of_header(condition, step, sites)?;
            push_of_statement(first, sites)?;
            push_of_statement(body, sites)
        }
        TypedStatement::Switch { value, parts, .. } => {
            push_of_value(value, sites)?;
            push_of_parts(parts, sites)
        }
        TypedStatement::Break
        | TypedStatement::Continue
        | TypedStatement::Lock { .. }
        | TypedStatement::Unlock { .. }
        | TypedStatement::Yield => Ok(()),
    }
}

// The places of the calls of a body, in their order.
fn places_in(alloc: Global, body: &Option<TypedBody>) -> Result<Vec<Place>, NoMemory> {
    let mut sites = Vec::new(alloc);
    if let Some(body) = body {
        push_of_statements(&body.statements, &mut sites)?;
    }
    sites.sort()?;
    let mut places = Vec::new(alloc);
    for site in &sites {
        places.push(site.place)?;
    }
    Ok(places)
}

/// For each function the places of its calls, in the order of their numbers.
pub fn call_places(alloc: Global, file: &TypedFile) -> Result<Vec<Vec<Place>>, NoMemory>
    ensures each { IfOk result (λ places. length places.items ≡ length file.now.functions.items) }
{
    let mut places = Vec::new(alloc);
    for function in &file.functions {
        places.push(places_in(alloc, &function.body)?)?;
    }
    Ok(places)
}
