//! Graphs as text: for each edge its nodes and what it does. Of `1>2 t1=[t0] Int 2:30` the first is `1`, and it loads a
//! cell of the type `int` at the address in the temporary 0 into the temporary 1, at column 30 of line 2.

use crate::forms::push_form;
use concrete_values::{Pointer, Value};
use flow_graph::{Graph, Into, Operation, Test};
use std::alloc::Global;
use std::test::Fail;
use tm_cint::{BinOp, IntType};
use tm_laid::Laid;
use tm_typed::{CType, Scalar, Unary};

fn operator_told(operator: BinOp) -> &'static str {
    match operator {
        BinOp::Add => "+",
        BinOp::Sub => "-",
        BinOp::Mul => "*",
        BinOp::Div => "/",
        BinOp::Rem => "%",
        BinOp::Shl => "<<",
        BinOp::Shr => ">>",
        BinOp::And => "&",
        BinOp::Or => "|",
        BinOp::Xor => "^",
        BinOp::Lt => "<",
        BinOp::Le => "<=",
        BinOp::Gt => ">",
        BinOp::Ge => ">=",
        BinOp::Eq => "==",
        BinOp::Ne => "!=",
    }
}

fn equality_told(equal: bool) -> &'static str {
    if equal { "==" } else { "!=" }
}

fn int_told(of: IntType) -> &'static str {
    match of {
        IntType::Bool => "Bool",
        IntType::Char => "Char",
        IntType::UChar => "UChar",
        IntType::Short => "Short",
        IntType::UShort => "UShort",
        IntType::Int => "Int",
        IntType::UInt => "UInt",
        IntType::Long => "Long",
        IntType::ULong => "ULong",
        IntType::LLong => "LLong",
        IntType::ULLong => "ULLong",
    }
}

fn scalar_told(scalar: Scalar) -> &'static str {
    match scalar {
        Scalar::Int(of) => int_told(of),
        Scalar::Pointer(_) => "ptr",
    }
}

// A type of a file by its number.
fn type_told(laid: &Laid, number: u32) -> &'static str {
    match laid.file.types.get(number as usize) {
        Some(entry) => match entry.ctype {
            CType::Int(of) => int_told(of),
            CType::Pointer(_) => "ptr",
            CType::Struct(_) => "struct",
            CType::Void => "void",
            CType::Array { .. } => "array",
        },
        None => "none",
    }
}

// A text with gaps for numbers and words, and its numbers.
type Form = (&'static str, [i128; 7]);

fn const_form(to: u32, value: Value) -> Form {
    let to = to as i128;
    match value {
        Value::Number(number) => ("t#=#", [to, number, 0, 0, 0, 0, 0]),
        Value::Pointer(Pointer::Null) => ("t#=null", [to, 0, 0, 0, 0, 0, 0]),
        Value::Pointer(Pointer::Invalid) => ("t#=invalid", [to, 0, 0, 0, 0, 0, 0]),
        Value::Pointer(Pointer::To { object, offset }) => (
            "t#=&#+#",
            [to, object as i128, offset as i128, 0, 0, 0, 0],
        ),
    }
}

fn test_form(test: Test) -> Form {
    match test {
        Test::Numbers { left, right, .. } | Test::Pointers { left, right, .. } => {
            ("if t#$t#", [left as i128, right as i128, 0, 0, 0, 0, 0])
        }
        Test::Truth { holds, value } => (
            if holds { "if t#" } else { "if !t#" },
            [value as i128, 0, 0, 0, 0, 0, 0],
        ),
        Test::Case { label, value, .. } => ("if t#$#", [value as i128, label, 0, 0, 0, 0, 0]),
    }
}

// An operation on addresses.
fn address_form(op: Operation) -> Form {
    match op {
        Operation::Base { to, object } => ("t#=&#", [to as i128, object as i128, 0, 0, 0, 0, 0]),
        Operation::Offset { to, from, cells } => (
            "t#=t#.#",
            [to as i128, from as i128, cells as i128, 0, 0, 0, 0],
        ),
        Operation::Index {
            to,
            from,
            length,
            cells,
            by,
            place,
        } => (
            "t#=t#[t#] #x# #:#",
            [
                to as i128,
                from as i128,
                by as i128,
                length as i128,
                cells as i128,
                place.line as i128,
                place.col as i128,
            ],
        ),
        Operation::Move {
            to,
            from,
            cells,
            minus,
            by,
            place,
        } => (
            if minus {
                "t#=t#-t#x# #:#"
            } else {
                "t#=t#+t#x# #:#"
            },
            [
                to as i128,
                from as i128,
                by as i128,
                cells as i128,
                place.line as i128,
                place.col as i128,
                0,
            ],
        ),
        Operation::Deref {
            to,
            from,
            path,
            place,
            ..
        } => (
            "t#=*t# $ on # #:#",
            [
                to as i128,
                from as i128,
                path as i128,
                place.line as i128,
                place.col as i128,
                0,
                0,
            ],
        ),
        Operation::Usable { pointer, place } => (
            "usable t# #:#",
            [
                pointer as i128,
                place.line as i128,
                place.col as i128,
                0,
                0,
                0,
                0,
            ],
        ),
        _ => ("?", [0; 7]),
    }
}

// An operation on cells.
fn memory_form(op: Operation) -> Form {
    match op {
        Operation::Load {
            to,
            address,
            place,
            ..
        } => (
            "t#=[t#] $ #:#",
            [
                to as i128,
                address as i128,
                place.line as i128,
                place.col as i128,
                0,
                0,
                0,
            ],
        ),
        Operation::LoadAny {
            to,
            address,
            place,
            ..
        } => (
            "t#=any[t#] $ #:#",
            [
                to as i128,
                address as i128,
                place.line as i128,
                place.col as i128,
                0,
                0,
                0,
            ],
        ),
        Operation::Store {
            address,
            value,
            into: Into::Object(object),
            place,
            ..
        } => (
            "[t#]=t# $ of # #:#",
            [
                address as i128,
                value as i128,
                object as i128,
                place.line as i128,
                place.col as i128,
                0,
                0,
            ],
        ),
        Operation::Store {
            address,
            value,
            into: Into::Pointed,
            place,
            ..
        } => (
            "[t#]=t# $ pointed #:#",
            [
                address as i128,
                value as i128,
                place.line as i128,
                place.col as i128,
                0,
                0,
                0,
            ],
        ),
        Operation::Clear { object } => ("clear #", [object as i128, 0, 0, 0, 0, 0, 0]),
        _ => address_form(op),
    }
}

// What goes on with other tasks, and tests.
fn control_form(op: Operation) -> Form {
    match op {
        Operation::Skip => ("skip", [0; 7]),
        Operation::Yield => ("yield", [0; 7]),
        Operation::Assume { test } => test_form(test),
        Operation::Lock { mutex, place } => (
            "lock # #:#",
            [
                mutex as i128,
                place.line as i128,
                place.col as i128,
                0,
                0,
                0,
                0,
            ],
        ),
        Operation::Unlock { mutex, place } => (
            "unlock # #:#",
            [
                mutex as i128,
                place.line as i128,
                place.col as i128,
                0,
                0,
                0,
                0,
            ],
        ),
        Operation::Probe { to, mutex, place } => (
            "t#=probe # #:#",
            [
                to as i128,
                mutex as i128,
                place.line as i128,
                place.col as i128,
                0,
                0,
                0,
            ],
        ),
        _ => memory_form(op),
    }
}

// An operation; here those on values.
fn operation_form(op: Operation) -> Form {
    match op {
        Operation::Const { to, value } => const_form(to, value),
        Operation::Copy { to, from } => ("t#=t#", [to as i128, from as i128, 0, 0, 0, 0, 0]),
        Operation::Un {
            to,
            operator,
            from,
            place,
            ..
        } => (
            match operator {
                Unary::Negate => "t#=-t# $ #:#",
                Unary::Complement => "t#=~t# $ #:#",
            },
            [
                to as i128,
                from as i128,
                place.line as i128,
                place.col as i128,
                0,
                0,
                0,
            ],
        ),
        Operation::Bin {
            to,
            left,
            right,
            place,
            ..
        } => (
            "t#=t#$t# $ #:#",
            [
                to as i128,
                left as i128,
                right as i128,
                place.line as i128,
                place.col as i128,
                0,
                0,
            ],
        ),
        Operation::BinPointers {
            to,
            left,
            right,
            ..
        } => (
            "t#=t#$t# ptr",
            [to as i128, left as i128, right as i128, 0, 0, 0, 0],
        ),
        Operation::Convert { to, from, .. } => {
            ("t#=($)t#", [to as i128, from as i128, 0, 0, 0, 0, 0])
        }
        Operation::Any { to, low, high } => ("t#=#..#", [to as i128, low, high, 0, 0, 0, 0]),
        _ => control_form(op),
    }
}

// The word of a test.
fn test_word(test: Test) -> &'static str {
    match test {
        Test::Numbers { operator, .. } => operator_told(operator),
        Test::Pointers { equal, .. } => equality_told(equal),
        Test::Case { holds, .. } => equality_told(holds),
        Test::Truth { .. } => "",
    }
}

// The type by which an operation works, or its sign where it has no type.
fn type_word(laid: &Laid, op: Operation) -> &'static str {
    match op {
        Operation::Un { of, .. } | Operation::Bin { of, .. } | Operation::Convert { of, .. } => {
            int_told(of)
        }
        Operation::BinPointers { equal, .. } => equality_told(equal),
        Operation::Load { scalar, .. } => scalar_told(scalar),
        Operation::LoadAny { scalar, .. } => scalar_told(scalar),
        Operation::Store { scalar, .. } => scalar_told(scalar),
        Operation::Deref { target, .. } => type_told(laid, target),
        Operation::Assume { test } => test_word(test),
        _ => "",
    }
}

fn push_operation(
    alloc: Global,
    text: &mut String,
    laid: &Laid,
    op: Operation,
) -> Result<(), Fail> {
    let (form, numbers) = operation_form(op);
    let word = type_word(laid, op);
    match op {
        Operation::Bin { operator, .. } => {
            push_form(
                alloc,
                text,
                form,
                &numbers,
                &[operator_told(operator), word],
            )
        }
        _ => push_form(alloc, text, form, &numbers, &[word]),
    }
}

// How many nodes a graph has, and its edges.
fn push_graph(alloc: Global, text: &mut String, laid: &Laid, graph: &Graph) -> Result<(), Fail> {
    push_form(alloc, text, "# nodes: ", &[graph.nodes as i128], &[])?;
    for edge in &graph.edges {
        push_form(
            alloc,
            text,
            "#># ",
            &[edge.from as i128, edge.to as i128],
            &[],
        )?;
        push_operation(alloc, text, laid, edge.op)?;
        text.push_str("; ")?;
    }
    Ok(())
}

/// Graphs, one behind the other.
pub fn push_graphs(
    alloc: Global,
    text: &mut String,
    laid: &Laid,
    graphs: &[Graph],
) -> Result<(), Fail> {
    for graph in graphs {
        push_graph(alloc, text, laid, graph)?;
    }
    Ok(())
}
