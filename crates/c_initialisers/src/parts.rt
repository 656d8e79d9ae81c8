//! The parts of an aggregate, in order.
ghost use Rattle.std.specs.Prelude.{◌≡◌, ◌+◌, ◌*◌, option_map, slice_get, map};
ghost use Rattle.tm_terms.specs.ExprTrees.{tree_of};
ghost use Rattle.tm_trees.specs.DeclarationTrees.{value_tree, as_values};
ghost use Rattle.tm_typed.specs.Scopes.{structure};
ghost use Rattle.tm_typed.specs.Initialisers.{part_of, part, is_aggregate, lone};
ghost use Rattle.c_initialisers.specs.reading.Parts.{element_in};

use c_scope::{Scope, clipped_product};
use tm_terms::Expr;
use tm_trees::Value;
use tm_typed::{CType, Part, Qualified};

// An element of an array.
fn element(scope: &Scope, of: u32, length: u32, index: usize) -> Option<Part>
    ensures { result ≡ element_in scope.now of length index }
{
    if index < length as usize {
        Some(Part {
            of: Qualified {
                number: of,
                constant: false,
                volatile: false,
            },
            cell: clipped_product(index as u32, scope.cells(of)),
        })
    } else {
        None
    }
}

// A member of a structure.
fn member(scope: &Scope, number: u32, index: usize) -> Option<Part>
    ensures { result ≡ part_of (slice_get (structure scope.now number).members index) }
{
    match scope.structure(number) {
        Some(structure) => match structure.members.get(index) {
            Some(member) => Some(member.part),
            None => None,
        },
        None => None,
    }
}

/// The part with this number of an array or a structure.
pub(crate) fn part(scope: &Scope, of: u32, index: usize) -> Option<Part>
    ensures { result ≡ part scope.now of index }
{
    match scope.ctype(of) {
        CType::Array {
            element: of,
            length,
        } => element(scope, of, length, index),
        CType::Struct(structure) => member(scope, structure, index),
        CType::Void | CType::Int(_) | CType::Pointer(_) => None,
    }
}

/// Whether a type is one of arrays and structures.
pub(crate) fn is_aggregate(scope: &Scope, of: u32) -> bool
    ensures { result ≡ is_aggregate scope.now of }
{
    match scope.ctype(of) {
        CType::Array { .. } | CType::Struct(_) => true,
        CType::Void | CType::Int(_) | CType::Pointer(_) => false,
    }
}

/// The one expression in braces.
pub(crate) fn lone(values: &[Value]) -> Option<&Expr>
    ensures { option_map (λ e. tree_of e.now) result ≡ lone (as_values (map value_tree values.now)) }
{
    if values.len() != 1 {
        return None;
    }
    match &values[0] {
        Value::Expression(expr) => Some(expr),
        Value::List { .. } => None,
    }
}
