//! What the builder looks up in a program.
ghost use Rattle.std.specs.Prelude.{◌≡◌, IfOk, get_or, map};
ghost use Rattle.tm_cint.specs.Conversions.{represents_all};
ghost use Rattle.tm_typed.specs.Rules.{is_comparison};
ghost use Rattle.tm_typed.specs.TypeRows.{is_pointer_type};
ghost use Rattle.tm_typed.specs.TypedTrees.{rvalue_tree, lvalue_tree};
ghost use Rattle.tm_typed.specs.TypedStatements.{given_tree};
ghost use Rattle.tm_typed.specs.Files.{no_typed_function};
ghost use Rattle.tm_laid.specs.TypeCells.{entry_of};
ghost use Rattle.tm_laid.specs.Layouts.{callee, object_of, path_at, object_at, cell_at};
ghost use Rattle.lowering.specs.concrete_steps.Places.{rvalue_place, gives_pointer, result_type};
ghost use Rattle.lowering.specs.concrete_steps.NextAction.{step_operator, function_at, is_given, rest_of, scalar_at};
ghost use Rattle.lowering.specs.Table.{conversion, is_same_place, implied, is_value_type, call_has_value, has_value};
ghost use Rattle.lowering.specs.Table.{into};
ghost use Rattle.body_builder.specs.Fragments.{tree_in};

use crate::placing::more;
use flow_graph::Into;
use tm_cint::{BinOp, IntType, represents_all};
use tm_laid::Laid;
use tm_lattice::NoMemory;
use tm_terms::Place;
use tm_typed::{CType, GivenCell, Lvalue, ObjectNumber, Rvalue, Scalar, Step, is_pointer_scalar};

/// Whether an operator compares.
pub fn is_comparison(operator: BinOp) -> bool
    ensures { result ≡ is_comparison operator }
{
    match operator {
        BinOp::Lt | BinOp::Le | BinOp::Gt | BinOp::Ge | BinOp::Eq | BinOp::Ne => true,
        _ => false,
    }
}

/// A conversion, where it makes an operation.
pub fn conversion(from: IntType, to: IntType) -> Option<(IntType, IntType)>
    ensures { result ≡ conversion from to }
{
    if represents_all(to, from) {
        None
    } else {
        Some((from, to))
    }
}

/// Whether two places are the same.
pub fn is_same_place(one: Place, other: Place) -> bool
    ensures { result ≡ is_same_place one other }
{
    one.line == other.line && one.col == other.col
}

/// The operator of `++` or `--`.
pub(crate) fn step_operator(step: Step) -> BinOp
    ensures { result ≡ step_operator step }
{
    if step.minus { BinOp::Sub } else { BinOp::Add }
}

/// Whether a function with a result of this type gives a value.
pub fn is_value_type(ctype: CType) -> bool
    ensures { result ≡ is_value_type ctype }
{
    match ctype {
        CType::Int(_) | CType::Pointer(_) => true,
        CType::Void | CType::Array { .. } | CType::Struct(_) => false,
    }
}

fn is_pointer_type(ctype: CType) -> bool
    ensures { result ≡ is_pointer_type ctype }
{
    match ctype {
        CType::Pointer(_) => true,
        CType::Void | CType::Int(_) | CType::Array { .. } | CType::Struct(_) => false,
    }
}

/// The place of an expression.
pub fn rvalue_place(value: &Rvalue) -> Place
    ensures { result ≡ rvalue_place (rvalue_tree value.now) }
{
    match value {
        Rvalue::Constant { place, .. } => *place,
        Rvalue::Folded { form, .. } => rvalue_place(form),
        Rvalue::Null { place } => *place,
        Rvalue::Load { lvalue, .. } => lvalue.place(),
        Rvalue::Address { place, .. } => *place,
        Rvalue::Structure { lvalue } => lvalue.place(),
        Rvalue::Same { place, .. } => *place,
        Rvalue::Unary { place, .. } => *place,
        Rvalue::Binary { place, .. } => *place,
        Rvalue::Pointers { place, .. } => *place,
        Rvalue::Move { place, .. } => *place,
        Rvalue::Not { place, .. } => *place,
        Rvalue::And { place, .. } => *place,
        Rvalue::Or { place, .. } => *place,
        Rvalue::Conditional { place, .. } => *place,
        Rvalue::Assign { place, .. } => *place,
        Rvalue::Compound { place, .. } => *place,
        Rvalue::CompoundMove { place, .. } => *place,
        Rvalue::Step { place, .. } => *place,
        Rvalue::StepMove { place, .. } => *place,
        Rvalue::Call { place, .. } => *place,
        Rvalue::Input { place, .. } => *place,
        Rvalue::Probe { place, .. } => *place,
        Rvalue::Comma { place, .. } => *place,
        Rvalue::Convert { place, .. } => *place,
        Rvalue::Discard { place, .. } => *place,
    }
}

/// The implied conversion around an operand.
pub fn implied(value: &Rvalue) -> Option<(IntType, IntType)>
    ensures { result ≡ implied (rvalue_tree value.now) }
{
    match value {
        Rvalue::Convert {
            from,
            to,
            value,
            place,
        } => {
            if is_same_place(*place, rvalue_place(value)) {
                conversion(*from, *to)
            } else {
                None
            }
        }
        _ => None,
    }
}

/// The path that goes on from a path by one of its calls.
#[tactic(auto, using(crate::proofs::FileTables::reads), unfolding(crate::specs::Fragments::tree_in))]
pub fn callee(laid: &Laid, path: u32, site: u32) -> u32
    ensures { result ≡ callee (tree_in laid.now) path site }
{
    match laid.callees.get(path as usize) {
        Some(callees) => match callees.get(site as usize) {
            Some(callee) => *callee,
            None => 0,
        },
        None => 0,
    }
}

/// The object that a number stands for on a path.
#[tactic(auto, unfolding(crate::specs::Fragments::tree_in))]
pub fn object_of(laid: &Laid, path: u32, object: ObjectNumber) -> Result<u32, NoMemory>
    ensures { IfOk result (λ o. o ≡ object_of (tree_in laid.now) path object) }
{
    match object {
        ObjectNumber::Static(number) => match laid.statics.get(number as usize) {
            Some(found) => Ok(*found),
            None => Ok(0),
        },
        ObjectNumber::Local(number) => match laid.first_objects.get(path as usize) {
            Some(first) => more(*first, number),
            None => Ok(number),
        },
    }
}

// Where the cells of an object begin.
#[tactic(auto, unfolding(crate::specs::Fragments::tree_in))]
fn first_cell(laid: &Laid, object: u32) -> u32
    ensures { result ≡ (object_at (tree_in laid.now) object).first_cell }
{
    match laid.objects.get(object as usize) {
        Some(found) => found.first_cell,
        None => 0,
    }
}

// The type of a cell.
#[tactic(auto, unfolding(crate::specs::Fragments::tree_in))]
fn scalar_of(laid: &Laid, cell: u32) -> Scalar
    ensures { result ≡ (cell_at (tree_in laid.now) cell).scalar }
{
    match laid.cells.get(cell as usize) {
        Some(found) => found.scalar,
        None => Scalar::Pointer(0),
    }
}

/// The type of a cell of an object.
pub fn scalar_at(laid: &Laid, object: u32, cell: u32) -> Result<Scalar, NoMemory>
    ensures { IfOk result (λ s. s ≡ scalar_at (tree_in laid.now) object cell) }
{
    let number = more(first_cell(laid, object), cell)?;
    Ok(scalar_of(laid, number))
}

/// What a type is.
#[tactic(auto, unfolding(crate::specs::Fragments::tree_in))]
pub fn type_at(laid: &Laid, number: u32) -> CType
    ensures { result ≡ (entry_of (tree_in laid.now).file number).ctype }
{
    match laid.file.types.get(number as usize) {
        Some(entry) => entry.ctype,
        None => CType::Void,
    }
}

// The type of the result of a function.
#[tactic(auto, using(crate::proofs::FileTables::reads), unfolding(crate::specs::Fragments::tree_in))]
fn result_number(laid: &Laid, function: u32) -> u32
    ensures { result ≡ (get_or (tree_in laid.now).file.functions function no_typed_function).result }
{
    match laid.file.functions.get(function as usize) {
        Some(found) => found.result,
        None => 0,
    }
}

/// The function of a path.
#[tactic(auto, unfolding(crate::specs::Fragments::tree_in))]
pub fn function_on(laid: &Laid, path: u32) -> u32
    ensures { result ≡ (path_at (tree_in laid.now) path).function }
{
    match laid.paths.get(path as usize) {
        Some(found) => found.function,
        None => 0,
    }
}

/// The type of the result of the function of a path.
pub fn result_type(laid: &Laid, path: u32) -> CType
    ensures { result ≡ result_type (tree_in laid.now) (function_at (tree_in laid.now) path) }
{
    type_at(laid, result_number(laid, function_on(laid, path)))
}

/// Whether the call at a site gives a value.
pub(crate) fn call_has_value(laid: &Laid, path: u32, site: u32) -> bool
    ensures { result ≡ call_has_value (tree_in laid.now) path site }
{
    is_value_type(result_type(laid, callee(laid, path, site)))
}

/// Whether an expression has a value.
pub(crate) fn has_value(laid: &Laid, path: u32, value: &Rvalue) -> bool
    ensures { result ≡ has_value (tree_in laid.now) path (rvalue_tree value.now) }
{
    match value {
        Rvalue::Structure { .. } => false,
        Rvalue::Same { value, .. } => has_value(laid, path, value),
        Rvalue::Conditional { first, .. } => has_value(laid, path, first),
        Rvalue::Call { site, .. } => call_has_value(laid, path, *site),
        Rvalue::Comma { right, .. } => has_value(laid, path, right),
        Rvalue::Discard { .. } => false,
        _ => true,
    }
}

/// Whether the value of a call of this function is a pointer.
pub(crate) fn call_gives_pointer(laid: &Laid, function: u32) -> bool
    ensures { result ≡ is_pointer_type (result_type (tree_in laid.now)
        (get_or (tree_in laid.now).file.functions function no_typed_function)) }
{
    is_pointer_type(type_at(laid, result_number(laid, function)))
}

/// Whether the value of an expression is a pointer.
pub(crate) fn gives_pointer(laid: &Laid, value: &Rvalue) -> bool
    ensures { result ≡ gives_pointer (tree_in laid.now) (rvalue_tree value.now) }
{
    match value {
        Rvalue::Folded { form, .. } => gives_pointer(laid, form),
        Rvalue::Null { .. } => true,
        Rvalue::Load { scalar, .. } => is_pointer_scalar(*scalar),
        Rvalue::Address { .. } => true,
        Rvalue::Same { value, .. } => gives_pointer(laid, value),
        Rvalue::Move { .. } => true,
        Rvalue::Conditional { first, .. } => gives_pointer(laid, first),
        Rvalue::Assign { scalar, .. } => is_pointer_scalar(*scalar),
        Rvalue::CompoundMove { .. } => true,
        Rvalue::StepMove { .. } => true,
        Rvalue::Call { function, .. } => call_gives_pointer(laid, *function),
        Rvalue::Comma { right, .. } => gives_pointer(laid, right),
        _ => false,
    }
}

/// Where a store into an lvalue goes.
pub(crate) fn into(laid: &Laid, path: u32, lvalue: &Lvalue) -> Result<Into, NoMemory>
    ensures { IfOk result (λ i. i ≡ into (tree_in laid.now) path (lvalue_tree lvalue.now)) }
{
    match lvalue {
        Lvalue::Object { object, .. } => Ok(Into::Object(object_of(laid, path, *object)?)),
        Lvalue::Element { array, .. } => into(laid, path, array),
        Lvalue::Subscript { .. } => Ok(Into::Pointed),
        Lvalue::Pointed { .. } => Ok(Into::Pointed),
        Lvalue::Arrow { .. } => Ok(Into::Pointed),
        Lvalue::Member { structure, .. } => into(laid, path, structure),
    }
}

/// Whether a cell is the next one that is given.
pub fn is_given(cell: u32, given: &[GivenCell]) -> bool
    ensures { result ≡ is_given cell (map given_tree given.now) }
{
    match given {
        [first, ..] => first.cell == cell,
        [] => false,
    }
}

/// The given cells behind the first one, if that is the present cell.
pub fn rest_of(is_given: bool, given: &[GivenCell]) -> &[GivenCell]
    ensures { map given_tree result.now ≡ rest_of is_given (map given_tree given.now) }
{
    match given {
        [_, rest @ ..] if is_given => rest,
        _ => given,
    }
}
