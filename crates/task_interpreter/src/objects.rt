//! What a layout says of paths, functions and objects.
ghost use Rattle.std.specs.Prelude.{◌≡◌, ◌<◌, ◌^◌, length, map, get_or, option_copied, option_map};
ghost use Rattle.tm_typed.specs.declared.scopes.ObjectNumber.TheVariants.{Local};
ghost use Rattle.tm_typed.specs.TypedStatements.{given_tree};
ghost use Rattle.tm_typed.specs.Files.{no_typed_function};
ghost use Rattle.tm_typed.specs.TypedFiles.{typed_body_tree};
ghost use Rattle.tm_laid.specs.Layouts.{laid_tree, object_at, object_of};
ghost use Rattle.concrete_steps.specs.Places.{result_type};
ghost use Rattle.concrete_steps.specs.NextAction.{function_at, scalar_at, zero_of, is_given, rest_of};

use concrete_values::{Pointer, Value};
use tm_laid::{Laid, cell_at, path_at};
use tm_typed::{CType, GivenCell, ObjectNumber, Scalar, TypedBody};

// The number of the first parameter or local object of a path.
fn first_object(laid: &Laid, path: u32) -> u32
    ensures { result ≡ get_or (laid_tree laid.now).first_objects path 0 }
{
    match laid.first_objects.get(path as usize) {
        Some(object) => *object,
        None => 0,
    }
}

// The number of an object of static storage.
fn static_object(laid: &Laid, number: u32) -> u32
    ensures { result ≡ get_or (laid_tree laid.now).statics number 0 }
{
    match laid.statics.get(number as usize) {
        Some(object) => *object,
        None => 0,
    }
}

/// The object that a number stands for on a path.
pub(crate) fn object_of(laid: &Laid, path: u32, number: ObjectNumber) -> u64
    ensures { result ≡ object_of (laid_tree laid.now) path number }
{
    match number {
        ObjectNumber::Static(number) => u64::from(static_object(laid, number)),
        ObjectNumber::Local(number) => u64::from(first_object(laid, path)) + u64::from(number),
    }
}

/// The object of a parameter of a path.
pub(crate) fn parameter(laid: &Laid, path: u32, number: usize) -> u64
    requires small { number < 2 ^ 63 }
    ensures { result ≡ object_of (laid_tree laid.now) path (Local number) }
{
    u64::from(first_object(laid, path)) + number as u64
}

// Where the cells of an object begin.
fn first_cell(laid: &Laid, object: u64) -> u32
    ensures { result ≡ (object_at (laid_tree laid.now) object).first_cell }
{
    match laid.objects.get(object as usize) {
        Some(entry) => entry.first_cell,
        None => 0,
    }
}

/// How many cells an object has.
pub(crate) fn cells_of(laid: &Laid, object: u64) -> u32
    ensures { result ≡ (object_at (laid_tree laid.now) object).cells }
{
    match laid.objects.get(object as usize) {
        Some(entry) => entry.cells,
        None => 0,
    }
}

/// The type of a cell of an object.
pub(crate) fn scalar_at(laid: &Laid, object: u64, cell: u32) -> Scalar
    ensures { result ≡ scalar_at (laid_tree laid.now) object cell }
{
    let index = first_cell(laid, object) as usize + cell as usize;
    cell_at(laid, index).scalar
}

/// Zero, or the null pointer.
pub(crate) fn zero_of(scalar: Scalar) -> Value
    ensures { result ≡ zero_of scalar }
{
    match scalar {
        Scalar::Int(_) => Value::Number(0),
        Scalar::Pointer(_) => Value::Pointer(Pointer::Null),
    }
}

// The number of the type of a function's result.
fn result_number(laid: &Laid, function: u32) -> u32
    ensures { result ≡ (get_or (laid_tree laid.now).file.functions function no_typed_function).result }
{
    match laid.file.functions.get(function as usize) {
        Some(entry) => entry.result,
        None => 0,
    }
}

/// The type of a function's result.
pub(crate) fn result_of(laid: &Laid, function: u32) -> CType
    ensures { result ≡ result_type (laid_tree laid.now)
        (get_or (laid_tree laid.now).file.functions function no_typed_function) }
{
    match laid.file.types.get(result_number(laid, function) as usize) {
        Some(entry) => entry.ctype,
        None => CType::Void,
    }
}

/// How many functions there are: no chain of calls is longer.
pub(crate) fn depth_of(laid: &Laid) -> usize
    ensures { result ≡ length (laid_tree laid.now).file.functions }
{
    laid.file.functions.len()
}

/// The body of the function of a path, if it has one.
pub(crate) fn body_of(laid: &Laid, path: u32) -> Option<&TypedBody>
    ensures { option_map typed_body_tree (option_copied result) ≡ (function_at (laid_tree laid.now) path).body }
{
    match laid
        .file
        .functions
        .get(path_at(laid, path).function as usize)
    {
        Some(entry) => match &entry.body {
            Some(body) => Some(body),
            None => None,
        },
        None => None,
    }
}

/// The cells that an initialiser gives behind this one.
pub(crate) fn remaining(given: &[GivenCell], cell: u32) -> &[GivenCell]
    ensures { map given_tree result.now
        ≡ rest_of (is_given cell (map given_tree given.now)) (map given_tree given.now) }
{
    match given.split_first() {
        Some((first, rest)) => { if first.cell == cell { rest } else { given } }
        None => given,
    }
}
