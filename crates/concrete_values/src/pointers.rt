//! What the operators of C give on pointers.
ghost use Rattle.std.specs.Prelude.{◌≡◌, Some, ◌+ℤ◌, ◌*ℤ◌, pos, neg_ℤ};
ghost use Rattle.tm_laid.specs.Layouts.{laid_tree};
ghost use Rattle.concrete_values.specs.Pointers.{size_of, pointer_in, shifted, placed, or_invalid, base, part};
ghost use Rattle.concrete_values.specs.Pointers.{is_subscript, element, or_class, directed, moved, usable};
ghost use Rattle.concrete_values.specs.Pointers.{is_same_pointer, is_compared, compared};
ghost use Rattle.concrete_values.specs.Actions.{is_pointer};

use crate::values::{Pointer, Value, number_of, pointer_of, truth_value};
use tm_cint::Class;
use tm_laid::Laid;

/// The size of an object in cells, by its number; none where there is no such object.
#[tactic(auto, unfolding(crate::specs::Pointers::size_of))]
pub fn size_of(laid: &Laid, object: u64) -> Option<u32>
    ensures { result ≡ size_of (laid_tree laid.now) object }
{
    if object < 4_294_967_296 {
        match laid.objects.get(object as usize) {
            Some(laid_object) => Some(laid_object.cells),
            None => None,
        }
    } else {
        None
    }
}

// The pointer to an object of this size at an offset.
fn placed(size: Option<u32>, object: u32, offset: i128) -> Option<Pointer>
    ensures { result ≡ placed size object offset }
{
    match size {
        Some(size) => {
            if 0 <= offset && offset <= i128::from(size) {
                Some(Pointer::To {
                    object,
                    offset: offset as u32,
                })
            } else {
                None
            }
        }
        None => None,
    }
}

// The pointer to an object at an offset.
#[tactic(auto, unfolding(crate::specs::Pointers::pointer_in))]
fn pointer_in(laid: &Laid, object: u32, offset: i128) -> Option<Pointer>
    ensures { result ≡ pointer_in (laid_tree laid.now) object offset }
{
    placed(size_of(laid, u64::from(object)), object, offset)
}

// The pointer to an object of this size, so many cells behind an offset.
#[tactic(auto, using(crate::proofs::Far::far))]
fn placed_behind(size: u32, object: u32, offset: u32, step: i128) -> Option<Pointer>
    ensures { result ≡ placed (Some size) object (pos offset +ℤ step) }
{
    match i128::from(offset).checked_add(step) {
        Some(offset) => placed(Some(size), object, offset),
        None => None,
    }
}

// The pointer so many cells further.
#[tactic(auto, unfolding(crate::specs::Pointers::shifted, crate::specs::Pointers::pointer_in))]
fn shifted(laid: &Laid, pointer: Pointer, step: i128) -> Option<Pointer>
    ensures { result ≡ shifted (laid_tree laid.now) pointer step }
{
    match pointer {
        Pointer::Null | Pointer::Invalid => None,
        Pointer::To { object, offset } => match size_of(laid, u64::from(object)) {
            Some(size) => placed_behind(size, object, offset, step),
            None => None,
        },
    }
}

fn or_invalid(pointer: Option<Pointer>) -> Value
    ensures { result ≡ or_invalid pointer }
{
    match pointer {
        Some(pointer) => Value::Pointer(pointer),
        None => Value::Pointer(Pointer::Invalid),
    }
}

fn or_class(class: Class, pointer: Option<Pointer>) -> Result<Value, Class>
    ensures { result ≡ or_class class pointer }
{
    match pointer {
        Some(pointer) => Ok(Value::Pointer(pointer)),
        None => Err(class),
    }
}

/// The address of an object, by its number.
#[tactic(auto, unfolding(crate::specs::Pointers::base, crate::specs::Pointers::pointer_in, crate::specs::Pointers::size_of))]
pub fn base(laid: &Laid, object: u64) -> Value
    ensures { result ≡ base (laid_tree laid.now) object }
{
    match size_of(laid, object) {
        Some(_) => Value::Pointer(Pointer::To {
            object: object as u32,
            offset: 0,
        }),
        None => Value::Pointer(Pointer::Invalid),
    }
}

/// The address of a part of a structure, which begins at this cell.
#[tactic(auto, unfolding(crate::specs::Pointers::part))]
pub fn part(laid: &Laid, cell: u32, address: Value) -> Value
    ensures { result ≡ part (laid_tree laid.now) cell address }
{
    or_invalid(shifted(laid, pointer_of(address), i128::from(cell)))
}

/// The address of an element of an array of `length` elements of `cells` cells.
#[tactic(auto, unfolding(crate::specs::Pointers::element))]
pub fn element(
    laid: &Laid,
    length: u32,
    cells: u32,
    address: Value,
    index: Value,
) -> Result<Value, Class>
    ensures { result ≡ element (laid_tree laid.now) length cells address index }
{
    let index = number_of(index);
    if 0 <= index && index < i128::from(length) {
        Ok(or_invalid(shifted(laid, pointer_of(address), index * i128::from(cells))))
    } else {
        Err(Class::Index)
    }
}

fn directed(minus: bool, cells: u32) -> i128
    ensures { result ≡ directed minus cells }
{
    if minus {
        -i128::from(cells)
    } else {
        i128::from(cells)
    }
}

// The pointer to an object of this size, so many steps behind an offset.
#[tactic(auto, using(crate::proofs::Far::far_step))]
fn placed_by(size: u32, object: u32, offset: u32, number: i128, step: i128) -> Option<Pointer>
    ensures { result ≡ placed (Some size) object (pos offset +ℤ number *ℤ step) }
{
    match number.checked_mul(step) {
        Some(step) => placed_behind(size, object, offset, step),
        None => None,
    }
}

// The pointer moved by a number of steps.
#[tactic(auto, unfolding(crate::specs::Pointers::shifted, crate::specs::Pointers::pointer_in))]
fn stepped(laid: &Laid, pointer: Pointer, number: i128, step: i128) -> Option<Pointer>
    ensures { result ≡ shifted (laid_tree laid.now) pointer (number *ℤ step) }
{
    match pointer {
        Pointer::Null | Pointer::Invalid => None,
        Pointer::To { object, offset } => match size_of(laid, u64::from(object)) {
            Some(size) => placed_by(size, object, offset, number, step),
            None => None,
        },
    }
}

/// A pointer plus an integer, or less it where `minus` is true, times the cells of its target.
#[tactic(auto, unfolding(crate::specs::Pointers::moved))]
pub fn moved(
    laid: &Laid,
    minus: bool,
    cells: u32,
    pointer: Value,
    index: Value,
) -> Result<Value, Class>
    ensures { result ≡ moved (laid_tree laid.now) minus cells pointer index }
{
    or_class(
        Class::Pointer,
        stepped(
            laid,
            pointer_of(pointer),
            number_of(index),
            directed(minus, cells),
        ),
    )
}

/// A value that is compared or tested: it is not the invalid pointer.
#[tactic(auto, unfolding(crate::specs::Pointers::usable))]
pub fn usable(value: Value) -> Result<Value, Class>
    ensures { result ≡ usable value }
{
    match value {
        Value::Pointer(Pointer::Invalid) => Err(Class::Pointer),
        _ => Ok(value),
    }
}

fn is_same_pointer(left: Pointer, right: Pointer) -> bool
    ensures { result ≡ is_same_pointer left right }
{
    match (left, right) {
        (Pointer::Null, Pointer::Null) | (Pointer::Invalid, Pointer::Invalid) => true,
        (
            Pointer::To { object, offset },
            Pointer::To {
                object: other,
                offset: place,
            },
        ) => object == other && offset == place,
        _ => false,
    }
}

/// `==`, or `!=` where `equal` is false, of two pointers.
#[tactic(auto, unfolding(crate::specs::Pointers::is_compared))]
pub fn compared(equal: bool, left: Value, right: Value) -> Value
    ensures { result ≡ compared equal left right }
{
    let same = is_same_pointer(pointer_of(left), pointer_of(right));
    if equal {
        truth_value(same)
    } else {
        truth_value(!same)
    }
}

/// Whether a pointer is null, invalid, or leads into an object.
pub fn is_pointer(laid: &Laid, pointer: Pointer) -> bool
    ensures { result ≡ is_pointer (laid_tree laid.now) pointer }
{
    match pointer {
        Pointer::Null | Pointer::Invalid => true,
        Pointer::To { object, offset } => pointer_in(laid, object, i128::from(offset)).is_some(),
    }
}
