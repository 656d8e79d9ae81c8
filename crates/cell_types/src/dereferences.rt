//! Dereferences.
ghost use Rattle.std.specs.Prelude.{◌≡◌, ◌≤◌, length, pos, is_some};
ghost use Rattle.tm_typed.specs.TypedFiles.{typed_file_tree};
ghost use Rattle.tm_laid.specs.Layable.{IsLayable};
ghost use Rattle.tm_laid.specs.Layouts.{laid_tree};
ghost use Rattle.concrete_values.specs.Pointers.{pointer_in, is_object_at, is_dereferenceable, dereferenced};

use crate::stands::stands_at;
use concrete_values::{Pointer, Value, pointer_of, size_of};
use tm_cint::Class;
use tm_laid::{Laid, is_alive};

// Whether the offset lies in the object, or one past its last cell.
#[tactic(auto, unfolding(concrete_values::specs::Pointers::pointer_in, concrete_values::specs::Pointers::placed))]
fn is_inside(laid: &Laid, object: u32, offset: u32) -> bool
    ensures { result ≡ is_some (pointer_in (laid_tree laid.now) object (pos offset)) }
{
    match size_of(laid, u64::from(object)) {
        Some(cells) => offset <= cells,
        None => false,
    }
}

// Whether the object is there and alive, and the cells of the type stand at the offset.
fn is_object_at(laid: &Laid, path: u32, object: u32, offset: u32, of: u32) -> bool
    requires layable { IsLayable (typed_file_tree laid.now.file) laid.now.file.order.items }
    requires few { length laid.now.cells.items ≤ 65536 }
    ensures { result ≡ is_object_at (laid_tree laid.now) path object offset of }
{
    is_inside(laid, object, offset)
        && (is_alive(laid, path, object) && stands_at(laid, object, offset, of))
}

// Whether a pointer designates what has this type.
#[tactic(auto, unfolding(concrete_values::specs::Pointers::is_dereferenceable))]
fn is_dereferenceable(laid: &Laid, path: u32, of: u32, pointer: Pointer) -> bool
    requires layable { IsLayable (typed_file_tree laid.now.file) laid.now.file.order.items }
    requires few { length laid.now.cells.items ≤ 65536 }
    ensures { result ≡ is_dereferenceable (laid_tree laid.now) path of pointer }
{
    match pointer {
        Pointer::Null | Pointer::Invalid => false,
        Pointer::To { object, offset } => is_object_at(laid, path, object, offset, of),
    }
}

/// What a pointer to the type `of` designates on a call path. Condition: the file can be laid out, and there are no
/// more cells than its limit.
#[tactic(auto, unfolding(concrete_values::specs::Pointers::dereferenced))]
pub fn dereferenced(laid: &Laid, path: u32, of: u32, pointer: Value) -> Result<Value, Class>
    requires layable { IsLayable (typed_file_tree laid.now.file) laid.now.file.order.items }
    requires few { length laid.now.cells.items ≤ 65536 }
    ensures { result ≡ dereferenced (laid_tree laid.now) path of pointer }
{
    let pointer = pointer_of(pointer);
    if is_dereferenceable(laid, path, of, pointer) {
        Ok(Value::Pointer(pointer))
    } else {
        Err(Class::Deref)
    }
}
