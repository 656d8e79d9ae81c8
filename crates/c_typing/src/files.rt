//! Whole files.
ghost use Rattle.std.specs.Prelude.{◌≡◌, IfOk, IfSome, None, Ok};
ghost use Rattle.tm_trees.specs.FileTrees.{file_tree};
ghost use Rattle.tm_typed.specs.Files.{items_in, first_file_state, typed_function, undefined_use, Closes, IsTyped};
ghost use Rattle.call_graph.specs.Graphs.{lists};
ghost use Rattle.call_graph.specs.Orders.{IsCallOrder, IsWholeOrder};
ghost use Rattle.c_typing.specs.Views.{answer_of, found_of};

use crate::closing::undefined_use;
use crate::found::{Found, nothing_found};
use crate::items::items_in;
use c_type_names::refusal;
use call_graph::{CallOrder, call_order};
use std::alloc::Global;
use tm_lattice::NoMemory;
use tm_terms::{Fail, Kind, Name, Place};
use tm_trees::File;
use tm_typed::TypedFile;

// A refusal of a function that reaches itself.
fn recursive(found: &Found, number: u32) -> Fail
    ensures { result ≡ Fail.Refused (record {
      kind = Kind.Recursive;
      place =
          (typed_function (found_of found.now) number).place;
      limit = None;
    }) }
{
    match found.functions.get(number as usize) {
        Some(function) => refusal(Kind::Recursive, function.place),
        None => refusal(Kind::Recursive, Place { line: 0, col: 0 }),
    }
}

// An order of the functions of a file, or the first definition of one that reaches itself. That calls and definitions
// are of functions of the file follows from how its items are typed.
fn order_of(alloc: Global, file: &File, found: &Found) -> Result<CallOrder, NoMemory>
    requires { items_in first_file_state (file_tree file.now) ≡ Ok (found_of found.now) }
    ensures { IfOk result (λ order. IsCallOrder (found_of found.now).calls found.now.definitions.items order) }
{
    if found.calls.len() > u32::MAX as usize {
        return Err(NoMemory);
    }
    call_order(alloc, &found.calls, &found.definitions)
}

// A file whose items are typed, and in which all that is used is defined.
fn closed(alloc: Global, file: &File, found: Found, main: Option<Name>) -> Result<TypedFile, Fail>
    requires { items_in first_file_state (file_tree file.now) ≡ Ok (found_of found) }
    ensures told { IfSome (answer_of result) (λ answer. Closes (found_of found) main None answer) }
    ensures order { IfOk result (λ f. IsWholeOrder (lists f.calls.items) f.order.items) }
{
    match order_of(alloc, file, &found)? {
        CallOrder::Ordered(order) => Ok(found.finished(main, order)),
        CallOrder::Recursive(function) => Err(recursive(&found, function)),
    }
}

// A file whose items are typed.
fn checked(alloc: Global, file: &File, found: Found, main: Option<Name>) -> Result<TypedFile, Fail>
    requires { items_in first_file_state (file_tree file.now) ≡ Ok (found_of found) }
    ensures told { IfSome (answer_of result) (λ answer. Closes (found_of found) main
        (undefined_use (found_of found)) answer) }
    ensures order { IfOk result (λ f. IsWholeOrder (lists f.calls.items) f.order.items) }
{
    match undefined_use(&found) {
        Some(place) => Err(refusal(Kind::NoBody, place)),
        None => closed(alloc, file, found, main),
    }
}

/// The typed form of a file, or the first construct that meets a row of the rules: its kind and its place. `main` is
/// the name that is spelled so, if there is one. Functions stand behind those that they call in the order of the typed
/// file.
pub fn typed(alloc: Global, file: &File, main: Option<Name>) -> Result<TypedFile, Fail>
    ensures told { IfSome (answer_of result) (λ answer. IsTyped main (file_tree file.now) answer) }
    ensures order { IfOk result (λ f. IsWholeOrder (lists f.calls.items) f.order.items) }
{
    let mut found = nothing_found(alloc)?;
    match items_in(alloc, &mut found, &file.items) {
        Ok(()) => checked(alloc, file, found, main),
        Err(fail) => Err(fail),
    }
}
