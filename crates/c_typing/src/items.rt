//! The items of a file, in the order of the text.
ghost use Rattle.std.specs.Prelude.{◌≡◌, map};
ghost use Rattle.tm_trees.specs.FileTrees.{item_tree};
ghost use Rattle.tm_typed.specs.Refusals.{Gives};
ghost use Rattle.tm_typed.specs.Files.{item_in, items_in};
ghost use Rattle.c_typing.specs.Views.{found_of};

use crate::found::Found;
use crate::functions::function_in;
use crate::tasks::{mutex_in, task_in};
use c_declarations::file_declaration;
use std::alloc::Global;
use tm_terms::Fail;
use tm_trees::Item;

#[tactic(auto, using(c_typing_state::proofs::Frames::passes, c_typing_state::proofs::Frames::goes_on))]
fn item_in(alloc: Global, found: &mut Found, item: &Item) -> Result<(), Fail>
    ensures { Gives (λ u. found_of found.new) result (item_in (found_of found.old) (item_tree item.now)) }
{
    match item {
        Item::Declaration(declaration) => { file_declaration(alloc, &mut found.state, declaration) }
        Item::Function(function) => function_in(alloc, found, function),
        Item::Empty => Ok(()),
        Item::Mutex { name, place } => mutex_in(found, *name, *place),
        Item::Task {
            priority,
            name,
            name_place,
            body,
            place,
        } => task_in(alloc, found, priority, *name, *name_place, body, *place),
    }
}

/// The items of a file behind what is found so far.
#[tactic(auto, using(c_typing_state::proofs::Frames::passes, c_typing_state::proofs::Frames::goes_on))]
pub(crate) fn items_in(alloc: Global, found: &mut Found, items: &[Item]) -> Result<(), Fail>
    ensures { Gives (λ u. found_of found.new) result (items_in (found_of found.old) (map item_tree items.now)) }
{
    'items: for item in items {
        item_in(alloc, found, item)?;
    }
    Ok(())
}
