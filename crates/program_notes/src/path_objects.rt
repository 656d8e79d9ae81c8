//! Call paths.
ghost use Rattle.std.specs.Prelude.{◌≡◌, ◌++◌, OnOk};
ghost use Rattle.notes_json.specs.Pieces.{listed};
ghost use Rattle.program_notes.specs.Paths.{path_text};

use crate::lists::push_places;
use notes_json::{push_comma, push_path_back};
use source_names::NotedPath;
use std::alloc::Global;
use tm_lattice::NoMemory;
use tm_terms::push_bytes;

/// Appends a call path.
fn push_path(alloc: Global, text: &mut Vec<u8>, path: &NotedPath) -> Result<(), NoMemory>
    ensures { OnOk result (text.new.items ≡ text.old.items ++ path_text path.now) }
{
    push_bytes(text, b"{\"calls\":[")?;
    push_places(alloc, text, &path.calls)?;
    push_path_back(alloc, text, path.task)
}

/// Appends call paths.
pub(crate) fn push_paths(
    alloc: Global,
    text: &mut Vec<u8>,
    paths: &[NotedPath],
) -> Result<(), NoMemory>
    ensures { OnOk result (text.new.items ≡ text.old.items ++ listed path_text paths.now) }
{
    for (at, path) in paths.iter().enumerate() {
        push_comma(text, at)?;
        push_path(alloc, text, path)?;
    }
    Ok(())
}
