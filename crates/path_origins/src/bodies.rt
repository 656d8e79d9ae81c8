//! The bodies of call paths are walked.
ghost use Rattle.std.specs.Prelude.{◌≡◌, IfOk, OnOk, option_map, true};
ghost use Rattle.tm_typed.specs.TypedFiles.{typed_body_tree};
ghost use Rattle.tm_laid.specs.Layouts.{laid_tree};
ghost use Rattle.path_origins.specs.Opens.{is_among};
ghost use Rattle.path_origins.specs.Bodies.{fallen, closing, is_task_path, noted_path};
ghost use Rattle.path_origins.specs.Shown.{shown, sizes_in};
ghost use Rattle.path_origins.specs.reading.Walks.{IsBehind};
ghost use Rattle.path_origins.specs.reading.Leaving.{body_noted, function_noted};

use crate::lookups::function_at;
use crate::notes::{end_scopes, no_notes, note, note_fall, note_skips};
use crate::opens::Opens;
use crate::origins::{Form, Notes};
use crate::statements::{Ways, walk_statements};
use crate::walks::Here;
use body_builder::{more, result_type};
use std::alloc::Global;
use tm_laid::{Laid, path_at};
use tm_lattice::NoMemory;
use tm_terms::Place;
use tm_typed::{CType, TypedBody, TypedFunction};

// Any value of a function that ends without `return` (C99 6.9.1p12).
fn walk_fall(to: &mut Notes, place: Place, ctype: CType) -> Result<(), NoMemory>
    ensures { OnOk result (IsBehind to.old to.new (fallen place ctype)) }
{
    match ctype {
        CType::Int(_) => {
            note_fall(to)?;
            note(to, place, Form::Any)
        }
        CType::Pointer(_) => {
            note_fall(to)?;
            note(to, place, Form::Constant)
        }
        CType::Void | CType::Array { .. } | CType::Struct(_) => Ok(()),
    }
}

// The end of a task, to which so many `return`s lead.
fn walk_task_end(to: &mut Notes, place: Place, returns: u32) -> Result<(), NoMemory>
    ensures { OnOk result (IsBehind to.old to.new (closing true place returns)) }
{
    if returns == 0 {
        return Ok(());
    }
    note_skips(to, place, more(returns, 1)?)
}

// The end of a function, to which so many `return`s lead.
fn walk_closing(to: &mut Notes, place: Place, returns: u32, is_task: bool) -> Result<(), NoMemory>
    ensures { OnOk result (IsBehind to.old to.new (closing is_task place returns)) }
{
    if is_task {
        return walk_task_end(to, place, returns);
    }
    note_skips(to, place, more(returns, 1)?)
}

// Whether a path is that of a task itself.
fn is_task_path(laid: &Laid, path: u32) -> bool
    ensures { result ≡ is_task_path (laid_tree laid.now) path }
{
    let found = path_at(laid, path);
    found.caller.is_none() && (found.body as usize) < laid.file.tasks.len()
}

// The body of a path, whose function stands at a place.
#[tactic(auto, unfolding(body_builder::specs::Fragments::tree_in))]
fn walk_body(
    here: &Here<'_>,
    to: &mut Notes,
    place: Place,
    body: &TypedBody,
) -> Result<(), NoMemory>
    ensures { OnOk result (IsBehind to.old to.new (body_noted (laid_tree here.now.laid.now)
        (is_among here.now.opens.now) (sizes_in here.now.sizes.now) here.now.path place (typed_body_tree body.now))) }
{
    let outer = to.unended.len();
    let mut ways = Ways {
        breaks: 0,
        continues: 0,
        returns: 0,
    };
    walk_statements(here, to, &mut ways, &body.statements, false)?;
    walk_fall(to, place, result_type(here.laid, here.path))?;
    let is_task = is_task_path(here.laid, here.path);
    walk_closing(to, place, ways.returns, is_task)?;
    end_scopes(to, outer)
}

// A function; one without a body gives a constant.
fn walk_function(here: &Here<'_>, to: &mut Notes, function: &TypedFunction) -> Result<(), NoMemory>
    ensures { OnOk result (IsBehind to.old to.new (function_noted (laid_tree here.now.laid.now)
        (is_among here.now.opens.now) (sizes_in here.now.sizes.now) here.now.path function.now.place
        (option_map typed_body_tree function.now.body))) }
{
    match &function.body {
        Some(body) => walk_body(here, to, function.place, body),
        None => note(to, function.place, Form::Constant),
    }
}

/// What is noted of the body of a path, where those of the paths that calls lead to have so many edges, and the signs
/// `(` stand at these places.
pub fn noted_path(
    alloc: Global,
    laid: &Laid,
    opens: &Opens,
    sizes: &[u32],
    path: u32,
) -> Result<Notes, NoMemory>
    ensures { IfOk result (λ notes. shown notes ≡ noted_path (laid_tree laid.now) (is_among opens.now)
        (sizes_in sizes.now) path) }
{
    match function_at(laid, path) {
        Some(function) => {
            let here = Here {
                alloc,
                laid,
                sizes,
                path,
                opens,
            };
            let mut to = no_notes(alloc);
            walk_function(&here, &mut to, function)?;
            Ok(to)
        }
        None => Err(NoMemory),
    }
}
