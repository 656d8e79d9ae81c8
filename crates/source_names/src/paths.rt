//! Call paths.
ghost use Rattle.std.specs.Prelude.{◌≡◌, IfOk, map, min, take, length};
ghost use Rattle.tm_laid.specs.Layouts.{laid_tree, path_at};
ghost use Rattle.source_names.specs.Paths.{call_at, calls_back, path_shown, function_of, path_of};
ghost use Rattle.source_names.specs.Paths.{shown_path, lists_of};

use std::alloc::Global;
use tm_laid::{Laid, path_at};
use tm_lattice::NoMemory;
use tm_terms::{Name, Place};

/// A call path as it is shown: its task, and the places of its calls, the outermost first.
#[derive(Drop)]
pub struct NotedPath {
    pub task: u32,
    pub calls: Vec<Place>,
}

// How many call paths of an alarm are shown.
const SHOWN: usize = 8;

// The place of a call of a function.
fn call_at(places: &[Vec<Place>], function: u32, site: u32) -> Place
    ensures { result ≡ call_at (lists_of places.now) function site }
{
    let nowhere = Place { line: 0, col: 0 };
    match places.get(function as usize) {
        Some(calls) => match calls.get(site as usize) {
            Some(place) => *place,
            None => nowhere,
        },
        None => nowhere,
    }
}

// The places of the calls of a path, the innermost first. No chain of calls is longer than there are functions.
fn calls_back(
    alloc: Global,
    laid: &Laid,
    places: &[Vec<Place>],
    path: u32,
) -> Result<Vec<Place>, NoMemory>
    ensures { IfOk result (λ calls. calls.items
        ≡ calls_back (laid_tree laid.now) (lists_of places.now) (length laid.now.file.functions.items) path) }
{
    let mut calls = Vec::new(alloc);
    let mut at = path;
    for _step in 0..laid.file.functions.len() {
        match path_at(laid, at).caller {
            Some(caller) => {
                calls.push(call_at(places, path_at(laid, caller.path).function, caller.site))?;
                at = caller.path;
            }
            None => return Ok(calls),
        }
    }
    Ok(calls)
}

// A path as it is shown.
fn noted_path(
    alloc: Global,
    laid: &Laid,
    places: &[Vec<Place>],
    path: u32,
) -> Result<NotedPath, NoMemory>
    ensures { IfOk result (λ noted. shown_path noted
        ≡ path_shown (laid_tree laid.now) (lists_of places.now) path) }
{
    let mut calls = calls_back(alloc, laid, places, path)?;
    calls.reverse();
    Ok(NotedPath {
        task: path_at(laid, path).body,
        calls,
    })
}

// The first 8 of these paths.
fn first_shown(paths: &[u32]) -> &[u32]
    ensures { result.now ≡ take 8 paths.now }
{
    if paths.len() < SHOWN {
        paths
    } else {
        &paths[..SHOWN]
    }
}

// These paths as they are shown.
#[tactic(auto, using(std::proofs::lemmas::List::map_push, std::proofs::lemmas::List::map_more))]
fn all_noted(
    alloc: Global,
    laid: &Laid,
    places: &[Vec<Place>],
    paths: &[u32],
) -> Result<Vec<NotedPath>, NoMemory>
    ensures shown { IfOk result (λ noted. map shown_path noted.items
        ≡ map (path_shown (laid_tree laid.now) (lists_of places.now)) paths.now) }
    ensures count { IfOk result (λ noted. length noted.items ≡ length paths.now) }
{
    let mut noted = Vec::new(alloc);
    for path in paths {
        noted.push(noted_path(alloc, laid, places, *path)?)?;
    }
    Ok(noted)
}

/// The first 8 of these paths as they are shown, where each function calls at these places.
pub fn noted_paths(
    alloc: Global,
    laid: &Laid,
    places: &[Vec<Place>],
    paths: &[u32],
) -> Result<Vec<NotedPath>, NoMemory>
    ensures shown { IfOk result (λ noted. map shown_path noted.items
        ≡ map (path_shown (laid_tree laid.now) (lists_of places.now)) (take 8 paths.now)) }
    ensures count { IfOk result (λ noted. length noted.items ≡ min 8 (length paths.now)) }
{
    all_noted(alloc, laid, places, first_shown(paths))
}

/// The function in which a path ends.
pub fn function_of(laid: &Laid, path: Option<u32>) -> Name
    ensures { result ≡ function_of (laid_tree laid.now) path }
{
    let nobody = Name {
        start: 0,
        length: 0,
    };
    match path {
        Some(path) => match laid
            .file
            .functions
            .get(path_at(laid, path).function as usize)
        {
            Some(function) => function.name,
            None => nobody,
        },
        None => nobody,
    }
}

/// The path on which an edge of a body stands.
pub fn path_of(edge_paths: &[Vec<u32>], body: u32, edge: usize) -> u32
    ensures { result ≡ path_of (map (λ paths. paths.items) edge_paths.now) body edge }
{
    match edge_paths.get(body as usize) {
        Some(paths) => match paths.get(edge) {
            Some(path) => *path,
            None => 0,
        },
        None => 0,
    }
}
