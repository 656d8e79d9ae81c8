//! The names of tasks, mutexes and objects.
ghost use Rattle.std.specs.Prelude.{◌≡◌, slice_get, IfOk};
ghost use Rattle.tm_laid.specs.Layouts.{laid_tree};
ghost use Rattle.note_lines.specs.Names.{function_name, task_names, task_priorities, mutex_names};
ghost use Rattle.note_lines.specs.Names.{object_names};

use std::alloc::Global;
use tm_laid::Laid;
use tm_lattice::NoMemory;
use tm_terms::{Name, Place};

/// The name of an object, and the place where it is declared first.
#[derive(Clone, Copy)]
pub struct ObjectName {
    pub name: Name,
    pub place: Place,
}

/// The names of the tasks of a program, with their priorities, of its mutexes and of its objects, each by its number.
#[derive(Drop)]
pub struct Names {
    pub tasks: Vec<Name>,
    pub priorities: Vec<u8>,
    pub mutexes: Vec<Name>,
    pub objects: Vec<ObjectName>,
}

/// The name of a function.
fn function_name(laid: &Laid, function: u32) -> Name
    ensures { result ≡ function_name (slice_get (laid_tree laid.now).file.functions function) }
{
    match laid.file.functions.get(function as usize) {
        None => Name {
            start: 0,
            length: 0,
        },
        Some(found) => found.name,
    }
}

/// The names of the tasks.
fn task_names(alloc: Global, laid: &Laid) -> Result<Vec<Name>, NoMemory>
    ensures { IfOk result (λ names. names.items ≡ task_names (laid_tree laid.now)) }
{
    let mut names = Vec::new(alloc);
    for task in &laid.file.tasks {
        names.push(function_name(laid, task.function))?;
    }
    Ok(names)
}

/// The priorities of the tasks.
fn task_priorities(alloc: Global, laid: &Laid) -> Result<Vec<u8>, NoMemory>
    ensures { IfOk result (λ priorities. priorities.items ≡ task_priorities (laid_tree laid.now)) }
{
    let mut priorities = Vec::new(alloc);
    for task in &laid.file.tasks {
        priorities.push(task.priority)?;
    }
    Ok(priorities)
}

/// The names of the mutexes.
fn mutex_names(alloc: Global, laid: &Laid) -> Result<Vec<Name>, NoMemory>
    ensures { IfOk result (λ names. names.items ≡ mutex_names (laid_tree laid.now)) }
{
    let mut names = Vec::new(alloc);
    for entry in &laid.file.mutexes {
        names.push(entry.name)?;
    }
    Ok(names)
}

/// The names of the objects.
fn object_names(alloc: Global, laid: &Laid) -> Result<Vec<ObjectName>, NoMemory>
    ensures { IfOk result (λ names. names.items ≡ object_names (laid_tree laid.now)) }
{
    let mut names = Vec::new(alloc);
    for object in &laid.objects {
        names.push(ObjectName {
            name: object.name,
            place: object.place,
        })?;
    }
    Ok(names)
}

/// The names of a layout.
pub fn names_of(alloc: Global, laid: &Laid) -> Result<Names, NoMemory>
    ensures objects { IfOk result (λ names. names.objects.items ≡ object_names (laid_tree laid.now)) }
    ensures tasks { IfOk result (λ names. names.tasks.items ≡ task_names (laid_tree laid.now)) }
    ensures priorities { IfOk result (λ names. names.priorities.items ≡ task_priorities (laid_tree laid.now)) }
    ensures mutexes { IfOk result (λ names. names.mutexes.items ≡ mutex_names (laid_tree laid.now)) }
{
    let tasks = task_names(alloc, laid)?;
    let priorities = task_priorities(alloc, laid)?;
    let mutexes = mutex_names(alloc, laid)?;
    let objects = object_names(alloc, laid)?;
    Ok(Names {
        tasks,
        priorities,
        mutexes,
        objects,
    })
}
