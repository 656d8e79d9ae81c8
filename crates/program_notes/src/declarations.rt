//! Tasks, mutexes and objects of a program, with the places where they are declared.
ghost use Rattle.std.specs.Prelude.{◌≡◌, ◌++◌, IfOk, OnOk};
ghost use Rattle.tm_laid.specs.Layouts.{laid_tree};
ghost use Rattle.program_notes.specs.Declarations.{declared_function, task_runner, task_runners, section_runners};
ghost use Rattle.program_notes.specs.Declarations.{runners_of, mutexes_of, owner_of, declared_object, objects_of};

use std::alloc::Global;
use tm_laid::{Laid, LaidObject};
use tm_lattice::NoMemory;
use tm_terms::{Name, Place};
use tm_typed::TypedTask;

/// A name, and its place: where a function is defined, and else where it is declared first.
#[derive(Clone, Copy)]
pub struct Declaration {
    pub name: Name,
    pub place: Place,
}

/// The function of a task, and its priority; the initial section has none.
#[derive(Clone, Copy)]
pub struct Runner {
    pub of: Declaration,
    pub priority: Option<u8>,
}

/// The function whose parameter or local object an object is, and the task that has it to itself; one of static storage
/// has neither.
#[derive(Clone, Copy)]
pub(crate) struct Owner {
    pub(crate) function: Name,
    pub(crate) task: Option<u32>,
}

/// An object, the number of its cells, and to what it belongs.
#[derive(Clone, Copy)]
pub struct DeclaredObject {
    pub of: Declaration,
    pub cells: u32,
    pub function: Name,
    pub task: Option<u32>,
}

/// What a program declares, each by its number: the tasks and, behind them, the initial section; the mutexes; the
/// objects.
#[derive(Drop)]
pub struct Declared {
    pub runners: Vec<Runner>,
    pub mutexes: Vec<Declaration>,
    pub objects: Vec<DeclaredObject>,
}

/// The function with this number.
fn declared_function(laid: &Laid, function: u32) -> Declaration
    ensures { result ≡ declared_function (laid_tree laid.now) function }
{
    match laid.file.functions.get(function as usize) {
        None => Declaration {
            name: Name {
                start: 0,
                length: 0,
            },
            place: Place { line: 0, col: 0 },
        },
        Some(found) => Declaration {
            name: found.name,
            place: found.place,
        },
    }
}

/// A task.
fn task_runner(laid: &Laid, task: TypedTask) -> Runner
    ensures { result ≡ task_runner (laid_tree laid.now) task }
{
    Runner {
        of: declared_function(laid, task.function),
        priority: Some(task.priority),
    }
}

/// The tasks.
fn task_runners(alloc: Global, laid: &Laid) -> Result<Vec<Runner>, NoMemory>
    ensures { IfOk result (λ runners. runners.items ≡ task_runners (laid_tree laid.now)) }
{
    let mut runners = Vec::new(alloc);
    for task in &laid.file.tasks {
        runners.push(task_runner(laid, *task))?;
    }
    Ok(runners)
}

/// Adds the initial section, if there is one.
fn push_section(laid: &Laid, runners: &mut Vec<Runner>) -> Result<(), NoMemory>
    ensures { OnOk result (runners.new.items ≡ runners.old.items
        ++ section_runners (laid_tree laid.now) laid.now.file.main) }
{
    match laid.file.main {
        None => Ok(()),
        Some(function) => {
            runners.push(Runner {
                of: declared_function(laid, function),
                priority: None,
            })?;
            Ok(())
        }
    }
}

/// The tasks, and the initial section, if there is one.
fn runners_of(alloc: Global, laid: &Laid) -> Result<Vec<Runner>, NoMemory>
    ensures { IfOk result (λ runners. runners.items ≡ runners_of (laid_tree laid.now)) }
{
    let mut runners = task_runners(alloc, laid)?;
    push_section(laid, &mut runners)?;
    Ok(runners)
}

/// The mutexes.
fn mutexes_of(alloc: Global, laid: &Laid) -> Result<Vec<Declaration>, NoMemory>
    ensures { IfOk result (λ mutexes. mutexes.items ≡ mutexes_of (laid_tree laid.now)) }
{
    let mut mutexes = Vec::new(alloc);
    for entry in &laid.file.mutexes {
        mutexes.push(Declaration {
            name: entry.name,
            place: entry.place,
        })?;
    }
    Ok(mutexes)
}

/// To what an object of a call path belongs.
fn owner_of(laid: &Laid, owner: Option<u32>) -> Owner
    ensures { result ≡ owner_of (laid_tree laid.now) owner }
{
    let nobody = Owner {
        function: Name {
            start: 0,
            length: 0,
        },
        task: None,
    };
    match owner {
        None => nobody,
        Some(path) => match laid.paths.get(path as usize) {
            None => nobody,
            Some(found) => Owner {
                function: declared_function(laid, found.function).name,
                task: Some(found.body),
            },
        },
    }
}

/// An object.
fn declared_object(laid: &Laid, object: LaidObject) -> DeclaredObject
    ensures { result ≡ declared_object (laid_tree laid.now) object }
{
    let owner = owner_of(laid, object.owner);
    DeclaredObject {
        of: Declaration {
            name: object.name,
            place: object.place,
        },
        cells: object.cells,
        function: owner.function,
        task: owner.task,
    }
}

/// The objects.
fn objects_of(alloc: Global, laid: &Laid) -> Result<Vec<DeclaredObject>, NoMemory>
    ensures { IfOk result (λ objects. objects.items ≡ objects_of (laid_tree laid.now)) }
{
    let mut objects = Vec::new(alloc);
    for object in &laid.objects {
        objects.push(declared_object(laid, *object))?;
    }
    Ok(objects)
}

/// What a layout declares.
pub fn declared_of(alloc: Global, laid: &Laid) -> Result<Declared, NoMemory>
    ensures runners { IfOk result (λ declared. declared.runners.items ≡ runners_of (laid_tree laid.now)) }
    ensures mutexes { IfOk result (λ declared. declared.mutexes.items ≡ mutexes_of (laid_tree laid.now)) }
    ensures objects { IfOk result (λ declared. declared.objects.items ≡ objects_of (laid_tree laid.now)) }
{
    let runners = runners_of(alloc, laid)?;
    let mutexes = mutexes_of(alloc, laid)?;
    let objects = objects_of(alloc, laid)?;
    Ok(Declared {
        runners,
        mutexes,
        objects,
    })
}
