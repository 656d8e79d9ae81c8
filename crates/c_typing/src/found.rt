//! What is found so far of a file, and the typed file at its end.
ghost use Rattle.std.specs.Prelude.{◌≡◌, IfOk, [], ◌∷◌, ◌++◌, OnOk};
ghost use Rattle.tm_typed.specs.Files.{first_file_state, file_of};
ghost use Rattle.tm_typed.specs.TypedFiles.{typed_file_tree};
ghost use Rattle.c_typing.specs.Views.{found_of};

use crate::closing::main_of;
use c_typing_state::{State, Tables};
use std::alloc::Global;
use tm_lattice::NoMemory;
use tm_terms::Name;
use tm_typed::{MutexEntry, TypedFile, TypedFunction, TypedTask};

/// The state of typing, the functions and the functions that each calls, the tasks and mutexes, and the functions with
/// bodies in the order of the text.
pub(crate) struct Found {
    pub(crate) state: State,
    pub(crate) functions: Vec<TypedFunction>,
    pub(crate) calls: Vec<Vec<u32>>,
    pub(crate) tasks: Vec<TypedTask>,
    pub(crate) mutexes: Vec<MutexEntry>,
    pub(crate) definitions: Vec<u32>,
}

// Written by hand, so that a function which lets it go calls this, and its check does not go through the tables.
impl Drop for Found {
    fn drop(self) {
        let Found {
            state: _state,
            functions: _functions,
            calls: _calls,
            tasks: _tasks,
            mutexes: _mutexes,
            definitions: _definitions,
        } = self;
    }
}

impl Found {
    /// The typed file, with an order of its functions.
    pub(crate) fn finished(self, main: Option<Name>, order: Vec<u32>) -> TypedFile
        ensures file { typed_file_tree result ≡ file_of (found_of self) main }
        ensures calls { result.calls ≡ self.calls }
        ensures order { result.order ≡ order }
    {
        let main = main_of(&self, main);
        let Found {
            state,
            functions,
            calls,
            tasks,
            mutexes,
            definitions: _definitions,
        } = self;
        let Tables {
            types,
            structs,
            statics,
            uses: _uses,
            lengths,
            constants,
            labels,
            sizes,
        } = state.into_tables();
        TypedFile {
            types,
            structs,
            statics,
            functions,
            calls,
            tasks,
            mutexes,
            main,
            lengths,
            constants,
            labels,
            sizes,
            order,
        }
    }
}

/// Before the first item.
pub(crate) fn nothing_found(alloc: Global) -> Result<Found, NoMemory>
    ensures { IfOk result (λ f. found_of f ≡ first_file_state) }
{
    let state = State::new(alloc)?;
    Ok(Found {
        state,
        functions: Vec::new(alloc),
        calls: Vec::new(alloc),
        tasks: Vec::new(alloc),
        mutexes: Vec::new(alloc),
        definitions: Vec::new(alloc),
    })
}

/// One more at the end.
pub(crate) fn push<T: Drop>(items: &mut Vec<T>, item: T) -> Result<(), NoMemory>
    ensures { OnOk result (items.new.items ≡ items.old.items ++ item ∷ []) }
{
    match items.push(item) {
        Ok(()) => Ok(()),
        Err(_) => Err(NoMemory),
    }
}

/// How many there are, as a number of the tables.
pub(crate) fn number(n: usize) -> Result<u32, NoMemory>
    ensures { IfOk result (λ m. m ≡ n) }
{
    match u32::try_from(n) {
        Ok(number) => Ok(number),
        Err(_) => Err(NoMemory),
    }
}
