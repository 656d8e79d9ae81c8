//! Typed files: objects, functions, tasks and mutexes, with the tables that number them.
use crate::scopes::StructEntry;
use crate::statements::TypedStatement;
use crate::types::{Qualified, TypeEntry};
use tm_trees::{Name, Place};

/// What a cell of an object of static storage holds before the program runs.
#[derive(Clone, Copy)]
pub enum StaticValue {
    Number(i128),
    /// A null pointer.
    Null,
    /// The address of a cell of an object of static storage, or of what is behind its last.
    Address { object: u32, cell: u32 },
}

/// A cell that a static initialiser gives, by its number in the object.
#[derive(Clone, Copy)]
pub struct StaticCell {
    pub cell: u32,
    pub value: StaticValue,
}

/// An object of static storage: its name and place in its first declaration, its type, and the cells that its
/// initialiser gives in rising order, the others being zero or null. One that only bare `extern`s declare is not
/// defined.
pub struct TypedStatic {
    pub name: Name,
    pub place: Place,
    pub of: Qualified,
    pub defined: bool,
    pub initialised: bool,
    pub given: Vec<StaticCell>,
}

// By hand: a function that lets one go calls this, and its check does not go through the fields.
impl Drop for TypedStatic {
    fn drop(self) {
        let TypedStatic {
            name: _name,
            place: _place,
            of: _of,
            defined: _defined,
            initialised: _initialised,
            given: _given,
        } = self;
    }
}

/// A parameter or a local object: its name, the place where it is declared, and its type. A parameter without a name
/// has the name of length 0, and the place of its first specifier.
#[derive(Clone, Copy)]
pub struct LocalEntry {
    pub name: Name,
    pub place: Place,
    pub of: Qualified,
}

/// The body of a function or a task.
pub struct TypedBody {
    /// The parameters, then the local objects in the order of the text.
    pub locals: Vec<LocalEntry>,
    /// How many of them are parameters.
    pub parameters: u32,
    pub statements: Vec<TypedStatement>,
}

// By hand: a function that lets one go calls this, and its check does not go through the fields.
impl Drop for TypedBody {
    fn drop(self) {
        let TypedBody {
            locals: _locals,
            parameters: _parameters,
            statements: _statements,
        } = self;
    }
}

/// A function or a task: its name and place where it is defined, or else first declared, the types of its result and
/// its parameters, and its body where it is defined.
pub struct TypedFunction {
    pub name: Name,
    pub place: Place,
    pub result: u32,
    pub parameters: Vec<u32>,
    pub body: Option<TypedBody>,
}

// By hand: a function that lets one go calls this, and its check does not go through the fields.
impl Drop for TypedFunction {
    fn drop(self) {
        let TypedFunction {
            name: _name,
            place: _place,
            result: _result,
            parameters: _parameters,
            body: _body,
        } = self;
    }
}

/// A task: the function that it runs, and its priority.
#[derive(Clone, Copy)]
pub struct TypedTask {
    pub function: u32,
    pub priority: u8,
}

/// A mutex, and the place where it is declared.
#[derive(Clone, Copy)]
pub struct MutexEntry {
    pub name: Name,
    pub place: Place,
}

/// A typed file.
pub struct TypedFile {
    pub types: Vec<TypeEntry>,
    pub structs: Vec<StructEntry>,
    pub statics: Vec<TypedStatic>,
    pub functions: Vec<TypedFunction>,
    /// For each function those that its calls call, in the order of the text.
    pub calls: Vec<Vec<u32>>,
    pub tasks: Vec<TypedTask>,
    pub mutexes: Vec<MutexEntry>,
    /// The function `main`, where the file defines one.
    pub main: Option<u32>,
    /// The lengths of arrays that the text gives.
    pub lengths: Vec<u32>,
    /// The values of maximal folded expressions in bodies and initialisers.
    pub constants: Vec<i128>,
    /// The labels of all `switch`es, converted.
    pub labels: Vec<i128>,
    /// The places of each `sizeof` of a type whose size is another one where `long long` is aligned to 4.
    pub sizes: Vec<Place>,
    /// All functions, each behind those that it calls.
    pub order: Vec<u32>,
}

// By hand: a function that lets one go calls this, and its check does not go through the fields.
impl Drop for TypedFile {
    fn drop(self) {
        let TypedFile {
            types: _types,
            structs: _structs,
            statics: _statics,
            functions: _functions,
            calls: _calls,
            tasks: _tasks,
            mutexes: _mutexes,
            main: _main,
            lengths: _lengths,
            constants: _constants,
            labels: _labels,
            sizes: _sizes,
            order: _order,
        } = self;
    }
}
