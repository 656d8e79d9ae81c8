//! Files: declarations, functions, mutexes and tasks (C99 6.9, and the analyser's own forms).
use crate::declarations::{Declaration, Declarator, Specifier};
use crate::statements::Block;
use tm_terms::{Expr, Name, Place, PointerWord};

/// A parameter of a function (C99 6.7.5.3).
#[derive(Drop)]
pub enum Parameter {
    /// `int *x`
    Named {
        specifiers: Vec<Specifier>,
        declarator: Declarator,
    },
    /// `int *`
    Unnamed {
        specifiers: Vec<Specifier>,
        pointers: Vec<PointerWord>,
    },
}

/// The parameters of a function between its parentheses.
#[derive(Drop)]
pub enum Parameters {
    /// `void` alone
    Void,
    /// a list, which may be empty
    List(Vec<Parameter>),
}

/// A function, with its body where it is defined here (C99 6.7.5.3, 6.9.1).
#[derive(Drop)]
pub struct Function {
    pub specifiers: Vec<Specifier>,
    pub pointers: Vec<PointerWord>,
    pub name: Name,
    pub parameters: Parameters,
    pub body: Option<Block>,
    pub place: Place,
}

/// One part of a file.
pub enum Item {
    Declaration(Declaration),
    Function(Function),
    /// `;`
    Empty,
    /// `__mutex m;`, with the place of the name
    Mutex {
        name: Name,
        place: Place,
    },
    /// `__task(priority) void t(void) { .. }`, with the place of `__task`
    Task {
        priority: Expr,
        name: Name,
        name_place: Place,
        body: Block,
        place: Place,
    },
}

impl Drop for Item {
    fn drop(self) {
        match self {
            Item::Declaration(_part) => {}
            Item::Function(_part) => {}
            Item::Empty => {}
            Item::Mutex {
                name: _name,
                place: _place,
            } => {}
            Item::Task {
                priority: _priority,
                name: _name,
                name_place: _name_place,
                body: _body,
                place: _place,
            } => {}
        }
    }
}

/// A whole file.
#[derive(Drop)]
pub struct File {
    pub items: Vec<Item>,
}
