//! Typed statements.
use crate::expressions::Rvalue;
use crate::types::Scalar;
use tm_trees::{IntType, Place};

/// A cell of a local object that an initialiser gives, by its number in the object, with its type and its value.
pub struct GivenCell {
    pub cell: u32,
    pub scalar: Scalar,
    pub value: Box<Rvalue>,
}

// By hand: a function that lets one go calls this, and its check does not go through the fields.
impl Drop for GivenCell {
    fn drop(self) {
        let GivenCell {
            cell: _cell,
            scalar: _scalar,
            value: _value,
        } = self;
    }
}

/// What a local object is initialised with: the given cells in rising order, the others being zero or null; and the
/// place of the `=`.
pub struct LocalInitialiser {
    pub given: Vec<GivenCell>,
    pub place: Place,
}

// By hand: a function that lets one go calls this, and its check does not go through the fields.
impl Drop for LocalInitialiser {
    fn drop(self) {
        let LocalInitialiser {
            given: _given,
            place: _place,
        } = self;
    }
}

/// Where the declaration of a local object is reached: the object, by its number in the body, is cleared, and where it
/// has an initialiser, each of its cells is stored in order.
pub struct LocalObject {
    pub object: u32,
    pub initialiser: Option<LocalInitialiser>,
}

// By hand: a function that lets one go calls this, and its check does not go through the fields.
impl Drop for LocalObject {
    fn drop(self) {
        let LocalObject {
            object: _object,
            initialiser: _initialiser,
        } = self;
    }
}

/// A typed statement. A condition is an integer or a pointer.
#[cycle(typed_statements)]
pub enum TypedStatement {
    /// `e;`, or `;`
    Evaluate(Option<Box<Rvalue>>),
    /// A declaration of local objects.
    Declare(Vec<LocalObject>),
    /// `{ .. }`
    Block(Vec<TypedStatement>),
    /// `if (e) s`, `if (e) s else s`
    If {
        condition: Box<Rvalue>,
        first: Box<TypedStatement>,
        second: Option<Box<TypedStatement>>,
    },
    /// `while (e) s`
    While {
        condition: Box<Rvalue>,
        body: Box<TypedStatement>,
    },
    /// `do s while (e);`
    Do {
        body: Box<TypedStatement>,
        condition: Box<Rvalue>,
    },
    /// `for (..; e; e) s`, whose first part is an expression or a declaration
    For {
        first: Box<TypedStatement>,
        condition: Option<Box<Rvalue>>,
        step: Option<Box<Rvalue>>,
        body: Box<TypedStatement>,
    },
    /// `switch (e) { .. }`, the value converted to its promoted type `works_in`
    Switch {
        works_in: IntType,
        value: Box<Rvalue>,
        parts: Vec<TypedSwitchPart>,
    },
    /// `break;`
    Break,
    /// `continue;`
    Continue,
    /// `return e;`, the value converted to the type of the result, or `return;`
    Return(Option<Box<Rvalue>>),
    /// `__lock(m);`, with the number of the mutex
    Lock {
        mutex: u32,
        place: Place,
    },
    /// `__unlock(m);`
    Unlock {
        mutex: u32,
        place: Place,
    },
    /// `__yield();`
    Yield,
}

impl Drop for TypedStatement {
    #[cycle(typed_statements)]
    fn drop(self) {
        match self {
            TypedStatement::Evaluate(_value) => {}
            TypedStatement::Declare(_locals) => {}
            TypedStatement::Block(_statements) => {}
            TypedStatement::If {
                condition: _condition,
                first: _first,
                second: _second,
            } => {}
            TypedStatement::While {
                condition: _condition,
                body: _body,
            } => {}
            TypedStatement::Do {
                body: _body,
                condition: _condition,
            } => {}
            TypedStatement::For {
                first: _first,
                condition: _condition,
                step: _step,
                body: _body,
            } => {}
            TypedStatement::Switch {
                works_in: _works_in,
                value: _value,
                parts: _parts,
            } => {}
            TypedStatement::Break => {}
            TypedStatement::Continue => {}
            TypedStatement::Return(_value) => {}
            TypedStatement::Lock {
                mutex: _mutex,
                place: _place,
            } => {}
            TypedStatement::Unlock {
                mutex: _mutex,
                place: _place,
            } => {}
            TypedStatement::Yield => {}
        }
    }
}

/// A part of the block of a `switch`.
#[cycle(typed_statements)]
pub enum TypedSwitchPart {
    /// `case e:`, its label converted to the type in which the `switch` works
    Case { label: i128, place: Place },
    /// `default:`
    Default { place: Place },
    Statement(TypedStatement),
}

impl Drop for TypedSwitchPart {
    #[cycle(typed_statements)]
    fn drop(self) {
        match self {
            TypedSwitchPart::Case {
                label: _label,
                place: _place,
            } => {}
            TypedSwitchPart::Default { place: _place } => {}
            TypedSwitchPart::Statement(_statement) => {}
        }
    }
}
