//! Statements (C99 6.8).
use crate::declarations::Declaration;
use tm_terms::{Expr, Name, Place};

/// `{ .. }`: declarations and statements (C99 6.8.2).
#[derive(Drop)]
#[cycle(statements)]
pub struct Block {
    pub parts: Vec<BlockPart>,
}

/// A part of a block.
#[cycle(statements)]
pub enum BlockPart {
    Declaration(Declaration),
    Statement(Statement),
}

impl Drop for BlockPart {
    #[cycle(statements)]
    fn drop(self) {
        match self {
            BlockPart::Declaration(_part) => {}
            BlockPart::Statement(_part) => {}
        }
    }
}

/// A part of the block of a `switch`: labels stand there alone (C99 6.8.1, cut to the profile).
#[cycle(statements)]
pub enum SwitchPart {
    /// `case e:`
    Case { value: Expr, place: Place },
    /// `default:`
    Default { place: Place },
    Statement(Statement),
}

impl Drop for SwitchPart {
    #[cycle(statements)]
    fn drop(self) {
        match self {
            SwitchPart::Case {
                value: _value,
                place: _place,
            } => {}
            SwitchPart::Default { place: _place } => {}
            SwitchPart::Statement(_part) => {}
        }
    }
}

/// What a `for` does first (C99 6.8.5.3).
pub enum ForFirst {
    Expression(Option<Expr>),
    Declaration(Declaration),
}

impl Drop for ForFirst {
    fn drop(self) {
        match self {
            ForFirst::Expression(_part) => {}
            ForFirst::Declaration(_part) => {}
        }
    }
}

/// A statement, with the place of its first word where an error or an access may stand there.
#[cycle(statements)]
pub enum Statement {
    Block(Block),
    /// `e;` or `;`
    Expression(Option<Expr>),
    /// `if (e) s` and `if (e) s else s`
    If {
        condition: Expr,
        first: Box<Statement>,
        second: Option<Box<Statement>>,
    },
    /// `while (e) s`
    While {
        condition: Expr,
        body: Box<Statement>,
    },
    /// `do s while (e);`
    Do {
        body: Box<Statement>,
        condition: Expr,
    },
    /// `for (e; e; e) s`
    For {
        first: ForFirst,
        condition: Option<Expr>,
        step: Option<Expr>,
        body: Box<Statement>,
    },
    /// `switch (e) { .. }`
    Switch {
        value: Expr,
        parts: Vec<SwitchPart>,
    },
    /// `break;`
    Break {
        place: Place,
    },
    /// `continue;`
    Continue {
        place: Place,
    },
    /// `return e;` or `return;`
    Return {
        value: Option<Expr>,
        place: Place,
    },
    /// `__lock(m);`
    Lock {
        mutex: Name,
        mutex_place: Place,
        place: Place,
    },
    /// `__unlock(m);`
    Unlock {
        mutex: Name,
        mutex_place: Place,
        place: Place,
    },
    /// `__yield();`
    Yield {
        place: Place,
    },
}

impl Drop for Statement {
    #[cycle(statements)]
    fn drop(self) {
        match self {
            Statement::Block(_part) => {}
            Statement::Expression(_part) => {}
            Statement::If {
                condition: _condition,
                first: _first,
                second: _second,
            } => {}
            Statement::While {
                condition: _condition,
                body: _body,
            } => {}
            Statement::Do {
                body: _body,
                condition: _condition,
            } => {}
            Statement::For {
                first: _first,
                condition: _condition,
                step: _step,
                body: _body,
            } => {}
            Statement::Switch {
                value: _value,
                parts: _parts,
            } => {}
            Statement::Break { place: _place } => {}
            Statement::Continue { place: _place } => {}
            Statement::Return {
                value: _value,
                place: _place,
            } => {}
            Statement::Lock {
                mutex: _mutex,
                mutex_place: _mutex_place,
                place: _place,
            } => {}
            Statement::Unlock {
                mutex: _mutex,
                mutex_place: _mutex_place,
                place: _place,
            } => {}
            Statement::Yield { place: _place } => {}
        }
    }
}
