//! Typed expressions. Conversions are nodes of their own, and nothing is left to find out of types.
use crate::scopes::ObjectNumber;
use crate::types::Scalar;
use tm_trees::{BinOp, IntType, Place};

/// An operator on one integer (C99 6.5.3.3).
#[derive(Clone, Copy, PartialEq, Eq)]
pub enum Unary {
    /// `-`
    Negate,
    /// `~`
    Complement,
}

/// `++` or `--`, before or behind its operand.
#[derive(Clone, Copy)]
pub struct Step {
    pub minus: bool,
    pub postfix: bool,
}

/// An expression for its value. Operands have the type in which the operator works.
#[cycle(typed)]
pub enum Rvalue {
    /// An integer constant, or an expression that is folded to it.
    Constant {
        of: IntType,
        value: i128,
        place: Place,
    },
    /// A comparison, `!`, `&&` or `||` that is folded: its value, and its form for branches.
    Folded {
        value: i128,
        form: Box<Rvalue>,
    },
    /// A null constant as a pointer.
    Null {
        place: Place,
    },
    /// What a scalar lvalue holds.
    Load {
        scalar: Scalar,
        volatile: bool,
        lvalue: Box<Lvalue>,
    },
    /// `&e`, or an array lvalue as the pointer to its first element.
    Address {
        lvalue: Box<Lvalue>,
        place: Place,
    },
    /// A structure lvalue whose value is not used.
    Structure {
        lvalue: Box<Lvalue>,
    },
    /// The same value by an expression that makes no operation: `+e`, `&*e`, a cast to the own pointer type.
    Same {
        value: Box<Rvalue>,
        place: Place,
    },
    /// `-e`, `~e`
    Unary {
        operator: Unary,
        of: IntType,
        value: Box<Rvalue>,
        place: Place,
    },
    /// An operator on integers that works in the type `of`. The right operand of a shift has a promoted type of its
    /// own.
    Binary {
        operator: BinOp,
        of: IntType,
        left: Box<Rvalue>,
        right: Box<Rvalue>,
        place: Place,
    },
    /// `==` or `!=` of pointers.
    Pointers {
        equal: bool,
        left: Box<Rvalue>,
        right: Box<Rvalue>,
        place: Place,
    },
    /// A pointer plus or minus an integer, times the cells of the pointer's target; which of both stands first, is
    /// evaluated first.
    Move {
        minus: bool,
        cells: u32,
        index_first: bool,
        pointer: Box<Rvalue>,
        index: Box<Rvalue>,
        place: Place,
    },
    /// `!e`
    Not {
        value: Box<Rvalue>,
        place: Place,
    },
    /// `e && e`
    And {
        left: Box<Rvalue>,
        right: Box<Rvalue>,
        place: Place,
    },
    /// `e || e`
    Or {
        left: Box<Rvalue>,
        right: Box<Rvalue>,
        place: Place,
    },
    /// `e ? e : e`
    Conditional {
        condition: Box<Rvalue>,
        first: Box<Rvalue>,
        second: Box<Rvalue>,
        place: Place,
    },
    /// `e = e`
    Assign {
        scalar: Scalar,
        target: Box<Lvalue>,
        value: Box<Rvalue>,
        place: Place,
    },
    /// `op=` on a cell of the type `cell`, by an operator that works in the type `of`.
    Compound {
        operator: BinOp,
        cell: IntType,
        of: IntType,
        volatile: bool,
        target: Box<Lvalue>,
        value: Box<Rvalue>,
        place: Place,
    },
    /// `+=`, `-=` on a pointer of the class `class`, times the cells of its target.
    CompoundMove {
        minus: bool,
        cells: u32,
        class: u32,
        target: Box<Lvalue>,
        value: Box<Rvalue>,
        place: Place,
    },
    /// `++`, `--` on a cell of the type `cell`; the sum is taken in the type `of`.
    Step {
        step: Step,
        cell: IntType,
        of: IntType,
        volatile: bool,
        target: Box<Lvalue>,
        place: Place,
    },
    /// `++`, `--` on a pointer of the class `class`, by the cells of its target.
    StepMove {
        step: Step,
        cells: u32,
        class: u32,
        target: Box<Lvalue>,
        place: Place,
    },
    /// A call of a function by its number. `site` counts the calls of the body in the order of the text.
    Call {
        function: u32,
        site: u32,
        arguments: Vec<Rvalue>,
        place: Place,
    },
    /// `__input(low, high)`
    Input {
        low: i128,
        high: i128,
        place: Place,
    },
    /// `__islocked(m)`, with the number of the mutex.
    Probe {
        mutex: u32,
        place: Place,
    },
    /// `e, e`
    Comma {
        left: Box<Rvalue>,
        right: Box<Rvalue>,
        place: Place,
    },
    /// A conversion among integer types.
    Convert {
        from: IntType,
        to: IntType,
        value: Box<Rvalue>,
        place: Place,
    },
    /// A cast to `void`.
    Discard {
        value: Box<Rvalue>,
        place: Place,
    },
}

impl Drop for Rvalue {
    #[cycle(typed)]
    fn drop(self) {
        match self {
            Rvalue::Constant {
                of: _,
                value: _,
                place: _,
            }
            | Rvalue::Null { place: _ }
            | Rvalue::Input {
                low: _,
                high: _,
                place: _,
            }
            | Rvalue::Probe { mutex: _, place: _ } => {}
            Rvalue::Folded {
                value: _,
                form: _value,
            }
            | Rvalue::Same {
                value: _value,
                place: _,
            }
            | Rvalue::Unary {
                operator: _,
                of: _,
                value: _value,
                place: _,
            }
            | Rvalue::Not {
                value: _value,
                place: _,
            }
            | Rvalue::Convert {
                from: _,
                to: _,
                value: _value,
                place: _,
            }
            | Rvalue::Discard {
                value: _value,
                place: _,
            } => {}
            Rvalue::Load {
                scalar: _,
                volatile: _,
                lvalue: _lvalue,
            }
            | Rvalue::Address {
                lvalue: _lvalue,
                place: _,
            }
            | Rvalue::Structure { lvalue: _lvalue }
            | Rvalue::Step {
                step: _,
                cell: _,
                of: _,
                volatile: _,
                target: _lvalue,
                place: _,
            }
            | Rvalue::StepMove {
                step: _,
                cells: _,
                class: _,
                target: _lvalue,
                place: _,
            } => {}
            Rvalue::Binary {
                operator: _,
                of: _,
                left: _left,
                right: _right,
                place: _,
            }
            | Rvalue::Pointers {
                equal: _,
                left: _left,
                right: _right,
                place: _,
            }
            | Rvalue::Move {
                minus: _,
                cells: _,
                index_first: _,
                pointer: _left,
                index: _right,
                place: _,
            }
            | Rvalue::And {
                left: _left,
                right: _right,
                place: _,
            }
            | Rvalue::Or {
                left: _left,
                right: _right,
                place: _,
            }
            | Rvalue::Comma {
                left: _left,
                right: _right,
                place: _,
            } => {}
            Rvalue::Conditional {
                condition: _condition,
                first: _first,
                second: _second,
                place: _,
            } => {}
            Rvalue::Assign {
                scalar: _,
                target: _target,
                value: _value,
                place: _,
            }
            | Rvalue::Compound {
                operator: _,
                cell: _,
                of: _,
                volatile: _,
                target: _target,
                value: _value,
                place: _,
            }
            | Rvalue::CompoundMove {
                minus: _,
                cells: _,
                class: _,
                target: _target,
                value: _value,
                place: _,
            } => {}
            Rvalue::Call {
                function: _,
                site: _,
                arguments: _arguments,
                place: _,
            } => {}
        }
    }
}

/// An expression for the object that it designates (C99 6.3.2.1).
#[derive(Drop)]
#[cycle(typed)]
pub enum Lvalue {
    /// `x`
    Object {
        object: ObjectNumber,
        place: Place,
    },
    /// `e[i]`, e an array lvalue of `length` elements of `cells` cells.
    Element {
        array: Box<Lvalue>,
        index: Box<Rvalue>,
        length: u32,
        cells: u32,
        place: Place,
    },
    /// `e[i]`, e a pointer to the type `target` of `cells` cells.
    Subscript {
        pointer: Box<Rvalue>,
        index: Box<Rvalue>,
        cells: u32,
        target: u32,
        place: Place,
    },
    /// `*e`, e a pointer to the type `target`.
    Pointed {
        pointer: Box<Rvalue>,
        target: u32,
        place: Place,
    },
    /// `e->m`, e a pointer to the structure type `target`, in which m begins at `cell`.
    Arrow {
        pointer: Box<Rvalue>,
        target: u32,
        cell: u32,
        place: Place,
    },
    /// `e.m`, where m begins at `cell`.
    Member {
        structure: Box<Lvalue>,
        cell: u32,
        place: Place,
    },
}

impl Lvalue {
    ghost use Rattle.std.specs.Prelude.{◌≡◌};
    ghost use Rattle.tm_typed.specs.TypedTrees.{lvalue_tree, lvalue_place};

    /// The place of the expression.
    pub fn place(&self) -> Place
        ensures { result ≡ lvalue_place (lvalue_tree self.now) }
    {
        match self {
            Lvalue::Object { place, .. } => *place,
            Lvalue::Element { place, .. } => *place,
            Lvalue::Subscript { place, .. } => *place,
            Lvalue::Pointed { place, .. } => *place,
            Lvalue::Arrow { place, .. } => *place,
            Lvalue::Member { place, .. } => *place,
        }
    }
}
