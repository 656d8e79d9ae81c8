//! What the rules of typing know of a part.
ghost use Rattle.std.specs.Prelude.{◌≡◌};
ghost use Rattle.tm_typed.specs.Operands.{fold_of, is_condition, is_structure, is_integer, is_pointer, is_folded_zero};
ghost use Rattle.tm_typed.specs.Operands.{is_null, is_void_pointer, unbuilt, kept_sort};

use crate::expressions::{Lvalue, Rvalue};
use crate::types::{CType, Qualified};
use tm_trees::{IntType, Place};

/// Whether an integer expression is folded.
#[derive(Clone, Copy)]
pub enum Fold {
    /// It is not built of what may be folded.
    Unbuilt,
    /// It is, but an evaluated part has a run-time error.
    Faulty,
    /// It is folded to this value.
    Value(i128),
}

impl Fold {
    /// Whether it is folded to 0.
    pub fn is_zero(self) -> bool
        ensures { result ≡ is_folded_zero self }
    {
        match self {
            Fold::Value(value) => value == 0,
            Fold::Unbuilt | Fold::Faulty => false,
        }
    }
}

/// What kind of value an expression has.
#[derive(Clone, Copy)]
pub enum Sort {
    Integer(IntType, Fold),
    /// A pointer to this type.
    Pointer(Qualified),
    /// `(void*)0`
    Null,
    /// A structure by its number, whose value is not used.
    Structure(u32),
    /// No value.
    Nothing,
}

impl Sort {
    /// Whether it is folded; only integers are.
    pub fn fold(self) -> Fold
        ensures { result ≡ fold_of self }
    {
        match self {
            Sort::Integer(_, fold) => fold,
            Sort::Pointer(_) | Sort::Null | Sort::Structure(_) | Sort::Nothing => Fold::Unbuilt,
        }
    }

    /// Whether it is a scalar, as a condition has to be.
    pub fn is_condition(self) -> bool
        ensures { result ≡ is_condition self }
    {
        match self {
            Sort::Integer(..) | Sort::Pointer(_) | Sort::Null => true,
            Sort::Structure(_) | Sort::Nothing => false,
        }
    }

    pub fn is_structure(self) -> bool
        ensures { result ≡ is_structure self }
    {
        match self {
            Sort::Structure(_) => true,
            Sort::Integer(..) | Sort::Pointer(_) | Sort::Null | Sort::Nothing => false,
        }
    }

    pub fn is_integer(self) -> bool
        ensures { result ≡ is_integer self }
    {
        match self {
            Sort::Integer(..) => true,
            Sort::Pointer(_) | Sort::Null | Sort::Structure(_) | Sort::Nothing => false,
        }
    }

    pub fn is_pointer(self) -> bool
        ensures { result ≡ is_pointer self }
    {
        match self {
            Sort::Pointer(_) | Sort::Null => true,
            Sort::Integer(..) | Sort::Structure(_) | Sort::Nothing => false,
        }
    }

    /// Whether it is a null constant.
    pub fn is_null(self) -> bool
        ensures { result ≡ is_null self }
    {
        match self {
            Sort::Integer(_, fold) => fold.is_zero(),
            Sort::Null => true,
            Sort::Pointer(_) | Sort::Structure(_) | Sort::Nothing => false,
        }
    }

    /// Whether it is a void pointer.
    pub fn is_void_pointer(self) -> bool
        ensures { result ≡ is_void_pointer self }
    {
        match self {
            Sort::Null => true,
            Sort::Integer(..) | Sort::Pointer(_) | Sort::Structure(_) | Sort::Nothing => false,
        }
    }

    /// The sort of an expression of the same type that is not folded.
    pub fn unbuilt(self) -> Sort
        ensures { result ≡ unbuilt self }
    {
        match self {
            Sort::Integer(of, _) => Sort::Integer(of, Fold::Unbuilt),
            Sort::Pointer(of) => Sort::Pointer(of),
            Sort::Null => Sort::Null,
            Sort::Structure(structure) => Sort::Structure(structure),
            Sort::Nothing => Sort::Nothing,
        }
    }

    /// The sort of a value that is kept as one of this type: what an assignment or a call gives.
    pub fn kept(ctype: CType) -> Sort
        ensures { result ≡ kept_sort ctype }
    {
        match ctype {
            CType::Int(of) => Sort::Integer(of, Fold::Unbuilt),
            CType::Pointer(of) => Sort::Pointer(of),
            CType::Void | CType::Array { .. } | CType::Struct(_) => Sort::Nothing,
        }
    }
}

/// An expression for its value, with the place of the expression.
#[derive(Drop)]
pub struct Valued {
    pub value: Box<Rvalue>,
    pub sort: Sort,
    pub place: Place,
}

/// A typed expression: one that designates an object of a type, or a value.
#[derive(Drop)]
pub enum Operand {
    Lvalue { lvalue: Box<Lvalue>, of: Qualified },
    Value(Valued),
}
