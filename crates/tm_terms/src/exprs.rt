ghost use Rattle.std.specs.Prelude.{◌≡◌};
ghost use Rattle.tm_terms.specs.ExprTrees.{tree_of, place_of};

use crate::places::Place;
use crate::tokens::{IntConstant, Name};
use crate::types_named::TypeName;

/// The levels of expressions (C99 6.5.1 to 6.5.17), loosest first.
#[derive(Clone, Copy, PartialEq, Eq)]
pub enum Level {
    Comma,
    Assignment,
    Condition,
    Or,
    And,
    BitOr,
    BitXor,
    BitAnd,
    Equality,
    Relation,
    Shift,
    Sum,
    Product,
    Cast,
    Unary,
    Postfix,
    Primary,
}

/// An operator between two operands that groups to the left (C99 6.5.5 to 6.5.14).
#[derive(Clone, Copy, PartialEq, Eq)]
pub enum Binary {
    Multiply,
    Divide,
    Remainder,
    Add,
    Subtract,
    ShiftLeft,
    ShiftRight,
    Less,
    Greater,
    LessEqual,
    GreaterEqual,
    Equal,
    NotEqual,
    BitAnd,
    BitXor,
    BitOr,
    And,
    Or,
}

/// An operator between two expressions.
#[derive(Clone, Copy, PartialEq, Eq)]
pub enum Infix {
    /// `,` (C99 6.5.17)
    Comma,
    /// `=` (C99 6.5.16.1)
    Assign,
    /// A compound assignment, as `+=` (C99 6.5.16.2), with the operator that it applies.
    AssignBy(Binary),
    Binary(Binary),
}

/// An operator before its operand (C99 6.5.3).
#[derive(Clone, Copy, PartialEq, Eq)]
pub enum Prefix {
    /// `++`
    Increment,
    /// `--`
    Decrement,
    /// `&`
    Address,
    /// `*`
    Dereference,
    /// `+`
    Plus,
    /// `-`
    Minus,
    /// `~`
    Complement,
    /// `!`
    Not,
    /// `sizeof` of an expression
    Sizeof,
}

/// An operator after its operand (C99 6.5.2.4).
#[derive(Clone, Copy, PartialEq, Eq)]
pub enum Postfix {
    /// `++`
    Increment,
    /// `--`
    Decrement,
}

/// How a member is named (C99 6.5.2.3).
#[derive(Clone, Copy, PartialEq, Eq)]
pub enum Access {
    /// `.`, of a structure
    Dot,
    /// `->`, of what a pointer points to
    Arrow,
}

/// An expression as it is written, with the place of the token that names its form: of the operator,
/// of the name of a called function, of a name or a constant. In parentheses it has the place of the
/// inside.
pub enum Expr {
    /// `x`
    Name {
        name: Name,
        place: Place,
    },
    /// `12u`
    Integer {
        constant: IntConstant,
        place: Place,
    },
    /// `'a'`
    Character {
        value: i8,
        place: Place,
    },
    /// `(e)`
    Parentheses {
        inside: Box<Expr>,
    },
    /// `__input(low, high)`
    Input {
        low: Box<Expr>,
        high: Box<Expr>,
        place: Place,
    },
    /// `__islocked(mutex)`
    Islocked {
        mutex: Name,
        mutex_place: Place,
        place: Place,
    },
    /// `f(e, ..)`
    Call {
        function: Name,
        arguments: Vec<Expr>,
        place: Place,
    },
    /// `-e`, `sizeof e`
    Prefix {
        operator: Prefix,
        operand: Box<Expr>,
        place: Place,
    },
    /// `sizeof (int)`
    SizeofType {
        type_name: TypeName,
        place: Place,
    },
    /// `(int)e`
    Cast {
        type_name: TypeName,
        operand: Box<Expr>,
        place: Place,
    },
    /// `e + e`, `e = e`, `e, e`
    Infix {
        left: Box<Expr>,
        operator: Infix,
        right: Box<Expr>,
        place: Place,
    },
    /// `e ? e : e`
    Conditional {
        condition: Box<Expr>,
        first: Box<Expr>,
        second: Box<Expr>,
        place: Place,
    },
    /// `e[e]`
    Subscript {
        array: Box<Expr>,
        index: Box<Expr>,
        place: Place,
    },
    /// `e.m`, `e->m`
    Member {
        object: Box<Expr>,
        access: Access,
        member: Name,
        member_place: Place,
        place: Place,
    },
    /// `e++`
    Postfix {
        operand: Box<Expr>,
        operator: Postfix,
        place: Place,
    },
}

// Written by hand, so that a function which lets an expression go calls this, and its check does not go through the
// forms.
impl Drop for Expr {
    fn drop(self) {
        match self {
            Expr::Name {
                name: _name,
                place: _place,
            } => {}
            Expr::Integer {
                constant: _constant,
                place: _place,
            } => {}
            Expr::Character {
                value: _value,
                place: _place,
            } => {}
            Expr::Parentheses { inside: _inside } => {}
            Expr::Input {
                low: _low,
                high: _high,
                place: _place,
            } => {}
            Expr::Islocked {
                mutex: _mutex,
                mutex_place: _mutex_place,
                place: _place,
            } => {}
            Expr::Call {
                function: _function,
                arguments: _arguments,
                place: _place,
            } => {}
            Expr::Prefix {
                operator: _operator,
                operand: _operand,
                place: _place,
            } => {}
            Expr::SizeofType {
                type_name: _type_name,
                place: _place,
            } => {}
            Expr::Cast {
                type_name: _type_name,
                operand: _operand,
                place: _place,
            } => {}
            Expr::Infix {
                left: _left,
                operator: _operator,
                right: _right,
                place: _place,
            } => {}
            Expr::Conditional {
                condition: _condition,
                first: _first,
                second: _second,
                place: _place,
            } => {}
            Expr::Subscript {
                array: _array,
                index: _index,
                place: _place,
            } => {}
            Expr::Member {
                object: _object,
                access: _access,
                member: _member,
                member_place: _member_place,
                place: _place,
            } => {}
            Expr::Postfix {
                operand: _operand,
                operator: _operator,
                place: _place,
            } => {}
        }
    }
}

impl Expr {
    /// The place of the expression: of its operator, of the name of a called function, of its name or
    /// constant, and in parentheses of the inside.
    pub fn place(&self) -> Place
        ensures { result ≡ place_of (tree_of self.now) }
    {
        match self {
            Expr::Parentheses { inside } => inside.place(),
            Expr::Name { place, .. } => *place,
            Expr::Integer { place, .. } => *place,
            Expr::Character { place, .. } => *place,
            Expr::Input { place, .. } => *place,
            Expr::Islocked { place, .. } => *place,
            Expr::Call { place, .. } => *place,
            Expr::Prefix { place, .. } => *place,
            Expr::SizeofType { place, .. } => *place,
            Expr::Cast { place, .. } => *place,
            Expr::Infix { place, .. } => *place,
            Expr::Conditional { place, .. } => *place,
            Expr::Subscript { place, .. } => *place,
            Expr::Member { place, .. } => *place,
            Expr::Postfix { place, .. } => *place,
        }
    }
}
