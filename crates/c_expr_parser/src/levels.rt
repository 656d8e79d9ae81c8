//! The levels at which expressions stand (C99 6.5).
ghost use Rattle.std.specs.Prelude.{◌≡◌, ◌<◌, suc};
ghost use Rattle.tm_terms.specs.ExprTrees.{rank, binary_level, infix_level, left_level, right_level, operand_level};
ghost use Rattle.tm_terms.specs.ExprTrees.{level, tree_of};

use tm_terms::{Binary, Expr, Infix, Level, Prefix};

/// The levels as numbers, loosest first.
pub fn rank(level: Level) -> u32
    ensures { result ≡ rank level }
{
    match level {
        Level::Comma => 0,
        Level::Assignment => 1,
        Level::Condition => 2,
        Level::Or => 3,
        Level::And => 4,
        Level::BitOr => 5,
        Level::BitXor => 6,
        Level::BitAnd => 7,
        Level::Equality => 8,
        Level::Relation => 9,
        Level::Shift => 10,
        Level::Sum => 11,
        Level::Product => 12,
        Level::Cast => 13,
        Level::Unary => 14,
        Level::Postfix => 15,
        Level::Primary => 16,
    }
}

fn binary_level(operator: Binary) -> Level
    ensures { rank result ≡ binary_level operator }
{
    match operator {
        Binary::Or => Level::Or,
        Binary::And => Level::And,
        Binary::BitOr => Level::BitOr,
        Binary::BitXor => Level::BitXor,
        Binary::BitAnd => Level::BitAnd,
        Binary::Equal | Binary::NotEqual => Level::Equality,
        Binary::Less | Binary::Greater | Binary::LessEqual | Binary::GreaterEqual =>
            Level::Relation,
        Binary::ShiftLeft | Binary::ShiftRight => Level::Shift,
        Binary::Add | Binary::Subtract => Level::Sum,
        Binary::Multiply | Binary::Divide | Binary::Remainder => Level::Product,
    }
}

// The level of an expression with this operator.
pub(crate) fn infix_level(operator: Infix) -> u32
    ensures { result ≡ infix_level operator }
{
    match operator {
        Infix::Comma => rank(Level::Comma),
        Infix::Assign => rank(Level::Assignment),
        Infix::AssignBy(_) => rank(Level::Assignment),
        Infix::Binary(binary) => rank(binary_level(binary)),
    }
}

// The least level of the left operand.
pub(crate) fn left_level(operator: Infix) -> u32
    ensures { result ≡ left_level operator }
{
    match operator {
        Infix::Comma => rank(Level::Comma),
        Infix::Assign => rank(Level::Unary),
        Infix::AssignBy(_) => rank(Level::Unary),
        Infix::Binary(binary) => rank(binary_level(binary)),
    }
}

// The least level of the right operand.
pub(crate) fn right_level(operator: Infix) -> u32
    ensures { result ≡ right_level operator }
{
    match operator {
        Infix::Comma => rank(Level::Assignment),
        Infix::Assign => rank(Level::Assignment),
        Infix::AssignBy(_) => rank(Level::Assignment),
        Infix::Binary(binary) => one_tighter(rank(binary_level(binary))),
    }
}

fn one_tighter(level: u32) -> u32
    requires { level < 100 }
    ensures { result ≡ suc level }
{
    level + 1
}

// The least level of the operand.
pub(crate) fn operand_level(operator: Prefix) -> u32
    ensures { result ≡ operand_level operator }
{
    match operator {
        Prefix::Increment | Prefix::Decrement | Prefix::Sizeof => rank(Level::Unary),
        Prefix::Address | Prefix::Dereference | Prefix::Plus => rank(Level::Cast),
        Prefix::Minus | Prefix::Complement | Prefix::Not => rank(Level::Cast),
    }
}

// The tightest level at which the expression stands.
pub(crate) fn level_of(expr: &Expr) -> u32
    ensures { result ≡ level (tree_of expr.now) }
{
    match expr {
        Expr::Name { .. } | Expr::Integer { .. } | Expr::Character { .. } => rank(Level::Primary),
        Expr::Parentheses { .. } | Expr::Input { .. } => rank(Level::Primary),
        Expr::Islocked { .. } | Expr::Call { .. } => rank(Level::Primary),
        Expr::Prefix { .. } | Expr::SizeofType { .. } => rank(Level::Unary),
        Expr::Cast { .. } => rank(Level::Cast),
        Expr::Infix { operator, .. } => infix_level(*operator),
        Expr::Conditional { .. } => rank(Level::Condition),
        Expr::Subscript { .. } | Expr::Member { .. } | Expr::Postfix { .. } => rank(Level::Postfix),
    }
}
