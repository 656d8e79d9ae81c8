ghost use Rattle.std.specs.Prelude.{◌≡◌};
ghost use Rattle.tm_terms.specs.ExprSpelling.{infix_of, prefix_of, spec_of};

use tm_terms::{Basic, Binary, Infix, Prefix, Qualifier, Sign, SpecWord, Storage, Word};

// The operator between two operands that a sign stands for.
pub(crate) fn infix_of(sign: Sign) -> Option<Infix>
    ensures { result ≡ infix_of sign }
{
    match sign {
        Sign::Comma => Some(Infix::Comma),
        Sign::Equal => Some(Infix::Assign),
        Sign::StarEqual => Some(Infix::AssignBy(Binary::Multiply)),
        Sign::SlashEqual => Some(Infix::AssignBy(Binary::Divide)),
        Sign::PercentEqual => Some(Infix::AssignBy(Binary::Remainder)),
        Sign::PlusEqual => Some(Infix::AssignBy(Binary::Add)),
        Sign::MinusEqual => Some(Infix::AssignBy(Binary::Subtract)),
        Sign::ShiftLeftEqual => Some(Infix::AssignBy(Binary::ShiftLeft)),
        Sign::ShiftRightEqual => Some(Infix::AssignBy(Binary::ShiftRight)),
        Sign::AndEqual => Some(Infix::AssignBy(Binary::BitAnd)),
        Sign::CaretEqual => Some(Infix::AssignBy(Binary::BitXor)),
        Sign::OrEqual => Some(Infix::AssignBy(Binary::BitOr)),
        Sign::Star => Some(Infix::Binary(Binary::Multiply)),
        Sign::Slash => Some(Infix::Binary(Binary::Divide)),
        Sign::Percent => Some(Infix::Binary(Binary::Remainder)),
        Sign::Plus => Some(Infix::Binary(Binary::Add)),
        Sign::Minus => Some(Infix::Binary(Binary::Subtract)),
        Sign::ShiftLeft => Some(Infix::Binary(Binary::ShiftLeft)),
        Sign::ShiftRight => Some(Infix::Binary(Binary::ShiftRight)),
        Sign::Less => Some(Infix::Binary(Binary::Less)),
        Sign::Greater => Some(Infix::Binary(Binary::Greater)),
        Sign::LessEqual => Some(Infix::Binary(Binary::LessEqual)),
        Sign::GreaterEqual => Some(Infix::Binary(Binary::GreaterEqual)),
        Sign::EqualEqual => Some(Infix::Binary(Binary::Equal)),
        Sign::NotEqual => Some(Infix::Binary(Binary::NotEqual)),
        Sign::And => Some(Infix::Binary(Binary::BitAnd)),
        Sign::Caret => Some(Infix::Binary(Binary::BitXor)),
        Sign::Or => Some(Infix::Binary(Binary::BitOr)),
        Sign::AndAnd => Some(Infix::Binary(Binary::And)),
        Sign::OrOr => Some(Infix::Binary(Binary::Or)),
        _ => None,
    }
}

// The operator before an operand that a sign stands for.
pub(crate) fn prefix_of(sign: Sign) -> Option<Prefix>
    ensures { result ≡ prefix_of sign }
{
    match sign {
        Sign::PlusPlus => Some(Prefix::Increment),
        Sign::MinusMinus => Some(Prefix::Decrement),
        Sign::And => Some(Prefix::Address),
        Sign::Star => Some(Prefix::Dereference),
        Sign::Plus => Some(Prefix::Plus),
        Sign::Minus => Some(Prefix::Minus),
        Sign::Tilde => Some(Prefix::Complement),
        Sign::Not => Some(Prefix::Not),
        _ => None,
    }
}

// The specifier that a word stands for by itself.
pub(crate) fn spec_of(word: Word) -> Option<SpecWord>
    ensures { result ≡ spec_of word }
{
    match word {
        Word::Static => Some(SpecWord::Storage(Storage::Static)),
        Word::Extern => Some(SpecWord::Storage(Storage::Extern)),
        Word::Register => Some(SpecWord::Storage(Storage::Register)),
        Word::Auto => Some(SpecWord::Storage(Storage::Auto)),
        Word::Typedef => Some(SpecWord::Storage(Storage::Typedef)),
        Word::Inline => Some(SpecWord::Qualifier(Qualifier::Inline)),
        Word::Const => Some(SpecWord::Qualifier(Qualifier::Const)),
        Word::Volatile => Some(SpecWord::Qualifier(Qualifier::Volatile)),
        Word::Restrict => Some(SpecWord::Qualifier(Qualifier::Restrict)),
        Word::Void => Some(SpecWord::Basic(Basic::Void)),
        Word::Bool => Some(SpecWord::Basic(Basic::Bool)),
        Word::Char => Some(SpecWord::Basic(Basic::Char)),
        Word::Short => Some(SpecWord::Basic(Basic::Short)),
        Word::Int => Some(SpecWord::Basic(Basic::Int)),
        Word::Long => Some(SpecWord::Basic(Basic::Long)),
        Word::Signed => Some(SpecWord::Basic(Basic::Signed)),
        Word::Unsigned => Some(SpecWord::Basic(Basic::Unsigned)),
        _ => None,
    }
}
