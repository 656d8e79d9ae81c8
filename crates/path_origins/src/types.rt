//! The types of expressions, bottom-up from those of declarations.
ghost use Rattle.std.specs.Prelude.{◌≡◌, ℕ, Bool, ◌&&◌, ◌||◌, IfOk};
ghost use Rattle.tm_terms.specs.declared.places.Place.{Place as APlace};
ghost use Rattle.tm_typed.specs.Types.{is_enumerated};
ghost use Rattle.tm_laid.specs.TypeCells.{entry_of};
ghost use Rattle.tm_laid.specs.Layouts.{laid_tree};
ghost use Rattle.path_origins.specs.Types.{given_by, followed, target_or, chosen, cast_if, differs, has_value};
ghost use Rattle.path_origins.specs.Types.{is_pointer, plain, pointer_as, held_by, element_of, member_at, object_type};
ghost use Rattle.path_origins.specs.Types.{number_if, is_unsigned_by_some, casts_number, is_signed_word, is_shift};
ghost use Rattle.path_origins.specs.Types.{either, computed, converted};
ghost use Rattle.path_origins.specs.Expressions.{pointed_by};

use body_builder::{is_comparison, object_of, type_at};
use part_extents::unenumerated;
use source_names::{Down, Inside, step_down};
use tm_cint::{BinOp, IntType};
use tm_laid::{Laid, object_at};
use tm_lattice::NoMemory;
use tm_typed::{CType, ObjectNumber, Qualified, Scalar, is_enumerated};

/// What an expression gives.
#[derive(Clone, Copy)]
pub(crate) enum Given {
    Nothing,
    Number,
    /// A value of an enumeration that compilers may make unsigned (C99 6.7.2.2p4).
    Enumerated,
    /// The null constant.
    Null,
    /// A pointer to this type.
    Pointer(Qualified),
    /// A pointer by a cast, to this type but for `const`.
    Cast(Qualified),
}

impl Given {
    /// Whether there is a value.
    pub(crate) fn has_value(self) -> bool
        ensures { result ≡ has_value self }
    {
        match self {
            Given::Nothing => false,
            Given::Number | Given::Enumerated | Given::Null | Given::Pointer(_) | Given::Cast(_) =>
                true,
        }
    }

    /// Whether it is a pointer.
    pub(crate) fn is_pointer(self) -> bool
        ensures { result ≡ is_pointer self }
    {
        match self {
            Given::Nothing | Given::Number | Given::Enumerated => false,
            Given::Null | Given::Pointer(_) | Given::Cast(_) => true,
        }
    }

    /// Whether it is a value of an enumeration that compilers may make unsigned.
    pub(crate) fn is_unsigned_by_some(self) -> bool
        ensures { result ≡ is_unsigned_by_some self }
    {
        match self {
            Given::Enumerated => true,
            Given::Nothing | Given::Number | Given::Null | Given::Pointer(_) | Given::Cast(_) =>
                false,
        }
    }

    /// Whether this or another operand is such a value.
    pub(crate) fn either(self, other: Given) -> bool
        ensures { result ≡ either self other }
    {
        self.is_unsigned_by_some() || other.is_unsigned_by_some()
    }

    /// The number of the type to which it points, or else another one.
    pub(crate) fn target_or(self, other: u32) -> u32
        ensures { result ≡ target_or self other }
    {
        match self {
            Given::Nothing | Given::Number | Given::Enumerated | Given::Null => other,
            Given::Pointer(of) => of.number,
            Given::Cast(of) => of.number,
        }
    }

    /// What the pointer leads to: of the type with this number, where the pointer does not tell.
    pub(crate) fn followed(self, number: u32) -> Qualified
        ensures { result ≡ followed self number }
    {
        match self {
            Given::Pointer(of) => of,
            Given::Nothing | Given::Number | Given::Enumerated | Given::Null | Given::Cast(_) =>
                plain(number),
        }
    }

    /// What `?:` gives of this and another value (C99 6.5.15p6): a pointer to what has the qualifiers of both.
    pub(crate) fn or(self, other: Given) -> Given
        ensures { result ≡ chosen self other }
    {
        match (self, other) {
            (Given::Null, _) => other,
            (Given::Pointer(one), Given::Pointer(second)) => Given::Pointer(one.qualified_as(
                second,
            )),
            (Given::Pointer(one), Given::Cast(_)) => Given::Cast(one),
            (Given::Number, Given::Enumerated) => other,
            _ => self,
        }
    }

    /// The same, if it is by a cast of a form of its own: one to a type of pointers, or else to an enumeration.
    pub(crate) fn cast_if(self, is_cast: bool) -> Given
        ensures { result ≡ cast_if is_cast self }
    {
        if !is_cast {
            return self;
        }
        match self {
            Given::Pointer(of) => Given::Cast(of),
            Given::Number => Given::Enumerated,
            Given::Nothing | Given::Enumerated | Given::Null | Given::Cast(_) => self,
        }
    }

    /// Whether such a cast is one to an enumeration.
    pub(crate) fn casts_number(self, is_cast: bool) -> bool
        ensures { result ≡ casts_number is_cast self }
    {
        if !is_cast {
            return false;
        }
        match self {
            Given::Number | Given::Enumerated => true,
            Given::Nothing | Given::Null | Given::Pointer(_) | Given::Cast(_) => false,
        }
    }

    /// Whether a type is that of pointers to another type: one without `const`, or one that differs below. A cast may
    /// give anything, and enumerations are `int`.
    pub(crate) fn differs(self, other: CType) -> bool
        ensures { result ≡ differs self other }
    {
        match (self, other) {
            (Given::Pointer(from), CType::Pointer(to)) => {
                (from.constant && !to.constant)
                    || unenumerated(from.number) != unenumerated(to.number)
            }
            _ => false,
        }
    }
}

// The type with this number, without qualifiers.
fn plain(number: u32) -> Qualified
    ensures { result ≡ plain number }
{
    Qualified {
        number,
        constant: false,
        volatile: false,
    }
}

/// A number, which may be a value of an enumeration that compilers may make unsigned.
pub(crate) fn number_if(is_enumeration: bool) -> Given
    ensures { result ≡ number_if is_enumeration }
{
    if is_enumeration {
        return Given::Enumerated;
    }
    Given::Number
}

// Whether an enumeration that is unsigned makes an operator work on unsigned numbers that works in this type (C99
// 6.3.1.8).
fn is_signed_word(of: IntType) -> bool
    ensures { result ≡ is_signed_word of }
{
    match of {
        IntType::Int | IntType::Long => true,
        _ => false,
    }
}

/// Whether what an operator that works in a type changes is an enumeration.
pub(crate) fn is_changed(of: IntType, target: Qualified) -> bool
    ensures { result ≡ (is_signed_word of && is_enumerated target.number) }
{
    is_signed_word(of) && is_enumerated(target.number)
}

/// Whether it is one, or the right operand is a value of one.
pub(crate) fn is_either_changed(of: IntType, target: Qualified, right: Given) -> bool
    ensures { result ≡ ((is_signed_word of && is_enumerated target.number) || is_unsigned_by_some right) }
{
    is_changed(of, target) || right.is_unsigned_by_some()
}

/// What a conversion gives: an implied one, which stands at the place of its operand, leaves it open whether it is
/// unsigned.
pub(crate) fn converted(to: IntType, is_same: bool, given: Given) -> Given
    ensures { result ≡ converted to is_same given }
{
    number_if(is_same && is_signed_word(to) && given.is_unsigned_by_some())
}

// Whether an operator shifts.
fn is_shift(operator: BinOp) -> bool
    ensures { result ≡ is_shift operator }
{
    match operator {
        BinOp::Shl | BinOp::Shr => true,
        _ => false,
    }
}

/// What an operator gives of its operands: a comparison an `int`, a shift what its left operand is (C99 6.5.7p3).
pub(crate) fn computed(operator: BinOp, first: Given, second: Given) -> Given
    ensures { result ≡ computed operator first second }
{
    if is_comparison(operator) {
        return Given::Number;
    }
    if is_shift(operator) {
        return number_if(first.is_unsigned_by_some());
    }
    number_if(first.either(second))
}

/// What a value of the type with this number gives.
pub(crate) fn given_by(number: u32, ctype: CType) -> Given
    ensures { result ≡ given_by number ctype }
{
    match ctype {
        CType::Int(_) => number_if(is_enumerated(number)),
        CType::Pointer(of) => Given::Pointer(of),
        CType::Void | CType::Array { .. } | CType::Struct(_) => Given::Nothing,
    }
}

/// What a cell gives: of its declared type where that tells more than its scalar.
#[tactic(auto, unfolding(body_builder::specs::Fragments::tree_in))]
pub(crate) fn held_by(laid: &Laid, scalar: Scalar, of: Qualified) -> Given
    ensures { (o : APlace → Bool) (p : ℕ) → result ≡ held_by (laid_tree laid.now) o p scalar of }
{
    match scalar {
        Scalar::Int(_) => number_if(is_enumerated(of.number)),
        Scalar::Pointer(class) => match type_at(laid, of.number) {
            CType::Pointer(target) => Given::Pointer(target),
            CType::Void | CType::Int(_) | CType::Array { .. } | CType::Struct(_) => {
                cast_to(type_at(laid, class))
            }
        },
    }
}

// A cast to a type of pointers.
fn cast_to(class: CType) -> Given
    ensures { result ≡ pointer_as class }
{
    match class {
        CType::Pointer(of) => Given::Cast(plain(of.number)),
        CType::Void | CType::Int(_) | CType::Array { .. } | CType::Struct(_) => {
            Given::Cast(plain(0))
        }
    }
}

/// An element of an array; the same where it is none.
#[tactic(auto, unfolding(body_builder::specs::Fragments::tree_in))]
pub(crate) fn element_of(laid: &Laid, of: Qualified) -> Qualified
    ensures { (o : APlace → Bool) (p : ℕ) → result ≡ element_of (laid_tree laid.now) o p of }
{
    match type_at(laid, of.number) {
        CType::Array { element, .. } => Qualified {
            number: element,
            constant: of.constant,
            volatile: of.volatile,
        },
        CType::Void | CType::Int(_) | CType::Pointer(_) | CType::Struct(_) => of,
    }
}

/// The member of a structure in which a cell stands, with the qualifiers of both (C99 6.5.2.3p3).
pub(crate) fn member_at(laid: &Laid, of: Qualified, cell: u32) -> Qualified
    ensures { (o : APlace → Bool) (p : ℕ) → result ≡ member_at (laid_tree laid.now) o p of cell }
{
    match step_down(&laid.file, Inside { of, cell }) {
        Some(Down::Element { inside, .. }) => inside.of,
        Some(Down::Member { inside, .. }) => inside.of,
        None => plain(0),
    }
}

/// The type of an object that a number stands for on a path.
#[tactic(auto, unfolding(body_builder::specs::Fragments::tree_in))]
pub(crate) fn object_type(
    laid: &Laid,
    path: u32,
    object: ObjectNumber,
) -> Result<Qualified, NoMemory>
    ensures { IfOk result (λ q. (o : APlace → Bool) → q ≡ object_type (laid_tree laid.now) o path object) }
{
    Ok(object_at(laid, object_of(laid, path, object)?).of)
}

/// The type to which the pointers of a class point.
#[tactic(auto, unfolding(body_builder::specs::Fragments::tree_in))]
pub(crate) fn class_target(laid: &Laid, class: u32) -> u32
    ensures { result ≡ pointed_by (entry_of (laid_tree laid.now).file class).ctype }
{
    match type_at(laid, class) {
        CType::Pointer(of) => of.number,
        CType::Void | CType::Int(_) | CType::Array { .. } | CType::Struct(_) => 0,
    }
}
