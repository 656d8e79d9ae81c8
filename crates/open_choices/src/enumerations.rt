//! ENUM: negative numbers in enumerations that compilers may make unsigned, or beside them in operators (C99
//! 6.7.2.2p4).
ghost use Rattle.std.specs.Prelude.{◌≡◌, ◌⊎◌, ◌↔◌, IsTrue, IfOk};
ghost use Rattle.tm_laid.specs.Layouts.{laid_tree};
ghost use Rattle.post_recheck.specs.transfer_rows.StateForms.{value_of};
ghost use Rattle.operand_orders.specs.reading.Views.{solved};
ghost use Rattle.open_choices.specs.Enumerations.{HasNegative, HasSmaller, GivesNegative, TurnsNegative};
ghost use Rattle.open_choices.specs.reading.Marks.{AreEnumerated};
ghost use Rattle.open_choices.specs.reading.Enumerated.{HasPositive, IsNegativeUnary, IsNegativeBinary, IsNegativeStore};
ghost use Rattle.open_choices.specs.reading.Enumerated.{StoresEnumerated, in_word, unary_of, binary_of, branch_of};
ghost use Rattle.open_choices.specs.reading.Enumerated.{branch_by, enumerated_look_of};

use crate::conversions::has_negative;
use crate::looks::Look;
use crate::marks::{Marks, inside_at, marks_one};
use calculations::numbers_of;
use cell_env::State;
use flow_graph::{Operation, Test};
use operand_orders::BodyView;
use part_extents::is_of_enumeration;
use path_origins::Form;
use pointer_dom::AbsValue;
use std::alloc::Global;
use strided_dom::Strided;
use tm_cint::{BinOp, IntType};
use tm_laid::Laid;
use tm_lattice::NoMemory;
use tm_typed::{Scalar, Unary};

/// For each abstract cell whether it is of an enumeration that compilers may make unsigned.
pub(crate) fn enumerated_cells(alloc: Global, laid: &Laid) -> Result<Marks, NoMemory>
    ensures { IfOk result (λ marks. AreEnumerated (laid_tree laid.now) marks) }
{
    let mut cells = Vec::new(alloc);
    for cell in &laid.abstract_cells {
        cells.push(is_of_enumeration(laid, inside_at(laid, cell.object, cell.offset)))?;
    }
    let other = is_of_enumeration(laid, inside_at(laid, 0, 0));
    Ok(Marks { cells, other })
}

// What is looked for where an operator works in a type: in `int` and `long` an enumeration that is unsigned makes it
// work on unsigned numbers (C99 6.3.1.8).
fn in_word(of: IntType, look: Look) -> Look
    ensures { result ≡ in_word of look }
{
    match of {
        IntType::Int | IntType::Long => look,
        _ => Look::Nothing,
    }
}

// At an operator on one operand.
fn unary_of(form: Form, of: IntType, operator: Unary, value: u32) -> Look
    ensures { result ≡ unary_of form of operator value }
{
    match form {
        Form::Unary(true) => in_word(of, Look::Unary { operator, value }),
        _ => Look::Nothing,
    }
}

// At one on two operands.
fn binary_of(form: Form, of: IntType, operator: BinOp, left: u32, right: u32) -> Look
    ensures { result ≡ binary_of form of operator left right }
{
    match form {
        Form::Binary(true) => in_word(
            of,
            Look::Binary {
                operator,
                left,
                right,
            },
        ),
        _ => Look::Nothing,
    }
}

// At a comparison as a branch.
fn branch_of(form: Form, of: IntType, left: u32, right: u32) -> Look
    ensures { result ≡ branch_of form of left right }
{
    match form {
        Form::Test(true) => in_word(of, Look::Branch { left, right }),
        _ => Look::Nothing,
    }
}

// At a test.
fn branch_by(form: Form, test: Test) -> Look
    ensures { result ≡ branch_by form test }
{
    match test {
        Test::Numbers {
            of,
            left,
            right,
            ..
        } => branch_of(form, of, left, right),
        _ => Look::Nothing,
    }
}

/// What is looked for of enumerations where an operation of a form stands.
pub(crate) fn enumerated_look_of(form: Form, operation: Operation) -> Look
    ensures { result ≡ enumerated_look_of form operation }
{
    match operation {
        Operation::Store {
            address,
            value,
            scalar,
            ..
        } => Look::Negative {
            address,
            value,
            scalar,
        },
        Operation::Un {
            operator,
            of,
            from,
            ..
        } => unary_of(form, of, operator, from),
        Operation::Bin {
            operator,
            of,
            left,
            right,
            ..
        } => binary_of(form, of, operator, left, right),
        Operation::Assume { test } => branch_by(form, test),
        _ => Look::Nothing,
    }
}

/// Whether one of the numbers of two operands is negative.
pub(crate) fn either_negative(left: &Strided, right: &Strided) -> bool
    ensures { IsTrue result ↔ (HasNegative left.now ⊎ HasNegative right.now) }
{
    has_negative(left) || has_negative(right)
}

// Whether one of the numbers is smaller than one of others.
fn has_smaller(left: &Strided, right: &Strided) -> bool
    ensures { IsTrue result ↔ HasSmaller left.now right.now }
{
    if left.is_empty() {
        return false;
    }
    if right.is_empty() {
        return false;
    }
    left.lo() < right.hi()
}

// Whether the result of an operator on numbers from 0 on may be negative.
fn gives_negative(operator: BinOp, left: &Strided, right: &Strided) -> bool
    ensures { IsTrue result ↔ GivesNegative operator left.now right.now }
{
    match operator {
        BinOp::Sub => has_smaller(left, right),
        _ => false,
    }
}

/// Whether an operator on two operands works on negative numbers, or gives one.
pub(crate) fn is_negative_binary(operator: BinOp, left: &Strided, right: &Strided) -> bool
    ensures { IsTrue result ↔ IsNegativeBinary operator left.now right.now }
{
    either_negative(left, right) || gives_negative(operator, left, right)
}

// Whether one of the numbers is positive.
fn has_positive(numbers: &Strided) -> bool
    ensures { IsTrue result ↔ HasPositive numbers.now }
{
    if numbers.is_empty() {
        return false;
    }
    numbers.hi() > 0
}

// Whether the result of `-` or `~` on a number from 0 on may be negative.
fn turns_negative(operator: Unary, numbers: &Strided) -> bool
    ensures { IsTrue result ↔ TurnsNegative numbers.now operator }
{
    match operator {
        Unary::Negate => has_positive(numbers),
        Unary::Complement => !numbers.is_empty(),
    }
}

/// Whether an operator on one operand works on negative numbers, or gives one.
pub(crate) fn is_negative_unary(operator: Unary, numbers: &Strided) -> bool
    ensures { IsTrue result ↔ IsNegativeUnary operator numbers.now }
{
    has_negative(numbers) || turns_negative(operator, numbers)
}

// Whether an access by an address may reach an enumeration.
fn stores_enumerated(
    view: BodyView<'_>,
    marks: &Marks,
    state: &State<AbsValue>,
    address: u32,
    scalar: Scalar,
) -> Result<bool, NoMemory>
    requires { AreEnumerated (laid_tree view.laid.now) marks.now }
    ensures { IfOk result (λ is. IsTrue is ↔ StoresEnumerated (solved view.entry) state.now scalar address) }
{
    let targets = view.targets(state, address, scalar)?;
    Ok(marks_one(marks, targets.as_slice()))
}

/// Whether a store puts a negative number there. The value is looked at first: it tells most stores.
pub(crate) fn is_negative_store(
    view: BodyView<'_>,
    marks: &Marks,
    state: &State<AbsValue>,
    address: u32,
    value: u32,
    scalar: Scalar,
) -> Result<bool, NoMemory>
    requires { AreEnumerated (laid_tree view.laid.now) marks.now }
    ensures { IfOk result (λ is. IsTrue is
        ↔ IsNegativeStore (solved view.entry) state.now address value scalar) }
{
    if has_negative(&numbers_of(state, value)) {
        stores_enumerated(view, marks, state, address, scalar)
    } else {
        Ok(false)
    }
}
