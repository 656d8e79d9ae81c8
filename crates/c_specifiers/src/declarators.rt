//! Declarators (C99 6.7.5): which type a declarator makes of the type that its specifiers name.
ghost use Rattle.std.specs.Prelude.{◌≡◌, map, take, drop, OnOk, IfOk};
ghost use Rattle.tm_trees.specs.DeclarationTrees.{declarator_tree, length_tree};
ghost use Rattle.tm_typed.specs.Refusals.{Gives};
ghost use Rattle.tm_typed.specs.States.{in_scope};
ghost use Rattle.tm_typed.specs.TypeNames.{bare, pointed};
ghost use Rattle.tm_typed.specs.Declarators.{is_no_element, array_of, arrays_of, shaped, length_named, length_rules};
ghost use Rattle.tm_typed.specs.Declarators.{lengths_behind, lengths_of, whole, declared, declared_pointers};
ghost use Rattle.c_typing_state.specs.Steps.{StepsTo};

use c_scope::Scope;
use c_type_names::{bare, refusal};
use c_typing_state::{State, folded_value};
use std::alloc::Global;
use std::collections::VecDeque;
use tm_lattice::NoMemory;
use tm_terms::{Fail, Kind, PointerWord};
use tm_trees::{Declarator, Length};
use tm_typed::{CType, Qualified, Shape};

// ## Lengths, in the order of the text

// 1 to 65,536 elements.
fn length_named(value: Option<i128>) -> Option<u32>
    ensures { result ≡ length_named value }
{
    match value {
        Some(value) => {
            if 1 <= value && value <= 65536 {
                Some(value as u32)
            } else {
                None
            }
        }
        None => None,
    }
}

// A length, where one is written: it is folded and in range, and is kept for later layers.
#[tactic(auto, using(c_typing_state::proofs::Frames::passes, c_typing_state::proofs::Frames::goes_on))]
fn length_of(alloc: Global, state: &mut State, length: &Length) -> Result<Option<u32>, Fail>
    ensures { StepsTo (λ n. n) state.new result (length_rules state.old (length_tree length.now)
        (length_tree length.now).value) }
{
    match &length.value {
        Some(expr) => match state.measured(alloc, expr) {
            Ok(operand) => match length_named(folded_value(&operand)) {
                Some(elements) => match state.add_length(elements) {
                    Ok(()) => Ok(Some(elements)),
                    Err(_) => Err(Fail::NoMemory),
                },
                None => Err(refusal(Kind::NotConstant, expr.place())),
            },
            Err(fail) => Err(fail),
        },
        None => Ok(None),
    }
}

// Lengths behind others, the last of the text first.
#[tactic(auto, using(c_typing_state::proofs::Frames::passes, c_typing_state::proofs::Frames::goes_on))]
fn lengths_behind(
    alloc: Global,
    state: &mut State,
    found: &mut VecDeque<Option<u32>>,
    lengths: &[Length],
) -> Result<(), Fail>
    ensures { Gives (λ _. (found.new.items, state.new)) result
        (lengths_behind state.old found.old.items (map length_tree lengths.now)) }
{
    'lengths: for length in lengths {
        let elements = length_of(alloc, state, length)?;
        match found.push_front(elements) {
            Ok(()) => {}
            Err(_) => return Err(Fail::NoMemory),
        }
    }
    Ok(())
}

// The lengths of a whole declarator, the last of the text first.
#[tactic(auto, using(c_typing_state::proofs::Frames::passes, c_typing_state::proofs::Frames::goes_on))]
fn lengths_of(
    alloc: Global,
    state: &mut State,
    declarator: &Declarator,
) -> Result<VecDeque<Option<u32>>, Fail>
    ensures { StepsTo (λ q. q.items) state.new result (lengths_of state.old (declarator_tree declarator.now)) }
{
    match declarator {
        Declarator::Name { lengths, .. } => {
            let mut found = VecDeque::new(alloc);
            lengths_behind(alloc, state, &mut found, lengths)?;
            Ok(found)
        }
        Declarator::Nested {
            inside,
            lengths,
            ..
        } => {
            let mut found = lengths_of(alloc, state, inside)?;
            lengths_behind(alloc, state, &mut found, lengths)?;
            Ok(found)
        }
    }
}

// ## The parts of a declarator, from the outside in

// Whether an array has no elements of this shape.
fn is_no_element(scope: &Scope, shape: Shape) -> bool
    ensures { result ≡ is_no_element scope.now shape }
{
    shape.mismatch || shape.is_open || !scope.is_complete(shape.of.number)
}

// An array of what was made so far. The table has its type from now on.
fn array_of(state: &mut State, shape: Shape, length: Option<u32>) -> Result<Shape, NoMemory>
    ensures shape { IfOk result (λ s. s ≡ (array_of (shape, state.old.scope) length).0) }
    ensures state { OnOk result (state.new ≡ in_scope state.old (array_of (shape, state.old.scope) length).1) }
{
    let mismatch = is_no_element(state.scope(), shape);
    match length {
        None => Ok(Shape {
            is_open: true,
            mismatch,
            ..shape
        }),
        Some(length) => {
            let number = state.add_type(CType::Array {
                element: shape.of.number,
                length,
            })?;
            let of = Qualified { number, ..shape.of };
            Ok(Shape {
                of,
                is_open: false,
                mismatch,
                ..shape
            })
        }
    }
}

// Arrays of the first `count` of some lengths, which are gone then.
fn arrays_of(
    state: &mut State,
    shape: Shape,
    lengths: &mut VecDeque<Option<u32>>,
    count: usize,
) -> Result<Shape, NoMemory>
    ensures shape { IfOk result (λ s. s ≡ (arrays_of (shape, state.old.scope) (take count lengths.old.items)).0) }
    ensures state { OnOk result (state.new ≡ in_scope state.old
        (arrays_of (shape, state.old.scope) (take count lengths.old.items)).1) }
    ensures lengths { OnOk result (lengths.new.items ≡ drop count lengths.old.items) }
{
    let mut made = shape;
    let mut left = count;
    'lengths: while left > 0 {
        left -= 1;
        if let Some(length) = lengths.pop_front() {
            made = array_of(state, made, length)?;
        }
    }
    Ok(made)
}

// The type of what is declared, from the outside in.
fn shaped(
    state: &mut State,
    shape: Shape,
    declarator: &Declarator,
    lengths: &mut VecDeque<Option<u32>>,
) -> Result<Shape, NoMemory>
    ensures shape { IfOk result (λ s. s ≡ (shaped (shape, state.old.scope)
        (declarator_tree declarator.now) lengths.old.items).0) }
    ensures state { OnOk result (state.new ≡ in_scope state.old
        (shaped (shape, state.old.scope) (declarator_tree declarator.now) lengths.old.items).1) }
{
    match declarator {
        Declarator::Name {
            pointers,
            lengths: here,
            ..
        } => {
            let pointed = state.add_pointers(shape, pointers)?;
            arrays_of(state, pointed, lengths, here.len())
        }
        Declarator::Nested {
            pointers,
            inside,
            lengths: here,
        } => {
            let pointed = state.add_pointers(shape, pointers)?;
            let made = arrays_of(state, pointed, lengths, here.len())?;
            shaped(state, made, inside, lengths)
        }
    }
}

// ## Whole declarators

// A volatile pointer is left out.
fn whole(scope: &Scope, shape: Shape) -> Shape
    ensures { result ≡ (whole (shape, scope.now)).0 }
{
    Shape {
        left_out: shape.left_out || scope.is_volatile_pointer(shape.of),
        ..shape
    }
}

/// A declarator of the type that specifiers name: its lengths are looked at first.
#[tactic(auto, using(c_typing_state::proofs::Frames::passes, c_typing_state::proofs::Frames::goes_on))]
pub fn declared(
    alloc: Global,
    state: &mut State,
    of: Qualified,
    declarator: &Declarator,
) -> Result<Shape, Fail>
    ensures { StepsTo (λ s. s) state.new result (declared state.old of (declarator_tree declarator.now)) }
{
    let mut lengths = lengths_of(alloc, state, declarator)?;
    let shape = shaped(state, bare(of), declarator, &mut lengths)?;
    Ok(whole(state.scope(), shape))
}

/// Stars alone, of a function's result or a parameter without a name.
pub fn declared_pointers(
    state: &mut State,
    of: Qualified,
    words: &[PointerWord],
) -> Result<Shape, NoMemory>
    ensures { IfOk result (λ s. declared_pointers state.old of words.now ≡ (s, state.new)) }
{
    let shape = state.add_pointers(bare(of), words)?;
    Ok(whole(state.scope(), shape))
}
