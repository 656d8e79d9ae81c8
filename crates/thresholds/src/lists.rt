//! The sorted list of thresholds.
ghost use Rattle.std.specs.Prelude.{◌≡◌, ◌++◌, ◌||◌, ◌^◌, [], ◌∷◌, pos, neg_ℤ, ◌≤ℤ◌, ◌<ℤ◌, IfOk, OnOk, All};
ghost use Rattle.std.specs.List.{flat_map};
ghost use Rattle.tm_cint.specs.IntTypes.{is_in};
ghost use Rattle.strided_dom.specs.Progression.{IsInReach};
ghost use Rattle.tm_cint.specs.declared.int_types.IntType.TheVariants as Ints;
ghost use Rattle.thresholds.specs.Thresholds.{units, ends_of, all_types, of_length, near, of_constant, of_given};
ghost use Rattle.thresholds.specs.Thresholds.{thresholds, AreThresholds, AreInOrder, numbers_of};

use std::alloc::Global;
use strided_dom::Marks;
use tm_cint::IntType;
use tm_lattice::NoMemory;

/// The thresholds of a program, by which the values at the heads of its loops and in its store are rounded: 0, 1, -1
/// and the ends of the integer types; for each length of an array the length and its last subscript; for each constant
/// and label of the text the number, its neighbours and its opposite; and each given number with its opposite.
pub fn marks(
    alloc: Global,
    lengths: &[u32],
    constants: &[i128],
    labels: &[i128],
    given: &[u32],
) -> Result<Marks, NoMemory>
    ensures { IfOk result (λ m. AreThresholds (numbers_of lengths.now constants.now labels.now given.now) m) }
{
    let mut ends = Vec::new(alloc);
    push_units(&mut ends)?;
    push_all_types(&mut ends)?;
    push_lengths(&mut ends, lengths)?;
    push_constants(&mut ends, constants)?;
    push_constants(&mut ends, labels)?;
    push_given(&mut ends, given)?;
    sorted(ends)
}

// One more number at the end.
#[tactic(auto, using(crate::proofs::Reach::one_more))]
fn push(ends: &mut Vec<i128>, end: i128) -> Result<(), NoMemory>
    requires reach { IsInReach end }
    requires ends { All IsInReach ends.old.items }
    ensures items { OnOk result (ends.new.items ≡ ends.old.items ++ end ∷ []) }
    ensures reach { OnOk result (All IsInReach ends.new.items) }
{
    match ends.push(end) {
        Ok(()) => Ok(()),
        Err(_) => Err(NoMemory),
    }
}

// 0, 1 and -1.
#[tactic(auto, using(std::proofs::lemmas::List::append_assoc), unfolding(crate::specs::Thresholds::units))]
fn push_units(ends: &mut Vec<i128>) -> Result<(), NoMemory>
    requires { All IsInReach ends.old.items }
    ensures items { OnOk result (ends.new.items ≡ ends.old.items ++ units) }
    ensures reach { OnOk result (All IsInReach ends.new.items) }
{
    push(ends, 0)?;
    push(ends, 1)?;
    push(ends, -1)
}

// The ends of the integer types.
#[tactic(auto, unfolding(crate::specs::Thresholds::all_types))]
fn push_all_types(ends: &mut Vec<i128>) -> Result<(), NoMemory>
    requires { All IsInReach ends.old.items }
    ensures items { OnOk result (ends.new.items ≡ ends.old.items ++ flat_map ends_of all_types) }
    ensures reach { OnOk result (All IsInReach ends.new.items) }
{
    push_types(
        ends,
        &[
            IntType::Bool,
            IntType::Char,
            IntType::UChar,
            IntType::Short,
            IntType::UShort,
            IntType::Int,
            IntType::UInt,
            IntType::Long,
            IntType::ULong,
            IntType::LLong,
            IntType::ULLong,
        ],
    )
}

// The ends of some types.
#[tactic(auto, using(std::proofs::lemmas::List::append_assoc, crate::proofs::Reach::lo_reach, crate::proofs::Reach::hi_reach))]
fn push_types(ends: &mut Vec<i128>, types: &[IntType]) -> Result<(), NoMemory>
    requires { All IsInReach ends.old.items }
    ensures items { OnOk result (ends.new.items ≡ ends.old.items ++ flat_map ends_of types.now) }
    ensures reach { OnOk result (All IsInReach ends.new.items) }
{
    for of in types {
        push(ends, of.lo())?;
        push(ends, of.hi())?;
    }
    Ok(())
}

// What lengths give.
#[tactic(auto, using(std::proofs::lemmas::List::append_assoc))]
fn push_lengths(ends: &mut Vec<i128>, lengths: &[u32]) -> Result<(), NoMemory>
    requires { All IsInReach ends.old.items }
    ensures items { OnOk result (ends.new.items ≡ ends.old.items ++ flat_map of_length lengths.now) }
    ensures reach { OnOk result (All IsInReach ends.new.items) }
{
    for length in lengths {
        let length = i128::from(*length);
        push(ends, length)?;
        push(ends, length - 1)?;
    }
    Ok(())
}

// A number with its neighbours and its opposite.
#[tactic(auto, using(std::proofs::lemmas::List::append_assoc))]
fn push_near(ends: &mut Vec<i128>, number: i128) -> Result<(), NoMemory>
    requires ends { All IsInReach ends.old.items }
    requires low { neg_ℤ (pos (2 ^ 63)) ≤ℤ number }
    requires high { number <ℤ pos (2 ^ 64) }
    ensures items { OnOk result (ends.new.items ≡ ends.old.items ++ near number) }
    ensures reach { OnOk result (All IsInReach ends.new.items) }
{
    push(ends, number - 1)?;
    push(ends, number)?;
    push(ends, number + 1)?;
    push(ends, 0 - number)
}

// What one constant gives.
#[tactic(auto, using(crate::proofs::Reach::constant_gives, crate::proofs::Reach::nothing_given, crate::proofs::Reach::not_less, crate::proofs::Reach::not_more))]
fn push_constant(ends: &mut Vec<i128>, constant: i128) -> Result<(), NoMemory>
    requires { All IsInReach ends.old.items }
    ensures items { OnOk result (ends.new.items ≡ ends.old.items ++ of_constant constant) }
    ensures reach { OnOk result (All IsInReach ends.new.items) }
{
    if !is_constant(constant) {
        return Ok(());
    }
    push_near(ends, constant)
}

// Whether some integer type holds a number.
fn is_constant(number: i128) -> bool
    ensures { result ≡ (is_in Ints.LLong number || is_in Ints.ULLong number) }
{
    IntType::LLong.holds(number) || IntType::ULLong.holds(number)
}

// What constants give.
#[tactic(auto, using(std::proofs::lemmas::List::append_assoc))]
fn push_constants(ends: &mut Vec<i128>, constants: &[i128]) -> Result<(), NoMemory>
    requires { All IsInReach ends.old.items }
    ensures items { OnOk result (ends.new.items ≡ ends.old.items ++ flat_map of_constant constants.now) }
    ensures reach { OnOk result (All IsInReach ends.new.items) }
{
    for constant in constants {
        push_constant(ends, *constant)?;
    }
    Ok(())
}

// What given numbers give.
#[tactic(auto, using(std::proofs::lemmas::List::append_assoc))]
fn push_given(ends: &mut Vec<i128>, given: &[u32]) -> Result<(), NoMemory>
    requires { All IsInReach ends.old.items }
    ensures items { OnOk result (ends.new.items ≡ ends.old.items ++ flat_map of_given given.now) }
    ensures reach { OnOk result (All IsInReach ends.new.items) }
{
    for number in given {
        let number = i128::from(*number);
        push(ends, number)?;
        push(ends, 0 - number)?;
    }
    Ok(())
}

// Numbers as thresholds: sorted, and each once.
fn sorted(ends: Vec<i128>) -> Result<Marks, NoMemory>
    requires { All IsInReach ends.items }
    ensures { IfOk result (λ m. AreInOrder ends.items m) }
{
    let mut ends = ends;
    match ends.sort() {
        Ok(()) => {
            ends.dedup();
            Ok(Marks::new(ends))
        }
        Err(_) => Err(NoMemory),
    }
}
