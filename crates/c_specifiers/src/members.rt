//! Members of structures, and the beginnings and ends of structures (C99 6.7.2.1, 6.7.2.3).
ghost use Rattle.std.specs.Prelude.{◌≡◌, map, IfOk};
ghost use Rattle.tm_trees.specs.DeclarationTrees.{declarator_tree};
ghost use Rattle.tm_typed.specs.Refusals.{Gives};
ghost use Rattle.tm_typed.specs.Structures.{member_rules, members_declared, opened_tag, opened_by, structure_said};
ghost use Rattle.c_typing_state.specs.Steps.{StepsTo};

use crate::declarators::declared;
use crate::layouts::Layout;
use crate::rules::{declared_name, declared_place, is_no_object};
use c_type_names::{plain, refusal, said_type};
use c_typing_state::State;
use std::alloc::Global;
use tm_lattice::NoMemory;
use tm_terms::{Fail, Kind};
use tm_trees::{Declarator, Tag};
use tm_typed::{CType, Qualified, Said, Shape, Tagged};

// ## Members

// A member, whose type is made: members belong to their structure, and are objects of types whose size is known.
fn member(
    state: &State,
    layout: &mut Layout,
    shape: Shape,
    declarator: &Declarator,
) -> Result<(), Fail>
    ensures { Gives (λ _. (layout.new, state.now)) result (member_rules state.now layout.old shape
        (declarator_tree declarator.now)) }
{
    let place = declared_place(declarator);
    let name = declared_name(declarator);
    if shape.left_out {
        return Err(refusal(Kind::Unsupported, place));
    }
    if layout.has(name) {
        return Err(refusal(Kind::Redeclared, place));
    }
    if is_no_object(state.scope(), shape) {
        return Err(refusal(Kind::Mismatch, place));
    }
    layout.add(state.scope(), name, shape.of)?;
    Ok(())
}

/// The members that one declaration gives.
#[tactic(auto, using(c_typing_state::proofs::Frames::passes, c_typing_state::proofs::Frames::goes_on))]
pub(crate) fn members_declared(
    alloc: Global,
    state: &mut State,
    layout: &mut Layout,
    of: Qualified,
    declarators: &[Declarator],
) -> Result<(), Fail>
    ensures { Gives (λ _. (layout.new, state.new)) result (members_declared state.old layout.old of
        (map declarator_tree declarators.now)) }
{
    'declarators: for declarator in declarators {
        let shape = declared(alloc, state, of, declarator)?;
        member(state, layout, shape, declarator)?;
    }
    Ok(())
}

// ## The structure itself

// The structure that a list of members completes, by what its tag names in the present block.
fn opened_tag(
    alloc: Global,
    state: &mut State,
    tag: Tag,
    tagged: Option<Tagged>,
) -> Result<u32, Fail>
    ensures { StepsTo (λ k. k) state.new result (opened_tag state.old tag tagged) }
{
    match tagged {
        None => {
            let number = state.add_struct_tag(alloc, tag.name)?;
            state.open_structure(number);
            Ok(number)
        }
        Some(Tagged::Enumeration { .. }) => Err(refusal(Kind::Redeclared, tag.place)),
        Some(Tagged::Structure(number)) => {
            if state.scope().is_opened(number) {
                return Err(refusal(Kind::Redeclared, tag.place));
            }
            state.open_structure(number);
            Ok(number)
        }
    }
}

/// A structure's list of members begins.
pub(crate) fn opened_by(alloc: Global, state: &mut State, tag: Option<Tag>) -> Result<u32, Fail>
    ensures { StepsTo (λ k. k) state.new result (opened_by state.old tag) }
{
    match tag {
        None => {
            let number = state.add_structure(alloc)?;
            state.open_structure(number);
            Ok(number)
        }
        Some(tag) => {
            let tagged = state.scope().tagged_here(tag.name);
            opened_tag(alloc, state, tag, tagged)
        }
    }
}

/// What is said of a structure whose members are laid out.
pub(crate) fn structure_said(
    state: &mut State,
    said: Said,
    number: u32,
    layout: Layout,
) -> Result<Said, NoMemory>
    ensures { IfOk result (λ d. structure_said said number (layout, state.old) ≡ (d, state.new)) }
{
    let row = state.scope().number(CType::Struct(number));
    state.complete_structure(number, layout.into_structure())?;
    Ok(said_type(said, plain(row)))
}
