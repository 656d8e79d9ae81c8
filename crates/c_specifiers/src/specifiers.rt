//! Specifiers (C99 6.7), and the members in the braces of structures.
ghost use Rattle.std.specs.Prelude.{◌≡◌, map, Ok};
ghost use Rattle.tm_trees.specs.DeclarationTrees.{declarator_tree, specifier_tree, specifier_trees, as_specifiers};
ghost use Rattle.tm_trees.specs.DeclarationTrees.{member_tree, as_members};
ghost use Rattle.tm_typed.specs.Refusals.{Gives, then_with};
ghost use Rattle.tm_typed.specs.Structures.{no_layout, opened_by, structure_said, plain_rules, specifier, specifiers};
ghost use Rattle.tm_typed.specs.Structures.{laid_out, specified};
ghost use Rattle.c_typing_state.specs.Steps.{StepsTo};

use crate::enumerations::enumeration;
use crate::layouts::Layout;
use crate::members::{members_declared, opened_by, structure_said};
use c_type_names::{base, nothing_said, word};
use c_typing_state::State;
use std::alloc::Global;
use tm_terms::{Fail, Spec};
use tm_trees::{Member, Specifier, Tag};
use tm_typed::Said;

// A word, or a tag alone.
#[tactic(auto, using(c_typing_state::proofs::Frames::passes, c_typing_state::proofs::Frames::goes_on))]
fn plain_word(alloc: Global, state: &mut State, said: Said, spec: Spec) -> Result<Said, Fail>
    ensures { StepsTo (λ d. d) state.new result (plain_rules state.old said spec) }
{
    state.mention(alloc, spec.word)?;
    word(state.scope(), said, spec)
}

// The members of a structure behind others.
#[cycle(specifiers)]
#[tactic(auto, using(c_typing_state::proofs::Frames::passes, c_typing_state::proofs::Frames::goes_on))]
fn laid_out(
    alloc: Global,
    state: &mut State,
    layout: &mut Layout,
    members: &[Member],
) -> Result<(), Fail>
    ensures { Gives (λ _. (layout.new, state.new)) result (laid_out state.old layout.old
        (as_members (map member_tree members.now))) }
{
    'members: for member in members {
        let said = specifiers_behind(alloc, state, nothing_said(), &member.specifiers)?;
        members_declared(alloc, state, layout, base(said), &member.declarators)?;
    }
    Ok(())
}

// A structure with its members.
#[cycle(specifiers)]
#[tactic(auto, using(c_typing_state::proofs::Frames::passes, c_typing_state::proofs::Frames::goes_on))]
fn structure(
    alloc: Global,
    state: &mut State,
    said: Said,
    tag: Option<Tag>,
    members: &[Member],
) -> Result<Said, Fail>
    ensures { StepsTo (λ d. d) state.new result (then_with (opened_by state.old tag)
        (λ o. then_with (laid_out o.1 no_layout (as_members (map member_tree members.now)))
        (λ m. Ok (structure_said said o.0 m)))) }
{
    let number = opened_by(alloc, state, tag)?;
    let mut layout = Layout::new(alloc);
    match laid_out(alloc, state, &mut layout, members) {
        Ok(()) => match structure_said(state, said, number, layout) {
            Ok(said) => Ok(said),
            Err(_) => Err(Fail::NoMemory),
        },
        Err(fail) => Err(fail),
    }
}

// What a specifier says besides what is said so far.
#[cycle(specifiers)]
fn specifier(alloc: Global, state: &mut State, said: Said, one: &Specifier) -> Result<Said, Fail>
    ensures { StepsTo (λ d. d) state.new result (specifier state.old said (specifier_tree one.now)) }
{
    match one {
        Specifier::Plain(spec) => plain_word(alloc, state, said, *spec),
        Specifier::Struct { tag, members, .. } => structure(alloc, state, said, *tag, members),
        Specifier::Enum {
            tag,
            enumerators,
            ..
        } => enumeration(alloc, state, said, *tag, enumerators),
    }
}

// Specifiers behind others.
#[cycle(specifiers)]
#[tactic(auto, using(c_typing_state::proofs::Frames::passes, c_typing_state::proofs::Frames::goes_on))]
fn specifiers_behind(
    alloc: Global,
    state: &mut State,
    said: Said,
    listed: &[Specifier],
) -> Result<Said, Fail>
    ensures { StepsTo (λ d. d) state.new result (specifiers state.old said
        (as_specifiers (map specifier_tree listed.now))) }
{
    let mut found = said;
    'specifiers: for each in listed {
        found = specifier(alloc, state, found, each)?;
    }
    Ok(found)
}

/// What the specifiers of a declaration say. The state has their tags, structures and constants from now on.
pub fn specified(alloc: Global, state: &mut State, listed: &[Specifier]) -> Result<Said, Fail>
    ensures { StepsTo (λ d. d) state.new result (specified state.old (specifier_trees listed.now)) }
{
    specifiers_behind(alloc, state, nothing_said(), listed)
}
