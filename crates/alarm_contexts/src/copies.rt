//! The contexts of a copy of an edge.
ghost use Rattle.std.specs.Prelude.{◌≡◌, ◌<◌, ◌⊎◌, ◌↔◌, length, Contains, OnOk, IsTrue};
ghost use Rattle.transfer_int.specs.Outcomes.{notes};
ghost use Rattle.program_reports.specs.post_recheck.task_equations.Bodies.{copy_at};
ghost use Rattle.program_reports.specs.post_recheck.program_equations.Systems.{FitsBody};
ghost use Rattle.program_reports.specs.post_recheck.body_systems.Systems.{body_of};
ghost use Rattle.program_reports.specs.reading.Parts.{ArePartsOf};
ghost use Rattle.alarm_contexts.specs.declared.exits.Context.{Context as AContext};
ghost use Rattle.alarm_contexts.specs.reading.Found.{context_at, exit_with, IsClassAt, GivesContext};

use crate::exits::{Context, Exit};
use cell_env::State;
use pointer_dom::AbsValue;
use program_reports::{BodyParts, operation_of, place_of};
use std::alloc::Global;
use tm_cint::Class;
use tm_lattice::NoMemory;
use tm_terms::{Alarm, Place};
use transfer_int::Classes;

// Adds the context of a class that is noted.
fn add_class(
    contexts: &mut Vec<Context>,
    place: Place,
    exit: Exit,
    class: Class,
    noted: bool,
) -> Result<(), NoMemory>
    ensures { OnOk result ((x : AContext) → Contains contexts.new.items x
        ↔ (Contains contexts.old.items x ⊎ IsClassAt place exit class noted x)) }
{
    if noted {
        let alarm = Alarm { place, class };
        contexts.push(Context { alarm, exit })?;
    }
    Ok(())
}

// Adds the contexts of the classes that are noted.
fn add_classes(
    contexts: &mut Vec<Context>,
    place: Place,
    exit: Exit,
    classes: Classes,
) -> Result<(), NoMemory>
    ensures { OnOk result ((x : AContext) → Contains contexts.new.items x
        ↔ (Contains contexts.old.items x
        ⊎ ((x ≡ context_at place exit x.alarm.class) × IsTrue (notes classes x.alarm.class)))) }
{
    add_class(contexts, place, exit, Class::Overflow, classes.overflow)?;
    add_class(contexts, place, exit, Class::Div, classes.div)?;
    add_class(contexts, place, exit, Class::Shift, classes.shift)?;
    add_class(contexts, place, exit, Class::Index, classes.index)?;
    add_class(contexts, place, exit, Class::Pointer, classes.pointer)?;
    add_class(contexts, place, exit, Class::Deref, classes.deref)?;
    add_class(contexts, place, exit, Class::Lock, classes.lock)
}

// A copy, behind which control goes on or does not.
fn exit_of(parts: BodyParts<'_>, copy: usize, ends: bool) -> Exit
    requires parts { ArePartsOf (body_of parts.body.now) parts }
    requires copy { copy < length parts.copies.now }
    ensures { result ≡ exit_with (body_of parts.entry.body.now) copy ends }
{
    Exit {
        body: parts.number,
        edge: parts.copies[copy].edge,
        copy,
        ends,
    }
}

// Adds the contexts of a copy in a state of the node that it leaves.
pub(crate) fn add_copy(
    alloc: Global,
    parts: BodyParts<'_>,
    copy: usize,
    state: &State<AbsValue>,
    contexts: &mut Vec<Context>,
) -> Result<(), NoMemory>
    requires parts { ArePartsOf (body_of parts.body.now) parts }
    requires copy { copy < length parts.copies.now }
    requires fits { (let b = body_of parts.body.now in let c = copy_at b copy in FitsBody b c.from state.now) }
    ensures { OnOk result ((x : AContext) → Contains contexts.new.items x
        ↔ (Contains contexts.old.items x
        ⊎ GivesContext (body_of parts.entry.body.now) parts.entry.body.now.store copy state.now x)) }
{
    let Some(place) = place_of(operation_of(parts, copy)) else {
        return Ok(());
    };
    let after = parts.body.applied(alloc, copy, state)?;
    let exit = exit_of(parts, copy, after.state.is_none());
    add_classes(contexts, place, exit, after.classes)
}
