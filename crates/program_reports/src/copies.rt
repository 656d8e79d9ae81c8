//! What a copy of an edge gives to a report.
ghost use Rattle.std.specs.Prelude.{◌≡◌, ◌<◌, ◌⊎◌, ◌↔◌, true, length, Contains, IsTrue, OnOk};
ghost use Rattle.tm_cint.specs.declared.Class.{Class as AClass};
ghost use Rattle.tm_terms.specs.declared.alarms.Alarm.{Alarm as AnAlarm};
ghost use Rattle.transfer_int.specs.Outcomes.{notes};
ghost use Rattle.access_races.specs.declared.accesses.Access.{Access as AnAccess};
ghost use Rattle.post_recheck.specs.task_equations.Bodies.{copy_at};
ghost use Rattle.post_recheck.specs.program_equations.Systems.{FitsBody};
ghost use Rattle.post_recheck.specs.body_systems.Systems.{body_of};
ghost use Rattle.program_reports.specs.reading.Found.{operation_at, way_of_copy, IsClassIn, IsTargetIn};
ghost use Rattle.program_reports.specs.reading.Found.{GivesAlarm, GivesAccess};
ghost use Rattle.program_reports.specs.reading.Parts.{ArePartsOf};

use crate::places::{is_writing, place_of};
use access_races::{Access, Way, push_access, push_alarm};
use cell_env::State;
use flow_graph::{Edge, Operation};
use mutex_configs::{ConfiguredNode, EdgeCopy};
use pointer_dom::AbsValue;
use post_recheck::BodyOverStore;
use std::alloc::Global;
use tm_cint::Class;
use tm_lattice::NoMemory;
use tm_terms::{Alarm, Place};
use transfer_int::Classes;

/// What is read of a body: its equations over a store, its edges, nodes and copies, its number, its priority, and
/// whether it is a task.
#[derive(Clone, Copy)]
pub struct BodyParts<'a> {
    pub body: &'a BodyOverStore<'a>,
    pub edges: &'a [Edge],
    pub nodes: &'a [ConfiguredNode],
    pub copies: &'a [EdgeCopy],
    pub number: u32,
    pub priority: u8,
    pub is_task: bool,
}

// What is found: alarms, and accesses of tasks.
#[derive(Drop)]
pub(crate) struct Found {
    pub(crate) alarms: Vec<Alarm>,
    pub(crate) accesses: Vec<Access>,
}

// Adds the alarm of a class that is noted.
fn add_class(
    alarms: &mut Vec<Alarm>,
    place: Place,
    class: Class,
    noted: bool,
) -> Result<(), NoMemory>
    ensures { OnOk result ((a : AnAlarm) → Contains alarms.new.items a
        ↔ (Contains alarms.old.items a ⊎ IsClassIn place class noted a)) }
{
    if noted {
        push_alarm(alarms, Alarm { place, class })?;
    }
    Ok(())
}

// Adds the alarms of the classes that are noted.
fn add_classes(alarms: &mut Vec<Alarm>, place: Place, classes: Classes) -> Result<(), NoMemory>
    ensures { OnOk result ((a : AnAlarm) → Contains alarms.new.items a
        ↔ (Contains alarms.old.items a ⊎ ((a.place ≡ place) × IsTrue (notes classes a.class)))) }
{
    add_class(alarms, place, Class::Overflow, classes.overflow)?;
    add_class(alarms, place, Class::Div, classes.div)?;
    add_class(alarms, place, Class::Shift, classes.shift)?;
    add_class(alarms, place, Class::Index, classes.index)?;
    add_class(alarms, place, Class::Pointer, classes.pointer)?;
    add_class(alarms, place, Class::Deref, classes.deref)?;
    add_class(alarms, place, Class::Lock, classes.lock)
}

// Adds the accesses to these cells.
fn add_targets(
    accesses: &mut Vec<Access>,
    way: Way,
    place: Place,
    targets: &[u32],
) -> Result<(), NoMemory>
    ensures { OnOk result ((x : AnAccess) → Contains accesses.new.items x
        ↔ (Contains accesses.old.items x ⊎ IsTargetIn way place targets.now x)) }
{
    for cell in targets {
        let access = Access {
            cell: *cell,
            way,
            place,
        };
        push_access(accesses, access)?;
    }
    Ok(())
}

/// The operation of a copy.
pub fn operation_of(parts: BodyParts<'_>, copy: usize) -> Operation
    requires parts { ArePartsOf (body_of parts.body.now) parts }
    requires copy { copy < length parts.copies.now }
    ensures { result ≡ operation_at (body_of parts.entry.body.now) copy }
{
    parts.edges[parts.copies[copy].edge].op
}

/// The way in which a copy reaches cells.
pub fn way_of(parts: BodyParts<'_>, copy: usize) -> Way
    requires parts { ArePartsOf (body_of parts.body.now) parts }
    requires copy { copy < length parts.copies.now }
    ensures { result ≡ way_of_copy (body_of parts.entry.body.now) copy }
{
    let copy = parts.copies[copy];
    let node = parts.nodes[copy.from as usize];
    Way {
        task: parts.number,
        priority: parts.priority,
        held: node.held,
        found: node.found,
        writes: is_writing(parts.edges[copy.edge].op),
    }
}

// Adds what a copy gives in a state of the node that it leaves.
pub(crate) fn add_copy(
    alloc: Global,
    parts: BodyParts<'_>,
    copy: usize,
    state: &State<AbsValue>,
    found: &mut Found,
) -> Result<(), NoMemory>
    requires parts { ArePartsOf (body_of parts.body.now) parts }
    requires copy { copy < length parts.copies.now }
    requires fits { (let b = body_of parts.body.now in let c = copy_at b copy in FitsBody b c.from state.now) }
    ensures alarms { OnOk result ((a : AnAlarm) → Contains found.new.alarms.items a
        ↔ (Contains found.old.alarms.items a ⊎ GivesAlarm (body_of parts.entry.body.now) copy state.now a)) }
    ensures accesses { OnOk result ((x : AnAccess) → Contains found.new.accesses.items x
        ↔ (Contains found.old.accesses.items x
        ⊎ ((parts.entry.is_task ≡ true) × GivesAccess (body_of parts.entry.body.now) copy state.now x))) }
{
    let Some(place) = place_of(operation_of(parts, copy)) else {
        return Ok(());
    };
    let after = parts.body.applied(alloc, copy, state)?;
    add_classes(&mut found.alarms, place, after.classes)?;
    if parts.is_task {
        add_targets(
            &mut found.accesses,
            way_of(parts, copy),
            place,
            &after.targets,
        )?;
    }
    Ok(())
}
