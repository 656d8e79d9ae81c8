//! Advice on all alarms.
ghost use Rattle.std.specs.Prelude.{◌<◌, ◌≤◌, length, IfOk, IfSome};
ghost use Rattle.alarm_causes.specs.Advised.{IsAdvised, AreAdvised};

use crate::advices::{Advice, Cause};
use crate::interference::{is_interference, race_at};
use crate::marks::marks_of;
use crate::ways::{Ground, Way, way_from};
use access_groups::AccessGroup;
use alarm_contexts::{AlarmContexts, ContextEdge};
use graph_facts::used;
use interfere_set::Store;
use mutex_configs::Program;
use pointer_dom::AbsValue;
use post_recheck::{ProgramFacts, Table};
use std::alloc::Global;
use tm_cint::Class;
use tm_lattice::NoMemory;
use value_origins::{
    Analysed, Stores, Use, bodies_of, extent_of, is_flagged, operation_at, stores_of, value_at,
    weight,
};

// What is compared of an operand.
fn weight_of(operands: &[AbsValue], position: usize) -> u128 {
    match operands.get(position) {
        None => 0,
        Some(value) => weight(&extent_of(value)),
    }
}

// Whether an operand may be the null or the invalid pointer.
fn is_flagged_at(operands: &[AbsValue], position: usize) -> bool {
    match operands.get(position) {
        None => false,
        Some(value) => is_flagged(&extent_of(value)),
    }
}

// The operand that an alarm of a class puts the blame on, if there is one with this number.
fn suspect(class: Class, operands: &[AbsValue]) -> usize {
    match class {
        Class::Div | Class::Index => 1,
        Class::Deref | Class::Lock | Class::Race => 0,
        Class::Pointer => {
            if is_flagged_at(operands, 0) || weight_of(operands, 1) == 0 {
                0
            } else {
                1
            }
        }
        Class::Overflow | Class::Shift => {
            if weight_of(operands, 0) < weight_of(operands, 1) {
                1
            } else {
                0
            }
        }
    }
}

// A position, if it is below a count.
fn below(position: Option<usize>, count: usize) -> Option<usize>
    ensures { IfSome result (λ p. p < count) }
{
    match position {
        None => None,
        Some(position) => {
            if position < count {
                Some(position)
            } else {
                None
            }
        }
    }
}

// The use of the operand of an edge at a position.
fn use_at(analysed: Analysed<'_>, edge: ContextEdge, position: usize) -> Option<Use> {
    let temps = used(operation_at(analysed, edge));
    let temp = if position == 0 {
        temps.first
    } else {
        temps.second
    };
    match temp {
        None => None,
        Some(temp) => Some(Use { edge, temp }),
    }
}

// Of two uses the one of the most values, in doubt the one that is known.
fn greater(analysed: Analysed<'_>, known: Option<Use>, other: Option<Use>) -> Option<Use> {
    let Some(one) = known else {
        return other;
    };
    let Some(more) = other else {
        return known;
    };
    if weight(&value_at(analysed, one)) < weight(&value_at(analysed, more)) {
        other
    } else {
        known
    }
}

// Of the uses of an operand at the edges of an alarm that with the most values.
fn first_use(analysed: Analysed<'_>, alarm: &AlarmContexts, position: usize) -> Option<Use> {
    let mut best = None;
    for edge in &alarm.edges {
        best = greater(analysed, best, use_at(analysed, *edge, position));
    }
    best
}

// The way back from the operand to blame.
fn way_of(
    alloc: Global,
    ground: Ground<'_>,
    alarm: &AlarmContexts,
    blamed: Option<usize>,
) -> Result<Way, NoMemory>
    ensures { IfOk result (λ way. length way.trace.items ≤ 24) }
{
    let start = match blamed {
        None => None,
        Some(position) => first_use(ground.analysed, alarm, position),
    };
    match start {
        Some(start) => way_from(alloc, ground, start),
        None => Ok(Way {
            cause: Cause::Values,
            trace: Vec::new(alloc),
        }),
    }
}

// The position of the group by whose races the values of an alarm come in, if they do.
fn race_of(
    alloc: Global,
    analysed: Analysed<'_>,
    groups: &[AccessGroup],
    alarm: &AlarmContexts,
    comes_in: bool,
) -> Result<Option<usize>, NoMemory>
    ensures { IfOk result (λ race. IfSome race (λ g. g < length groups.now)) }
{
    if !comes_in {
        return Ok(None);
    }
    let Some(edge) = alarm.edges.first() else {
        return Ok(None);
    };
    let race = race_at(alloc, analysed, groups, *edge)?;
    Ok(below(race, groups.len()))
}

// The advice on an alarm.
fn advice_on(
    alloc: Global,
    analysed: Analysed<'_>,
    stores: &Stores,
    marks: &[Vec<bool>],
    groups: &[AccessGroup],
    alarm: &AlarmContexts,
) -> Result<Advice, NoMemory>
    ensures { IfOk result (λ advice. IsAdvised (length groups.now) alarm.now advice) }
{
    let position = suspect(alarm.class, &alarm.operands);
    let blamed = below(Some(position), alarm.operands.len());
    let comes_in = is_interference(alloc, analysed, alarm)?;
    let race = race_of(alloc, analysed, groups, alarm, comes_in)?;
    let ground = Ground {
        analysed,
        stores,
        marks,
        place: alarm.place,
    };
    let Way { cause, trace } = way_of(alloc, ground, alarm, blamed)?;
    Ok(Advice {
        blamed,
        cause: if comes_in { Cause::Interference } else { cause },
        race,
        trace,
    })
}

// The advice on all alarms.
fn all_advice(
    alloc: Global,
    analysed: Analysed<'_>,
    stores: &Stores,
    marks: &[Vec<bool>],
    alarms: &[AlarmContexts],
    groups: &[AccessGroup],
) -> Result<Vec<Advice>, NoMemory>
    ensures { IfOk result (λ list. AreAdvised (length groups.now) alarms.now list.items) }
{
    let mut list = Vec::new(alloc);
    for alarm in alarms {
        list.push(advice_on(alloc, analysed, stores, marks, groups, alarm)?)?;
    }
    Ok(list)
}

/// Advice on each of the alarms, in their order. Facts, tables, store, alarms and groups are those of the program:
/// where they are not, the advice says little. The only error is want of memory.
pub fn advice_on_alarms(
    alloc: Global,
    program: &Program,
    facts: &ProgramFacts,
    tables: &[Table],
    store: &Store,
    alarms: &[AlarmContexts],
    groups: &[AccessGroup],
) -> Result<Vec<Advice>, NoMemory>
    ensures { IfOk result (λ list. AreAdvised (length groups.now) alarms.now list.items) }
{
    let bodies = bodies_of(alloc, program)?;
    let analysed = Analysed {
        program,
        facts,
        tables,
        store,
        bodies: &bodies,
    };
    let stores = stores_of(alloc, analysed)?;
    let marks = marks_of(alloc, program, alarms)?;
    all_advice(alloc, analysed, &stores, &marks, alarms, groups)
}
