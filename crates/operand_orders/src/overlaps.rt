//! Whether two operands touch the same.
ghost use Rattle.std.specs.Prelude.{◌↔◌, ◌⊎◌, IsTrue};
ghost use Rattle.operand_orders.specs.declared.pairs.Pair.{Pair as APair};
ghost use Rattle.access_races.specs.reading.Ways.{HasOne};
ghost use Rattle.operand_orders.specs.reading.Touches.{IsInOrder, AreTables, HasAccess, IsTouched};
ghost use Rattle.operand_orders.specs.reading.Operands.{DoMeet, DoOverlap, AreSeen, IsReloaded, IsOverwritten};

use crate::accesses::Accesses;
use crate::pairs::Pair;
use crate::touches::{Touches, is_marked_in};
use path_origins::Span;

// Whether the cell of one of these accesses is accessed by an edge of a span.
fn are_touched(accesses: &Accesses, pairs: &[Pair], span: Span) -> bool
    requires { IsInOrder accesses.now }
    ensures { IsTrue result ↔ HasOne (λ (p : APair). IsTouched accesses.now span p.second) pairs.now }
{
    for pair in pairs {
        if accesses.has(span, pair.second) {
            return true;
        }
    }
    false
}

// Whether an edge of one span accesses a cell that an edge of the other one accesses too.
fn do_meet(one: &Accesses, few: Span, other: &Accesses, many: Span) -> bool
    requires one { IsInOrder one.now }
    requires other { IsInOrder other.now }
    ensures { IsTrue result ↔ DoMeet one.now few other.now many }
{
    are_touched(other, one.within(few), many)
}

// The same as `overlap`, where the accesses of the first operand are looked up among those of the second.
fn does_overlap(touches: &Touches, few: Span, many: Span) -> bool
    requires { AreTables touches.now }
    ensures { IsTrue result ↔ DoOverlap touches.now few many }
{
    do_meet(&touches.stores, few, &touches.loads, many)
        || do_meet(&touches.loads, few, &touches.stores, many)
        || do_meet(&touches.changes, few, &touches.stores, many)
        || do_meet(&touches.stores, few, &touches.changes, many)
}

// Whether a span has fewer accesses than another.
fn has_fewer(touches: &Touches, one: Span, other: Span) -> bool
    requires { AreTables touches.now }
{
    let of_one = touches
        .loads
        .within(one)
        .len()
        .saturating_add(touches.stores.within(one).len());
    let of_other = touches
        .loads
        .within(other)
        .len()
        .saturating_add(touches.stores.within(other).len());
    of_one < of_other
}

// Whether a cell that one of the operands stores is loaded or stored by the other one; of two stores one is no
// initialiser's. The accesses of the one that has fewer are looked up among those of the other.
fn overlap(touches: &Touches, first: Span, second: Span) -> bool
    requires { AreTables touches.now }
    ensures { IsTrue result ↔ DoOverlap touches.now first second }
{
    if has_fewer(touches, first, second) {
        does_overlap(touches, first, second)
    } else {
        does_overlap(touches, second, first)
    }
}

// Whether one of the operands waits or asks for a mutex, and the other does too, or does what other tasks see.
fn are_seen(touches: &Touches, first: Span, second: Span) -> bool
    requires { AreTables touches.now }
    ensures { IsTrue result ↔ AreSeen touches.now first second }
{
    is_marked_in(&touches.waits, first) && is_marked_in(&touches.seen, second)
        || is_marked_in(&touches.waits, second) && is_marked_in(&touches.seen, first)
}

/// Whether two operands touch the same, or one of them waits and the other one is seen.
pub(crate) fn do_touch(touches: &Touches, first: Span, second: Span) -> bool
    requires { AreTables touches.now }
    ensures { IsTrue result ↔ (DoOverlap touches.now first second ⊎ AreSeen touches.now first second) }
{
    overlap(touches, first, second) || are_seen(touches, first, second)
}

/// Whether an edge of a span stores a cell that an edge loads.
pub(crate) fn is_reloaded(touches: &Touches, load: u32, right: Span) -> bool
    requires { AreTables touches.now }
    ensures { IsTrue result ↔ IsReloaded touches.now load right }
{
    are_touched(&touches.stores, touches.loads.of_edge(load), right)
}

// Whether the cell of one of these accesses is accessed by an edge.
fn are_touched_at(accesses: &Accesses, pairs: &[Pair], edge: u32) -> bool
    requires { IsInOrder accesses.now }
    ensures { IsTrue result ↔ HasOne (λ (p : APair). HasAccess accesses.now edge p.second) pairs.now }
{
    for pair in pairs {
        if accesses.has_at(edge, pair.second) {
            return true;
        }
    }
    false
}

/// Whether two edges store the same cell.
pub(crate) fn is_overwritten(touches: &Touches, store: u32, earlier: u32) -> bool
    requires { AreTables touches.now }
    ensures { IsTrue result ↔ IsOverwritten touches.now store earlier }
{
    are_touched_at(&touches.stores, touches.stores.of_edge(store), earlier)
}
