//! Operations of edges: they are the same where their variants are, and each field.
ghost use Rattle.std.specs.Prelude.{◌≡◌, ◌↔◌, true, IsTrue};
ghost use Rattle.program_equality.specs.reading.Families.{is_addressing, is_calculation};

use crate::alike::Alike;
use flow_graph::{Into, Operation, Test};

impl Alike for Into {
    fn is_alike(&self, other: &Into) -> bool {
        match (*self, *other) {
            (Into::Object(one), Into::Object(other)) => one == other,
            (Into::Pointed, Into::Pointed) => true,
            _ => false,
        }
    }
}

impl Alike for Test {
    fn is_alike(&self, other: &Test) -> bool {
        match *self {
            Test::Numbers {
                operator,
                of,
                left,
                right,
            } => matches!(
                *other,
                Test::Numbers { operator: o, of: f, left: l, right: r }
                    if o == operator && f == of && l == left && r == right
            ),
            Test::Pointers { equal, left, right } => matches!(
                *other,
                Test::Pointers { equal: e, left: l, right: r }
                    if e == equal && l == left && r == right
            ),
            Test::Truth { holds, value } => {
                matches!(*other, Test::Truth { holds: h, value: v } if h == holds && v == value)
            }
            Test::Case {
                holds,
                label,
                value,
            } => matches!(
                *other,
                Test::Case { holds: h, label: l, value: v }
                    if h == holds && l == label && v == value
            ),
        }
    }
}

// Whether an operation that calculates a value is the same as another operation.
fn is_same_calculation(one: Operation, other: Operation) -> bool
    requires family { is_calculation one ≡ true }
    ensures { IsTrue result ↔ (one ≡ other) }
{
    match one {
        Operation::Const { to, value } => {
            matches!(other, Operation::Const { to: t, value: v } if t == to && v == value)
        }
        Operation::Copy { to, from } => {
            matches!(other, Operation::Copy { to: t, from: f } if t == to && f == from)
        }
        Operation::Un {
            to,
            operator,
            of,
            from,
            place,
        } => matches!(
            other,
            Operation::Un { to: t, operator: o, of: f, from: r, place: p }
                if t == to && o == operator && f == of && r == from && p == place
        ),
        Operation::Bin {
            to,
            operator,
            of,
            left,
            right,
            place,
        } => matches!(
            other,
            Operation::Bin { to: t, operator: o, of: f, left: l, right: r, place: p }
                if t == to && o == operator && f == of && l == left && r == right && p == place
        ),
        Operation::BinPointers {
            to,
            equal,
            left,
            right,
        } => matches!(
            other,
            Operation::BinPointers { to: t, equal: e, left: l, right: r }
                if t == to && e == equal && l == left && r == right
        ),
        Operation::Convert { to, was, of, from } => matches!(
            other,
            Operation::Convert { to: t, was: w, of: o, from: f }
                if t == to && w == was && o == of && f == from
        ),
        _ => unreachable!(),
    }
}

// Whether an operation that gives an address, or moves or follows a pointer, is the same as another operation.
fn is_same_addressing(one: Operation, other: Operation) -> bool
    requires family { is_addressing one ≡ true }
    ensures { IsTrue result ↔ (one ≡ other) }
{
    match one {
        Operation::Base { to, object } => {
            matches!(other, Operation::Base { to: t, object: o } if t == to && o == object)
        }
        Operation::Offset { to, from, cells } => matches!(
            other,
            Operation::Offset { to: t, from: f, cells: c }
                if t == to && f == from && c == cells
        ),
        Operation::Index {
            to,
            from,
            length,
            cells,
            by,
            place,
        } => matches!(
            other,
            Operation::Index { to: t, from: f, length: l, cells: c, by: b, place: p }
                if t == to && f == from && l == length && c == cells && b == by && p == place
        ),
        Operation::Move {
            to,
            from,
            cells,
            minus,
            by,
            place,
        } => matches!(
            other,
            Operation::Move { to: t, from: f, cells: c, minus: m, by: b, place: p }
                if t == to && f == from && c == cells && m == minus && b == by && p == place
        ),
        Operation::Deref {
            to,
            from,
            target,
            path,
            place,
        } => matches!(
            other,
            Operation::Deref { to: t, from: f, target: a, path: p, place: l }
                if t == to && f == from && a == target && p == path && l == place
        ),
        _ => unreachable!(),
    }
}

impl Alike for Operation {
    fn is_alike(&self, other: &Operation) -> bool {
        match *self {
            Operation::Skip => matches!(*other, Operation::Skip),
            Operation::Const { .. }
            | Operation::Copy { .. }
            | Operation::Un { .. }
            | Operation::Bin { .. }
            | Operation::BinPointers { .. }
            | Operation::Convert { .. } => is_same_calculation(*self, *other),
            Operation::Base { .. }
            | Operation::Offset { .. }
            | Operation::Index { .. }
            | Operation::Move { .. }
            | Operation::Deref { .. } => is_same_addressing(*self, *other),
            Operation::Load {
                to,
                address,
                scalar,
                place,
            } => matches!(
                *other,
                Operation::Load { to: t, address: a, scalar: s, place: p }
                    if t == to && a == address && s == scalar && p == place
            ),
            Operation::LoadAny {
                to,
                address,
                scalar,
                place,
            } => matches!(
                *other,
                Operation::LoadAny { to: t, address: a, scalar: s, place: p }
                    if t == to && a == address && s == scalar && p == place
            ),
            Operation::Store {
                address,
                value,
                scalar,
                into,
                place,
            } => matches!(
                *other,
                Operation::Store { address: a, value: v, scalar: s, into: i, place: p }
                    if a == address && v == value && s == scalar && into.is_alike(&i) && p == place
            ),
            Operation::Any { to, low, high } => matches!(
                *other,
                Operation::Any { to: t, low: l, high: h }
                    if t == to && l == low && h == high
            ),
            Operation::Clear { object } => {
                matches!(*other, Operation::Clear { object: o } if o == object)
            }
            Operation::Usable { pointer, place } => matches!(
                *other,
                Operation::Usable { pointer: p, place: l }
                    if p == pointer && l == place
            ),
            Operation::Assume { test } => {
                matches!(*other, Operation::Assume { test: t } if test.is_alike(&t))
            }
            Operation::Lock { mutex, place } => {
                matches!(*other, Operation::Lock { mutex: m, place: p } if m == mutex && p == place)
            }
            Operation::Unlock { mutex, place } => matches!(
                *other,
                Operation::Unlock { mutex: m, place: p }
                    if m == mutex && p == place
            ),
            Operation::Yield => matches!(*other, Operation::Yield),
            Operation::Probe { to, mutex, place } => matches!(
                *other,
                Operation::Probe { to: t, mutex: m, place: p }
                    if t == to && m == mutex && p == place
            ),
        }
    }
}
