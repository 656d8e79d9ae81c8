//! The temporaries that an operation uses and gives.
ghost use Rattle.std.specs.Prelude.{◌≡◌, ◌∷◌, []};
ghost use Rattle.flow_graph.specs.Operations.{tested, used, given};
ghost use Rattle.graph_facts.specs.Uses.{listed};

use flow_graph::{Operation, Test};

/// The temporaries that an operation uses, at most two.
#[derive(Clone, Copy)]
pub struct UsedTemporaries {
    pub first: Option<u32>,
    pub second: Option<u32>,
}

fn none() -> UsedTemporaries
    ensures { listed result ≡ [] }
{
    UsedTemporaries {
        first: None,
        second: None,
    }
}

fn one(first: u32) -> UsedTemporaries
    ensures { listed result ≡ first ∷ [] }
{
    UsedTemporaries {
        first: Some(first),
        second: None,
    }
}

fn both(first: u32, second: u32) -> UsedTemporaries
    ensures { listed result ≡ first ∷ second ∷ [] }
{
    UsedTemporaries {
        first: Some(first),
        second: Some(second),
    }
}

// Those of a test.
fn tested(test: Test) -> UsedTemporaries
    ensures { listed result ≡ tested test }
{
    match test {
        Test::Numbers { left, right, .. } | Test::Pointers { left, right, .. } => both(left, right),
        Test::Truth { value, .. } | Test::Case { value, .. } => one(value),
    }
}

/// The temporaries whose values an operation uses.
pub fn used(operation: Operation) -> UsedTemporaries
    ensures { listed result ≡ used operation }
{
    match operation {
        Operation::Copy { from, .. }
        | Operation::Un { from, .. }
        | Operation::Convert { from, .. }
        | Operation::Offset { from, .. }
        | Operation::Deref { from, .. } => one(from),
        Operation::Load { address, .. } | Operation::LoadAny { address, .. } => one(address),
        Operation::Usable { pointer, .. } => one(pointer),
        Operation::Bin { left, right, .. } | Operation::BinPointers { left, right, .. } => {
            both(left, right)
        }
        Operation::Index { from, by, .. } | Operation::Move { from, by, .. } => both(from, by),
        Operation::Store { address, value, .. } => both(address, value),
        Operation::Assume { test } => tested(test),
        Operation::Skip
        | Operation::Const { .. }
        | Operation::Base { .. }
        | Operation::Any { .. }
        | Operation::Clear { .. }
        | Operation::Lock { .. }
        | Operation::Unlock { .. }
        | Operation::Yield
        | Operation::Probe { .. } => none(),
    }
}

/// The temporary that an operation gives.
pub fn given(operation: Operation) -> Option<u32>
    ensures { result ≡ given operation }
{
    match operation {
        Operation::Const { to, .. }
        | Operation::Copy { to, .. }
        | Operation::Un { to, .. }
        | Operation::Bin { to, .. }
        | Operation::BinPointers { to, .. }
        | Operation::Convert { to, .. }
        | Operation::Base { to, .. }
        | Operation::Offset { to, .. }
        | Operation::Index { to, .. }
        | Operation::Move { to, .. }
        | Operation::Deref { to, .. }
        | Operation::Load { to, .. }
        | Operation::LoadAny { to, .. }
        | Operation::Any { to, .. }
        | Operation::Probe { to, .. } => Some(to),
        Operation::Skip
        | Operation::Store { .. }
        | Operation::Clear { .. }
        | Operation::Usable { .. }
        | Operation::Assume { .. }
        | Operation::Lock { .. }
        | Operation::Unlock { .. }
        | Operation::Yield => None,
    }
}
