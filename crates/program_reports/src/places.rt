//! Where operations stand in the source.
ghost use Rattle.std.specs.Prelude.{◌≡◌};
ghost use Rattle.program_reports.specs.Reports.{place_of};
ghost use Rattle.program_reports.specs.reading.Found.{is_writing};

use flow_graph::Operation;
use tm_terms::Place;

/// Where an operation stands in the source, if an error or an access may stand there.
#[tactic(auto, unfolding(crate::specs::Reports::place_of))]
pub fn place_of(operation: Operation) -> Option<Place>
    ensures { result ≡ place_of operation }
{
    match operation {
        Operation::Un { place, .. }
        | Operation::Bin { place, .. }
        | Operation::Index { place, .. }
        | Operation::Move { place, .. }
        | Operation::Deref { place, .. }
        | Operation::Load { place, .. }
        | Operation::LoadAny { place, .. }
        | Operation::Store { place, .. }
        | Operation::Usable { place, .. }
        | Operation::Lock { place, .. }
        | Operation::Unlock { place, .. }
        | Operation::Probe { place, .. } => Some(place),
        _ => None,
    }
}

// Whether an operation writes the cells that it reaches.
#[tactic(auto, unfolding(crate::specs::reading::Found::is_writing))]
pub(crate) fn is_writing(operation: Operation) -> bool
    ensures { result ≡ is_writing operation }
{
    match operation {
        Operation::Store { .. } => true,
        _ => false,
    }
}
