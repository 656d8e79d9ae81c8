//! Where parts of typed statements stand.
ghost use Rattle.typing_laws.specs.Placement.{JumpsStand, LabelsDiffer};

/// In a typed statement each `break` stands in a loop or in a `switch`, and each `continue` in a loop.
pub fn jumps_stand_where_they_may()
    ensures { JumpsStand }
{}

/// In each `switch` of a typed statement no two labels are equal, there is at most one `default`, and the labels lie
/// in the type in which the `switch` compares.
pub fn labels_differ_in_their_type()
    ensures { LabelsDiffer }
{}
