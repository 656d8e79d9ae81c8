//! The laws of what fits. Each speaks of definitions alone, so its function does nothing.
ghost use Rattle.std.specs.Prelude.{◌≡◌, ◌≤◌, ℕ, ℤ, Bool, List, Some};
ghost use Rattle.value_heights.specs.tm_lattice.Heights.{IsHeight};
ghost use Rattle.temporary_types.specs.tm_typed.declared.types.Scalar.{Scalar};
ghost use Rattle.temporary_types.specs.tm_laid.Layouts.{LaidTree};
ghost use Rattle.temporary_types.specs.flow_graph.declared.operations.Operation.{Operation};
ghost use Rattle.value_heights.specs.pointer_dom.Values.{joined_values, rounded_values};
ghost use Rattle.edge_actions.specs.cell_env.States.{joined_state, rounded_state_at, state_height};
ghost use Rattle.edge_actions.specs.interfere_set.Stores.{Interferences};
ghost use Rattle.edge_actions.specs.transfer_rows.StateForms.{State, IsStateForm, IsStateUnder};
ghost use Rattle.edge_actions.specs.transfer_rows.Actions.{Around};
ghost use Rattle.edge_actions.specs.transfer_rows.Rows.{after};
ghost use Rattle.edge_actions.specs.Edges.{action_of};
ghost use Rattle.value_heights.specs.Heights.{value_height};
ghost use Rattle.temporary_types.specs.Sorts.{Sort};
ghost use Rattle.typed_values.specs.Types.{HaveEnds};
ghost use Rattle.temporary_extents.specs.declared.extents.Extent.{Extent};
ghost use Rattle.state_fits.specs.Fits.{AreKinds, FitsPlace, FitsStore};
ghost use Rattle.state_fits.specs.Kinds.{OfTypes, InExtents, AreInSorts, IsClosedAt};
ghost use Rattle.state_fits.specs.Edges.{FitsEdge};
ghost use Rattle.state_fits.specs.Tops.{top_state};

/// What an edge that fits brings from a state that fits, over a store that fits, fits the place to which it leads;
/// where temporaries hold values within extents, these lie within the sorts, and what the operation gives lies within
/// the extent of the temporary that it gives.
pub fn edges_keep_fitting()
    ensures { (laid : LaidTree) (task tasks : ℕ) (sorts : List Sort) (extents : List Extent) (around : Around)
        (op : Operation) (live live' : List ℕ) → FitsEdge laid task sorts around op live live'
        → (store : Interferences) → FitsStore laid tasks store → AreInSorts laid sorts extents
        → IsClosedAt laid extents op → (pointers answer : Bool) (s : State)
        → FitsPlace laid task (InExtents laid extents) live s → (t : State)
        → after around (action_of laid task pointers answer op) s store ≡ Some t
        → FitsPlace laid task (InExtents laid extents) live' t }
{}

/// Extents are kinds of values: with a value all that is less lies within an extent, and with two their join.
pub fn extents_are_kinds()
    ensures { (laid : LaidTree) (extents : List Extent) → AreKinds laid (InExtents laid extents) }
{}

/// States that fit a place are joined to one that fits it, and so rounded onto thresholds with the ends of the types.
pub fn places_are_closed()
    ensures joined { (laid : LaidTree) (task : ℕ) (extents : List Extent) (live : List ℕ) (s t : State)
        → FitsPlace laid task (InExtents laid extents) live s → FitsPlace laid task (InExtents laid extents) live t
        → FitsPlace laid task (InExtents laid extents) live (joined_state joined_values s t) }
    ensures rounded { (laid : LaidTree) (task : ℕ) (extents : List Extent) (live : List ℕ) (marks : List ℤ)
        (cells : List ℕ) (s : State) → HaveEnds marks → FitsPlace laid task (InExtents laid extents) live s
        → FitsPlace laid task (InExtents laid extents) live (rounded_state_at (rounded_values marks) cells s) }
{}

/// A state that fits a place, where temporaries hold values of their types, lies below the greatest one there, and is
/// at most as high; and a state that is as high as one above it is that one.
pub fn places_have_tops()
    ensures below { (laid : LaidTree) (task : ℕ) (types : ℕ → Scalar) (live : List ℕ) (s : State)
        → FitsPlace laid task (OfTypes laid types) live s → IsStateUnder s (top_state laid live) }
    ensures within { (laid : LaidTree) (task : ℕ) (types : ℕ → Scalar) (live : List ℕ) (s : State)
        → FitsPlace laid task (OfTypes laid types) live s
        → state_height value_height s ≤ state_height value_height (top_state laid live) }
    ensures heights { IsHeight IsStateForm IsStateUnder (state_height value_height) }
{}
