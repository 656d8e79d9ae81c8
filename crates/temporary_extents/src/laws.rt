//! The laws of extents. They speak of definitions alone: no call is made.
ghost use Rattle.std.specs.Prelude.{◌≡◌, ℕ, List, Some};
ghost use Rattle.pointer_dom.specs.Values.{Values};
ghost use Rattle.concrete_values.specs.tm_laid.Layouts.{LaidTree};
ghost use Rattle.typed_values.specs.Types.{IsOfType};
ghost use Rattle.flow_graph.specs.declared.graphs.Edge.{Edge};
ghost use Rattle.flow_graph.specs.Graphs.{Edges, Among};
ghost use Rattle.flow_graph.specs.Operations.{given};
ghost use Rattle.temporary_types.specs.Sorts.{Sort, AreSorts, types_of};
ghost use Rattle.temporary_types.specs.Settled.{AreSettled};
ghost use Rattle.temporary_extents.specs.Extents.{extents_in, extent_at, given_extent, IsWithin};

/// A value within the extent of a temporary is of its type, whichever sorts the temporaries have that the operations of
/// the graph fit.
pub fn extents_are_typed()
    ensures { (laid : LaidTree) (sorts : List Sort) (graph : Edges) → AreSorts laid sorts graph → (temp : ℕ)
        (v : Values) → IsWithin laid (extent_at (extents_in graph) temp) v → IsOfType laid (types_of sorts temp) v }
{}

/// Where no edge gives a temporary from the first copy of it on, the extents are closed: what an operation gives lies
/// within the extent of the temporary that it gives.
pub fn extents_are_closed()
    ensures { (laid : LaidTree) (sorts : List Sort) (graph : Edges) → AreSorts laid sorts graph → AreSettled graph
        → (e : Edge) → Among e graph → (temp : ℕ) → given e.op ≡ Some temp → (v : Values)
        → IsWithin laid (given_extent (extents_in graph) e.op) v
        → IsWithin laid (extent_at (extents_in graph) temp) v }
{}
