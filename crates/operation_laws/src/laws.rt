//! The laws, the contracts of functions that do nothing.
ghost use Rattle.std.specs.Prelude.{ℕ, ◌<◌, length};
ghost use Rattle.temporary_types.specs.tm_laid.Layouts.{LaidTree};
ghost use Rattle.lowering_laws.specs.lowering.Built.{built, graph_of};
ghost use Rattle.lowering_laws.specs.LaidFiles.{IsLaidFile};
ghost use Rattle.temporary_types.specs.Settled.{AreSettled};
ghost use Rattle.temporary_types.specs.PointerMarks.{AreCopiesOfGiven, pointer_marks, Tells};
ghost use Rattle.operation_laws.specs.SortedGraphs.{HasSorts};

/// The temporaries of the graph of a body have sorts: each holds numbers of one integer type, or pointers. Each
/// operation fits them: its operands hold what it works on, and what it gives is of the sort of the temporary that it
/// gives; the objects that it names there are, and its mutexes are the file's.
pub fn operations_fit()
    ensures { (laid : LaidTree) → IsLaidFile laid → (body : ℕ) → body < length laid.bodies
        → HasSorts laid (built laid body).temps (graph_of laid body) }
{}

/// In the order of the edges of such a graph, each copy is one of a temporary that an earlier edge gives.
pub fn copies_follow()
    ensures { (laid : LaidTree) → IsLaidFile laid → (body : ℕ) → body < length laid.bodies
        → AreCopiesOfGiven (graph_of laid body) }
{}

/// So the marks of one pass over the edges tell pointers from numbers in the graph of each body: a temporary is marked
/// exactly where it holds pointers, whatever sorts its temporaries are given.
pub fn pointers_are_told_in_graphs()
    ensures { (laid : LaidTree) → IsLaidFile laid → (body : ℕ) → body < length laid.bodies
        → (h : HasSorts laid (built laid body).temps (graph_of laid body)) → (temp : ℕ)
        → Tells h.sorts (pointer_marks (graph_of laid body) (built laid body).temps) temp }
{}

/// In the order of the edges of such a graph, no edge gives a temporary from the first copy of it on: what a copy takes
/// is whole.
pub fn copies_are_settled()
    ensures { (laid : LaidTree) → IsLaidFile laid → (body : ℕ) → body < length laid.bodies
        → AreSettled (graph_of laid body) }
{}
