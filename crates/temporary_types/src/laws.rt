//! What the marks of temporaries tell, the contract of a function that does nothing.
ghost use Rattle.std.specs.Prelude.{ℕ, ◌≤◌, List, length};
ghost use Rattle.concrete_values.specs.tm_laid.Layouts.{LaidTree};
ghost use Rattle.flow_graph.specs.Graphs.{Edges};
ghost use Rattle.temporary_types.specs.Sorts.{Sort, AreSorts};
ghost use Rattle.temporary_types.specs.PointerMarks.{pointer_marks, IsGivenIn, AreCopiesOfGiven, Tells};

/// Where the operations of a graph fit some sorts of its temporaries, and each copy is one of a temporary that an
/// earlier edge gives, the marks tell pointers from numbers: of each temporary that some edge gives, it is marked
/// exactly where it holds pointers.
pub fn pointers_are_told()
    ensures { (laid : LaidTree) (sorts : List Sort) (graph : Edges) (count : ℕ) → AreSorts laid sorts graph
        → AreCopiesOfGiven graph → length sorts ≤ count
        → (temp : ℕ) → IsGivenIn graph temp → Tells sorts (pointer_marks graph count) temp }
{}
