//! What the graphs of files that are typed and laid out keep.
ghost use Rattle.operation_laws.specs.tm_laid.Layouts.{LaidTree};
ghost use Rattle.operation_laws.specs.lowering_laws.LaidFiles.{IsLaidFile};
ghost use Rattle.sound_foundations.specs.Foundations.{OwnsCleared, ComplementsWork, TellsTruths};

/// Each object that the graph of a body clears is a parameter or a local object of one of the body's call paths.
pub fn own_objects_are_cleared()
    ensures { (laid : LaidTree) → IsLaidFile laid → OwnsCleared laid }
{}

/// `~` works in promoted types, of which `_Bool` is none.
pub fn complements_are_promoted()
    ensures { (laid : LaidTree) → IsLaidFile laid → ComplementsWork laid }
{}

/// Whatever sorts the temporaries of a body are given, the marks of one pass over its graph tell where what is tested
/// for its truth is a pointer.
pub fn truths_are_told()
    ensures { (laid : LaidTree) → IsLaidFile laid → TellsTruths laid }
{}
