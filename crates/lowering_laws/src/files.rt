//! Files that are typed and laid out.
ghost use Rattle.std.specs.Prelude.{ℕ, ◌<◌, length};
ghost use Rattle.cell_layout.specs.tm_laid.Layouts.{LaidTree};
ghost use Rattle.lowering.specs.Lowerable.{IsLowerable};
ghost use Rattle.lowering_laws.specs.LaidFiles.{IsLaidFile};

/// A typed file that is laid out can be lowered, where it has a task or `main`: each operand has a value, `break` and
/// `continue` stand where they may, a `switch` has at most one `default`, a function with a result gives one back, and
/// each call has its call path. A file without bodies has no call paths, and nothing to lower.
pub fn typed_files_can_be_lowered()
    ensures { (laid : LaidTree) → IsLaidFile laid → 0 < length laid.bodies → IsLowerable laid }
{}
