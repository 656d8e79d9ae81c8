//! The limits of what is laid out.
ghost use Rattle.std.specs.Prelude.{◌≡◌, Ok};
ghost use Rattle.cell_layout.specs.tm_typed.Files.{TypedFileTree};
ghost use Rattle.cell_layout.specs.tm_laid.declared.scales.Scale.{Scale};
ghost use Rattle.cell_layout.specs.tm_laid.Layouts.{LaidTree, laid_out};
ghost use Rattle.layout_laws.specs.Limited.{IsLimited};

/// What is laid out on a scale is the layout of its file, and exceeds no limit of the large one.
pub fn limits_are_kept()
    ensures { (scale : Scale) (file : TypedFileTree) (laid : LaidTree) → laid_out scale file ≡ Ok laid → IsLimited file laid }
{}
