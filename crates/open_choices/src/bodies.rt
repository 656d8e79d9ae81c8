//! What one body leaves open.
ghost use Rattle.std.specs.Prelude.{◌≤◌, length, OnOk};
ghost use Rattle.tm_laid.specs.tm_typed.TypedFiles.{typed_file_tree};
ghost use Rattle.tm_laid.specs.Layable.{IsLayable};
ghost use Rattle.tm_laid.specs.Layouts.{laid_tree};
ghost use Rattle.text_choices.specs.Choices.{Adds};
ghost use Rattle.operand_orders.specs.reading.Scopes.{AreLivesOf};
ghost use Rattle.operand_orders.specs.reading.Views.{solved, IsIndexed};
ghost use Rattle.open_choices.specs.Choices.{IsOfBody};
ghost use Rattle.open_choices.specs.reading.Marks.{AreCellMarks};
ghost use Rattle.open_choices.specs.reading.Found.{AreCounted};

use crate::beginnings::add_beginnings;
use crate::edges::{Known, add_at_edges, add_enumerations};
use crate::passings::add_passings;
use crate::unset::add_falls;
use operand_orders::{BodyView, add_order};
use text_choices::Choice;
use tm_lattice::NoMemory;

/// Adds what a body leaves open.
pub(crate) fn add_in_body(
    view: BodyView<'_>,
    known: Known<'_>,
    choices: &mut Vec<Choice>,
) -> Result<(), NoMemory>
    requires layable { IsLayable (typed_file_tree view.laid.now.file) view.laid.now.file.order.items }
    requires few { length view.laid.now.cells.items ≤ 65536 }
    requires indexed { IsIndexed view }
    requires lives { AreLivesOf view.origins.now.lives.items known.lives.now }
    requires marks { AreCellMarks (laid_tree view.laid.now) known.marks.now }
    requires counted { AreCounted (solved view) }
    ensures { OnOk result (Adds choices.old.items choices.new.items (IsOfBody (solved view.entry))) }
{
    add_at_edges(view, known, choices)?;
    add_enumerations(view, known, choices)?;
    add_falls(view, choices)?;
    add_passings(view, choices)?;
    add_beginnings(view, known.lives, choices)?;
    add_order(view, choices)
}
