//! The lines of cells.
ghost use Rattle.std.specs.Prelude.{◌≡◌, ◌≤◌, ◌+◌, ◌↔◌, length, IsTrue, OnOk, IfOk};
ghost use Rattle.std.specs.FinMap.{entries};
ghost use Rattle.std.specs.List.{flat_map};
ghost use Rattle.certificate_texts.specs.Limits.{certificate_limit};
ghost use Rattle.certificate_texts.specs.StateLines.{cell_lines, marked_lines, pending_line_of};
ghost use Rattle.certificate_texts.specs.reading.CellLines.{cells_lines};
ghost use Rattle.certificate_texts.specs.reading.Pages.{HasLines, entries_of, kind_lines};

use crate::kept::Kept;
use crate::pages::{CERTIFICATE_LIMIT, Page};
use cell_env::CellState;
use memory_effects::next_cell;
use pointer_dom::AbsValue;
use state_tree::Tree;
use std::alloc::Global;
use tm_lattice::NoMemory;

// The kinds of lines about a cell, in their order.
#[derive(Clone, Copy)]
pub(crate) enum Kind {
    Own,
    Pending,
    Fresh,
    Stored,
}

// What a state says of a cell, with its number.
#[derive(Drop)]
pub(crate) struct CellEntry<'a> {
    pub(crate) cell: u32,
    pub(crate) entry: &'a CellState<AbsValue>,
}

impl Page {
    // The own value of a cell.
    fn push_own(&mut self, cell: u32, entry: &CellState<AbsValue>) -> Result<(), NoMemory>
        ensures { OnOk result (HasLines self.old self.new (cell_lines (cell, entry.now))) }
    {
        self.begin(b"c")?;
        self.push_natural(u64::from(cell))?;
        self.push_value(&entry.value)?;
        self.end()
    }

    // The mutexes that are pending at a cell, if there are some.
    fn push_pending(&mut self, cell: u32, pending: u16) -> Result<(), NoMemory>
        ensures { OnOk result (HasLines self.old self.new (pending_line_of cell pending)) }
    {
        if pending == 0 {
            return Ok(());
        }
        self.push_pair(b"p", cell, u32::from(pending))
    }

    // A tag and the number of a cell, where it is so.
    fn push_mark(&mut self, letters: &'static [u8], mark: bool, cell: u32) -> Result<(), NoMemory>
        ensures { OnOk result (HasLines self.old self.new (marked_lines letters.now mark cell)) }
    {
        if mark {
            self.push_numbered(letters, u64::from(cell))
        } else {
            Ok(())
        }
    }

    // The lines of one kind about a cell.
    fn push_about(
        &mut self,
        kind: Kind,
        cell: u32,
        entry: &CellState<AbsValue>,
    ) -> Result<(), NoMemory>
        ensures { OnOk result (HasLines self.old self.new (kind_lines kind (cell, entry.now))) }
    {
        match kind {
            Kind::Own => self.push_own(cell, entry),
            Kind::Pending => self.push_pending(cell, entry.pending),
            Kind::Fresh => self.push_mark(b"f", entry.fresh, cell),
            Kind::Stored => self.push_mark(b"s", entry.stored, cell),
        }
    }

    // The lines of one kind about all cells.
    fn push_kind(&mut self, kind: Kind, cells: &[CellEntry]) -> Result<(), NoMemory>
        ensures { OnOk result (HasLines self.old self.new (flat_map (kind_lines kind) (entries_of cells.now))) }
    {
        for of_cell in cells {
            self.push_about(kind, of_cell.cell, of_cell.entry)?;
        }
        Ok(())
    }

    /// Writes the lines of cells.
    pub(crate) fn push_cells(&mut self, cells: &Tree<CellState<AbsValue>>) -> Result<(), NoMemory>
        ensures { OnOk result (HasLines self.old self.new (cells_lines cells.now)) }
    {
        let listed = listed_cells(*self.text.allocator(), cells)?;
        let entries = listed.as_slice();
        self.push_kind(Kind::Own, entries)?;
        self.push_kind(Kind::Pending, entries)?;
        self.push_kind(Kind::Fresh, entries)?;
        self.push_kind(Kind::Stored, entries)
    }

    // Whether the text is within the limit with the lines that are kept behind it.
    fn has_room(&self, kept: &Kept) -> bool
        ensures { IsTrue result ↔ (length self.now.text.items + length kept.now.text.items ≤ certificate_limit) }
    {
        let count = kept.text.len();
        count <= CERTIFICATE_LIMIT && self.text.len() <= CERTIFICATE_LIMIT - count
    }

    // Writes the lines that are kept.
    fn push_kept(&mut self, kept: &Kept) -> Result<(), NoMemory>
        requires { length self.now.text.items + length kept.now.text.items ≤ certificate_limit }
        ensures { OnOk result (HasLines self.old self.new (cells_lines kept.now.cells)) }
    {
        match self.text.extend_from_slice(&kept.text) {
            Ok(()) => Ok(()),
            Err(_) => Err(NoMemory),
        }
    }

    /// Writes the lines of cells: as they are kept, where these are the cells that were written last and the text stays
    /// within the limit.
    pub(crate) fn push_cells_again(
        &mut self,
        kept: &mut Kept,
        cells: &Tree<CellState<AbsValue>>,
    ) -> Result<(), NoMemory>
        ensures { OnOk result (HasLines self.old self.new (cells_lines cells.now)) }
    {
        kept.turn_to(cells)?;
        if self.has_room(kept) {
            self.push_kept(kept)
        } else {
            self.push_cells(cells)
        }
    }
}

// What a state says of all cells, by rising numbers.
fn listed_cells<'a>(
    alloc: Global,
    cells: &'a Tree<CellState<AbsValue>>,
) -> Result<Vec<CellEntry<'a>>, NoMemory>
    ensures { IfOk result (λ listed. entries_of listed.items ≡ entries cells.now) }
{
    let mut listed = Vec::new(alloc);
    let mut from = 0;
    'cells: while let Some((cell, entry)) = next_cell(cells, from)? {
        listed.push(CellEntry { cell, entry })?;
        from = u64::from(cell) + 1;
    }
    Ok(listed)
}
