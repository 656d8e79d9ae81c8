//! The lines of stores.
ghost use Rattle.std.specs.Prelude.{OnOk};
ghost use Rattle.certificate_texts.specs.StoreLines.{entry_lines, nested_lines, set_lines, store_lines, task_lines};
ghost use Rattle.certificate_texts.specs.reading.Pages.{HasLines};

use crate::pages::Page;
use interfere_set::{Nested, Store};
use pointer_dom::AbsValue;
use tm_lattice::{Keyed, NoMemory};

impl Page {
    // The line of an entry.
    fn push_entry(
        &mut self,
        letters: &'static [u8],
        task: u32,
        set: u32,
        cell: u32,
        value: &AbsValue,
    ) -> Result<(), NoMemory>
        ensures { OnOk result (HasLines self.old self.new (entry_lines letters.now task set (cell, value.now))) }
    {
        self.begin(letters)?;
        self.push_natural(u64::from(task))?;
        self.push_natural(u64::from(set))?;
        self.push_natural(u64::from(cell))?;
        self.push_value(value)?;
        self.end()
    }

    // The lines of a task under one set of mutexes or one mutex. Where the text is too long already, the entries are not
    // looked at.
    fn push_set_entries(
        &mut self,
        letters: &'static [u8],
        task: u32,
        set: u32,
        cells: &Keyed<AbsValue>,
    ) -> Result<(), NoMemory>
        ensures { OnOk result (HasLines self.old self.new (set_lines letters.now task (set, cells.now))) }
    {
        if self.is_full() {
            return Ok(());
        }
        for (cell, value) in cells.entries() {
            self.push_entry(letters, task, set, *cell, value)?;
        }
        Ok(())
    }

    // The lines of a task.
    fn push_task_entries(
        &mut self,
        letters: &'static [u8],
        task: u32,
        sets: &Keyed<Keyed<AbsValue>>,
    ) -> Result<(), NoMemory>
        ensures { OnOk result (HasLines self.old self.new (task_lines letters.now (task, sets.now))) }
    {
        for (set, cells) in sets.entries() {
            self.push_set_entries(letters, task, *set, cells)?;
        }
        Ok(())
    }

    // The lines of entries of one kind.
    fn push_nested(&mut self, letters: &'static [u8], entries: &Nested) -> Result<(), NoMemory>
        ensures { OnOk result (HasLines self.old self.new (nested_lines letters.now entries.now)) }
    {
        for (task, sets) in entries.entries() {
            self.push_task_entries(letters, *task, sets)?;
        }
        Ok(())
    }

    /// Writes the lines of a store.
    pub(crate) fn push_store(&mut self, store: &Store) -> Result<(), NoMemory>
        ensures { OnOk result (HasLines self.old self.new (store_lines store.now)) }
    {
        self.push_tagged(b"store")?;
        self.push_nested(b"w", store.weak())?;
        self.push_nested(b"y", store.sync())
    }
}
