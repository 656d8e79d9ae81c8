//! Nested tables that grow entry by entry, in the order of the entries.
ghost use Rattle.std.specs.Prelude.{◌≡◌, ◌≢◌, ◌<◌, ◌≤◌, ◌+◌, ℕ, [], ◌∷◌, ◌++◌, IfOk, OnOk};
ghost use Rattle.std.specs.FinMap.{entries};
ghost use Rattle.pointer_dom.specs.Values.{no_value};
ghost use Rattle.certificate_reading.specs.Entries.{IsSmall, place_number};
ghost use Rattle.certificate_reading.specs.Nesting.{AllBelow, cell_entries, grown, set_entries, task_entries};
ghost use Rattle.certificate_reading.specs.Nesting.{IsGrowing};

use crate::entries::{Entry, Place};
use interfere_set::Nested;
use pointer_dom::AbsValue;
use std::alloc::Global;
use tm_lattice::{Keyed, Lattice, NoMemory};

/// Nested tables, to which entries are added one after another.
#[derive(Drop)]
pub(crate) struct Growing {
    // The tasks before the next one.
    tasks: Nested,
    // The sets of the next task before the next one.
    sets: Keyed<Keyed<AbsValue>>,
    // The cells under the next set.
    cells: Keyed<AbsValue>,
    // The least place that may come.
    pub(crate) next: Place,
}

/// Puts a value behind all others, where it is not nothing.
fn put_behind<V: Lattice>(table: &mut Keyed<V>, key: u32, value: V) -> Result<(), NoMemory>
    requires { AllBelow key (entries table.now) }
    ensures nothing { OnOk result (V.nothing value → table.new ≡ table.old) }
    ensures some { OnOk result ((V.nothing value → ⊥)
        → entries table.new ≡ entries table.old ++ (key, value) ∷ []) }
    ensures below { OnOk result (AllBelow (key + 1) (entries table.new)) }
{
    if value.is_nothing() {
        return Ok(());
    }
    table.put(key, value)?;
    Ok(())
}

/// Puts the cells under a set behind the others.
fn put_cells(
    sets: &mut Keyed<Keyed<AbsValue>>,
    set: u32,
    cells: Keyed<AbsValue>,
) -> Result<(), NoMemory>
    requires { AllBelow set (entries sets.now) }
    ensures entries { (task : ℕ) → OnOk result (set_entries task (entries sets.new) []
        ≡ set_entries task (entries sets.old) (cell_entries task set (entries cells) [])) }
    ensures below { OnOk result (AllBelow (set + 1) (entries sets.new)) }
{
    put_behind(sets, set, cells)?;
    Ok(())
}

/// Puts the sets of a task behind the others.
fn put_sets(tasks: &mut Nested, task: u32, sets: Keyed<Keyed<AbsValue>>) -> Result<(), NoMemory>
    requires { AllBelow task (entries tasks.now) }
    ensures entries { OnOk result (task_entries (entries tasks.new) []
        ≡ task_entries (entries tasks.old) (set_entries task (entries sets) [])) }
    ensures below { OnOk result (AllBelow (task + 1) (entries tasks.new)) }
{
    put_behind(tasks, task, sets)?;
    Ok(())
}

impl Growing {
    /// With no entry.
    pub(crate) fn new(alloc: Global) -> Growing
        ensures growing { IsGrowing result }
        ensures grown { grown result ≡ [] }
        ensures next { place_number result.next ≡ 0 }
    {
        Growing {
            tasks: Keyed::new(alloc),
            sets: Keyed::new(alloc),
            cells: Keyed::new(alloc),
            next: Place {
                task: 0,
                set: 0,
                cell: 0,
            },
        }
    }

    // Ends the next set: the next one comes.
    fn end_set(&mut self, alloc: Global, set: u32) -> Result<(), NoMemory>
        requires growing { IsGrowing self.now }
        requires rises { self.now.next.set < set }
        requires small { set < 65536 }
        ensures growing { OnOk result (IsGrowing self.new) }
        ensures grown { OnOk result (grown self.new ≡ grown self.old) }
        ensures next { OnOk result (self.new.next ≡ record { task = self.old.next.task; set = set; cell = 0 }) }
    {
        let no_cell = Keyed::new(alloc);
        let cells = std::mem::replace(&mut self.cells, no_cell);
        put_cells(&mut self.sets, self.next.set, cells)?;
        self.next = Place {
            task: self.next.task,
            set,
            cell: 0,
        };
        Ok(())
    }

    // Ends the next task: a later one comes.
    fn end_task(&mut self, alloc: Global, task: u32, set: u32) -> Result<(), NoMemory>
        requires growing { IsGrowing self.now }
        requires rises { self.now.next.task < task }
        requires small { set < 65536 }
        ensures growing { OnOk result (IsGrowing self.new) }
        ensures grown { OnOk result (grown self.new ≡ grown self.old) }
        ensures next { OnOk result (self.new.next ≡ record { task = task; set = set; cell = 0 }) }
    {
        let no_cell = Keyed::new(alloc);
        let cells = std::mem::replace(&mut self.cells, no_cell);
        put_cells(&mut self.sets, self.next.set, cells)?;
        let no_set = Keyed::new(alloc);
        let sets = std::mem::replace(&mut self.sets, no_set);
        put_sets(&mut self.tasks, self.next.task, sets)?;
        self.next = Place { task, set, cell: 0 };
        Ok(())
    }

    // Ends what an entry at this place does not go on with.
    fn turn_to(&mut self, alloc: Global, place: Place) -> Result<(), NoMemory>
        requires growing { IsGrowing self.now }
        requires rises { place_number self.now.next ≤ place_number place }
        requires small { IsSmall place }
        ensures growing { OnOk result (IsGrowing self.new) }
        ensures grown { OnOk result (grown self.new ≡ grown self.old) }
        ensures task { OnOk result (self.new.next.task ≡ place.task) }
        ensures set { OnOk result (self.new.next.set ≡ place.set) }
        ensures cell { OnOk result (self.new.next.cell ≤ place.cell) }
    {
        if self.next.task != place.task {
            self.end_task(alloc, place.task, place.set)?;
            return Ok(());
        }
        if self.next.set != place.set {
            self.end_set(alloc, place.set)?;
            return Ok(());
        }
        Ok(())
    }

    /// Adds an entry behind the others.
    pub(crate) fn push(&mut self, alloc: Global, entry: Entry) -> Result<(), NoMemory>
        requires growing { IsGrowing self.now }
        requires rises { place_number self.now.next ≤ place_number entry.place }
        requires small { IsSmall entry.place }
        requires some { entry.value ≢ no_value }
        ensures growing { OnOk result (IsGrowing self.new) }
        ensures grown { OnOk result (grown self.new ≡ grown self.old ++ (place_number entry.place, entry) ∷ []) }
        ensures next { OnOk result (place_number self.new.next ≡ place_number entry.place + 1) }
    {
        let Entry { place, value } = entry;
        self.turn_to(alloc, place)?;
        put_behind(&mut self.cells, place.cell, value)?;
        self.next = Place {
            task: place.task,
            set: place.set,
            cell: place.cell + 1,
        };
        Ok(())
    }

    /// The nested tables of all entries.
    pub(crate) fn finish(self) -> Result<Nested, NoMemory>
        requires { IsGrowing self }
        ensures { IfOk result (λ n. task_entries (entries n) [] ≡ grown self) }
    {
        let Growing {
            mut tasks,
            mut sets,
            cells,
            next,
        } = self;
        put_cells(&mut sets, next.set, cells)?;
        put_sets(&mut tasks, next.task, sets)?;
        Ok(tasks)
    }
}
