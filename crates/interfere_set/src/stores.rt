//! The store that the tasks share.
ghost use Rattle.std.specs.Prelude.{◌≡◌, IfOk};
ghost use Rattle.std.specs.FinMap as map;
ghost use Rattle.interfere_set.specs.Stores.{Interferences, no_interference, nested_entry};
ghost use Rattle.pointer_dom.specs.Values.{no_value};

use pointer_dom::AbsValue;
use std::alloc::Global;
use std::marker::Model;
use strided_dom::Marks;
use tm_lattice::{Keyed, Lattice, NoMemory};

/// Values by three numbers: a task, a set of mutexes or one mutex, and a cell.
pub type Nested = Keyed<Keyed<Keyed<AbsValue>>>;

/// What the tasks wrote: weak entries by task, mutexes held (as bits) and cell, for every read; and sync entries by
/// task, mutex and cell, for those who lock the mutex.
pub struct Store {
    weak: Nested,
    sync: Nested,
}

// By hand: a function that lets one go calls this, and its check does not go through the fields.
impl Drop for Store {
    fn drop(self) {
        let Store {
            weak: _weak,
            sync: _sync,
        } = self;
    }
}

impl Model for Store {
    ghost use Rattle.interfere_set.specs.Stores.{Interferences};
    ghost use Rattle.interfere_set.specs.laws.StoreLaws.{store_code};

    ghost Value = { Interferences };

    ghost coded = { store_code };

    ghost view = { λ a. record { weak = a.weak; sync = a.sync } };
}

impl Store {
    /// The store without an entry. It takes no memory.
    pub fn new(alloc: Global) -> Store
        ensures { result ≡ no_interference }
    {
        Store {
            weak: no_entry(alloc),
            sync: no_entry(alloc),
        }
    }

    /// The store of these entries. It takes no memory.
    pub fn from_parts(weak: Nested, sync: Nested) -> Store
        ensures { result ≡ record { weak = weak; sync = sync } }
    {
        Store { weak, sync }
    }

    /// The weak entries.
    pub fn weak(&self) -> &Nested
        ensures { result.now ≡ self.now.weak }
    {
        &self.weak
    }

    /// The sync entries.
    pub fn sync(&self) -> &Nested
        ensures { result.now ≡ self.now.sync }
    {
        &self.sync
    }

    /// What a task contributes that writes a value to a cell with these mutexes held: one weak entry, none where the
    /// value is none.
    pub fn written(
        alloc: Global,
        task: u32,
        held: u16,
        cell: u32,
        value: AbsValue,
    ) -> Result<Store, NoMemory>
        ensures none { IfOk result (λ store. value ≡ no_value → store ≡ no_interference) }
        ensures some { IfOk result (λ store. (value ≡ no_value → ⊥)
            → store ≡ record no_interference { weak = nested_entry task held cell value }) }
    {
        let weak = one_entry(alloc, task, u32::from(held), cell, value)?;
        Ok(Store {
            weak,
            sync: no_entry(alloc),
        })
    }

    /// What a task contributes that unlocks a mutex under which it wrote a value to a cell: one sync entry, none
    /// where the value is none.
    pub fn left(
        alloc: Global,
        task: u32,
        mutex: u32,
        cell: u32,
        value: AbsValue,
    ) -> Result<Store, NoMemory>
        ensures none { IfOk result (λ store. value ≡ no_value → store ≡ no_interference) }
        ensures some { IfOk result (λ store. (value ≡ no_value → ⊥)
            → store ≡ record no_interference { sync = nested_entry task mutex cell value }) }
    {
        let sync = one_entry(alloc, task, mutex, cell, value)?;
        Ok(Store {
            weak: no_entry(alloc),
            sync,
        })
    }
}

// No entry.
fn no_entry(alloc: Global) -> Nested
    ensures { result ≡ map.empty }
{
    Keyed::new(alloc)
}

// One entry, none where the value is none.
fn one_entry(
    alloc: Global,
    task: u32,
    set: u32,
    cell: u32,
    value: AbsValue,
) -> Result<Nested, NoMemory>
    ensures none { IfOk result (λ nested. value ≡ no_value → nested ≡ no_interference.weak) }
    ensures some { IfOk result (λ nested. (value ≡ no_value → ⊥) → nested ≡ nested_entry task set cell value) }
{
    let cells = table_of(alloc, cell, value)?;
    let sets = table_of(alloc, set, cells)?;
    table_of(alloc, task, sets)
}

// The table with this entry, and with none where the value is nothing.
fn table_of<V: Lattice>(alloc: Global, key: u32, value: V) -> Result<Keyed<V>, NoMemory>
    ensures none { IfOk result (λ table. V.nothing value → table ≡ map.empty) }
    ensures some { IfOk result (λ table. (V.nothing value → ⊥) → table ≡ map.insert map.empty key value) }
{
    let mut table = Keyed::new(alloc);
    table.put(key, value)?;
    Ok(table)
}

impl Lattice for Store {
    ghost use Rattle.interfere_set.specs.Stores.{IsStore, IsStoreBelow, joined_store, rounded_store};
    ghost use Rattle.interfere_set.specs.laws.StoreLaws.{HasNoInterference, store_order, store_join, store_closure};
    ghost use Rattle.interfere_set.specs.laws.StoreLaws.{store_nothing};

    type Marks = Marks;

    ghost is_value = { λ s. IsStore s };

    ghost is_marks = { λ _. Unit {0} };

    ghost leq = { λ s t. IsStoreBelow s t };

    ghost joined = { joined_store };

    ghost rounded = { rounded_store };

    ghost nothing = { HasNoInterference };

    fn is_nothing(&self) -> bool {
        let weak = Lattice::is_nothing(&self.weak);
        let sync = Lattice::is_nothing(&self.sync);
        weak && sync
    }

    fn below(&self, other: &Self) -> bool {
        Lattice::below(&self.weak, &other.weak) && Lattice::below(&self.sync, &other.sync)
    }

    fn join(&self, alloc: Global, other: &Self) -> Result<Self, NoMemory> {
        let weak = self.weak.join(alloc, &other.weak)?;
        let sync = self.sync.join(alloc, &other.sync)?;
        Ok(Store { weak, sync })
    }

    fn round(&self, alloc: Global, marks: &Marks) -> Result<Self, NoMemory> {
        let weak = self.weak.round(alloc, marks)?;
        let sync = self.sync.round(alloc, marks)?;
        Ok(Store { weak, sync })
    }

    fn copied(&self, alloc: Global) -> Result<Self, NoMemory> {
        let weak = self.weak.copied(alloc)?;
        let sync = self.sync.copied(alloc)?;
        Ok(Store { weak, sync })
    }

    ghost order = { store_order };

    ghost join_laws = { store_join };

    ghost closure = { store_closure };

    ghost nothing_laws = { store_nothing };
}
