//! Tables in branches, in which a tree keeps its parts.
ghost use Rattle.std.specs.Prelude.{◌≡◌, ◌<◌, ◌^◌, IfOk, OnOk, OnErr, MatchOption};
ghost use Rattle.std.specs.Option.{option_copied};
ghost use Rattle.std.specs.FinMap as map;
ghost use Rattle.tm_lattice.specs.Tables.{IsPast, IsNext};
ghost use Rattle.state_tree.specs.reading.Parts.{part_of, part_at};

use shared_tables::SharedTable;
use std::alloc::Global;
use std::marker::Model;
use tm_lattice::{Lattice, NoMemory};

/// A finite table from numbers to values of a lattice, as a keyed table is, whose copies share what they do not change.
///
/// Its entries stand in parts of 32 keys, each behind a counted pointer, and the parts behind one more: a copy takes
/// constant time, and a change copies one part and the pointers to the others. A tree keeps its own parts in such a
/// table, whose parts are its branches.
#[derive(Drop)]
pub(crate) struct Branches<V: Lattice> {
    alloc: Global,
    parts: SharedTable<SharedTable<V>>,
}

impl<V: Lattice> Model for Branches<V> {
    ghost use Rattle.std.specs.Coded.{coded_ℕ};
    ghost use Rattle.std.specs.FinMap as map;
    ghost use Rattle.std.specs.Ordering.{nat_cmp};
    ghost use Rattle.state_tree.specs.reading.Parts.{together, IsParted};

    ghost Value = { map.FinMap nat_cmp V };

    ghost coded = { map.code coded_ℕ V.code };

    ghost view = { λ t. together t.parts };

    ghost invariant = { λ t. IsParted 32 t.parts };
}

// The part in which a key stands: 32 keys are together.
#[tactic(auto, unfolding(crate::specs::reading::Parts::part_of))]
fn part_of(key: u32) -> u32
    ensures value { result ≡ part_of 32 key }
    ensures bound { result < 2 ^ 27 }
{
    key / 32
}

// The part in which a key stands, empty where it is not there.
fn part_at<V: Lattice>(
    alloc: Global,
    parts: &SharedTable<SharedTable<V>>,
    key: u32,
) -> Result<SharedTable<V>, NoMemory>
    ensures { IfOk result (λ part. part ≡ part_at 32 parts.now key) }
{
    match parts.get(part_of(key)) {
        None => Ok(SharedTable::new(alloc)),
        Some(part) => part.shared(),
    }
}

// The entry with the least key of those from the given one on, in its part.
fn entry_of_part<V: Lattice>(parts: &SharedTable<SharedTable<V>>, key: u32) -> Option<(u32, &V)>
    ensures { MatchOption result (IsPast (part_at 32 parts.now key) key)
        (λ entry. IsNext (part_at 32 parts.now key) key entry.0 entry.1.now) }
{
    // As in `get`: where no key of a part or below it is absent, the number of its entry is known.
    let number = part_of(key);
    match parts.get_near(number, number as usize) {
        None => None,
        Some(part) => part.entry_near(key, (key % 32) as usize),
    }
}

impl<V: Lattice> Branches<V> {
    /// The table with no entry. It takes no memory.
    pub fn new(alloc: Global) -> Self
        ensures { result ≡ map.empty }
    {
        Branches {
            alloc,
            parts: SharedTable::new(alloc),
        }
    }

    /// What stands at a key: None exactly where the key is absent.
    pub fn get(&self, key: u32) -> Option<&V>
        ensures { option_copied result ≡ map.get self.now key }
    {
        // Where no key of a part or below it is absent, the number of its entry is known.
        let number = part_of(key);
        match self.parts.get_near(number, number as usize) {
            None => None,
            Some(part) => part.get_near(key, (key % 32) as usize),
        }
    }

    /// The entry with the least key of those from the given one on: None exactly where there is none.
    pub fn entry_from(&self, key: u32) -> Option<(u32, &V)>
        ensures { MatchOption result (IsPast self.now key) (λ entry. IsNext self.now key entry.0 entry.1.now) }
    {
        // The call tells that no part is empty.
        let _empty = Lattice::is_nothing(&self.parts);
        let next = entry_of_part(&self.parts, key);
        if next.is_some() {
            return next;
        }
        match self.parts.entry_from(part_of(key) + 1) {
            None => None,
            Some((_, part)) => part.entry_from(0),
        }
    }

    /// Writes a value at a key: the key now has the value, or is absent where the value is nothing. After want of
    /// memory the table is as before.
    pub fn put(&mut self, key: u32, value: V) -> Result<(), NoMemory>
        ensures nothing { OnOk result (V.nothing value → self.new ≡ map.remove self.old key) }
        ensures written { OnOk result ((V.nothing value → ⊥) → self.new ≡ map.insert self.old key value) }
        ensures err { OnErr result (self.new ≡ self.old) }
    {
        let mut part = part_at(self.alloc, &self.parts, key)?;
        part.put(key, value)?;
        self.parts.put(part_of(key), part)
    }

    /// The table with a value at a key: the key has the value, or is absent where the value is nothing. What no other
    /// table shares is changed in place.
    pub fn with(self, key: u32, value: V) -> Result<Self, NoMemory>
        ensures nothing { IfOk result (λ made. V.nothing value → made ≡ map.remove self key) }
        ensures written { IfOk result (λ made. (V.nothing value → ⊥) → made ≡ map.insert self key value) }
    {
        let Branches { alloc, mut parts } = self;
        let mut part = part_at(alloc, &parts, key)?;
        // From here on the part is this table's alone, if no other table has it.
        parts.remove(part_of(key))?;
        part.put(key, value)?;
        parts.put(part_of(key), part)?;
        Ok(Branches { alloc, parts })
    }

    /// The table without an entry at a key. What no other table shares is changed in place.
    pub fn without(self, key: u32) -> Result<Self, NoMemory>
        ensures { IfOk result (λ made. made ≡ map.remove self key) }
    {
        let Branches { alloc, mut parts } = self;
        let mut part = part_at(alloc, &parts, key)?;
        // From here on the part is this table's alone, if no other table has it.
        parts.remove(part_of(key))?;
        part.remove(key)?;
        parts.put(part_of(key), part)?;
        Ok(Branches { alloc, parts })
    }
}

impl<V: Lattice> Lattice for Branches<V> {
    ghost use Rattle.std.specs.FinMap as map;
    ghost use Rattle.tm_lattice.specs.Tables.{IsTable, IsTableBelow, joined_table, rounded_table};
    ghost use Rattle.tm_lattice.specs.laws.TableLaws.{table_order, table_join, table_closure, table_nothing};

    type Marks = V::Marks;

    ghost is_value = { IsTable V.is_value V.nothing };

    ghost is_marks = { V.is_marks };

    ghost leq = { IsTableBelow V.leq };

    ghost joined = { joined_table V.joined };

    ghost rounded = { λ marks. rounded_table (V.rounded marks) };

    ghost nothing = { λ t. t ≡ map.empty };

    fn is_nothing(&self) -> bool {
        self.parts.is_nothing()
    }

    fn below(&self, other: &Self) -> bool {
        // The calls tell that no part is empty.
        let _empty = Lattice::is_nothing(&self.parts);
        let _none = Lattice::is_nothing(&other.parts);
        Lattice::below(&self.parts, &other.parts)
    }

    fn join(&self, alloc: Global, other: &Self) -> Result<Self, NoMemory> {
        Ok(Branches {
            alloc,
            parts: self.parts.join(alloc, &other.parts)?,
        })
    }

    fn round(&self, alloc: Global, marks: &V::Marks) -> Result<Self, NoMemory> {
        Ok(Branches {
            alloc,
            parts: self.parts.round(alloc, marks)?,
        })
    }

    fn copied(&self, alloc: Global) -> Result<Self, NoMemory> {
        Ok(Branches {
            alloc,
            parts: self.parts.copied(alloc)?,
        })
    }

    ghost order = { table_order V.is_value V.is_marks V.leq V.joined V.rounded V.nothing
        V.order V.join_laws V.closure V.nothing_laws };

    ghost join_laws = { table_join V.is_value V.is_marks V.leq V.joined V.rounded V.nothing
        V.order V.join_laws V.closure V.nothing_laws };

    ghost closure = { table_closure V.is_value V.is_marks V.leq V.joined V.rounded V.nothing
        V.order V.join_laws V.closure V.nothing_laws };

    ghost nothing_laws = { table_nothing V.is_value V.is_marks V.leq V.joined V.rounded V.nothing
        V.order V.join_laws V.closure V.nothing_laws };
}
