//! Tables in parts that are shared one by one.
ghost use Rattle.std.specs.Prelude.{◌≡◌, ◌≢◌, ◌↔◌, [], ◌∷◌, ◌<◌, ◌^◌, IsTrue, IfOk, OnOk, OnErr, MatchBool};
ghost use Rattle.std.specs.Prelude.{MatchOption};
ghost use Rattle.std.specs.Option.{option_copied};
ghost use Rattle.std.specs.FinMap as map;
ghost use Rattle.tm_lattice.specs.Tables.{IsTableBelow, IsPast, IsNext, with_entry, joined_table, selected_table};
ghost use Rattle.state_tree.specs.reading.Parts.{part_of, part_at};

use crate::branches::Branches;
use shared_tables::SharedTable;
use std::alloc::Global;
use std::marker::Model;
use tm_lattice::{Lattice, NoMemory};

/// A finite table from numbers to values of a lattice, as a keyed table is, whose copies share what they do not change.
///
/// Its entries stand in parts of 8 keys, and the parts in branches of 32. Each part and each branch stands behind a
/// counted pointer, and the branches behind one more: a copy takes constant time, and a change copies one part, the
/// pointers to the parts of its branch, and those to the branches.
#[derive(Drop)]
pub struct Tree<V: Lattice> {
    alloc: Global,
    parts: Branches<SharedTable<V>>,
}

impl<V: Lattice> Model for Tree<V> {
    ghost use Rattle.std.specs.Coded.{coded_ℕ};
    ghost use Rattle.std.specs.FinMap as map;
    ghost use Rattle.std.specs.Ordering.{nat_cmp};
    ghost use Rattle.state_tree.specs.reading.Parts.{together, IsParted};

    ghost Value = { map.FinMap nat_cmp V };

    ghost coded = { map.code coded_ℕ V.code };

    ghost view = { λ t. together t.parts };

    ghost invariant = { λ t. IsParted 8 t.parts };
}

// The part in which a key stands: 8 keys are together.
#[tactic(auto, unfolding(crate::specs::reading::Parts::part_of))]
fn part_of(key: u32) -> u32
    ensures value { result ≡ part_of 8 key }
    ensures bound { result < 2 ^ 29 }
{
    key / 8
}

// The part in which a key stands, empty where it is not there.
fn part_at<V: Lattice>(
    alloc: Global,
    parts: &Branches<SharedTable<V>>,
    key: u32,
) -> Result<SharedTable<V>, NoMemory>
    ensures { IfOk result (λ part. part ≡ part_at 8 parts.now key) }
{
    match parts.get(part_of(key)) {
        None => Ok(SharedTable::new(alloc)),
        Some(part) => part.shared(),
    }
}

// The entry with the least key of those from the given one on, in its part.
fn entry_of_part<V: Lattice>(parts: &Branches<SharedTable<V>>, key: u32) -> Option<(u32, &V)>
    ensures { MatchOption result (IsPast (part_at 8 parts.now key) key)
        (λ entry. IsNext (part_at 8 parts.now key) key entry.0 entry.1.now) }
{
    // As in `get`: where no key of a part is absent, the number of its entry is known.
    match parts.get(part_of(key)) {
        None => None,
        Some(part) => part.entry_near(key, (key % 8) as usize),
    }
}

impl<V: Lattice> Tree<V> {
    /// The table with no entry. It takes no memory.
    pub fn new(alloc: Global) -> Self
        ensures { result ≡ map.empty }
    {
        Tree {
            alloc,
            parts: Branches::new(alloc),
        }
    }

    /// What stands at a key: None exactly where the key is absent.
    pub fn get(&self, key: u32) -> Option<&V>
        ensures { option_copied result ≡ map.get self.now key }
    {
        // Where no key of a part is absent, the number of its entry is known.
        match self.parts.get(part_of(key)) {
            None => None,
            Some(part) => part.get_near(key, (key % 8) as usize),
        }
    }

    /// The entry with the least key of those from the given one on: None exactly where there is none.
    pub fn entry_from(&self, key: u32) -> Option<(u32, &V)>
        ensures { MatchOption result (IsPast self.now key) (λ entry. IsNext self.now key entry.0 entry.1.now) }
    {
        // The call tells that no part is empty.
        let _empty = Lattice::is_nothing(&self.parts);
        let next = entry_of_part(&self.parts, key);
        if next.is_some() {
            return next;
        }
        match self.parts.entry_from(part_of(key) + 1) {
            None => None,
            Some((_, part)) => part.entry_from(0),
        }
    }

    /// Writes a value at a key: the key now has the value, or is absent where the value is nothing. After want of
    /// memory the table is as before.
    pub fn put(&mut self, key: u32, value: V) -> Result<(), NoMemory>
        ensures nothing { OnOk result (V.nothing value → self.new ≡ map.remove self.old key) }
        ensures written { OnOk result ((V.nothing value → ⊥) → self.new ≡ map.insert self.old key value) }
        ensures err { OnErr result (self.new ≡ self.old) }
    {
        let mut part = part_at(self.alloc, &self.parts, key)?;
        part.put(key, value)?;
        self.parts.put(part_of(key), part)
    }

    /// The table with a value at a key: the key has the value, or is absent where the value is nothing. What no other
    /// table shares is changed in place.
    pub fn with(self, key: u32, value: V) -> Result<Self, NoMemory>
        ensures nothing { IfOk result (λ made. V.nothing value → made ≡ map.remove self key) }
        ensures written { IfOk result (λ made. (V.nothing value → ⊥) → made ≡ map.insert self key value) }
    {
        let Tree { alloc, parts } = self;
        let mut part = part_at(alloc, &parts, key)?;
        // From here on the part is this table's alone, if no other table has it.
        let others = parts.without(part_of(key))?;
        part.put(key, value)?;
        let parts = others.with(part_of(key), part)?;
        Ok(Tree { alloc, parts })
    }

    /// Takes the entry at a key away, if there is one. After want of memory the table is as before.
    pub fn remove(&mut self, key: u32) -> Result<(), NoMemory>
        ensures ok { OnOk result (self.new ≡ map.remove self.old key) }
        ensures err { OnErr result (self.new ≡ self.old) }
    {
        let mut part = part_at(self.alloc, &self.parts, key)?;
        part.remove(key)?;
        self.parts.put(part_of(key), part)
    }

    /// Joins a value to what stands at a key. True exactly where that rose; after want of memory the table is as
    /// before.
    pub fn join_at(&mut self, key: u32, value: &V) -> Result<bool, NoMemory>
        ensures nothing { OnOk result (V.nothing value.now → self.new ≡ self.old) }
        ensures joined { OnOk result
            ((V.nothing value.now → ⊥) → self.new ≡ with_entry V.joined self.old key value.now) }
        ensures rose { IfOk result (λ rose. MatchBool rose (self.new ≢ self.old) (self.new ≡ self.old)) }
        ensures err { OnErr result (self.new ≡ self.old) }
    {
        let mut part = part_at(self.alloc, &self.parts, key)?;
        let rose = part.join_at(key, value)?;
        if rose {
            self.parts.put(part_of(key), part)?;
        }
        Ok(rose)
    }

    /// The table with the values at these keys rounded outward, and all others as they are. A key may be given more
    /// than once.
    pub fn rounded_at(
        &self,
        alloc: Global,
        keys: &[u32],
        marks: &V::Marks,
    ) -> Result<Self, NoMemory>
        requires { V.is_marks marks.now }
        ensures { IfOk result (λ outer. outer ≡ selected_table (V.rounded marks.now) keys.now self.now) }
    {
        // The call tells that the entries are values.
        let _empty = self.is_nothing();
        let mut outer = self.copied(alloc)?;
        for key in keys {
            outer.round_entry(alloc, *key, marks)?;
        }
        Ok(outer)
    }

    // Rounds what stands at a key.
    fn round_entry(&mut self, alloc: Global, key: u32, marks: &V::Marks) -> Result<(), NoMemory>
        requires { V.is_marks marks.now }
        ensures { OnOk result (self.new ≡ selected_table (V.rounded marks.now) (key ∷ []) self.old) }
    {
        // The call tells that the entries are values.
        let _empty = self.is_nothing();
        let Some(value) = self.get(key) else {
            return Ok(());
        };
        let outer = value.round(alloc, marks)?;
        if outer.below(value) {
            return Ok(());
        }
        self.put(key, outer)
    }

    /// An equal table, which shares the entries. It takes constant time.
    pub fn shared(&self) -> Result<Self, NoMemory>
        ensures { IfOk result (λ copy. copy ≡ self.now) }
    {
        self.copied(self.alloc)
    }

    /// The join of two tables, key by key.
    pub fn joined(&self, alloc: Global, other: &Self) -> Result<Self, NoMemory>
        ensures { IfOk result (λ both. both ≡ joined_table V.joined self.now other.now) }
    {
        self.join(alloc, other)
    }

    /// Whether each entry is below what stands at its key in the other table. It takes no memory.
    pub fn below(&self, other: &Self) -> bool
        ensures { IsTrue result ↔ IsTableBelow V.leq self.now other.now }
    {
        Lattice::below(self, other)
    }
}

impl<V: Lattice> Lattice for Tree<V> {
    ghost use Rattle.std.specs.FinMap as map;
    ghost use Rattle.tm_lattice.specs.Tables.{IsTable, IsTableBelow, joined_table, rounded_table};
    ghost use Rattle.tm_lattice.specs.laws.TableLaws.{table_order, table_join, table_closure, table_nothing};

    type Marks = V::Marks;

    ghost is_value = { IsTable V.is_value V.nothing };

    ghost is_marks = { V.is_marks };

    ghost leq = { IsTableBelow V.leq };

    ghost joined = { joined_table V.joined };

    ghost rounded = { λ marks. rounded_table (V.rounded marks) };

    ghost nothing = { λ t. t ≡ map.empty };

    fn is_nothing(&self) -> bool {
        self.parts.is_nothing()
    }

    fn below(&self, other: &Self) -> bool {
        // The calls tell that no part is empty.
        let _empty = Lattice::is_nothing(&self.parts);
        let _none = Lattice::is_nothing(&other.parts);
        Lattice::below(&self.parts, &other.parts)
    }

    fn join(&self, alloc: Global, other: &Self) -> Result<Self, NoMemory> {
        Ok(Tree {
            alloc,
            parts: self.parts.join(alloc, &other.parts)?,
        })
    }

    fn round(&self, alloc: Global, marks: &V::Marks) -> Result<Self, NoMemory> {
        Ok(Tree {
            alloc,
            parts: self.parts.round(alloc, marks)?,
        })
    }

    fn copied(&self, alloc: Global) -> Result<Self, NoMemory> {
        Ok(Tree {
            alloc,
            parts: self.parts.copied(alloc)?,
        })
    }

    ghost order = { table_order V.is_value V.is_marks V.leq V.joined V.rounded V.nothing
        V.order V.join_laws V.closure V.nothing_laws };

    ghost join_laws = { table_join V.is_value V.is_marks V.leq V.joined V.rounded V.nothing
        V.order V.join_laws V.closure V.nothing_laws };

    ghost closure = { table_closure V.is_value V.is_marks V.leq V.joined V.rounded V.nothing
        V.order V.join_laws V.closure V.nothing_laws };

    ghost nothing_laws = { table_nothing V.is_value V.is_marks V.leq V.joined V.rounded V.nothing
        V.order V.join_laws V.closure V.nothing_laws };
}
