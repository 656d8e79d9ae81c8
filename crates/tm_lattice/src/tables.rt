//! Keyed tables over a lattice: sorted vectors, seen as finite maps.
ghost use Rattle.std.specs.Prelude.{◌≡◌, ◌≢◌, ◌↔◌, [], ◌∷◌, IsTrue, IfOk, IfErr, OnOk, OnErr, MatchBool, MatchOption};
ghost use Rattle.std.specs.Prelude.{Some, T, drop};
ghost use Rattle.std.specs.Option.{option_copied};
ghost use Rattle.std.specs.Ordering.{nat_cmp};
ghost use Rattle.std.specs.FinMap as map;
ghost use Rattle.tm_lattice.specs.Tables.{IsTableBelow, IsPast, IsNext, with_entry, selected_table};
ghost use Rattle.tm_lattice.specs.reading.Listed.{IsAt, IsGapFor, IsFirstFrom, IsPushed, order_of_first};

use crate::lattices::Lattice;
use crate::memory::NoMemory;
use std::alloc::Global;
use std::cmp::Ordering;
use std::marker::Model;

/// A finite table from numbers to values of a lattice. An absent key counts as nothing, and no entry that is nothing
/// is kept.
///
/// It is itself a lattice, entry by entry, so that tables can be nested. A look-up takes time logarithmic in the
/// number of entries, a join linear time.
#[derive(Drop)]
pub struct Keyed<V: Lattice> {
    entries: Vec<(u32, V)>,
}

impl<V: Lattice> Model for Keyed<V> {
    ghost use Rattle.std.specs.Coded.{coded_ℕ};
    ghost use Rattle.std.specs.Ordering.{nat_cmp};
    ghost use Rattle.std.specs.FinMap as map;
    ghost use Rattle.tm_lattice.specs.reading.Listed.{IsListed};

    ghost Value = { map.FinMap nat_cmp V };

    ghost coded = { map.code coded_ℕ V.code };

    ghost view = { λ a. map.from_sorted a.entries.items };

    ghost invariant = { λ a. IsListed V.is_value V.nothing a.entries.items };
}

impl<V: Lattice> Keyed<V> {
    /// The table with no entry. It takes no memory.
    pub fn new(alloc: Global) -> Self
        ensures { result ≡ map.empty }
    {
        Keyed {
            entries: Vec::new(alloc),
        }
    }

    /// What stands at a key: None exactly where the key is absent.
    pub fn get(&self, key: u32) -> Option<&V>
        ensures { option_copied result ≡ map.get self.now key }
    {
        match find(&self.entries, key) {
            Ok(at) => Some(&self.entries[at].1),
            Err(_) => None,
        }
    }

    /// The entries, in the order of their keys.
    pub fn entries(&self) -> &[(u32, V)]
        ensures { result.now ≡ map.entries self.now }
    {
        &self.entries
    }

    /// The entry with the least key of those from the given one on: None exactly where there is none.
    pub fn entry_from(&self, key: u32) -> Option<(u32, &V)>
        ensures { MatchOption result (IsPast self.now key) (λ entry. IsNext self.now key entry.0 entry.1.now) }
    {
        let at = place_from(&self.entries, key);
        if at < self.entries.len() {
            let entry = &self.entries[at];
            Some((entry.0, &entry.1))
        } else {
            None
        }
    }

    /// Writes a value at a key: the key now has the value, or is absent where the value is nothing. After want of
    /// memory the table is as before.
    pub fn put(&mut self, key: u32, value: V) -> Result<(), NoMemory>
        ensures nothing { OnOk result (V.nothing value → self.new ≡ map.remove self.old key) }
        ensures written { OnOk result ((V.nothing value → ⊥) → self.new ≡ map.insert self.old key value) }
        ensures err { OnErr result (self.new ≡ self.old) }
    {
        if value.is_nothing() {
            self.remove(key);
            return Ok(());
        }
        match find(&self.entries, key) {
            Ok(at) => self.entries[at] = (key, value),
            Err(at) => self.entries.insert(at, (key, value))?,
        }
        Ok(())
    }

    /// Takes the entry at a key away, if there is one. It takes no memory.
    pub fn remove(&mut self, key: u32)
        ensures { self.new ≡ map.remove self.old key }
    {
        if let Ok(at) = find(&self.entries, key) {
            let _gone = self.entries.remove(at);
        }
    }

    /// The table with the values at these keys rounded outward, and all others as they are. A key may be given more
    /// than once.
    pub fn rounded_at(
        &self,
        alloc: Global,
        keys: &[u32],
        marks: &V::Marks,
    ) -> Result<Self, NoMemory>
        requires { V.is_marks marks.now }
        ensures { IfOk result (λ outer. outer ≡ selected_table (V.rounded marks.now) keys.now self.now) }
    {
        // The call tells that the entries are values.
        let _empty = self.is_nothing();
        let mut outer = self.copied(alloc)?;
        for key in keys {
            outer.round_entry(alloc, *key, marks)?;
        }
        Ok(outer)
    }

    // Rounds what stands at a key.
    fn round_entry(&mut self, alloc: Global, key: u32, marks: &V::Marks) -> Result<(), NoMemory>
        requires { V.is_marks marks.now }
        ensures { OnOk result (self.new ≡ selected_table (V.rounded marks.now) (key ∷ []) self.old) }
    {
        // The call tells that the entries are values.
        let _empty = self.is_nothing();
        let Some(value) = self.get(key) else {
            return Ok(());
        };
        let outer = value.round(alloc, marks)?;
        self.put(key, outer)
    }

    /// Joins a value to what stands at a key. True exactly where that rose; after want of memory the table is as
    /// before.
    pub fn join_at(&mut self, key: u32, value: &V) -> Result<bool, NoMemory>
        ensures nothing { OnOk result (V.nothing value.now → self.new ≡ self.old) }
        ensures joined { OnOk result ((V.nothing value.now → ⊥)
            → self.new ≡ with_entry V.joined self.old key value.now) }
        ensures rose { IfOk result (λ rose. MatchBool rose (self.new ≢ self.old) (self.new ≡ self.old)) }
        ensures err { OnErr result (self.new ≡ self.old) }
    {
        if value.is_nothing() {
            return Ok(false);
        }
        let alloc = *self.entries.allocator();
        match find(&self.entries, key) {
            Ok(at) => {
                let before = &self.entries[at].1;
                if value.below(before) {
                    return Ok(false);
                }
                let joined = before.join(alloc, value)?;
                self.entries[at] = (key, joined);
            }
            Err(at) => {
                let first = value.copied(alloc)?;
                self.entries.insert(at, (key, first))?;
            }
        }
        Ok(true)
    }

    /// Whether each entry is below what stands at its key in the other table. It takes no memory.
    pub fn below(&self, other: &Keyed<V>) -> bool
        ensures { IsTrue result ↔ IsTableBelow V.leq self.now other.now }
    {
        Lattice::below(self, other)
    }
}

impl<V: Lattice> Lattice for Keyed<V> {
    ghost use Rattle.std.specs.FinMap as map;
    ghost use Rattle.tm_lattice.specs.Tables.{IsTable, IsTableBelow, joined_table, rounded_table};
    ghost use Rattle.tm_lattice.specs.laws.TableLaws.{table_order, table_join, table_closure, table_nothing};

    type Marks = V::Marks;

    ghost is_value = { IsTable V.is_value V.nothing };

    ghost is_marks = { V.is_marks };

    ghost leq = { IsTableBelow V.leq };

    ghost joined = { joined_table V.joined };

    ghost rounded = { λ marks. rounded_table (V.rounded marks) };

    ghost nothing = { λ t. t ≡ map.empty };

    fn is_nothing(&self) -> bool {
        self.entries.is_empty()
    }

    fn below(&self, other: &Self) -> bool {
        let (one, other) = (self.entries.as_slice(), other.entries.as_slice());
        let mut i = 0;
        let mut j = 0;
        while let Some(order) = first_of(one, i, other, j) {
            match order {
                Ordering::Less => return false,
                Ordering::Equal => {
                    if !one[i].1.below(&other[j].1) {
                        return false;
                    }
                    i += 1;
                    j += 1;
                }
                Ordering::Greater => j += 1,
            }
        }
        true
    }

    fn join(&self, alloc: Global, other: &Self) -> Result<Self, NoMemory> {
        let mut both = Vec::new(alloc);
        let (one, other) = (self.entries.as_slice(), other.entries.as_slice());
        let mut i = 0;
        let mut j = 0;
        while let Some(order) = first_of(one, i, other, j) {
            match order {
                Ordering::Less => {
                    push_entry(&mut both, one[i].0, one[i].1.copied(alloc))?;
                    i += 1;
                }
                Ordering::Equal => {
                    push_entry(&mut both, one[i].0, one[i].1.join(alloc, &other[j].1))?;
                    i += 1;
                    j += 1;
                }
                Ordering::Greater => {
                    push_entry(&mut both, other[j].0, other[j].1.copied(alloc))?;
                    j += 1;
                }
            }
        }
        Ok(Keyed { entries: both })
    }

    fn round(&self, alloc: Global, marks: &V::Marks) -> Result<Self, NoMemory> {
        let mut entries = Vec::with_capacity(alloc, self.entries.len())?;
        for (key, value) in &self.entries {
            entries.push((*key, value.round(alloc, marks)?))?;
        }
        Ok(Keyed { entries })
    }

    fn copied(&self, alloc: Global) -> Result<Self, NoMemory> {
        let mut entries = Vec::with_capacity(alloc, self.entries.len())?;
        for (key, value) in &self.entries {
            entries.push((*key, value.copied(alloc)?))?;
        }
        Ok(Keyed { entries })
    }

    ghost order = { table_order V.is_value V.is_marks V.leq V.joined V.rounded V.nothing V.order V.join_laws V.closure
        V.nothing_laws };

    ghost join_laws = { table_join V.is_value V.is_marks V.leq V.joined V.rounded V.nothing V.order V.join_laws
        V.closure V.nothing_laws };

    ghost closure = { table_closure V.is_value V.is_marks V.leq V.joined V.rounded V.nothing V.order V.join_laws
        V.closure V.nothing_laws };

    ghost nothing_laws = { table_nothing V.is_value V.is_marks V.leq V.joined V.rounded V.nothing V.order V.join_laws
        V.closure V.nothing_laws };
}

// Where the key stands, or where it would go.
fn find<V>(entries: &[(u32, V)], key: u32) -> Result<usize, usize>
    requires { T (map.is_sorted nat_cmp entries.now) }
    ensures found { IfOk result (IsAt entries.now key) }
    ensures absent { IfErr result (IsGapFor entries.now key) }
{
    entries.binary_search_by_key(&key, |entry| entry.0)
}

// The place of the first entry whose key is at least this one, or the length where there is none.
fn place_from<V>(entries: &[(u32, V)], key: u32) -> usize
    requires { T (map.is_sorted nat_cmp entries.now) }
    ensures { IsFirstFrom entries.now key result }
{
    match find(entries, key) {
        Ok(at) => at,
        Err(at) => at,
    }
}

// How the key at i in the one list stands to that at j in the other, where a key past the end is the greatest.
fn first_of<V>(one: &[(u32, V)], i: usize, other: &[(u32, V)], j: usize) -> Option<Ordering>
    ensures { result ≡ order_of_first (drop i one.now) (drop j other.now) }
{
    match (one.get(i), other.get(j)) {
        (None, None) => None,
        (Some(_), None) => Some(Ordering::Less),
        (None, Some(_)) => Some(Ordering::Greater),
        (Some(a), Some(b)) => Some(a.0.cmp(&b.0)),
    }
}

// Adds an entry, if its value has come.
fn push_entry<V: Drop>(
    entries: &mut Vec<(u32, V)>,
    key: u32,
    value: Result<V, NoMemory>,
) -> Result<(), NoMemory>
    ensures { OnOk result (IsPushed entries.old.items key value entries.new.items) }
{
    match value {
        Ok(value) => {
            entries.push((key, value))?;
            Ok(())
        }
        Err(refused) => Err(refused),
    }
}
