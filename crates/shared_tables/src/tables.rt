//! Tables that share all their entries until one of them changes.
ghost use Rattle.std.specs.Prelude.{◌≡◌, ◌≢◌, ◌↔◌, IsTrue, IfOk, OnOk, OnErr, MatchBool, MatchOption};
ghost use Rattle.std.specs.Option.{option_copied};
ghost use Rattle.std.specs.FinMap as map;
ghost use Rattle.tm_lattice.specs.Tables.{IsTableBelow, IsPast, IsNext, with_entry};

use std::alloc::Global;
use std::marker::Model;
use std::sync::Arc;
use tm_lattice::{Keyed, Lattice, NoMemory};

/// A finite table from numbers to values of a lattice, as a keyed table is, whose copies share the entries: one counted
/// pointer holds all of them, None where there was none yet. A copy takes constant time, a change copies the entries
/// once, and a join shares those of the side that is above the other, if one is.
#[derive(Drop)]
pub struct SharedTable<V: Lattice> {
    alloc: Global,
    entries: Option<Arc<Keyed<V>>>,
}

impl<V: Lattice> Model for SharedTable<V> {
    ghost use Rattle.std.specs.Arc.{arc_value};
    ghost use Rattle.std.specs.Coded.{coded_ℕ};
    ghost use Rattle.std.specs.FinMap as map;
    ghost use Rattle.std.specs.Option.{option_map};
    ghost use Rattle.std.specs.Ordering.{nat_cmp};
    ghost use Rattle.std.specs.Prelude.{unwrap_or};

    ghost Value = { map.FinMap nat_cmp V };

    ghost coded = { map.code coded_ℕ V.code };

    ghost view = { λ a. unwrap_or (option_map arc_value a.entries) map.empty };
}

impl<V: Lattice> SharedTable<V> {
    /// The table with no entry. It takes no memory.
    pub fn new(alloc: Global) -> Self
        ensures { result ≡ map.empty }
    {
        SharedTable {
            alloc,
            entries: None,
        }
    }

    /// What stands at a key: None exactly where the key is absent.
    pub fn get(&self, key: u32) -> Option<&V>
        ensures { option_copied result ≡ map.get self.now key }
    {
        match &self.entries {
            None => None,
            Some(entries) => entries.get(key),
        }
    }

    /// The entries, in the order of their keys.
    pub fn entries(&self) -> &[(u32, V)]
        ensures { result.now ≡ map.entries self.now }
    {
        match &self.entries {
            None => &[],
            Some(entries) => entries.entries(),
        }
    }

    /// The same as `get`, without a search where the key's entry has this number among the entries, counted from 0.
    pub fn get_near(&self, key: u32, number: usize) -> Option<&V>
        ensures { option_copied result ≡ map.get self.now key }
    {
        match &self.entries {
            None => None,
            Some(entries) => {
                let listed = entries.entries();
                if number < listed.len() && listed[number].0 == key {
                    return Some(&listed[number].1);
                }
                entries.get(key)
            }
        }
    }

    /// The entry with the least key of those from the given one on: None exactly where there is none.
    pub fn entry_from(&self, key: u32) -> Option<(u32, &V)>
        ensures { MatchOption result (IsPast self.now key) (λ entry. IsNext self.now key entry.0 entry.1.now) }
    {
        match &self.entries {
            None => None,
            Some(entries) => entries.entry_from(key),
        }
    }

    /// The same, without a search where the key is there and its entry has this number among the entries, counted
    /// from 0.
    pub fn entry_near(&self, key: u32, number: usize) -> Option<(u32, &V)>
        ensures { MatchOption result (IsPast self.now key) (λ entry. IsNext self.now key entry.0 entry.1.now) }
    {
        match self.get_near(key, number) {
            None => self.entry_from(key),
            Some(value) => Some((key, value)),
        }
    }

    /// Writes a value at a key: the key now has the value, or is absent where the value is nothing. After want of
    /// memory the table is as before.
    pub fn put(&mut self, key: u32, value: V) -> Result<(), NoMemory>
        ensures nothing { OnOk result (V.nothing value → self.new ≡ map.remove self.old key) }
        ensures written { OnOk result ((V.nothing value → ⊥) → self.new ≡ map.insert self.old key value) }
        ensures err { OnErr result (self.new ≡ self.old) }
    {
        if let Some(entries) = &mut self.entries {
            if let Some(own) = Arc::get_mut(entries) {
                return own.put(key, value);
            }
        }
        let mut own = self.own_entries()?;
        own.put(key, value)?;
        self.entries = Some(Arc::new(self.alloc, own)?);
        Ok(())
    }

    /// Takes the entry at a key away, if there is one. After want of memory the table is as before.
    pub fn remove(&mut self, key: u32) -> Result<(), NoMemory>
        ensures ok { OnOk result (self.new ≡ map.remove self.old key) }
        ensures err { OnErr result (self.new ≡ self.old) }
    {
        if let Some(entries) = &mut self.entries {
            if let Some(own) = Arc::get_mut(entries) {
                own.remove(key);
                return Ok(());
            }
        }
        let mut own = self.own_entries()?;
        own.remove(key);
        self.entries = Some(Arc::new(self.alloc, own)?);
        Ok(())
    }

    /// Joins a value to what stands at a key. True exactly where that rose; after want of memory the table is as
    /// before.
    pub fn join_at(&mut self, key: u32, value: &V) -> Result<bool, NoMemory>
        ensures nothing { OnOk result (V.nothing value.now → self.new ≡ self.old) }
        ensures joined { OnOk result
            ((V.nothing value.now → ⊥) → self.new ≡ with_entry V.joined self.old key value.now) }
        ensures rose { IfOk result (λ rose. MatchBool rose (self.new ≢ self.old) (self.new ≡ self.old)) }
        ensures err { OnErr result (self.new ≡ self.old) }
    {
        if let Some(entries) = &mut self.entries {
            if let Some(own) = Arc::get_mut(entries) {
                return own.join_at(key, value);
            }
        }
        let mut own = self.own_entries()?;
        let rose = own.join_at(key, value)?;
        self.entries = Some(Arc::new(self.alloc, own)?);
        Ok(rose)
    }

    /// An equal table, which shares the entries. It takes constant time.
    pub fn shared(&self) -> Result<Self, NoMemory>
        ensures { IfOk result (λ copy. copy ≡ self.now) }
    {
        self.copied(self.alloc)
    }

    // The entries as a keyed table, the given one where there are none.
    fn keyed<'a>(&'a self, none: &'a Keyed<V>) -> &'a Keyed<V>
        requires { none.now ≡ map.empty }
        ensures { result.now ≡ self.now }
    {
        match &self.entries {
            None => none,
            Some(entries) => &**entries,
        }
    }

    // A copy of the entries.
    fn own_entries(&self) -> Result<Keyed<V>, NoMemory>
        ensures { IfOk result (λ own. own ≡ self.now) }
    {
        let none = Keyed::new(self.alloc);
        self.keyed(&none).copied(self.alloc)
    }
}

impl<V: Lattice> Lattice for SharedTable<V> {
    ghost use Rattle.std.specs.FinMap as map;
    ghost use Rattle.tm_lattice.specs.Tables.{IsTable, IsTableBelow, joined_table, rounded_table};
    ghost use Rattle.tm_lattice.specs.laws.TableLaws.{table_order, table_join, table_closure, table_nothing};

    type Marks = V::Marks;

    ghost is_value = { IsTable V.is_value V.nothing };

    ghost is_marks = { V.is_marks };

    ghost leq = { IsTableBelow V.leq };

    ghost joined = { joined_table V.joined };

    ghost rounded = { λ marks. rounded_table (V.rounded marks) };

    ghost nothing = { λ t. t ≡ map.empty };

    fn is_nothing(&self) -> bool {
        match &self.entries {
            None => true,
            Some(entries) => entries.is_nothing(),
        }
    }

    fn below(&self, other: &Self) -> bool {
        match (&self.entries, &other.entries) {
            (None, _) => true,
            (Some(one), None) => one.is_nothing(),
            (Some(one), Some(other)) => Lattice::below(&**one, &**other),
        }
    }

    fn join(&self, alloc: Global, other: &Self) -> Result<Self, NoMemory> {
        let entries = match (&self.entries, &other.entries) {
            (None, None) => None,
            (None, Some(other)) => Some(Arc::try_clone(other)?),
            (Some(one), None) => Some(Arc::try_clone(one)?),
            (Some(one), Some(other)) => {
                let (left, right) = (&**one, &**other);
                // The calls tell that the entries are values.
                let _left = left.is_nothing();
                let _right = right.is_nothing();
                if Lattice::below(right, left) {
                    Some(Arc::try_clone(one)?)
                } else if Lattice::below(left, right) {
                    Some(Arc::try_clone(other)?)
                } else {
                    Some(Arc::new(alloc, left.join(alloc, right)?)?)
                }
            }
        };
        Ok(SharedTable { alloc, entries })
    }

    fn round(&self, alloc: Global, marks: &V::Marks) -> Result<Self, NoMemory> {
        let entries = match &self.entries {
            None => None,
            Some(entries) => Some(Arc::new(alloc, entries.round(alloc, marks)?)?),
        };
        Ok(SharedTable { alloc, entries })
    }

    fn copied(&self, alloc: Global) -> Result<Self, NoMemory> {
        let entries = match &self.entries {
            None => None,
            Some(entries) => Some(Arc::try_clone(entries)?),
        };
        Ok(SharedTable { alloc, entries })
    }

    ghost order = { table_order V.is_value V.is_marks V.leq V.joined V.rounded V.nothing
        V.order V.join_laws V.closure V.nothing_laws };

    ghost join_laws = { table_join V.is_value V.is_marks V.leq V.joined V.rounded V.nothing
        V.order V.join_laws V.closure V.nothing_laws };

    ghost closure = { table_closure V.is_value V.is_marks V.leq V.joined V.rounded V.nothing
        V.order V.join_laws V.closure V.nothing_laws };

    ghost nothing_laws = { table_nothing V.is_value V.is_marks V.leq V.joined V.rounded V.nothing
        V.order V.join_laws V.closure V.nothing_laws };
}
