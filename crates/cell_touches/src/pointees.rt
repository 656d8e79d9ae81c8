//! To which objects temporaries and cells may point, as far as it was found.

use indexmap::IndexSet;
use std::alloc::Global;
use tm_lattice::NoMemory;

/// That a holder may point to an object.
#[derive(Clone, Copy)]
pub(crate) struct Fact {
    pub(crate) holder: usize,
    pub(crate) object: u32,
}

/// For each holder the objects to which it may point. They only grow.
#[derive(Drop)]
pub(crate) struct Pointees {
    sets: Vec<IndexSet<u32>>,
    // All that was put, in order.
    facts: Vec<Fact>,
}

/// No objects for each of so many holders.
pub(crate) fn no_pointees(alloc: Global, holders: usize) -> Result<Pointees, NoMemory> {
    let mut sets = Vec::new(alloc);
    for _ in 0..holders {
        sets.push(IndexSet::new(alloc))?;
    }
    Ok(Pointees {
        sets,
        facts: Vec::new(alloc),
    })
}

impl Pointees {
    /// A holder may point to an object.
    pub(crate) fn put(&mut self, holder: usize, object: u32) -> Result<(), NoMemory> {
        if let Some(set) = self.sets.get_mut(holder) {
            if set.insert(object)? {
                self.facts.push(Fact { holder, object })?;
            }
        }
        Ok(())
    }

    /// What was put at this turn, counted from 0.
    pub(crate) fn fact(&self, turn: usize) -> Option<Fact> {
        self.facts.get(turn).copied()
    }

    /// The objects of a holder.
    pub(crate) fn objects(&self, holder: usize) -> &[u32] {
        match self.sets.get(holder) {
            None => &[],
            Some(set) => set.as_slice(),
        }
    }

    /// One holder may point to whatever another may point to now.
    pub(crate) fn put_all(&mut self, from: usize, to: usize) -> Result<(), NoMemory> {
        for number in 0..self.objects(from).len() {
            if let Some(object) = self.objects(from).get(number).copied() {
                self.put(to, object)?;
            }
        }
        Ok(())
    }
}
