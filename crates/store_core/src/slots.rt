//! What the core keeps for each task.
ghost use Rattle.std.specs.Prelude.{◌≡◌, ◌↔◌, ◌^◌, ◌<◌, ◌⊎◌, ℕ, Some, None, true, false, length, replicate, get_or};
ghost use Rattle.std.specs.Prelude.{IfSome, IfOk, IfNone, IsTrue, IsFalse, ◌≤◌};
ghost use Rattle.store_core.specs.Turns.{unread_from};

use std::alloc::{AllocError, Global};

// What the core keeps for one task: whether it is lent, the version that its last publication had read, and what the
// pass of that publication has kept, which goes out with the task.
#[derive(Drop)]
pub struct Slot<K> {
    pub lent: bool,
    pub seen: Option<u64>,
    pub kept: Option<K>,
}

impl<K> Slot<K> {
    // Whether the task is neither lent nor settled at this version.
    pub fn is_free(&self, version: u64) -> bool
        ensures { IsTrue result ↔ ((self.now.lent ≡ false) × (self.now.seen ≡ Some version → ⊥)) }
    {
        !self.lent && self.seen != Some(version)
    }

    // Whether the reading of this task is older than that of the other one.
    pub fn is_older(&self, other: &Slot<K>) -> bool
        ensures { IsTrue result ↔ unread_from self.now.seen < unread_from other.now.seen }
    {
        match (self.seen, other.seen) {
            (_, None) => false,
            (None, Some(_)) => true,
            (Some(own), Some(others)) => own < others,
        }
    }

    // Lends the task: what was kept goes out with it.
    pub fn lend(&mut self) -> Option<K>
        ensures slot { self.new ≡ record { lent = true; seen = self.old.seen; kept = None } }
        ensures kept { result ≡ self.old.kept }
    {
        self.lent = true;
        self.kept.take()
    }
}

// Whether the task comes before the one that was found, where one was: its reading is older.
fn comes_before<K>(slots: &[Slot<K>], task: usize, found: Option<u32>) -> bool
    requires task { task < length slots.now }
    requires found { IfSome found (λ other. other < length slots.now) }
    ensures { (d : _) → IsTrue result ↔ IfSome found (λ other.
        unread_from (get_or slots.now task d).seen < unread_from (get_or slots.now other d).seen) }
{
    match found {
        Some(other) => slots[task].is_older(&slots[other as usize]),
        None => true,
    }
}

// The free task whose reading is the oldest; of several such, the one of the lowest number.
pub fn first_free<K>(slots: &[Slot<K>], version: u64) -> Option<u32>
    requires { length slots.now < 2 ^ 32 }
    ensures some { IfSome result (λ task. (task < length slots.now)
        × ((d : _) → (get_or slots.now task d).lent ≡ false)
        × ((d : _) → (get_or slots.now task d).seen ≡ Some version → ⊥)) }
    ensures first { IfSome result (λ task. (other : ℕ) (d : _) → other < length slots.now
        → (get_or slots.now other d).lent ≡ false → ((get_or slots.now other d).seen ≡ Some version → ⊥)
        → (unread_from (get_or slots.now task d).seen ≤ unread_from (get_or slots.now other d).seen)
        × (unread_from (get_or slots.now other d).seen ≡ unread_from (get_or slots.now task d).seen → task ≤ other)) }
    ensures none { IfNone result ((task : ℕ) (d : _) → task < length slots.now
        → ((get_or slots.now task d).lent ≡ true) ⊎ ((get_or slots.now task d).seen ≡ Some version)) }
{
    let mut first = None;
    for task in 0..slots.len() {
        if slots[task].is_free(version) && comes_before(slots, task, first) {
            first = Some(task as u32);
        }
    }
    first
}

// Whether some task is lent.
pub fn any_lent<K>(slots: &[Slot<K>]) -> bool
    ensures some { IsTrue result
        → ((task : ℕ) × (task < length slots.now) × ((d : _) → (get_or slots.now task d).lent ≡ true)) }
    ensures none { IsFalse result
        → ((task : ℕ) (d : _) → task < length slots.now → (get_or slots.now task d).lent ≡ false) }
{
    for slot in slots {
        if slot.lent {
            return true;
        }
    }
    false
}

// So many tasks of which nothing was published.
pub fn fresh_slots<K: Drop>(alloc: Global, count: u32) -> Result<Vec<Slot<K>>, AllocError>
    ensures { IfOk result (λ slots. slots.items ≡ replicate count (record { lent = false; seen = None; kept = None })) }
{
    let mut slots = Vec::new(alloc);
    for _ in 0..count {
        slots.push(Slot {
            lent: false,
            seen: None,
            kept: None,
        })?;
    }
    Ok(slots)
}
