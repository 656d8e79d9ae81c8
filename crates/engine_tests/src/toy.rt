//! The toy: sets of numbers below four, and a program of two tasks over them.
ghost use Rattle.std.specs.Prelude.{◌≡◌, ◌↔◌, ◌<◌, true, IsTrue, IfOk, refl};
ghost use Rattle.engine_tests.specs.Sets.{IsSubset, union, whole_pairs, empty_set, added_numbers};
ghost use Rattle.engine_tests.specs.laws.SetLaws.{set_order, set_join, set_closure, set_nothing, added_grows};
ghost use Rattle.engine_tests.specs.laws.SetLaws.{empty_below};

use held_passes::HoldsTheFirst;
use std::alloc::Global;
use std::marker::Model;
use std::sync::Arc;
use tm_lattice::{Lattice, NoMemory, Passer, Warm};

// A set of numbers below four.
#[derive(Drop)]
pub struct Numbers {
    zero: bool,
    one: bool,
    two: bool,
    three: bool,
}

impl Model for Numbers {
    ghost use Rattle.engine_tests.specs.Sets.{NumberSet};

    ghost Value = { NumberSet };

    ghost view = { λ a. (a.zero, a.one, a.two, a.three) };
}

impl Numbers {
    pub fn new(zero: bool, one: bool, two: bool, three: bool) -> Numbers
        ensures { result ≡ (zero, one, two, three) }
    {
        Numbers {
            zero,
            one,
            two,
            three,
        }
    }

    pub fn same(&self, other: &Numbers) -> bool {
        self.below(other) & other.below(self)
    }
}

impl Lattice for Numbers {
    type Marks = ();

    ghost is_value = { λ _. Unit {0} };

    ghost is_marks = { λ _. Unit {0} };

    ghost leq = { IsSubset };

    ghost joined = { union };

    ghost rounded = { λ _. whole_pairs };

    ghost nothing = { λ s. s ≡ empty_set };

    fn is_nothing(&self) -> bool {
        !(self.zero | self.one | self.two | self.three)
    }

    fn below(&self, other: &Self) -> bool {
        (!self.zero | other.zero)
            & (!self.one | other.one)
            & (!self.two | other.two)
            & (!self.three | other.three)
    }

    fn join(&self, _alloc: Global, other: &Self) -> Result<Self, NoMemory> {
        Ok(Numbers::new(
            self.zero | other.zero,
            self.one | other.one,
            self.two | other.two,
            self.three | other.three,
        ))
    }

    fn round(&self, _alloc: Global, _marks: &()) -> Result<Self, NoMemory> {
        let low = self.zero | self.one;
        let high = self.two | self.three;
        Ok(Numbers::new(low, low, high, high))
    }

    fn copied(&self, _alloc: Global) -> Result<Self, NoMemory> {
        Ok(Numbers::new(self.zero, self.one, self.two, self.three))
    }

    ghost order = { set_order };

    ghost join_laws = { set_join };

    ghost closure = { set_closure };

    ghost nothing_laws = { set_nothing };
}

// Two tasks: task 0 adds 0 where `first` is set, task 1 adds 2 where it sees 0. A pass tells the gate, where there is
// one, that it computes; contracts see `first` alone.
#[derive(Drop)]
pub struct TwoTasks {
    first: bool,
    gate: Option<Arc<HoldsTheFirst>>,
}

impl Model for TwoTasks {
    ghost use Rattle.std.specs.Prelude.{Bool};

    ghost Value = { Bool };

    ghost view = { λ program. program.first };
}

impl TwoTasks {
    pub fn new(first: bool) -> TwoTasks
        ensures { result ≡ first }
    {
        TwoTasks { first, gate: None }
    }

    // Task 0 adds 0, and each pass tells the gate that it computes.
    pub fn told_to(gate: Arc<HoldsTheFirst>) -> TwoTasks
        ensures { result ≡ true }
    {
        TwoTasks {
            first: true,
            gate: Some(gate),
        }
    }

    // Tells the gate that a pass computes.
    fn tell(&self) {
        if let Some(gate) = &self.gate {
            gate.computes();
        }
    }
}

impl Passer for TwoTasks {
    type Store = Numbers;

    ghost is_program = { λ _. Unit {0} };

    ghost task_count = { λ _. 2 };

    ghost marks_of = { λ _. tt };

    ghost least = { λ _. empty_set };

    ghost passed = { added_numbers };

    ghost fits = { λ _ _. Unit {0} };

    fn tasks(&self) -> u32 {
        2
    }

    fn same(&self, other: &Self) -> bool {
        self.first == other.first
    }

    fn marks(&self) -> &() {
        &()
    }

    fn bottom(&self, _alloc: Global) -> Result<Numbers, NoMemory> {
        Ok(Numbers::new(false, false, false, false))
    }

    fn pass(&self, _alloc: Global, task: u32, store: &Numbers) -> Result<Numbers, NoMemory> {
        self.tell();
        if task == 0 {
            Ok(Numbers::new(self.first, false, false, false))
        } else {
            Ok(Numbers::new(false, false, store.zero, false))
        }
    }

    ghost fitting = { λ program is. record {
      marks_are = tt;
      value = λ s fits. tt;
      bottom_fits = tt;
      passed_fits = λ task s lt fits. tt;
      joined_fits = λ s t fits fits'. tt;
      rounded_fits = λ s fits. tt;
    } };

    ghost bottom_laws = { λ program is. record { below = empty_below; rounding = refl } };

    ghost monotone = { λ program is task s t lt fits fits' below. added_grows program task s t below };
}

// What a pass keeps: the store that it read, and how many passes of the task there were.
#[derive(Drop)]
pub struct Passed {
    over: Numbers,
    pub passes: u64,
}

impl Warm for TwoTasks {
    type Kept = Passed;

    ghost made = { λ program task kept. Unit {0} };

    ghost made_over = { λ kept. kept.over };

    fn cold(
        &self,
        alloc: Global,
        task: u32,
        store: &Arc<Numbers>,
    ) -> Result<(Passed, Numbers), NoMemory> {
        let added = self.pass(alloc, task, &**store)?;
        let over = store.copied(alloc)?;
        Ok((Passed { over, passes: 1 }, added))
    }

    fn warm(
        &self,
        alloc: Global,
        task: u32,
        kept: Passed,
        store: &Arc<Numbers>,
    ) -> Result<(Passed, Numbers), NoMemory> {
        let passes = kept.passes.saturating_add(1);
        drop(kept);
        let added = self.pass(alloc, task, &**store)?;
        let over = store.copied(alloc)?;
        Ok((Passed { over, passes }, added))
    }
}
