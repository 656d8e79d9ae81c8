//! A loop that counts up, as a system of equations and as a program.
ghost use Rattle.std.specs.Prelude.{◌≡◌, ◌≤◌, min, max, IfOk};
ghost use Rattle.engine_tests.specs.Loops.{loop_pass};

use edge_contributions::joined_contributions;
use least_tables::{Analysed, Settled, least_table};
use std::alloc::Global;
use std::marker::Model;
use table_covers::{Contributions, Equations, Link};
use tm_lattice::{Lattice, NoMemory, Passer};

/// How far the loop has counted.
#[derive(Clone, Copy)]
pub struct Level(pub u8);

impl Model for Level {
    ghost use Rattle.std.specs.Prelude.{ℕ};

    ghost Value = { ℕ };

    ghost view = { λ a. a.0 };

    ghost inverse = { λ n. record { 0 = n } };
}

impl Level {
    /// The number that it is.
    pub fn number(&self) -> u8
        ensures { result ≡ self.now }
    {
        self.0
    }
}

impl Lattice for Level {
    ghost use Rattle.engine_tests.specs.Loops.{IsLevel, IsLower};
    ghost use Rattle.engine_tests.specs.LoopLaws.{level_order, level_join, level_closure, level_nothing};

    type Marks = u8;

    ghost is_value = { IsLevel };

    ghost is_marks = { λ _. Unit {0} };

    ghost leq = { IsLower };

    ghost joined = { max };

    ghost rounded = { λ m v. max v m };

    ghost nothing = { λ _. ⊥ };

    fn is_nothing(&self) -> bool {
        false
    }

    fn below(&self, other: &Self) -> bool {
        self.0 <= other.0
    }

    fn join(&self, _alloc: Global, other: &Self) -> Result<Self, NoMemory> {
        Ok(Level(self.0.max(other.0)))
    }

    fn round(&self, _alloc: Global, marks: &u8) -> Result<Self, NoMemory> {
        Ok(Level(self.0.max(*marks)))
    }

    fn copied(&self, _alloc: Global) -> Result<Self, NoMemory> {
        Ok(*self)
    }

    ghost order = { level_order };

    ghost join_laws = { level_join };

    ghost closure = { level_closure };

    ghost nothing_laws = { level_nothing };
}

static LINKS: [Link; 3] = [
    Link { from: 0, to: 1 },
    Link { from: 1, to: 2 },
    Link { from: 2, to: 1 },
];

/// The loop, with the mark up to which its head is rounded.
#[derive(Drop)]
pub struct CountingLoop {
    pub mark: u8,
}

impl Model for CountingLoop {
    ghost use Rattle.std.specs.Prelude.{ℕ};

    ghost Value = { ℕ };

    ghost view = { λ a. a.mark };
}

impl CountingLoop {
    /// The mark, at most 9.
    pub fn mark(&self) -> u8
        ensures { result ≡ min self.now 9 }
    {
        self.mark.min(9)
    }
}

/// The loop over a store.
#[derive(Clone, Copy)]
pub struct LoopOver<'a> {
    pub program: &'a CountingLoop,
    pub store: &'a Level,
}

impl<'a> Equations for LoopOver<'a> {
    ghost use Rattle.engine_tests.specs.Loops.{suits, loop_system};
    ghost use Rattle.engine_tests.specs.LoopLaws.{loop_lawful};

    type State = Level;

    ghost is_system = { λ s. Unit {0} };

    ghost system_of = { λ s. loop_system s.program.now s.store.now };

    ghost fits = { λ s. suits };

    fn links(&self) -> &[Link] {
        &LINKS
    }

    fn nodes(&self) -> usize {
        3
    }

    fn first(&self, _alloc: Global) -> Result<Option<Level>, NoMemory> {
        Ok(Some(Level(0)))
    }

    fn is_head(&self, node: usize) -> bool {
        node == 1
    }

    fn apply(
        &self,
        _alloc: Global,
        _edge: usize,
        state: &Level,
    ) -> Result<Option<Level>, NoMemory> {
        let sum = u16::from(state.number()) + u16::from(self.store.number());
        Ok(Some(Level(if sum < 9 { sum as u8 } else { 9 })))
    }

    fn rounded(&self, _alloc: Global, node: usize, state: Level) -> Result<Level, NoMemory> {
        if node == 1 {
            Ok(Level(state.number().max(self.program.mark())))
        } else {
            Ok(state)
        }
    }

    ghost lawful = { λ s is. loop_lawful s.program.now s.store.now };
}

impl<'a> Contributions for LoopOver<'a> {
    type Added = Level;

    ghost nothing_added = { λ s. 0 };

    ghost contributed = { λ s e v. v };

    fn none(&self, _alloc: Global) -> Result<Level, NoMemory> {
        Ok(Level(0))
    }

    fn contribution(&self, _alloc: Global, _edge: usize, state: &Level) -> Result<Level, NoMemory> {
        Ok(*state)
    }
}

/// What a pass of the loop adds, and how many edges were applied for its table.
pub fn passed(alloc: Global, system: &LoopOver<'_>) -> Result<(Level, u64), NoMemory>
    ensures { IfOk result (λ found. found.0 ≡ loop_pass system.now.program.now system.now.store.now) }
{
    let Settled { table, visits } = least_table(alloc, system)?;
    let added = joined_contributions(alloc, system, &table, &[])?;
    Ok((added, visits))
}

impl Passer for CountingLoop {
    ghost use Rattle.engine_tests.specs.Loops.{loop_pass};
    ghost use Rattle.engine_tests.specs.LoopLaws.{loop_fitting, loop_bottom, loop_rises};

    type Store = Level;

    ghost is_program = { λ _. Unit {0} };

    ghost task_count = { λ _. 1 };

    ghost marks_of = { λ _. 0 };

    ghost least = { λ _. 0 };

    ghost passed = { λ m t s. loop_pass m s };

    ghost fits = { λ _ s. s ≤ 9 };

    fn tasks(&self) -> u32 {
        1
    }

    fn same(&self, other: &Self) -> bool {
        self.mark == other.mark
    }

    fn marks(&self) -> &u8 {
        &0
    }

    fn bottom(&self, _alloc: Global) -> Result<Level, NoMemory> {
        Ok(Level(0))
    }

    fn pass(&self, alloc: Global, _task: u32, store: &Level) -> Result<Level, NoMemory> {
        let system = LoopOver {
            program: self,
            store,
        };
        let (added, _visits) = passed(alloc, &system)?;
        Ok(added)
    }

    ghost fitting = { λ m is. loop_fitting m };

    ghost bottom_laws = { λ m is. loop_bottom m };

    ghost monotone = { λ m is. loop_rises m };
}

impl Analysed for CountingLoop {
    ghost use Rattle.std.specs.Prelude.{Some};
    ghost use Rattle.engine_tests.specs.Loops.{loop_links, raised_by, rounded_if, is_head, suits, loop_table};
    ghost use Rattle.engine_tests.specs.LoopLaws.{loop_whole};

    type State = Level;

    type Before = ();

    ghost nodes = { λ _ t. 3 };

    ghost links_of = { λ _ t. loop_links };

    ghost after = { λ _ t s e v. Some (raised_by s v) };

    ghost entry = { λ _ _ t. Some 0 };

    ghost outward = { λ m t n. rounded_if (is_head n) m };

    ghost heads = { λ _ t. is_head };

    ghost suits = { λ _ t. suits };

    ghost height = { λ v. v };

    ghost limit = { λ _ t n. 9 };

    ghost added = { λ _ t s e v. v };

    ghost is_before = { λ _ _. Unit {0} };

    ghost precedes = { λ _ _ _. Unit {0} };

    ghost before = { λ _. tt };

    ghost table_of = { λ m t s. loop_table m s };

    ghost whole = { λ m is. loop_whole m };
}
