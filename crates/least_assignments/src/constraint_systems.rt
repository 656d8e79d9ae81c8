//! Systems of constraints over variables.
ghost use Rattle.std.specs.Prelude.{◌≡◌, ◌<◌, ℕ, Option, None, length, IfOk, MatchOption, slice_index_or, true};
ghost use Rattle.least_assignments.specs.Constraints.{Constraints, AreLawful, AreFitting, at, target_count};

use std::alloc::Global;
use tm_lattice::{Lattice, NoMemory};

/// A system of constraints: what stands at a variable is the join of what constraints bring there, rounded. No value is
/// bottom.
pub trait ConstraintSystem: Sized {
    /// What stands at a variable.
    type Value: Lattice + Drop;

    // Holds of every value of the type: the laws speak of these.
    ghost is_system: { Self → Type 0 };

    // The constraints.
    ghost system_of: { Self → Constraints Self.Value };

    // Which values fit a variable.
    ghost fits: { Self → ℕ → Self.Value → Type 0 };

    // At which assignments a constraint may be applied.
    ghost allows: { Self → ℕ → (ℕ → Option Self.Value) → Type 0 };

    /// How many variables there are. They are numbered from 0.
    fn variables(&self) -> usize
        ensures system { is_system self.now }
        ensures variables { result ≡ (system_of self.now).variable_count };

    /// How many constraints there are. They are numbered from 0.
    fn constraints(&self) -> usize
        ensures { result ≡ (system_of self.now).constraint_count };

    /// From which number on constraints are urgent: such as those that only hand a value on, in long chains. They are
    /// applied before all others, and the others by their numbers.
    fn first_urgent(&self) -> usize;

    /// The variables to which a constraint brings values.
    fn targets(&self, constraint: usize) -> &[usize]
        requires { constraint < (system_of self.now).constraint_count }
        ensures { result.now ≡ (system_of self.now).targets constraint };

    /// All constraints that read a variable, and maybe others.
    fn readers(&self, variable: usize) -> &[usize]
        requires { variable < (system_of self.now).variable_count }
        ensures within { (j : ℕ) → j < length result.now
            → slice_index_or result.now j 0 < (system_of self.now).constraint_count }
        ensures all { (k : ℕ) → k < (system_of self.now).constraint_count
            → (system_of self.now).reads k variable ≡ true
            → (j : ℕ) × ((j < length result.now) × (slice_index_or result.now j 0 ≡ k)) };

    /// What a constraint brings to each of its targets, where None is bottom. None where it may not be applied to these
    /// values.
    fn apply(
        &self,
        alloc: Global,
        constraint: usize,
        values: &[Option<Self::Value>],
    ) -> Result<Option<Vec<Option<Self::Value>>>, NoMemory>
        requires constraint { constraint < (system_of self.now).constraint_count }
        requires variables { length values.now ≡ (system_of self.now).variable_count }
        requires fits { AreFitting (system_of self.now) (fits self.now) (at values.now) }
        ensures refused { IfOk result (λ brought. MatchOption brought
            (allows self.now constraint (at values.now) → ⊥) (λ all. allows self.now constraint (at values.now))) }
        ensures targets { IfOk result (λ brought. MatchOption brought (Unit {0})
            (λ all. length all.items ≡ target_count (system_of self.now) constraint)) }
        ensures brought { IfOk result (λ brought. MatchOption brought (Unit {0})
            (λ all. (j : ℕ) → j < target_count (system_of self.now) constraint
            → slice_index_or all.items j None ≡ (system_of self.now).gives constraint (at values.now) j)) };

    /// The value rounded as at a variable.
    fn rounded(
        &self,
        alloc: Global,
        variable: usize,
        value: Self::Value,
    ) -> Result<Self::Value, NoMemory>
        requires variable { variable < (system_of self.now).variable_count }
        requires fits { fits self.now variable value }
        ensures { IfOk result (λ outer. outer ≡ (system_of self.now).outward variable value) };

    // What all of this keeps.
    ghost lawful: { (system : Self) → is_system system
        → AreLawful Self.Value.is_value Self.Value.leq Self.Value.joined (fits system) (allows system)
        (system_of system) };
}
