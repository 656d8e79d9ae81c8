//! Laws of shapes.
ghost use Rattle.std.specs.Prelude.{◌≡◌, ℕ, ◌<◌};
ghost use Rattle.tm_soundness.specs.Numbered.{TaskOf};
ghost use Rattle.program_shape.specs.Shape.{number_of};

/// The tasks of a program have the numbers below their count, each its own.
pub fn tasks_have_numbers()
    ensures below { (n : ℕ) (i : TaskOf n) → number_of n i < n }
    ensures one { (n : ℕ) (i j : TaskOf n) → number_of n i ≡ number_of n j → i ≡ j }
    ensures all { (n k : ℕ) → k < n → (i : TaskOf n) × (number_of n i ≡ k) }
{}
