//! The laws of the rounds and the histories of every program. They speak of definitions alone: no call is made.
ghost use Rattle.std.specs.Prelude.{◌≡◌, ◌+◌, ℕ, List, ◌∷◌, length};
ghost use Rattle.tm_lattice.specs.Rounds.{up, IsHistory, IsClosed};

use crate::passers::Passer;

/// The rounds of a program fit it, and rise. A round that adds nothing is followed by none that does. A closed store
/// lies above every round.
pub fn rounds_climb<P: Passer>()
    ensures fit { (program : P) (k : ℕ) → P.is_program program
        → P.fits program (up P.Store.Lattice P.Passer program k) }
    ensures rise { (program : P) (k more : ℕ) → P.is_program program
        → P.Store.leq (up P.Store.Lattice P.Passer program k) (up P.Store.Lattice P.Passer program (k + more)) }
    ensures stay { (program : P) (k more : ℕ) → P.is_program program
        → up P.Store.Lattice P.Passer program (k + 1) ≡ up P.Store.Lattice P.Passer program k
        → up P.Store.Lattice P.Passer program (k + more) ≡ up P.Store.Lattice P.Passer program k }
    ensures below_closed { (program : P) (store : P.Store) (k : ℕ) → P.is_program program
        → IsClosed P.Store.Lattice P.Passer program store → P.Store.leq (up P.Store.Lattice P.Passer program k) store }
{}

/// Whichever tasks publish, in whichever order and over whichever earlier stores: the newest store of a history fits
/// the program and lies below the round of the number of publications. If it is closed, it is that round, and no
/// round is higher. So all histories that end in a closed store end in one.
pub fn every_schedule<P: Passer>()
    ensures fits { (program : P) (newest : P.Store) (earlier : List P.Store) → P.is_program program
        → IsHistory P.Store.Lattice P.Passer program (newest ∷ earlier) → P.fits program newest }
    ensures below { (program : P) (newest : P.Store) (earlier : List P.Store) → P.is_program program
        → IsHistory P.Store.Lattice P.Passer program (newest ∷ earlier)
        → P.Store.leq newest (up P.Store.Lattice P.Passer program (length earlier)) }
    ensures settled { (program : P) (newest : P.Store) (earlier : List P.Store) (more : ℕ) → P.is_program program
        → IsHistory P.Store.Lattice P.Passer program (newest ∷ earlier)
        → IsClosed P.Store.Lattice P.Passer program newest
        → newest ≡ up P.Store.Lattice P.Passer program (length earlier + more) }
    ensures one_end { (program : P) (one other : P.Store) (before_one before_other : List P.Store)
        → P.is_program program
        → IsHistory P.Store.Lattice P.Passer program (one ∷ before_one) → IsClosed P.Store.Lattice P.Passer program one
        → IsHistory P.Store.Lattice P.Passer program (other ∷ before_other)
        → IsClosed P.Store.Lattice P.Passer program other
        → one ≡ other }
{}
