//! The laws speak of definitions alone: no call is made.
ghost use Rattle.std.specs.Prelude.{◌<◌, ℕ, IfSome};
ghost use Rattle.sparse_tables.specs.Fronts.{AreLeast};
ghost use Rattle.least_assignments.specs.Constraints.{Assignment, AreLawful};
ghost use Rattle.least_assignments.specs.Solutions.{IsLeast, AreAllowed};
ghost use Rattle.front_constraints.specs.declared.standings.Standing.{Standing};
ghost use Rattle.front_constraints.specs.Standings.{HasParts, IsStandingBelow, joined_standing, standings};
ghost use Rattle.front_constraints.specs.Systems.{nodes, parts_of};
ghost use Rattle.front_constraints.specs.Rules.{front_constraints, FitsVariable, Allows, fronts_of};
ghost use Rattle.front_constraints.specs.Premises.{IsKeptFront, IsRoundCell};

use crate::front_systems::FrontSystem;

/// The constraints of fronts and slots are lawful. Their least assignment, where each constraint is allowed and fronts
/// are kept, is the least of the fronts and slots that are met.
pub fn least_fronts<S: FrontSystem>()
    ensures lawful { (system : S) → S.is_system system
        → AreLawful (HasParts S.Front.is_value S.Cell.is_value) (IsStandingBelow S.Front.leq S.Cell.leq)
        (joined_standing S.Front.joined S.Cell.joined)
        (FitsVariable (S.system_of system) (S.fits_front system) (S.fits_cell system))
        (Allows (S.system_of system) (S.checks system)) (front_constraints (S.system_of system)) }
    ensures least { (system : S) → S.is_system system → (a : Assignment (Standing S.Front S.Cell))
        → IsLeast (standings S.Front.Lattice S.Cell.Lattice)
        (FitsVariable (S.system_of system) (S.fits_front system) (S.fits_cell system))
        (Allows (S.system_of system) (S.checks system)) (front_constraints (S.system_of system)) a
        → AreAllowed (standings S.Front.Lattice S.Cell.Lattice)
        (FitsVariable (S.system_of system) (S.fits_front system) (S.fits_cell system))
        (Allows (S.system_of system) (S.checks system)) (front_constraints (S.system_of system)) a
        → ((n : ℕ) → n < nodes (S.system_of system)
        → IfSome ((fronts_of (S.system_of system) a).front_of n) (S.keeps system n))
        → AreLeast S.State.Lattice (S.fits system) (S.system_of system).equations
        (parts_of (S.system_of system) S.Front.Lattice S.Cell.Lattice) (S.system_of system).place
        (S.system_of system).is_cell
        (IsKeptFront S.State.Lattice S.Front.Lattice S.Cell.Lattice (S.fits system) (S.fits_front system)
        (S.fits_cell system) (S.system_of system) (S.keeps system))
        (IsRoundCell S.State.Lattice S.Front.Lattice S.Cell.Lattice (S.fits system) (S.fits_front system)
        (S.fits_cell system) (S.system_of system)) (fronts_of (S.system_of system) a) }
{}
