//! The laws of least solutions. They speak of definitions alone: no call is made.
ghost use Rattle.std.specs.Prelude.{◌≡◌, ◌↔◌, ◌<◌, ℕ};
ghost use Rattle.tm_lattice.specs.Tables.{IsBelow};
ghost use Rattle.table_covers.specs.Solutions.{NodeTable, AreFitting, IsNodewiseBelow, IsCovered, IsClosedTable};
ghost use Rattle.table_covers.specs.Solutions.{IsLeastSolution, all_applied, least_of};

use crate::equations::Equations;

/// A node is covered exactly where applying all equations at once gives no more there. A closed table that lies below
/// every closed table is the least solution, and the least solution is closed. The equations applied again and again
/// from bottom end in the least solution, and two least solutions are equal at each node.
pub fn least_solutions<E: Equations>()
    ensures covered { (system : E) (table : NodeTable E.State) (n : ℕ) → E.is_system system
        → AreFitting E.State.Lattice (E.fits system) (E.system_of system) table → n < (E.system_of system).node_count
        → IsCovered E.State.Lattice (E.fits system) (E.system_of system) table n
        ↔ IsBelow E.State.leq (all_applied E.State.Lattice (E.fits system) (E.system_of system) table n) (table n) }
    ensures from_closed { (system : E) (table : NodeTable E.State) → E.is_system system
        → IsClosedTable E.State.Lattice (E.fits system) (E.system_of system) table
        → ((other : NodeTable E.State) → IsClosedTable E.State.Lattice (E.fits system) (E.system_of system) other
        → IsNodewiseBelow E.State.Lattice (E.fits system) (E.system_of system) table other)
        → IsLeastSolution E.State.Lattice (E.fits system) (E.system_of system) table }
    ensures is_closed { (system : E) (table : NodeTable E.State) → E.is_system system
        → IsLeastSolution E.State.Lattice (E.fits system) (E.system_of system) table
        → IsClosedTable E.State.Lattice (E.fits system) (E.system_of system) table }
    ensures exists { (system : E) → E.is_system system
        → IsLeastSolution E.State.Lattice (E.fits system) (E.system_of system)
        (least_of E.State.Lattice (E.fits system) (E.system_of system)) }
    ensures one { (system : E) (one other : NodeTable E.State) (n : ℕ) → E.is_system system
        → IsLeastSolution E.State.Lattice (E.fits system) (E.system_of system) one
        → IsLeastSolution E.State.Lattice (E.fits system) (E.system_of system) other
        → n < (E.system_of system).node_count → one n ≡ other n }
{}
