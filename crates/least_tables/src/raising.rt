//! One state brought to a node.
ghost use Rattle.std.specs.Prelude.{◌≡◌, ◌<◌, ℕ, length, Some, None, IfSome, IfOk, IsTrue, MatchBool, slice_set};
ghost use Rattle.std.specs.Prelude.{slice_index_or};
ghost use Rattle.tm_lattice.specs.Tables.{IsBelow, joined_value};

use std::alloc::Global;
use table_covers::Equations;
use tm_lattice::{Lattice, NoMemory};

/// What became of a node to which a state was brought.
#[derive(Clone, Copy)]
pub struct Raised {
    /// Whether the node was not at least that state, and so rose.
    pub rose: bool,
    /// Whether what stands there now is known to be no more than that state.
    pub is_taken: bool,
}

/// Joins a state to what stands at a node, and rounds there. Where the node was at least that state nothing changes.
/// `follows` says that the state is known to be at least what stands there: then nothing has to be joined.
pub fn bring<E: Equations>(
    alloc: Global,
    system: &E,
    table: &mut [Option<E::State>],
    node: usize,
    state: E::State,
    follows: bool,
) -> Result<Raised, NoMemory>
    requires system { E.is_system system.now }
    requires length { length table.old ≡ (E.system_of system.now).node_count }
    requires node { node < (E.system_of system.now).node_count }
    requires fits { E.fits system.now node state }
    requires stands { IfSome (slice_index_or table.old node None) (E.fits system.now node) }
    requires follows { IsTrue follows
        → IsBelow E.State.leq (slice_index_or table.old node None) (Some state) }
    ensures rose { IfOk result (λ raised. MatchBool raised.rose
        ((IsBelow E.State.leq (Some state) (slice_index_or table.old node None) → ⊥)
        × (table.new ≡ slice_set table.old node (Some ((E.system_of system.now).outward node
        (joined_value E.State.joined (slice_index_or table.old node None) state)))))
        ((table.new ≡ table.old) × IsBelow E.State.leq (Some state) (slice_index_or table.old node None))) }
    ensures taken { IfOk result (λ raised. IsTrue raised.is_taken
        → IsBelow E.State.leq (slice_index_or table.new node None) (Some state)) }
{
    let joined = match &table[node] {
        None => Joined {
            both: state,
            is_second: true,
        },
        Some(before) => {
            if state.below(before) {
                return Ok(Raised {
                    rose: false,
                    is_taken: false,
                });
            }
            joined_onto(alloc, before, state, follows)?
        }
    };
    let is_taken = joined.is_second && !system.is_head(node);
    table[node] = Some(system.rounded(alloc, node, joined.both)?);
    Ok(Raised {
        rose: true,
        is_taken,
    })
}

// The join of two states, and whether it is the second one.
#[derive(Drop)]
struct Joined<L: Lattice> {
    both: L,
    is_second: bool,
}

// The join of two states. Mostly the second has risen from the first, and is the join itself.
fn joined_onto<L: Lattice>(
    alloc: Global,
    before: &L,
    state: L,
    follows: bool,
) -> Result<Joined<L>, NoMemory>
    requires { IsTrue follows → L.leq before.now state }
    ensures joined { IfOk result (λ joined. joined.both ≡ L.joined before.now state) }
    ensures second { IfOk result (λ joined. IsTrue joined.is_second → joined.both ≡ state) }
{
    // The calls tell that both are values.
    let _before = before.is_nothing();
    let _state = state.is_nothing();
    if follows || before.below(&state) {
        return Ok(Joined {
            both: state,
            is_second: true,
        });
    }
    Ok(Joined {
        both: before.join(alloc, &state)?,
        is_second: false,
    })
}
