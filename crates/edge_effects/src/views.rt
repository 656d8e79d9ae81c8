//! What an edge does.
ghost use Rattle.std.specs.Prelude.{◌≡◌, []};
ghost use Rattle.interfere_set.specs.Stores.{no_interference};

use cell_env::State;
use edge_actions::Targets;
use interfere_set::Store;
use pointer_dom::AbsValue;
use std::alloc::Global;
use transfer_int::Classes;

/// What an edge does: the state where it leads, none where control does not go on; what it adds to the store; which
/// classes of errors it does not exclude; and which abstract cells it reaches.
#[derive(Drop)]
pub struct After {
    pub state: Option<State<AbsValue>>,
    pub added: Store,
    pub classes: Classes,
    pub targets: Targets,
}

/// What an edge does that reaches no cell and adds nothing to the store.
pub fn plain(alloc: Global, state: Option<State<AbsValue>>, classes: Classes) -> After
    ensures state { result.state ≡ state }
    ensures added { result.added ≡ no_interference }
    ensures classes { result.classes ≡ classes }
    ensures targets { result.targets.items ≡ [] }
{
    After {
        state,
        added: Store::new(alloc),
        classes,
        targets: Targets::new(alloc),
    }
}
