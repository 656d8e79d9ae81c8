//! Marks are replaced by the bodies for which they stand.
ghost use Rattle.std.specs.Prelude.{◌≡◌, ◌++◌, IfOk, OnOk, reverse};
ghost use Rattle.body_builder.specs.Fragments.{tree_in, called_edges, edges_of};

use crate::ends::End;
use crate::paths::Paths;
use body_builder::{Call, Fragment, Item};
use flow_graph::Edge;
use tm_lattice::NoMemory;

impl Paths<'_> {
    // The items of the body of a call.
    #[tactic(auto, using(crate::proofs::WaitingItems::of_call), unfolding(body_builder::specs::Fragments::so_far))]
    fn called(&self, call: Call) -> Result<Vec<Item>, NoMemory>
        ensures { IfOk result (λ items. edges_of (tree_in self.now.laid.now) items.items
            ≡ called_edges (tree_in self.now.laid.now) call) }
    {
        let mut to = Fragment {
            items: Vec::new(self.alloc),
            node: call.node,
            nodes: call.nodes,
            temps: call.temps,
        };
        self.build(&mut to, End::Function, call.path, call.depth)?;
        Ok(to.items)
    }

    #[tactic(auto, using(crate::proofs::WaitingItems::opened))]
    // The items of the body of a call, of which the first one is taken next, before those that wait.
    pub(crate) fn open(&self, waiting: &mut Vec<Item>, call: Call) -> Result<(), NoMemory>
        ensures { OnOk result (edges_of (tree_in self.now.laid.now) (reverse waiting.new.items)
            ≡ called_edges (tree_in self.now.laid.now) call
            ++ edges_of (tree_in self.now.laid.now) (reverse waiting.old.items)) }
    {
        let mut items = self.called(call)?;
        items.reverse();
        waiting.extend_from_slice(&items)?;
        Ok(())
    }

    /// The edges for which items stand. The last of those that wait is taken next; in the place of a call wait the
    /// items of its body. There are never so many items as the loop could take.
    pub(crate) fn expand(&self, items: Vec<Item>) -> Result<Vec<Edge>, NoMemory>
        ensures { IfOk result (λ edges. edges.items ≡ edges_of (tree_in self.now.laid.now) items.items) }
    {
        let mut edges = Vec::new(self.alloc);
        let mut waiting = items;
        waiting.reverse();
        for _ in 0..u64::MAX {
            match waiting.pop() {
                Some(Item::Edge(edge)) => edges.push(edge)?,
                Some(Item::Call(call)) => self.open(&mut waiting, call)?,
                None => return Ok(edges),
            }
        }
        Err(NoMemory)
    }
}
