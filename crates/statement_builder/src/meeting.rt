//! Nodes where control comes together.
ghost use Rattle.std.specs.Prelude.{◌≡◌, OnOk};
ghost use Rattle.body_builder.specs.lowering.Built.{skips, meet, nowhere, close_loop};
ghost use Rattle.body_builder.specs.Fragments.{tree_in, so_far};
ghost use Rattle.statement_builder.specs.reading.Meeting.{with_edges};

use body_builder::{Fragment, Here, more};
use flow_graph::Operation;
use tm_lattice::NoMemory;

// Edges from these nodes to one.
#[tactic(auto, using(crate::proofs::Skips::skips_more, crate::proofs::Skips::skips_first, crate::proofs::Skips::skips_last))]
fn build_skips(
    here: &Here<'_>,
    to: &mut Fragment,
    from: &[u32],
    target: u32,
) -> Result<(), NoMemory>
    ensures { OnOk result (so_far (tree_in here.now.laid.now) to.new ≡ with_edges (skips from.now target)
        (so_far (tree_in here.now.laid.now) to.old)) }
{
    for node in from {
        here.edge(to, *node, target, Operation::Skip)?;
    }
    Ok(())
}

/// Control goes on at a new node to which no edge leads but those that are placed already.
pub(crate) fn nowhere(here: &Here<'_>, to: &mut Fragment) -> Result<(), NoMemory>
    ensures { OnOk result (so_far (tree_in here.now.laid.now) to.new ≡ nowhere
        (so_far (tree_in here.now.laid.now) to.old)) }
{
    let node = here.nodes(to);
    let temps = here.temps(to);
    let nodes = more(node, 1)?;
    here.go_on(to, node, nodes, temps);
    Ok(())
}

/// A node where control comes together from these.
pub fn meet_all(here: &Here<'_>, to: &mut Fragment, from: &[u32]) -> Result<(), NoMemory>
    ensures { OnOk result (so_far (tree_in here.now.laid.now) to.new ≡ meet from.now
        (so_far (tree_in here.now.laid.now) to.old)) }
{
    let target = here.nodes(to);
    build_skips(here, to, from, target)?;
    nowhere(here, to)
}

/// The way back to the head of a loop, and its exit, where control comes together from these.
#[tactic(auto, using(std::proofs::lemmas::List::append_assoc))]
pub(crate) fn close(
    here: &Here<'_>,
    to: &mut Fragment,
    head: u32,
    outs: &[u32],
) -> Result<(), NoMemory>
    ensures { OnOk result (so_far (tree_in here.now.laid.now) to.new ≡ close_loop head outs.now
        (so_far (tree_in here.now.laid.now) to.old)) }
{
    let node = here.node(to);
    here.edge(to, node, head, Operation::Skip)?;
    meet_all(here, to, outs)
}
