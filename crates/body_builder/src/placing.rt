//! Edges are placed.
ghost use Rattle.std.specs.Prelude.{◌≡◌, ◌+◌, suc, [], ◌∷◌, OnOk, IfOk};
ghost use Rattle.lowering.specs.Built.{edge, place, place_with, goto, meet};
ghost use Rattle.flow_graph.specs.Operations.{negated, opposite};
ghost use Rattle.body_builder.specs.Fragments.{tree_in, so_far};
ghost use Rattle.body_builder.specs.Placing.{with_edge, new_value, Gives, tested, Finds};

use crate::fragments::{Found, Fragment, Item};
use crate::here::Here;
use flow_graph::{Edge, Operation, Test};
use tm_cint::BinOp;
use tm_lattice::NoMemory;

impl Here<'_> {
    /// The present node.
    #[tactic(auto, unfolding(crate::specs::Fragments::so_far))]
    pub fn node(&self, to: &Fragment) -> u32
        ensures { result ≡ (so_far (tree_in self.now.laid.now) to.now).node }
    {
        to.node
    }

    /// How many nodes there are.
    #[tactic(auto, unfolding(crate::specs::Fragments::so_far))]
    pub fn nodes(&self, to: &Fragment) -> u32
        ensures { result ≡ (so_far (tree_in self.now.laid.now) to.now).nodes }
    {
        to.nodes
    }

    /// How many temporaries there are.
    #[tactic(auto, unfolding(crate::specs::Fragments::so_far))]
    pub fn temps(&self, to: &Fragment) -> u32
        ensures { result ≡ (so_far (tree_in self.now.laid.now) to.now).temps }
    {
        to.temps
    }

    /// An edge behind the others.
    #[tactic(auto, using(crate::proofs::Items::edge_behind), unfolding(crate::specs::Fragments::so_far))]
    pub fn edge(
        &self,
        to: &mut Fragment,
        from: u32,
        target: u32,
        op: Operation,
    ) -> Result<(), NoMemory>
        ensures { OnOk result (so_far (tree_in self.now.laid.now) to.new ≡ with_edge (edge from target op)
            (so_far (tree_in self.now.laid.now) to.old)) }
    {
        to.items.push(Item::Edge(Edge {
            from,
            to: target,
            op,
        }))?;
        Ok(())
    }

    /// Control goes on at a node, after which there are so many nodes and temporaries.
    #[tactic(auto, unfolding(crate::specs::Fragments::so_far))]
    pub fn go_on(&self, to: &mut Fragment, node: u32, nodes: u32, temps: u32)
        ensures { so_far (tree_in self.now.laid.now) to.new ≡ record {
          edges = (so_far (tree_in self.now.laid.now) to.old).edges;
          node = node;
          nodes = nodes;
          temps = temps;
        } }
    {
        to.node = node;
        to.nodes = nodes;
        to.temps = temps;
    }

    /// Control goes on at this node.
    pub fn goto(&self, to: &mut Fragment, node: u32)
        ensures { so_far (tree_in self.now.laid.now) to.new ≡ goto node (so_far (tree_in self.now.laid.now) to.old) }
    {
        let nodes = self.nodes(to);
        let temps = self.temps(to);
        self.go_on(to, node, nodes, temps);
    }

    /// An operation to a new node, after which there are so many temporaries.
    pub fn place_with(&self, to: &mut Fragment, temps: u32, op: Operation) -> Result<(), NoMemory>
        ensures { OnOk result (so_far (tree_in self.now.laid.now) to.new ≡ place_with temps op
            (so_far (tree_in self.now.laid.now) to.old)) }
    {
        let node = self.node(to);
        let target = self.nodes(to);
        let nodes = more(target, 1)?;
        self.edge(to, node, target, op)?;
        self.go_on(to, target, nodes, temps);
        Ok(())
    }

    /// An operation to a new node.
    pub fn place(&self, to: &mut Fragment, op: Operation) -> Result<(), NoMemory>
        ensures { OnOk result (so_far (tree_in self.now.laid.now) to.new ≡ place op
            (so_far (tree_in self.now.laid.now) to.old)) }
    {
        let temps = self.temps(to);
        self.place_with(to, temps, op)
    }

    /// An operation that gives a new temporary.
    #[tactic(auto, unfolding(crate::specs::Placing::new_value))]
    pub fn new_value(&self, to: &mut Fragment, op: Operation) -> Result<u32, NoMemory>
        ensures { IfOk result (λ t. Gives (new_value op (so_far (tree_in self.now.laid.now) to.old))
            (so_far (tree_in self.now.laid.now) to.new) t) }
    {
        let temp = self.temps(to);
        let temps = more(temp, 1)?;
        self.place_with(to, temps, op)?;
        Ok(temp)
    }

    /// A test and its opposite.
    #[tactic(auto, using(std::proofs::lemmas::List::append_assoc), unfolding(crate::specs::Placing::tested))]
    pub fn tested(&self, to: &mut Fragment, test: Test) -> Result<Found, NoMemory>
        ensures { IfOk result (λ x. Finds (tested test (so_far (tree_in self.now.laid.now) to.old))
            (so_far (tree_in self.now.laid.now) to.new) x) }
    {
        let node = self.node(to);
        let target = self.nodes(to);
        let temps = self.temps(to);
        let other = more(target, 1)?;
        let nodes = more(target, 2)?;
        self.edge(to, node, target, Operation::Assume { test })?;
        self.edge(
            to,
            node,
            other,
            Operation::Assume {
                test: opposite(test),
            },
        )?;
        self.go_on(to, target, nodes, temps);
        Ok(Found { temp: None, other })
    }

    /// Control comes together from two nodes.
    #[tactic(auto, using(std::proofs::lemmas::List::append_assoc))]
    pub fn meet_two(&self, to: &mut Fragment, one: u32, other: u32) -> Result<(), NoMemory>
        ensures { OnOk result (so_far (tree_in self.now.laid.now) to.new ≡ meet (one ∷ other ∷ [])
            (so_far (tree_in self.now.laid.now) to.old)) }
    {
        let target = self.nodes(to);
        let temps = self.temps(to);
        let nodes = more(target, 1)?;
        self.edge(to, one, target, Operation::Skip)?;
        self.edge(to, other, target, Operation::Skip)?;
        self.go_on(to, target, nodes, temps);
        Ok(())
    }
}

/// A number and so many more.
pub fn more(number: u32, by: u32) -> Result<u32, NoMemory>
    ensures { IfOk result (λ n. n ≡ number + by) }
{
    match number.checked_add(by) {
        Some(sum) => Ok(sum),
        None => Err(NoMemory),
    }
}

// The comparison that holds where this one does not.
fn negated(operator: BinOp) -> BinOp
    ensures { result ≡ negated operator }
{
    match operator {
        BinOp::Lt => BinOp::Ge,
        BinOp::Le => BinOp::Gt,
        BinOp::Gt => BinOp::Le,
        BinOp::Ge => BinOp::Lt,
        BinOp::Eq => BinOp::Ne,
        BinOp::Ne => BinOp::Eq,
        _ => operator,
    }
}

// The test that lets through what this one does not.
fn opposite(test: Test) -> Test
    ensures { result ≡ opposite test }
{
    match test {
        Test::Numbers {
            operator,
            of,
            left,
            right,
        } => Test::Numbers {
            operator: negated(operator),
            of,
            left,
            right,
        },
        Test::Pointers { equal, left, right } => Test::Pointers {
            equal: !equal,
            left,
            right,
        },
        Test::Truth { holds, value } => Test::Truth {
            holds: !holds,
            value,
        },
        Test::Case {
            holds,
            label,
            value,
        } => Test::Case {
            holds: !holds,
            label,
            value,
        },
    }
}
