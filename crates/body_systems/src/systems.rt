//! The equations of a body over a store.
ghost use Rattle.std.specs.Prelude.{◌≡◌, ◌<◌, length, option_map, IfOk};
ghost use Rattle.transfer_mem.specs.edge_actions.Edges.{action_at, around_of};
ghost use Rattle.transfer_mem.specs.edge_effects.Effects.{IsAfter};
ghost use Rattle.task_equations.specs.Bodies.{copy_at};
ghost use Rattle.task_equations.specs.Equations.{cells_at, around_along, action_along};
ghost use Rattle.task_equations.specs.Premises.{IsCopyOf};
ghost use Rattle.program_equations.specs.Systems.{FitsBody};
ghost use Rattle.body_systems.specs.Systems.{SystemOf, system_with, body_of, IsSystemOf, FitsTemps};
ghost use Rattle.body_systems.specs.Views.{IsViewOf};

use crate::facts::BodyFacts;
use crate::states::BodyState;
use cell_env::State;
use flow_graph::Graph;
use interfere_set::Store;
use mutex_configs::{ConfiguredGraph, EdgeCopy};
use pointer_dom::AbsValue;
use std::alloc::Global;
use std::marker::Model;
use strided_dom::Marks;
use table_covers::{Contributions, Equations, Link};
use tm_laid::Laid;
use tm_lattice::{Lattice, NoMemory};
use transfer_mem::{After, EdgeView, apply};

/// A body with all that its equations read: the layout, its number, the priorities, the thresholds, its graph, its
/// configured graph and their facts, the state in which it begins, and the store. They keep what the equations ask.
#[derive(Drop)]
pub struct BodyOverStore<'a> {
    laid: &'a Laid,
    // The number of the body, by which the store and the priorities know it.
    task: u32,
    priorities: &'a [u8],
    marks: &'a Marks,
    graph: &'a Graph,
    configured: &'a ConfiguredGraph,
    facts: &'a BodyFacts,
    entry: Option<&'a State<AbsValue>>,
    store: &'a Store,
}

impl<'a> Model for BodyOverStore<'a> {
    ghost use Rattle.std.specs.Prelude.{option_map};
    ghost use Rattle.tm_laid.specs.contracts.layouts.Laid as of_laid;
    ghost use Rattle.flow_graph.specs.contracts.graphs.Graph as of_graph;
    ghost use Rattle.mutex_configs.specs.contracts.nodes.ConfiguredGraph as of_configured;
    ghost use Rattle.body_systems.specs.contracts.facts.BodyFacts as of_facts;
    ghost use Rattle.body_systems.specs.Systems.{SystemOf, system_with, IsSystemOf};
    ghost use Rattle.body_systems.specs.laws.Codes.{system_code};

    ghost Value = { SystemOf };

    ghost coded = { system_code of_laid.the_row.coded of_graph.the_row.coded of_configured.the_row.coded
        of_facts.the_row.coded };

    ghost view = { λ a. system_with a.laid.now a.task a.priorities.now a.marks.now a.graph.now a.configured.now
        a.facts.now (option_map (λ s. s.now) a.entry) a.store.now };

    ghost invariant = { λ a. IsSystemOf (system_with a.laid.now a.task a.priorities.now a.marks.now a.graph.now
        a.configured.now a.facts.now (option_map (λ s. s.now) a.entry) a.store.now) };
}

impl<'a> BodyOverStore<'a> {
    /// The body with this number, which begins in the entry state, or not at all. Condition: it is a
    /// body of some sorts of temporaries, the entry state and the store fit it, and the body and all that write to the
    /// store have priorities.
    pub fn new(
        laid: &'a Laid,
        task: u32,
        priorities: &'a [u8],
        marks: &'a Marks,
        graph: &'a Graph,
        configured: &'a ConfiguredGraph,
        facts: &'a BodyFacts,
        entry: Option<&'a State<AbsValue>>,
        store: &'a Store,
    ) -> BodyOverStore<'a>
        requires { IsSystemOf (system_with laid.now task priorities.now marks.now graph.now configured.now facts.now
            (option_map (λ s. s.now) entry) store.now) }
        ensures { result ≡ system_with laid.now task priorities.now marks.now graph.now configured.now facts.now
            (option_map (λ s. s.now) entry.entry) store.now }
    {
        BodyOverStore {
            laid,
            task,
            priorities,
            marks,
            graph,
            configured,
            facts,
            entry,
            store,
        }
    }

    /// What a copy of an edge, by its number, does to a state over the store: the state where it leads, what it adds,
    /// the abstract cells that it reaches, and the classes of errors that it does not exclude. Condition: there is such
    /// a copy, and the state fits the node that it leaves.
    pub fn applied(
        &self,
        alloc: Global,
        copy: usize,
        state: &State<AbsValue>,
    ) -> Result<After, NoMemory>
        requires copy { copy < length self.now.configured.copies.items }
        requires fits { (let b = body_of self.now in let c = copy_at b copy in FitsBody b c.from state.now) }
        ensures { IfOk result (λ after. (let b = body_of self.now in let c = copy_at b copy in
            IsAfter (around_along b c) (action_along b c) state.now self.now.store after)) }
    {
        self.applied_to_part(alloc, copy, state)
    }

    /// The same for a state that says something of any cells, be they all or none: the operation finds nothing at the
    /// others. Condition: there is such a copy, and the temporaries of the state fit the node that it leaves.
    pub fn applied_to_part(
        &self,
        alloc: Global,
        copy: usize,
        state: &State<AbsValue>,
    ) -> Result<After, NoMemory>
        requires copy { copy < length self.now.configured.copies.items }
        requires fits { (let b = body_of self.now in let c = copy_at b copy in FitsTemps b c.from state.now) }
        ensures { IfOk result (λ after. (let b = body_of self.now in let c = copy_at b copy in
            IsAfter (around_along b c) (action_along b c) state.now self.now.store after)) }
    {
        apply(
            alloc,
            &self.view(self.configured.copies[copy]),
            state,
            self.store,
        )
    }

    /// The layout.
    pub fn laid(&self) -> &Laid
        ensures { result.now ≡ self.now.laid }
    {
        self.laid
    }

    /// The number of the body, by which the store and the priorities know it.
    pub fn task(&self) -> u32
        ensures { result ≡ self.now.task }
    {
        self.task
    }

    /// The thresholds.
    pub fn marks(&self) -> &Marks
        ensures { result.now ≡ self.now.marks }
    {
        self.marks
    }

    /// The configured graph: its nodes, and the copies of edges.
    pub fn configured(&self) -> &ConfiguredGraph
        ensures { result.now ≡ self.now.configured }
    {
        self.configured
    }

    /// What is computed once of the body.
    pub fn facts(&self) -> &BodyFacts
        ensures { result.now ≡ self.now.facts }
    {
        self.facts
    }

    /// The state in which the body begins; none where it does not.
    pub fn entry(&self) -> Option<&State<AbsValue>>
        ensures { option_map (λ s. s.now) result ≡ self.now.entry }
    {
        self.entry
    }

    /// The store that the equations read, which keep what they ask.
    pub fn store(&self) -> &Store
        ensures system { IsSystemOf self.now }
        ensures store { result.now ≡ self.now.store }
    {
        self.store
    }

    /// A copy of an edge, by its number, as an edge with the mutexes held and found free at the node that it leaves.
    /// Condition: there is such a copy.
    pub fn view_of(&self, copy: usize) -> EdgeView<'_>
        requires { copy < length self.now.configured.copies.items }
        ensures view { (let b = body_of self.now in IsViewOf self.now (copy_at b copy) result) }
        ensures around { (let b = body_of self.now in around_of result ≡ around_along b (copy_at b copy)) }
        ensures action { (let b = body_of self.now in action_at result ≡ action_along b (copy_at b copy)) }
    {
        self.view(self.configured.copies[copy])
    }

    /// The abstract cells that are rounded at a node; none where it is no head. Condition: there is such a node.
    pub fn cells_at(&self, node: usize) -> Option<&[u32]>
        requires { node < length self.now.configured.nodes.keys }
        ensures { option_map (λ cells. cells.now) result ≡ cells_at (body_of self.now) node }
    {
        self.facts
            .cells_rounded(self.configured.nodes.as_slice()[node].place)
    }

    // The view of a copy of an edge.
    fn view(&self, copy: EdgeCopy) -> EdgeView<'_>
        requires { IsCopyOf (body_of self.now) copy }
        ensures { IsViewOf self.now copy result }
    {
        let node = self.configured.nodes.as_slice()[copy.from as usize];
        let edge = self.graph.edges[copy.edge];
        EdgeView {
            operation: edge.op,
            task: self.task,
            held: node.held,
            found: node.found,
            tests_pointer: self.facts.tests_pointer(edge.op),
            answer: copy.answer,
            laid: self.laid,
            priorities: self.priorities,
            live: self.facts.live_at(edge.to),
        }
    }
}

/// The equations of a body over a store: at each node of its configured graph stands a state, and each copy of an edge
/// brings what the transfer of its operation gives.
#[derive(Clone, Copy)]
pub struct BodySystem<'a> {
    pub body: &'a BodyOverStore<'a>,
}

impl<'a> Equations for BodySystem<'a> {
    ghost use Rattle.body_systems.specs.Systems.{body_of, system_of, IsSystemOf};
    ghost use Rattle.program_equations.specs.Systems.{FitsBody};
    ghost use Rattle.body_systems.specs.laws.Lawful.{system_is_lawful};

    type State = BodyState;

    ghost is_system = { λ s. IsSystemOf s.body.now };

    ghost system_of = { λ s. system_of s.body.now };

    ghost fits = { λ s. FitsBody (body_of s.body.now) };

    fn links(&self) -> &[Link] {
        let body = self.body;
        body.facts.links()
    }

    fn nodes(&self) -> usize {
        let body = self.body;
        body.configured.nodes.len()
    }

    fn first(&self, alloc: Global) -> Result<Option<BodyState>, NoMemory> {
        let body = self.body;
        match body.entry {
            Some(state) => Ok(Some(BodyState::new(state.copied(alloc)?))),
            None => Ok(None),
        }
    }

    fn is_head(&self, node: usize) -> bool {
        self.body.cells_at(node).is_some()
    }

    fn apply(
        &self,
        alloc: Global,
        edge: usize,
        state: &BodyState,
    ) -> Result<Option<BodyState>, NoMemory> {
        let body = self.body;
        let copy = body.configured.copies[edge];
        if copy.to.is_none() {
            return Ok(None);
        }
        let After {
            state: brought,
            added: _added,
            classes: _classes,
            targets: _targets,
        } = apply(alloc, &body.view(copy), state.state(), body.store)?;
        match brought {
            Some(reached) => Ok(Some(BodyState::new(reached))),
            None => Ok(None),
        }
    }

    fn rounded(&self, alloc: Global, node: usize, state: BodyState) -> Result<BodyState, NoMemory> {
        let body = self.body;
        match body.cells_at(node) {
            Some(cells) => {
                let outer = state.state().rounded_at(alloc, cells, body.marks)?;
                Ok(BodyState::new(outer))
            }
            None => Ok(state),
        }
    }

    ghost lawful = { λ s. system_is_lawful s.body.now };
}

impl<'a> Contributions for BodySystem<'a> {
    ghost use Rattle.interfere_set.specs.Stores.{no_interference};
    ghost use Rattle.body_systems.specs.Systems.{contributed_by};

    type Added = Store;

    ghost nothing_added = { λ s. no_interference };

    ghost contributed = { λ s. contributed_by s.body.now };

    fn none(&self, alloc: Global) -> Result<Store, NoMemory> {
        Ok(Store::new(alloc))
    }

    fn contribution(
        &self,
        alloc: Global,
        edge: usize,
        state: &BodyState,
    ) -> Result<Store, NoMemory> {
        let body = self.body;
        let copy = body.configured.copies[edge];
        let after = apply(alloc, &body.view(copy), state.state(), body.store)?;
        Ok(after.added)
    }
}
