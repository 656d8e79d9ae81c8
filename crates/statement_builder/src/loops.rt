//! Loops begin and end.
ghost use Rattle.std.specs.Prelude.{◌≡◌, map, ◌++◌, ◌∷◌, [], OnOk, IfOk};
ghost use Rattle.tm_typed.specs.TypedTrees.{rvalue_tree};
ghost use Rattle.tm_typed.specs.TypedStatements.{optional_rvalue_tree};
ghost use Rattle.body_builder.specs.lowering.Built.{nodes_by, still_by, continued_at};
ghost use Rattle.body_builder.specs.Fragments.{tree_in, so_far};
ghost use Rattle.statement_builder.specs.Waiting.{way_of, waiting};
ghost use Rattle.statement_builder.specs.reading.Statements.{reached, waits, is_way, stays, inside, continued};
ghost use Rattle.statement_builder.specs.reading.Statements.{entered, entered_if, turns_end, until_ends, headed};
ghost use Rattle.statement_builder.specs.reading.Statements.{IsBegun, IsEntered, for_ends, do_ends};

use crate::meeting::{close, meet_all};
use crate::passed::{Passed, Pending, Way};
use crate::steps::{act, evaluate, fork};
use body_builder::{Fragment, Here};
use flow_graph::Operation;
use tm_lattice::NoMemory;
use tm_typed::Rvalue;

/// What is inside of a loop, and its head.
#[derive(Drop)]
pub(crate) struct Begun {
    pub(crate) within: Passed,
    pub(crate) head: u32,
}

/// The same, and the nodes from which control leaves behind the test at the head.
#[derive(Drop)]
pub(crate) struct Entered {
    pub(crate) within: Passed,
    pub(crate) head: u32,
    pub(crate) outs: Vec<u32>,
}

// Whether this is the way.
fn is_way(way: Way, wanted: Way) -> bool
    ensures { result ≡ is_way (way_of wanted) (way_of way) }
{
    match wanted {
        Way::Break => match way {
            Way::Break => true,
            Way::Continue => false,
            Way::Return => false,
        },
        Way::Continue => match way {
            Way::Break => false,
            Way::Continue => true,
            Way::Return => false,
        },
        Way::Return => match way {
            Way::Break => false,
            Way::Continue => false,
            Way::Return => true,
        },
    }
}

// Whether what goes this way waits behind a loop, or else behind a `switch`.
fn stays(in_loop: bool, way: Way) -> bool
    ensures { result ≡ stays in_loop (way_of way) }
{
    match way {
        Way::Break => false,
        Way::Continue => !in_loop,
        Way::Return => true,
    }
}

// A node behind others, if control leaves it this way.
fn push_node(nodes: &mut Vec<u32>, pending: Pending, way: Way) -> Result<(), NoMemory>
    ensures { OnOk result (nodes.new.items ≡ nodes.old.items ++ nodes_by (is_way (way_of way)) (waiting pending ∷ [])) }
{
    if is_way(pending.way, way) {
        nodes.push(pending.node)?;
    }
    Ok(())
}

/// The nodes from which control leaves this way, behind others.
#[tactic(auto, using(crate::proofs::Waiting::nodes_more, crate::proofs::Waiting::nodes_last))]
pub(crate) fn push_nodes(
    nodes: &mut Vec<u32>,
    pending: &[Pending],
    way: Way,
) -> Result<(), NoMemory>
    ensures { OnOk result (nodes.new.items ≡ nodes.old.items
        ++ nodes_by (is_way (way_of way)) (map waiting pending.now)) }
{
    for one in pending {
        push_node(nodes, *one, way)?;
    }
    Ok(())
}

// A node waits outside too, if it does not end there.
#[tactic(auto, using(crate::proofs::Waiting::waits_behind))]
fn keep_one(outside: &mut Vec<Pending>, pending: Pending, in_loop: bool) -> Result<(), NoMemory>
    ensures { OnOk result (map waiting outside.new.items ≡ map waiting outside.old.items
        ++ still_by (stays in_loop) (waiting pending ∷ [])) }
{
    if stays(in_loop, pending.way) {
        outside.push(pending)?;
    }
    Ok(())
}

/// What goes on waiting outside of a loop, or else of a `switch`.
#[tactic(auto, using(crate::proofs::Waiting::still_more, crate::proofs::Waiting::still_last))]
pub(crate) fn keep(
    outside: &mut Vec<Pending>,
    pending: &[Pending],
    in_loop: bool,
) -> Result<(), NoMemory>
    ensures { OnOk result (map waiting outside.new.items ≡ map waiting outside.old.items
        ++ still_by (stays in_loop) (map waiting pending.now)) }
{
    for one in pending {
        keep_one(outside, *one, in_loop)?;
    }
    Ok(())
}

/// Inside of a loop or a `switch` nothing waits yet.
#[tactic(auto, unfolding(crate::specs::reading::Statements::reached, crate::specs::reading::Statements::waits, crate::specs::reading::Statements::inside))]
pub(crate) fn inside(here: &Here<'_>, to: &Fragment, passed: &Passed) -> Passed
    ensures reached { reached (tree_in here.now.laid.now) to.now result ≡ inside
        (reached (tree_in here.now.laid.now) to.now passed.now) }
    ensures outside { waits passed.now ≡ (reached (tree_in here.now.laid.now) to.now passed.now).pending }
{
    Passed {
        pending: Vec::new(here.alloc),
        result: passed.result,
    }
}

/// The head of a loop is placed.
pub(crate) fn begin(here: &Here<'_>, to: &mut Fragment, passed: &Passed) -> Result<Begun, NoMemory>
    ensures begun { IfOk result (λ x. IsBegun (headed (reached (tree_in here.now.laid.now) to.old passed.now))
        (reached (tree_in here.now.laid.now) to.new x.within) x) }
    ensures outside { waits passed.now ≡ (reached (tree_in here.now.laid.now) to.old passed.now).pending }
{
    let within = inside(here, to, passed);
    let head = act(here, to, &within, Operation::Skip)?;
    Ok(Begun { within, head })
}

// A test at the head of a loop: control leaves from this node.
#[tactic(auto, unfolding(crate::specs::reading::Statements::entered))]
fn enter(
    here: &Here<'_>,
    to: &mut Fragment,
    passed: &Passed,
    condition: &Rvalue,
) -> Result<Vec<u32>, NoMemory>
    ensures { IfOk result (λ outs. (reached (tree_in here.now.laid.now) to.new passed.now
        ≡ (entered (tree_in here.now.laid.now) here.now.depth here.now.path (rvalue_tree condition.now)
        (reached (tree_in here.now.laid.now) to.old passed.now)).at)
        × (outs.items ≡ (entered (tree_in here.now.laid.now) here.now.depth here.now.path
        (rvalue_tree condition.now) (reached (tree_in here.now.laid.now) to.old passed.now)).nodes)) }
{
    let mut outs = Vec::new(here.alloc);
    let other = fork(here, to, passed, condition)?;
    outs.push(other)?;
    Ok(outs)
}

// A test at the head of a loop, if there is one.
fn enter_if(
    here: &Here<'_>,
    to: &mut Fragment,
    passed: &Passed,
    condition: &Option<Box<Rvalue>>,
) -> Result<Vec<u32>, NoMemory>
    ensures { IfOk result (λ outs. (reached (tree_in here.now.laid.now) to.new passed.now
        ≡ (entered_if (tree_in here.now.laid.now) here.now.depth here.now.path (optional_rvalue_tree condition.now)
        (reached (tree_in here.now.laid.now) to.old passed.now)).at)
        × (outs.items ≡ (entered_if (tree_in here.now.laid.now) here.now.depth here.now.path
        (optional_rvalue_tree condition.now) (reached (tree_in here.now.laid.now) to.old passed.now)).nodes)) }
{
    match condition {
        None => Ok(Vec::new(here.alloc)),
        Some(condition) => enter(here, to, passed, condition),
    }
}

/// The head of a loop is placed, with the test there.
pub(crate) fn begin_while(
    here: &Here<'_>,
    to: &mut Fragment,
    passed: &Passed,
    condition: &Rvalue,
) -> Result<Entered, NoMemory>
    ensures entered { IfOk result (λ x. let h = headed (reached (tree_in here.now.laid.now) to.old passed.now) in
        IsEntered h (entered (tree_in here.now.laid.now) here.now.depth here.now.path (rvalue_tree condition.now) h)
        (reached (tree_in here.now.laid.now) to.new x.within) x) }
    ensures outside { waits passed.now ≡ (reached (tree_in here.now.laid.now) to.old passed.now).pending }
{
    let Begun { within, head } = begin(here, to, passed)?;
    let outs = enter(here, to, &within, condition)?;
    Ok(Entered { within, head, outs })
}

/// The head of a loop is placed, with the test there, if there is one.
pub(crate) fn begin_for(
    here: &Here<'_>,
    to: &mut Fragment,
    passed: &Passed,
    condition: &Option<Box<Rvalue>>,
) -> Result<Entered, NoMemory>
    ensures entered { IfOk result (λ x. let h = headed (reached (tree_in here.now.laid.now) to.old passed.now) in
        IsEntered h (entered_if (tree_in here.now.laid.now) here.now.depth here.now.path
        (optional_rvalue_tree condition.now) h) (reached (tree_in here.now.laid.now) to.new x.within) x) }
    ensures outside { waits passed.now ≡ (reached (tree_in here.now.laid.now) to.old passed.now).pending }
{
    let Begun { within, head } = begin(here, to, passed)?;
    let outs = enter_if(here, to, &within, condition)?;
    Ok(Entered { within, head, outs })
}

// Control comes together from these nodes and the present one, if there are any.
#[tactic(auto, using(crate::proofs::Waiting::continued_none, crate::proofs::Waiting::continued_some))]
fn meet_present(here: &Here<'_>, to: &mut Fragment, mut nodes: Vec<u32>) -> Result<(), NoMemory>
    ensures { OnOk result (so_far (tree_in here.now.laid.now) to.new ≡ continued_at nodes.items
        (so_far (tree_in here.now.laid.now) to.old)) }
{
    if nodes.is_empty() {
        Ok(())
    } else {
        let node = here.node(to);
        nodes.push(node)?;
        meet_all(here, to, &nodes)
    }
}

// Where `continue` goes.
#[tactic(auto, unfolding(crate::specs::reading::Statements::reached, crate::specs::reading::Statements::continued))]
fn continue_at(here: &Here<'_>, to: &mut Fragment, passed: &Passed) -> Result<(), NoMemory>
    ensures { OnOk result (reached (tree_in here.now.laid.now) to.new passed.now ≡ continued
        (reached (tree_in here.now.laid.now) to.old passed.now)) }
{
    let mut nodes = Vec::new(here.alloc);
    push_nodes(&mut nodes, &passed.pending, Way::Continue)?;
    meet_present(here, to, nodes)
}

/// The way back to the head of a loop, and its exit.
#[tactic(auto, unfolding(crate::specs::reading::Statements::reached, crate::specs::reading::Statements::waits, crate::specs::reading::Statements::turns_end))]
pub(crate) fn end_turns(
    here: &Here<'_>,
    to: &mut Fragment,
    passed: &mut Passed,
    within: &Passed,
    head: u32,
    mut outs: Vec<u32>,
) -> Result<(), NoMemory>
    ensures { OnOk result (reached (tree_in here.now.laid.now) to.new passed.new ≡ turns_end head outs.items
        (waits passed.old) (reached (tree_in here.now.laid.now) to.old within.now)) }
{
    push_nodes(&mut outs, &within.pending, Way::Break)?;
    close(here, to, head, &outs)?;
    keep(&mut passed.pending, &within.pending, true)?;
    passed.result = within.result;
    Ok(())
}

/// Behind the body of a `for`: the step, the way back to the head, and the exit.
pub(crate) fn end_for(
    here: &Here<'_>,
    to: &mut Fragment,
    passed: &mut Passed,
    within: &Passed,
    step: &Option<Box<Rvalue>>,
    head: u32,
    outs: Vec<u32>,
) -> Result<(), NoMemory>
    ensures { OnOk result (reached (tree_in here.now.laid.now) to.new passed.new ≡ for_ends
        (tree_in here.now.laid.now) here.now.depth here.now.path (optional_rvalue_tree step.now) head outs.items
        (waits passed.old) (reached (tree_in here.now.laid.now) to.old within.now)) }
{
    continue_at(here, to, within)?;
    evaluate(here, to, within, step)?;
    end_turns(here, to, passed, within, head, outs)
}

// The way back to the head of a loop, and its exit, to which the condition behind the body leads.
#[tactic(auto, unfolding(crate::specs::reading::Statements::reached, crate::specs::reading::Statements::waits, crate::specs::reading::Statements::until_ends))]
fn end_until(
    here: &Here<'_>,
    to: &mut Fragment,
    passed: &mut Passed,
    within: &Passed,
    head: u32,
    other: u32,
) -> Result<(), NoMemory>
    ensures { OnOk result (reached (tree_in here.now.laid.now) to.new passed.new ≡ until_ends head other
        (waits passed.old) (reached (tree_in here.now.laid.now) to.old within.now)) }
{
    let mut outs = Vec::new(here.alloc);
    push_nodes(&mut outs, &within.pending, Way::Break)?;
    outs.push(other)?;
    close(here, to, head, &outs)?;
    keep(&mut passed.pending, &within.pending, true)?;
    passed.result = within.result;
    Ok(())
}

/// Behind the body of a `do`: the condition, the way back to the head, and the exit.
pub(crate) fn end_do(
    here: &Here<'_>,
    to: &mut Fragment,
    passed: &mut Passed,
    within: &Passed,
    condition: &Rvalue,
    head: u32,
) -> Result<(), NoMemory>
    ensures { OnOk result (reached (tree_in here.now.laid.now) to.new passed.new ≡ do_ends
        (tree_in here.now.laid.now) here.now.depth here.now.path (rvalue_tree condition.now) head (waits passed.old)
        (reached (tree_in here.now.laid.now) to.old within.now)) }
{
    continue_at(here, to, within)?;
    let other = fork(here, to, within, condition)?;
    end_until(here, to, passed, within, head, other)
}
