//! Configured graphs as text.

use crate::forms::push_form;
use crate::layouts::laid_cells;
use crate::made_graphs::is_graph;
use flow_graph::{Graph, Graphs};
use mutex_configs::{ConfiguredGraph, ConfiguredNode, EdgeCopy, Program, configured};
use std::alloc::Global;
use std::process::Abort;
use std::test::Fail;
use strided_dom::Marks;
use tm_laid::Scale;
use tm_terms::{Fail as Refused, Limit};

/// What configuring a single graph over so many abstract cells answers on a scale.
pub fn program(
    rt: &impl Abort,
    alloc: Global,
    scale: Scale,
    graph: Graph,
    cells: u32,
) -> Result<Result<Program, Refused>, Fail> {
    assert!(rt; cells <= 65536);
    assert!(rt; is_graph(&graph));
    // (No way out stands behind the layout, which is dear to let go.)
    let mut graphs = Vec::new(alloc);
    graphs.push(graph)?;
    let laid = laid_cells(alloc, cells)?;
    Ok(configured(
        alloc,
        scale,
        laid,
        Graphs { graphs },
        Marks::new(Vec::new(alloc)),
    ))
}

// The limit that refuses, and what it allows on a scale.
fn push_limit(
    alloc: Global,
    text: &mut String,
    scale: Scale,
    limit: Option<Limit>,
) -> Result<(), Fail> {
    let (form, limit) = match limit {
        Some(Limit::Nodes) => ("refused nodes #", Limit::Nodes),
        Some(Limit::Work) => ("refused work #", Limit::Work),
        _ => return push_form(alloc, text, "refused", &[], &[]),
    };
    push_form(alloc, text, form, &[scale.number(limit) as i128], &[])
}

fn push_count(
    alloc: Global,
    text: &mut String,
    scale: Scale,
    answer: &Result<Program, Refused>,
) -> Result<(), Fail> {
    match answer {
        Ok(program) => match program.configured.first() {
            Some(graph) => {
                let numbers = [graph.nodes.len() as i128, graph.copies.len() as i128];
                push_form(alloc, text, "nodes # copies #", &numbers, &[])
            }
            None => push_form(alloc, text, "no graph", &[], &[]),
        },
        Err(Refused::Refused(refusal)) => push_limit(alloc, text, scale, refusal.limit),
        Err(Refused::NoMemory) => push_form(alloc, text, "no memory", &[], &[]),
    }
}

/// How many nodes and copies there are, or the limit that refuses. (What owns the text has one way out behind it.)
pub fn counted(
    alloc: Global,
    scale: Scale,
    answer: &Result<Program, Refused>,
) -> Result<String, Fail> {
    let mut text = String::new(alloc);
    push_count(alloc, &mut text, scale, answer)?;
    Ok(text)
}

fn push_node(alloc: Global, text: &mut String, node: ConfiguredNode) -> Result<(), Fail> {
    let numbers = [node.place as i128, node.held as i128, node.found as i128];
    push_form(alloc, text, "#/#/# ", &numbers, &[])
}

fn push_copy(alloc: Global, text: &mut String, copy: EdgeCopy) -> Result<(), Fail> {
    let (form, to) = match copy.to {
        Some(to) => ("#:#># ", to),
        None => ("#:#> ", 0),
    };
    let numbers = [copy.edge as i128, copy.from as i128, to as i128];
    push_form(alloc, text, form, &numbers, &[])
}

fn push_graph(alloc: Global, text: &mut String, graph: &ConfiguredGraph) -> Result<(), Fail> {
    for node in graph.nodes.iter() {
        push_node(alloc, text, *node)?;
    }
    for copy in &graph.copies {
        push_copy(alloc, text, *copy)?;
    }
    Ok(())
}

fn push_answer(
    alloc: Global,
    text: &mut String,
    answer: &Result<Program, Refused>,
) -> Result<(), Fail> {
    match answer {
        Ok(program) => match program.configured.first() {
            Some(graph) => push_graph(alloc, text, graph),
            None => push_form(alloc, text, "no graph", &[], &[]),
        },
        Err(_) => push_form(alloc, text, "refused", &[], &[]),
    }
}

fn answer_pictured(alloc: Global, answer: &Result<Program, Refused>) -> Result<String, Fail> {
    let mut text = String::new(alloc);
    push_answer(alloc, &mut text, answer)?;
    Ok(text)
}

/// The nodes and copies of a single graph.
pub fn pictured_graph(rt: &impl Abort, alloc: Global, graph: Graph) -> Result<String, Fail> {
    let answer = program(rt, alloc, Scale::Usual, graph, 1)?;
    answer_pictured(alloc, &answer)
}
