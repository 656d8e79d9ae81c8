//! What the stations from the text of a source on answer to it, as one text. (Each station has a function of its own,
//! which owns one tree, table or program, with one way out behind it: how such a thing is let go is proved for each way
//! out. All of them write into a text that they borrow.)
ghost use Rattle.concrete_worlds.specs.Lawful.{HasGraphs, HasWorlds};
ghost use Rattle.concrete_worlds.specs.Running.{IsWorld};

use crate::forms::push_form;
use crate::graph_pictures::push_graphs;
use crate::run_programs::push_end;
use crate::run_rows::push_choices;
use crate::sources::{RunningProgram, laid_in, main_in, running};
use crate::texts::assert_text;
use crate::typed_expressions::{push_type, push_value};
use c_lexer::lex;
use c_parser::parse;
use c_typing::typed;
use concrete_worlds::World;
use flow_graph::Graph;
use std::alloc::Global;
use std::process::Abort;
use std::test::Fail;
use tm_laid::Laid;
use tm_terms::limits::TOKENS;
use tm_terms::{Fail as Refused, Name, Token, refusal_line};
use tm_trees::File;

/// How a world is run.
#[derive(Clone, Copy)]
pub enum Run {
    /// By `main`, to its end: what the cells of static storage hold then.
    End,
    /// By these choices: a picture of the start, and of the world after each.
    Choices(&'static str),
}

/// How far a source goes. It is refused by the line of the refusal.
#[derive(Clone, Copy)]
pub enum Way {
    /// To its tree: `taken`.
    Taken,
    /// To the type of the expression in its last body: whether it is as wanted.
    Type,
    /// To the folded value of that expression.
    Value,
    /// Through typing: `typed`.
    Typed,
    /// To its layout: how many call paths, objects, cells and abstract cells there are.
    Laid,
    /// To the graphs of its bodies.
    Graphs,
    /// To a run in the plain model.
    Plain(Run),
    /// To a run in a world along graphs.
    Along(Run),
}

fn push_refusal(alloc: Global, text: &mut String, fail: Refused) -> Result<(), Fail> {
    match fail {
        Refused::Refused(refusal) => {
            let line = refusal_line(alloc, &refusal)?;
            text.push_str(&line)?;
        }
        Refused::NoMemory => text.push_str("no memory")?,
    }
    Ok(())
}

fn push_layout(alloc: Global, text: &mut String, laid: &Laid) -> Result<(), Fail> {
    let counts = [
        laid.paths.len() as i128,
        laid.objects.len() as i128,
        laid.cells.len() as i128,
        laid.abstract_cells.len() as i128,
    ];
    push_form(
        alloc,
        text,
        "paths # objects # cells # abstract #",
        &counts,
        &[],
    )
}

fn push_run(
    alloc: Global,
    text: &mut String,
    world: &mut World,
    run: Run,
    cells: u32,
) -> Result<(), Fail>
    requires { IsWorld world.old }
{
    match run {
        Run::End => push_end(alloc, text, world, cells),
        Run::Choices(choices) => push_choices(alloc, text, world, choices),
    }
}

// How many cells of static storage there are.
fn cells_of(laid: &Laid) -> u32 {
    laid.initial.len().min(65_536) as u32
}

fn push_plain(alloc: Global, text: &mut String, laid: &Laid, run: Run) -> Result<(), Fail>
    requires { HasWorlds laid.now }
{
    let mut world = World::start(alloc, laid)?;
    push_run(alloc, text, &mut world, run, cells_of(laid))
}

fn push_along(
    alloc: Global,
    text: &mut String,
    laid: &Laid,
    graphs: &[Graph],
    run: Run,
) -> Result<(), Fail>
    requires worlds { HasWorlds laid.now }
    requires graphs { HasGraphs laid.now graphs.now }
{
    let mut world = World::start_along(alloc, laid, graphs)?;
    push_run(alloc, text, &mut world, run, cells_of(laid))
}

fn push_program(
    alloc: Global,
    text: &mut String,
    way: Way,
    program: &RunningProgram,
) -> Result<(), Fail>
    requires worlds { HasWorlds program.now.layout.laid }
    requires graphs { HasGraphs program.now.layout.laid program.now.graphs.graphs.items }
{
    let laid = &program.layout.laid;
    let graphs = &program.graphs.graphs;
    match way {
        Way::Plain(run) => push_plain(alloc, text, laid, run),
        Way::Along(run) => push_along(alloc, text, laid, graphs, run),
        _ => push_graphs(alloc, text, laid, graphs),
    }
}

fn push_running(
    alloc: Global,
    text: &mut String,
    way: Way,
    file: &File,
    main: Option<Name>,
) -> Result<(), Fail> {
    match running(alloc, file, main) {
        Ok(program) => push_program(alloc, text, way, &program),
        Err(fail) => push_refusal(alloc, text, fail),
    }
}

fn push_laid(
    alloc: Global,
    text: &mut String,
    file: &File,
    main: Option<Name>,
) -> Result<(), Fail> {
    match laid_in(alloc, file, main) {
        Ok(laid) => push_layout(alloc, text, &laid),
        Err(fail) => push_refusal(alloc, text, fail),
    }
}

fn refused_by_typing(alloc: Global, file: &File, main: Option<Name>) -> Option<Refused> {
    match typed(alloc, file, main) {
        Ok(_typed) => None,
        Err(fail) => Some(fail),
    }
}

fn push_typed(
    alloc: Global,
    text: &mut String,
    file: &File,
    main: Option<Name>,
) -> Result<(), Fail> {
    match refused_by_typing(alloc, file, main) {
        None => {
            text.push_str("typed")?;
            Ok(())
        }
        Some(fail) => push_refusal(alloc, text, fail),
    }
}

fn push_file(
    alloc: Global,
    text: &mut String,
    way: Way,
    file: &File,
    main: Option<Name>,
) -> Result<(), Fail> {
    match way {
        Way::Taken => {
            text.push_str("taken")?;
            Ok(())
        }
        Way::Type => push_type(alloc, text, file),
        Way::Value => push_value(alloc, text, file),
        Way::Typed => push_typed(alloc, text, file, main),
        Way::Laid => push_laid(alloc, text, file, main),
        _ => push_running(alloc, text, way, file, main),
    }
}

fn push_parsed(
    alloc: Global,
    text: &mut String,
    way: Way,
    source: &[u8],
    tokens: &[Token],
) -> Result<(), Fail> {
    match parse(alloc, tokens) {
        Ok(file) => push_file(alloc, text, way, &file, main_in(source, tokens)),
        Err(fail) => push_refusal(alloc, text, fail),
    }
}

fn push_source(alloc: Global, text: &mut String, way: Way, source: &[u8]) -> Result<(), Fail> {
    if source.len() > 1_048_576 {
        text.push_str("too long")?;
        return Ok(());
    }
    match lex(alloc, source, TOKENS as usize) {
        Ok(tokens) => push_parsed(alloc, text, way, source, &tokens),
        Err(fail) => push_refusal(alloc, text, fail),
    }
}

/// A source, which a row names, has this answer.
pub fn answers(
    rt: &impl Abort,
    alloc: Global,
    way: Way,
    row: &str,
    source: &[u8],
    wanted: &str,
) -> Result<(), Fail> {
    let mut text = String::new(alloc);
    push_source(alloc, &mut text, way, source)?;
    assert_text(rt, row, &text, wanted);
    Ok(())
}

/// The source of a row has its answer.
pub fn row_is_so(
    rt: &impl Abort,
    alloc: Global,
    way: Way,
    source: &str,
    wanted: &str,
) -> Result<(), Fail> {
    answers(rt, alloc, way, source, source.as_bytes(), wanted)
}

/// The source of each row has its answer.
pub fn rows_are_so(
    rt: &impl Abort,
    alloc: Global,
    way: Way,
    rows: &[(&str, &str)],
) -> Result<(), Fail> {
    for (source, wanted) in rows {
        row_is_so(rt, alloc, way, *source, *wanted)?;
    }
    Ok(())
}
