//! Statements are walked.
ghost use Rattle.std.specs.Prelude.{◌≡◌, [], ◌∷◌, map, OnOk, IfOk, Some, true, ◌&&◌};
ghost use Rattle.tm_typed.specs.TypedTrees.{rvalue_tree};
ghost use Rattle.tm_typed.specs.TypedStatements.{typed_tree, as_typed_trees, typed_case, as_typed_cases};
ghost use Rattle.tm_typed.specs.TypedStatements.{optional_rvalue_tree, given_tree, local_tree, local_initialiser_tree};
ghost use Rattle.tm_laid.specs.Layouts.{laid_tree, object_at};
ghost use Rattle.body_builder.specs.lowering.Table.{is_scalar_object};
ghost use Rattle.path_origins.specs.Noted.{nothing, behind, sequenced};
ghost use Rattle.path_origins.specs.Expressions.{walked};
ghost use Rattle.path_origins.specs.Statements.{statement, statements, case_of, cases, skip, test_of, effect_of};
ghost use Rattle.path_origins.specs.Statements.{entered};
ghost use Rattle.path_origins.specs.Statements.{outs, returned, is_first, cell_value, cell_stored, cells_stored};
ghost use Rattle.path_origins.specs.Statements.{initialised, declared, all_declared, nowhere};
ghost use Rattle.path_origins.specs.Shown.{shown, sizes_in};
ghost use Rattle.path_origins.specs.reading.Walks.{IsBehind, IsLeftBehind, by_wanted};
ghost use Rattle.path_origins.specs.reading.Leaving.{with_break, with_return, behind_loop};
ghost use Rattle.path_origins.specs.reading.Leaving.{behind_choice, IsClosed};
ghost use Rattle.path_origins.specs.reading.Leaving.{turns_met, loop_end, gone_on, label_noted, labels_noted};
ghost use Rattle.path_origins.specs.reading.Leaving.{is_default_label, is_default_among, select_end, span_from};
ghost use Rattle.path_origins.specs.Opens.{is_among};

use crate::expressions::walk_value;
use crate::lookups::NOWHERE;
use crate::notes::{
    end_scopes, note, note_against, note_if, note_life, note_passing, note_skips, note_tests,
    sequence, since,
};
use crate::origins::{Form, Life, Notes, Span};
use crate::walks::{Here, Wanted};
use body_builder::{
    is_given, is_value_type, more, object_of, rest_of, result_type, rvalue_place, type_at,
};
use part_extents::cell_type;
use source_names::Inside;
use tm_laid::object_at;
use tm_lattice::NoMemory;
use tm_terms::Place;
use tm_typed::{
    GivenCell, LocalInitialiser, LocalObject, ObjectNumber, Qualified, Rvalue, TypedStatement,
    TypedSwitchPart,
};

/// How often control leaves statements by `break`, by a `continue` that goes to a step or a condition, and by `return`.
#[derive(Clone, Copy)]
pub(crate) struct Ways {
    pub(crate) breaks: u32,
    pub(crate) continues: u32,
    pub(crate) returns: u32,
}

/// Statements in their order; where a `continue` goes to the head of the loop, it makes an edge.
#[cycle(walk_statements)]
pub(crate) fn walk_statements(
    here: &Here<'_>,
    to: &mut Notes,
    ways: &mut Ways,
    list: &[TypedStatement],
    to_head: bool,
) -> Result<(), NoMemory>
    ensures { OnOk result (IsLeftBehind to.old to.new ways.old ways.new
        (statements (laid_tree here.now.laid.now) (is_among here.now.opens.now) (sizes_in here.now.sizes.now)
        here.now.path to_head (as_typed_trees list.now))) }
{
    for one in list {
        walk_statement(here, to, ways, one, to_head)?;
    }
    Ok(())
}

// A statement.
#[cycle(walk_statements)]
fn walk_statement(
    here: &Here<'_>,
    to: &mut Notes,
    ways: &mut Ways,
    typed: &TypedStatement,
    to_head: bool,
) -> Result<(), NoMemory>
    ensures { OnOk result (IsLeftBehind to.old to.new ways.old ways.new
        (statement (laid_tree here.now.laid.now) (is_among here.now.opens.now) (sizes_in here.now.sizes.now)
        here.now.path to_head (typed_tree typed.now))) }
{
    match typed {
        TypedStatement::Evaluate(rvalue) => walk_effect(here, to, rvalue),
        TypedStatement::Declare(locals) => walk_locals(here, to, locals),
        TypedStatement::Block(statements) => {
            let outer = to.unended.len();
            walk_statements(here, to, ways, statements, to_head)?;
            end_scopes(to, outer)
        }
        TypedStatement::If {
            condition,
            first,
            second,
        } => match second {
            None => {
                walk_full(here, to, condition, Wanted::Branch, true)?;
                walk_statement(here, to, ways, first, to_head)?;
                note_skips(to, NOWHERE, 2)
            }
            Some(second) => {
                walk_full(here, to, condition, Wanted::Branch, true)?;
                walk_statement(here, to, ways, first, to_head)?;
                walk_statement(here, to, ways, second, to_head)?;
                note_skips(to, NOWHERE, 2)
            }
        },
        TypedStatement::Break => add_break(ways),
        TypedStatement::Continue => walk_continue(to, ways, to_head),
        TypedStatement::Return(rvalue) => {
            walk_return(here, to, rvalue)?;
            add_return(ways)
        }
        TypedStatement::Lock { place, .. } => note(to, *place, Form::Lock),
        TypedStatement::Unlock { place, .. } => note(to, *place, Form::Unlock),
        TypedStatement::Yield => note(to, NOWHERE, Form::Yield),
        _ => walk_loop(here, to, ways, typed, to_head),
    }
}

// A loop or a `switch`. The other forms never come here.
#[cycle(walk_statements)]
fn walk_loop(
    here: &Here<'_>,
    to: &mut Notes,
    ways: &mut Ways,
    typed: &TypedStatement,
    to_head: bool,
) -> Result<(), NoMemory>
    ensures { OnOk result (IsLeftBehind to.old to.new ways.old ways.new
        (statement (laid_tree here.now.laid.now) (is_among here.now.opens.now) (sizes_in here.now.sizes.now)
        here.now.path to_head (typed_tree typed.now))) }
{
    match typed {
        TypedStatement::While { condition, body } => {
            let mut within = Ways {
                breaks: 0,
                continues: 0,
                returns: ways.returns,
            };
            enter(here, to, condition)?;
            walk_statement(here, to, &mut within, body, true)?;
            close_loop(to, ways, &within, 1)
        }
        TypedStatement::Do { body, condition } => {
            let mut within = Ways {
                breaks: 0,
                continues: 0,
                returns: ways.returns,
            };
            note(to, NOWHERE, Form::Skip)?;
            walk_statement(here, to, &mut within, body, false)?;
            continue_at(to, within.continues)?;
            walk_full(here, to, condition, Wanted::Branch, true)?;
            close_loop(to, ways, &within, 1)
        }
        TypedStatement::For {
            first,
            condition,
            step,
            body,
        } => {
            let outer = to.unended.len();
            walk_statement(here, to, ways, first, to_head)?;
            let mut within = Ways {
                breaks: 0,
                continues: 0,
                returns: ways.returns,
            };
            let others = enter_if(here, to, condition)?;
            walk_statement(here, to, &mut within, body, false)?;
            continue_at(to, within.continues)?;
            walk_effect(here, to, step)?;
            close_loop(to, ways, &within, others)?;
            end_scopes(to, outer)
        }
        TypedStatement::Switch { value, parts, .. } => {
            let outer = to.unended.len();
            let mut within = Ways {
                breaks: 0,
                continues: ways.continues,
                returns: ways.returns,
            };
            walk_full(here, to, value, Wanted::Value, true)?;
            note_labels(to, parts)?;
            walk_parts(here, to, &mut within, parts, to_head)?;
            close_select(to, ways, &within, has_default(parts))?;
            end_scopes(to, outer)
        }
        _ => Err(NoMemory),
    }
}

// The parts of a `switch`.
#[cycle(walk_statements)]
fn walk_parts(
    here: &Here<'_>,
    to: &mut Notes,
    ways: &mut Ways,
    parts: &[TypedSwitchPart],
    to_head: bool,
) -> Result<(), NoMemory>
    ensures { OnOk result (IsLeftBehind to.old to.new ways.old ways.new
        (cases (laid_tree here.now.laid.now) (is_among here.now.opens.now) (sizes_in here.now.sizes.now)
        here.now.path to_head (as_typed_cases parts.now))) }
{
    for part in parts {
        walk_part(here, to, ways, part, to_head)?;
    }
    Ok(())
}

// A part of a `switch`.
#[cycle(walk_statements)]
fn walk_part(
    here: &Here<'_>,
    to: &mut Notes,
    ways: &mut Ways,
    part: &TypedSwitchPart,
    to_head: bool,
) -> Result<(), NoMemory>
    ensures { OnOk result (IsLeftBehind to.old to.new ways.old ways.new
        (case_of (laid_tree here.now.laid.now) (is_among here.now.opens.now) (sizes_in here.now.sizes.now)
        here.now.path to_head (typed_case part.now))) }
{
    match part {
        TypedSwitchPart::Case { place, .. } => note_skips(to, *place, 2),
        TypedSwitchPart::Default { place } => note_skips(to, *place, 2),
        TypedSwitchPart::Statement(statement) => walk_statement(here, to, ways, statement, to_head),
    }
}

// ## Full expressions

// A full expression (C99 6.8p4).
fn walk_full(
    here: &Here<'_>,
    to: &mut Notes,
    rvalue: &Rvalue,
    wanted: Wanted,
    used: bool,
) -> Result<(), NoMemory>
    ensures { OnOk result (IsBehind to.old to.new (sequenced (by_wanted wanted (walked (laid_tree here.now.laid.now)
        (is_among here.now.opens.now) (sizes_in here.now.sizes.now) here.now.path used (rvalue_tree rvalue.now))))) }
{
    let pending = to.pending.len();
    let _given = walk_value(here, to, rvalue, wanted, used)?;
    sequence(to, pending);
    Ok(())
}

// An expression statement or a step, if there is one.
fn walk_effect(
    here: &Here<'_>,
    to: &mut Notes,
    rvalue: &Option<Box<Rvalue>>,
) -> Result<(), NoMemory>
    ensures { OnOk result (IsBehind to.old to.new (effect_of (laid_tree here.now.laid.now) (is_among here.now.opens.now)
        (sizes_in here.now.sizes.now) here.now.path (optional_rvalue_tree rvalue.now))) }
{
    match rvalue {
        Some(rvalue) => walk_full(here, to, rvalue, Wanted::Value, false),
        None => Ok(()),
    }
}

// A `return` of a value.
fn walk_returned(here: &Here<'_>, to: &mut Notes, rvalue: &Rvalue) -> Result<(), NoMemory>
    ensures { OnOk result (IsBehind to.old to.new (returned (laid_tree here.now.laid.now) (is_among here.now.opens.now)
        (sizes_in here.now.sizes.now) here.now.path (Some (rvalue_tree rvalue.now)))) }
{
    let place = rvalue_place(rvalue);
    let pending = to.pending.len();
    let given = walk_value(here, to, rvalue, Wanted::Value, true)?;
    sequence(to, pending);
    note_passing(to, place, given, result_type(here.laid, here.path))?;
    note(to, place, Form::Copy)
}

// A `return`.
fn walk_return(
    here: &Here<'_>,
    to: &mut Notes,
    rvalue: &Option<Box<Rvalue>>,
) -> Result<(), NoMemory>
    ensures { OnOk result (IsBehind to.old to.new (returned (laid_tree here.now.laid.now) (is_among here.now.opens.now)
        (sizes_in here.now.sizes.now) here.now.path (optional_rvalue_tree rvalue.now))) }
{
    match rvalue {
        Some(rvalue) => walk_returned(here, to, rvalue),
        None => Ok(()),
    }
}

// ## Loops and `switch`

// The head of a loop with its test.
fn enter(here: &Here<'_>, to: &mut Notes, condition: &Rvalue) -> Result<(), NoMemory>
    ensures { OnOk result (IsBehind to.old to.new (behind
        (skip (laid_tree here.now.laid.now) (is_among here.now.opens.now) (sizes_in here.now.sizes.now) here.now.path)
        (test_of (laid_tree here.now.laid.now) (is_among here.now.opens.now) (sizes_in here.now.sizes.now)
        here.now.path (rvalue_tree condition.now)))) }
{
    note(to, NOWHERE, Form::Skip)?;
    walk_full(here, to, condition, Wanted::Branch, true)
}

// The head of a loop, with its test if there is one: from so many nodes control leaves.
fn enter_if(
    here: &Here<'_>,
    to: &mut Notes,
    condition: &Option<Box<Rvalue>>,
) -> Result<u32, NoMemory>
    ensures noted { OnOk result (IsBehind to.old to.new (behind
        (skip (laid_tree here.now.laid.now) (is_among here.now.opens.now) (sizes_in here.now.sizes.now) here.now.path)
        (entered (laid_tree here.now.laid.now) (is_among here.now.opens.now) (sizes_in here.now.sizes.now)
        here.now.path (optional_rvalue_tree condition.now)))) }
    ensures outs { IfOk result (λ n. n ≡ outs (laid_tree here.now.laid.now) (is_among here.now.opens.now)
        (sizes_in here.now.sizes.now) here.now.path (optional_rvalue_tree condition.now)) }
{
    match condition {
        Some(condition) => {
            enter(here, to, condition)?;
            Ok(1)
        }
        None => {
            note(to, NOWHERE, Form::Skip)?;
            Ok(0)
        }
    }
}

// Control leaves once more by `break`.
fn add_break(ways: &mut Ways) -> Result<(), NoMemory>
    ensures { OnOk result (ways.new ≡ with_break ways.old) }
{
    ways.breaks = more(ways.breaks, 1)?;
    Ok(())
}

// Control leaves once more by `return`.
fn add_return(ways: &mut Ways) -> Result<(), NoMemory>
    ensures { OnOk result (ways.new ≡ with_return ways.old) }
{
    ways.returns = more(ways.returns, 1)?;
    Ok(())
}

// A `continue`.
fn walk_continue(to: &mut Notes, ways: &mut Ways, to_head: bool) -> Result<(), NoMemory>
    ensures { OnOk result (IsLeftBehind to.old to.new ways.old ways.new (gone_on to_head)) }
{
    if to_head {
        return note(to, NOWHERE, Form::Skip);
    }
    ways.continues = more(ways.continues, 1)?;
    Ok(())
}

// Where so many `continue` go to a step or a condition, control comes together there.
fn continue_at(to: &mut Notes, continues: u32) -> Result<(), NoMemory>
    ensures { OnOk result (IsBehind to.old to.new (turns_met continues)) }
{
    if continues == 0 {
        return Ok(());
    }
    note_skips(to, NOWHERE, more(continues, 1)?)
}

// The way back to the head of a loop, and its exit, to which so many others lead.
fn close_loop(to: &mut Notes, ways: &mut Ways, within: &Ways, others: u32) -> Result<(), NoMemory>
    ensures { OnOk result (IsClosed to.old to.new ways.new (behind_loop ways.old within.now)
        (loop_end others within.now.breaks)) }
{
    note_skips(to, NOWHERE, more(others, 1)?)?;
    note_skips(to, NOWHERE, within.breaks)?;
    ways.returns = within.returns;
    Ok(())
}

// The test of a part of a `switch`, if it is a label.
fn note_label(to: &mut Notes, part: &TypedSwitchPart) -> Result<(), NoMemory>
    ensures { OnOk result (IsBehind to.old to.new (label_noted (typed_case part.now))) }
{
    match part {
        TypedSwitchPart::Case { place, .. } => note_tests(to, *place, Form::Test(false)),
        TypedSwitchPart::Default { .. } | TypedSwitchPart::Statement(_) => Ok(()),
    }
}

// The tests of the labels of a `switch`.
fn note_labels(to: &mut Notes, parts: &[TypedSwitchPart]) -> Result<(), NoMemory>
    ensures { OnOk result (IsBehind to.old to.new (labels_noted (as_typed_cases parts.now))) }
{
    for part in parts {
        note_label(to, part)?;
    }
    Ok(())
}

// Whether a part of a `switch` is a default.
fn is_default(part: &TypedSwitchPart) -> bool
    ensures { result ≡ is_default_label (typed_case part.now) }
{
    match part {
        TypedSwitchPart::Default { .. } => true,
        TypedSwitchPart::Case { .. } | TypedSwitchPart::Statement(_) => false,
    }
}

// Whether a `switch` has a default.
fn has_default(parts: &[TypedSwitchPart]) -> bool
    ensures { result ≡ is_default_among (as_typed_cases parts.now) }
{
    for part in parts {
        if is_default(part) {
            return true;
        }
    }
    false
}

// The exit of a `switch`, to which control goes from its tests where it has no default.
fn close_select(
    to: &mut Notes,
    ways: &mut Ways,
    within: &Ways,
    has_default: bool,
) -> Result<(), NoMemory>
    ensures { OnOk result (IsClosed to.old to.new ways.new (behind_choice ways.old within.now)
        (select_end has_default within.now.breaks)) }
{
    note_if(to, !has_default, NOWHERE, Form::Skip)?;
    note_skips(to, NOWHERE, more(within.breaks, 1)?)?;
    ways.continues = within.continues;
    ways.returns = within.returns;
    Ok(())
}

// ## Local objects

// An object that is initialised: its number and type, and the place of the `=`.
#[derive(Clone, Copy)]
struct Target {
    object: u32,
    of: Qualified,
    place: Place,
}

// Whether a cell is the first one of a scalar object.
#[tactic(auto, unfolding(body_builder::specs::Fragments::tree_in))]
fn is_alone(here: &Here<'_>, object: u32, cell: u32) -> bool
    ensures { result ≡ (is_first (laid_tree here.now.laid.now) (is_among here.now.opens.now)
        (sizes_in here.now.sizes.now) here.now.path cell
        && is_scalar_object (laid_tree here.now.laid.now) here.now.path object) }
{
    if cell != 0 {
        return false;
    }
    is_value_type(type_at(here.laid, object_at(here.laid, object).of.number))
}

// The given value of a cell of an object of a type.
fn walk_given(
    here: &Here<'_>,
    to: &mut Notes,
    of: Qualified,
    cell: &GivenCell,
) -> Result<(), NoMemory>
    ensures { OnOk result (IsBehind to.old to.new (cell_value (laid_tree here.now.laid.now)
        (is_among here.now.opens.now) (sizes_in here.now.sizes.now) here.now.path of nowhere true
        (given_tree cell.now ∷ []))) }
{
    let place = rvalue_place(&cell.value);
    let value = walk_value(here, to, &cell.value, Wanted::Value, true)?;
    let inside = Inside {
        of,
        cell: cell.cell,
    };
    note_passing(to, place, value, cell_type(here.laid, inside))
}

// The value of a cell, which is zero or null unless it is given.
fn walk_cell_value(
    here: &Here<'_>,
    to: &mut Notes,
    at: Target,
    is_given: bool,
    given: &[GivenCell],
) -> Result<(), NoMemory>
    ensures { OnOk result (IsBehind to.old to.new (cell_value (laid_tree here.now.laid.now)
        (is_among here.now.opens.now) (sizes_in here.now.sizes.now) here.now.path at.of at.place is_given
        (map given_tree given.now))) }
{
    match given {
        [first, ..] if is_given => walk_given(here, to, at.of, first),
        _ => note(to, at.place, Form::Constant),
    }
}

// A cell of an object is stored.
fn walk_cell(
    here: &Here<'_>,
    to: &mut Notes,
    at: Target,
    number: u32,
    given: &[GivenCell],
) -> Result<(), NoMemory>
    ensures { OnOk result (IsBehind to.old to.new (cell_stored (laid_tree here.now.laid.now)
        (is_among here.now.opens.now) (sizes_in here.now.sizes.now) here.now.path at.object at.of at.place number
        (map given_tree given.now))) }
{
    note(to, at.place, Form::Base)?;
    let has_part = !is_alone(here, at.object, number);
    note_if(to, has_part, at.place, Form::Part)?;
    walk_cell_value(here, to, at, is_given(number, given), given)?;
    note(to, at.place, Form::Initialise)
}

// The cells of an object are stored, in order, each against those before it (C99 6.7.8p23); those that its initialiser
// gives stand in rising order.
fn walk_cells(
    here: &Here<'_>,
    to: &mut Notes,
    at: Target,
    given: &[GivenCell],
) -> Result<(), NoMemory>
    ensures { OnOk result (IsBehind to.old to.new (sequenced (cells_stored (laid_tree here.now.laid.now)
        (is_among here.now.opens.now) (sizes_in here.now.sizes.now) here.now.path at.object at.of at.place
        (object_at (laid_tree here.now.laid.now) at.object).cells 0 (map given_tree given.now) nothing))) }
{
    let pending = to.pending.len();
    let first = to.size;
    let mut rest = given;
    for number in 0..object_at(here.laid, at.object).cells {
        let before = since(to, first);
        let begin = to.size;
        walk_cell(here, to, at, number, rest)?;
        let edges = since(to, begin);
        note_against(to, at.place, number as usize, before, edges)?;
        rest = rest_of(is_given(number, rest), rest);
    }
    sequence(to, pending);
    Ok(())
}

// An object is initialised: by these edges, if it has an initialiser.
fn walk_initialiser(
    here: &Here<'_>,
    to: &mut Notes,
    object: u32,
    initialiser: &Option<LocalInitialiser>,
) -> Result<Option<Span>, NoMemory>
    ensures noted { OnOk result (IsBehind to.old to.new (initialised (laid_tree here.now.laid.now)
        (is_among here.now.opens.now) (sizes_in here.now.sizes.now) here.now.path object
        (local_initialiser_tree initialiser.now))) }
    ensures span { IfOk result (λ s. s ≡ span_from to.old.size (local_initialiser_tree initialiser.now) to.new.size) }
{
    match initialiser {
        Some(initialiser) => {
            let first = to.size;
            let at = Target {
                object,
                of: object_at(here.laid, object).of,
                place: initialiser.place,
            };
            walk_cells(here, to, at, &initialiser.given)?;
            Ok(Some(since(to, first)))
        }
        None => Ok(None),
    }
}

// A local object is cleared and initialised. Its scope begins there.
#[tactic(auto, unfolding(body_builder::specs::Fragments::tree_in))]
fn walk_local(here: &Here<'_>, to: &mut Notes, local: &LocalObject) -> Result<(), NoMemory>
    ensures { OnOk result (IsBehind to.old to.new (declared (laid_tree here.now.laid.now)
        (is_among here.now.opens.now) (sizes_in here.now.sizes.now) here.now.path (local_tree local.now))) }
{
    let object = object_of(here.laid, here.path, ObjectNumber::Local(local.object))?;
    let place = object_at(here.laid, object).place;
    let begins = to.size;
    note(to, place, Form::Clear)?;
    let scope = since(to, begins);
    let initialiser = walk_initialiser(here, to, object, &local.initialiser)?;
    note_life(
        to,
        Life {
            object,
            place,
            begins,
            scope,
            initialiser,
        },
    )
}

// The declarations of local objects.
fn walk_locals(here: &Here<'_>, to: &mut Notes, locals: &[LocalObject]) -> Result<(), NoMemory>
    ensures { OnOk result (IsBehind to.old to.new (all_declared (laid_tree here.now.laid.now)
        (is_among here.now.opens.now) (sizes_in here.now.sizes.now) here.now.path (map local_tree locals.now))) }
{
    for local in locals {
        walk_local(here, to, local)?;
    }
    Ok(())
}
