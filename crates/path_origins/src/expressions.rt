//! Expressions are walked.
ghost use Rattle.std.specs.Prelude.{◌≡◌, ℕ, Bool, true, IfOk, OnOk, is_some, get_or};
ghost use Rattle.tm_typed.specs.TypedTrees.{rvalue_tree};
ghost use Rattle.tm_laid.specs.TypeCells.{entry_of};
ghost use Rattle.tm_laid.specs.Layouts.{laid_tree};
ghost use Rattle.tm_terms.specs.declared.places.Place.{Place as APlace};
ghost use Rattle.body_builder.specs.concrete_steps.NextAction.{function_at};
ghost use Rattle.body_builder.specs.concrete_steps.Places.{rvalue_place, result_type};
ghost use Rattle.body_builder.specs.lowering.Table.{implied};
ghost use Rattle.path_origins.specs.Types.{given, given_by, pointer_to, is_pointer, has_value, chosen, cast_if};
ghost use Rattle.path_origins.specs.Types.{casts_number};
ghost use Rattle.path_origins.specs.Noted.{behind, one_if, scoped, skips, enumerating_if};
ghost use Rattle.path_origins.specs.Expressions.{walked};
ghost use Rattle.path_origins.specs.Shown.{shown, sizes_in};
ghost use Rattle.path_origins.specs.reading.Walks.{by_wanted, end_by, decided_by, IsBehind};
ghost use Rattle.path_origins.specs.reading.Ends.{converted_end, stores, stores_and_body, life_from};
ghost use Rattle.path_origins.specs.reading.Reading.{IsGiven, IsRead, IsReadAgainst, IsTested, AreRead};
ghost use Rattle.path_origins.specs.Opens.{is_among};

use crate::addresses::walk_address;
use crate::lookups::{function_at, is_conversion, is_implied};
use crate::notes::{
    end_scopes, end_with, note, note_against, note_body, note_end, note_fork_end, note_given,
    note_if, note_life, note_operands, note_passing, note_skips, note_value, sequence, since,
};
use crate::operators::walk_operator;
use crate::origins::{Form, Life, Notes, Passed, Span};
use crate::types::{Given, converted, given_by, held_by};
use crate::walks::{Here, Wanted};
use body_builder::{callee, is_same_place, more, object_of, result_type, rvalue_place, type_at};
use tm_laid::{Laid, object_at};
use tm_lattice::NoMemory;
use tm_terms::Place;
use tm_typed::{CType, ObjectNumber, Qualified, Rvalue, is_pointer_scalar};

/// An expression, for its value or as a branch; and what it gives. Whether its value is used counts for calls alone.
pub(crate) fn walk_value(
    here: &Here<'_>,
    to: &mut Notes,
    rvalue: &Rvalue,
    wanted: Wanted,
    used: bool,
) -> Result<Given, NoMemory>
    ensures noted { IfOk result (λ g. IsBehind to.old to.new (by_wanted wanted
        (walked (laid_tree here.now.laid.now) (is_among here.now.opens.now) (sizes_in here.now.sizes.now) here.now.path
        used (rvalue_tree rvalue.now)))) }
    ensures given { IfOk result (λ g. g ≡ given (laid_tree here.now.laid.now) (is_among here.now.opens.now)
        here.now.path (rvalue_tree rvalue.now)) }
{
    walk_rvalue(here, to, rvalue, wanted, used)
}

/// The same, within the walk.
#[cycle(walk)]
pub(crate) fn walk_rvalue(
    here: &Here<'_>,
    to: &mut Notes,
    rvalue: &Rvalue,
    wanted: Wanted,
    used: bool,
) -> Result<Given, NoMemory>
    ensures noted { IfOk result (λ g. IsRead here.now.laid.now here.now.opens.now here.now.sizes.now
        here.now.path wanted used rvalue.now to.old to.new) }
    ensures given { IfOk result (λ g. IsGiven here.now.laid.now here.now.opens.now here.now.path rvalue.now
        g) }
{
    match rvalue {
        Rvalue::Constant { place, .. } => {
            note_value(to, *place, Form::Constant, wanted, false, Given::Number)
        }
        Rvalue::Folded { form, .. } => match wanted {
            Wanted::Branch => {
                let _given = walk_rvalue(here, to, form, Wanted::Branch, true)?;
                Ok(Given::Number)
            }
            Wanted::Value | Wanted::Bare => {
                note(to, rvalue_place(form), Form::Constant)?;
                Ok(Given::Number)
            }
        },
        Rvalue::Null { place } => note_value(to, *place, Form::Constant, wanted, true, Given::Null),
        Rvalue::Load { scalar, lvalue, .. } => {
            let place = lvalue.place();
            let of = walk_address(here, to, lvalue)?;
            let gives = held_by(here.laid, *scalar, of);
            note_value(
                to,
                place,
                Form::Load,
                wanted,
                is_pointer_scalar(*scalar),
                gives,
            )
        }
        Rvalue::Address { lvalue, place } => {
            let is_bare = is_same_place(*place, lvalue.place());
            let of = walk_address(here, to, lvalue)?;
            end_with(to, wanted, true, *place, pointer_to(here.laid, is_bare, of))
        }
        Rvalue::Structure { lvalue } => {
            let place = lvalue.place();
            let _of = walk_address(here, to, lvalue)?;
            end_with(to, wanted, false, place, Given::Nothing)
        }
        Rvalue::Input { place, .. } => {
            note_value(to, *place, Form::Any, wanted, false, Given::Number)
        }
        Rvalue::Probe { place, .. } => {
            note_value(to, *place, Form::Probe, wanted, false, Given::Number)
        }
        _ => walk_call(here, to, rvalue, wanted, used),
    }
}

// A call, or a value that is passed on, converted or let go; or else what has sequence points.
#[cycle(walk)]
fn walk_call(
    here: &Here<'_>,
    to: &mut Notes,
    rvalue: &Rvalue,
    wanted: Wanted,
    used: bool,
) -> Result<Given, NoMemory>
    ensures noted { IfOk result (λ g. IsRead here.now.laid.now here.now.opens.now here.now.sizes.now
        here.now.path wanted used rvalue.now to.old to.new) }
    ensures given { IfOk result (λ g. IsGiven here.now.laid.now here.now.opens.now here.now.path rvalue.now
        g) }
{
    match rvalue {
        Rvalue::Same { value, place } => {
            let given = walk_rvalue(here, to, value, Wanted::Value, true)?;
            same_end(to, wanted, given, here.opens.has(*place), *place)
        }
        Rvalue::Call {
            site,
            arguments,
            place,
            ..
        } => {
            let path = callee(here.laid, here.path, *site);
            walk_arguments(here, to, path, arguments, *place)?;
            call_end(here, to, path, arguments.len(), *place, wanted, used)
        }
        Rvalue::Convert {
            from,
            to: of,
            value,
            place,
        } => {
            let is_same = is_same_place(*place, rvalue_place(value));
            let given = walk_rvalue(here, to, value, Wanted::Value, true)?;
            let gives = converted(*of, is_same, given);
            conversion_end(
                to,
                wanted,
                is_same,
                *place,
                is_conversion(*from, *of),
                gives,
            )
        }
        Rvalue::Discard { value, place } => {
            let _given = walk_rvalue(here, to, value, Wanted::Value, false)?;
            end_with(to, wanted, false, *place, Given::Nothing)
        }
        _ => walk_choice(here, to, rvalue, wanted, used),
    }
}

// `,`, `!`, `&&`, `||` or `?:`; or else an operator.
#[cycle(walk)]
fn walk_choice(
    here: &Here<'_>,
    to: &mut Notes,
    rvalue: &Rvalue,
    wanted: Wanted,
    used: bool,
) -> Result<Given, NoMemory>
    ensures noted { IfOk result (λ g. IsRead here.now.laid.now here.now.opens.now here.now.sizes.now
        here.now.path wanted used rvalue.now to.old to.new) }
    ensures given { IfOk result (λ g. IsGiven here.now.laid.now here.now.opens.now here.now.path rvalue.now
        g) }
{
    match rvalue {
        Rvalue::Comma { left, right, place } => {
            let pending = to.pending.len();
            let _first = walk_rvalue(here, to, left, Wanted::Value, false)?;
            sequence(to, pending);
            let given = walk_rvalue(here, to, right, Wanted::Value, used)?;
            end_with(to, wanted, given.is_pointer(), *place, given)
        }
        Rvalue::Not { value, place } => {
            let _given = walk_rvalue(here, to, value, Wanted::Branch, true)?;
            fork_end(to, wanted, *place)
        }
        Rvalue::And { left, right, place } => {
            walk_tested(here, to, left)?;
            let _second = walk_rvalue(here, to, right, Wanted::Branch, true)?;
            both_end(to, wanted, *place)
        }
        Rvalue::Or { left, right, place } => {
            walk_tested(here, to, left)?;
            let _second = walk_rvalue(here, to, right, Wanted::Branch, true)?;
            both_end(to, wanted, *place)
        }
        Rvalue::Conditional {
            condition,
            first,
            second,
            place,
        } => {
            walk_tested(here, to, condition)?;
            let one = walk_rvalue(here, to, first, Wanted::Value, used)?;
            note_if(to, one.has_value(), *place, Form::Copy)?;
            let other = walk_rvalue(here, to, second, Wanted::Value, used)?;
            choice_end(to, wanted, one, other, *place)
        }
        _ => walk_operator(here, to, rvalue, wanted, used),
    }
}

// A condition, and the sequence point behind it (C99 6.5.13p4, 6.5.14p4).
#[cycle(walk)]
fn walk_tested(here: &Here<'_>, to: &mut Notes, rvalue: &Rvalue) -> Result<(), NoMemory>
    ensures { OnOk result (IsTested here.now.laid.now here.now.opens.now here.now.sizes.now here.now.path rvalue.now
        to.old to.new) }
{
    let pending = to.pending.len();
    let _given = walk_rvalue(here, to, rvalue, Wanted::Branch, true)?;
    sequence(to, pending);
    Ok(())
}

// A value that is passed on, or cast to an enumeration.
fn same_end(
    to: &mut Notes,
    wanted: Wanted,
    value: Given,
    is_cast: bool,
    place: Place,
) -> Result<Given, NoMemory>
    ensures noted { OnOk result (shown to.new ≡ behind (enumerating_if (casts_number is_cast value) place
        (shown to.old)) (end_by wanted (is_pointer value) place)) }
    ensures given { IfOk result (λ g. g ≡ cast_if is_cast value) }
{
    note_given(to, value.casts_number(is_cast), Passed::Enumeration, place)?;
    end_with(
        to,
        wanted,
        value.is_pointer(),
        place,
        value.cast_if(is_cast),
    )
}

// The end of `!`.
fn fork_end(to: &mut Notes, wanted: Wanted, place: Place) -> Result<Given, NoMemory>
    ensures noted { OnOk result (IsBehind to.old to.new (decided_by wanted place)) }
    ensures given { IfOk result (λ g. g ≡ Given.Number) }
{
    note_fork_end(to, wanted, place)?;
    Ok(Given::Number)
}

// The end of `&&` or `||`, where its ways meet.
fn both_end(to: &mut Notes, wanted: Wanted, place: Place) -> Result<Given, NoMemory>
    ensures noted { OnOk result (IsBehind to.old to.new (behind (skips place 2) (decided_by wanted place))) }
    ensures given { IfOk result (λ g. g ≡ Given.Number) }
{
    note_skips(to, place, 2)?;
    fork_end(to, wanted, place)
}

// The end of `?:` behind the second value, of which there is a copy if there is a first one.
fn choice_end(
    to: &mut Notes,
    wanted: Wanted,
    first: Given,
    second: Given,
    place: Place,
) -> Result<Given, NoMemory>
    ensures noted { OnOk result (IsBehind to.old to.new (behind (behind (one_if (has_value first) place Form.Copy)
        (skips place 2)) (end_by wanted (is_pointer first) place))) }
    ensures given { IfOk result (λ g. g ≡ chosen first second) }
{
    note_if(to, first.has_value(), place, Form::Copy)?;
    note_skips(to, place, 2)?;
    end_with(to, wanted, first.is_pointer(), place, first.or(second))
}

// A conversion, which an operator makes itself where it stands at the place of its operand.
fn conversion_ends(
    to: &mut Notes,
    wanted: Wanted,
    is_same: bool,
    place: Place,
    is: bool,
) -> Result<(), NoMemory>
    ensures { OnOk result (IsBehind to.old to.new (converted_end wanted is_same place is)) }
{
    match wanted {
        Wanted::Bare => {
            if is_same {
                return Ok(());
            }
            note_if(to, is, place, Form::Conversion)
        }
        Wanted::Value | Wanted::Branch => {
            note_if(to, is, place, Form::Conversion)?;
            note_end(to, wanted, false, place)
        }
    }
}

// The same, of a value that gives this.
fn conversion_end(
    to: &mut Notes,
    wanted: Wanted,
    is_same: bool,
    place: Place,
    is: bool,
    gives: Given,
) -> Result<Given, NoMemory>
    ensures noted { OnOk result (IsBehind to.old to.new (converted_end wanted is_same place is)) }
    ensures given { IfOk result (λ g. g ≡ gives) }
{
    conversion_ends(to, wanted, is_same, place, is)?;
    Ok(gives)
}

/// What is walked of an operand: what it gives, and its edges.
#[derive(Clone, Copy)]
pub(crate) struct Walked {
    pub(crate) given: Given,
    pub(crate) edges: Span,
}

/// An operand.
#[cycle(walk)]
pub(crate) fn walk_part(
    here: &Here<'_>,
    to: &mut Notes,
    rvalue: &Rvalue,
    wanted: Wanted,
) -> Result<Walked, NoMemory>
    ensures noted { IfOk result (λ w. IsRead here.now.laid.now here.now.opens.now here.now.sizes.now
        here.now.path wanted true rvalue.now to.old to.new) }
    ensures given { IfOk result (λ w. IsGiven here.now.laid.now here.now.opens.now here.now.path rvalue.now
        w.given) }
    ensures edges { IfOk result (λ w. (w.edges.first ≡ to.old.size) × (w.edges.end ≡ to.new.size)) }
{
    let first = to.size;
    let given = walk_rvalue(here, to, rvalue, wanted, true)?;
    Ok(Walked {
        given,
        edges: since(to, first),
    })
}

/// An operand that stands against an earlier one with these edges, between which there is no sequence point.
#[cycle(walk)]
pub(crate) fn walk_against(
    here: &Here<'_>,
    to: &mut Notes,
    first: Span,
    rvalue: &Rvalue,
    wanted: Wanted,
    place: Place,
) -> Result<Walked, NoMemory>
    ensures noted { IfOk result (λ w. IsReadAgainst here.now.laid.now here.now.opens.now here.now.sizes.now
        here.now.path wanted rvalue.now place first w.edges to.old to.new) }
    ensures given { IfOk result (λ w. IsGiven here.now.laid.now here.now.opens.now here.now.path rvalue.now
        w.given) }
    ensures edges { IfOk result (λ w. (w.edges.first ≡ to.old.size) × (w.edges.end ≡ to.new.size)) }
{
    let walked = walk_part(here, to, rvalue, wanted)?;
    note_operands(to, place, first, walked.edges)?;
    Ok(walked)
}

/// The implied conversion of an operand.
pub(crate) fn note_implied(to: &mut Notes, value: &Rvalue) -> Result<(), NoMemory>
    ensures { OnOk result (IsBehind to.old to.new (one_if (is_some (implied (rvalue_tree value.now)))
        (rvalue_place (rvalue_tree value.now)) Form.Conversion)) }
{
    note_if(to, is_implied(value), rvalue_place(value), Form::Conversion)
}

// The pointer to an lvalue; or to the first element of an array, where no `&` stands (C99 6.3.2.1p3).
#[tactic(auto, unfolding(body_builder::specs::Fragments::tree_in))]
fn pointer_to(laid: &Laid, is_bare: bool, of: Qualified) -> Given
    ensures { (o : APlace → Bool) (p : ℕ) → result ≡ pointer_to (laid_tree laid.now) o p is_bare
        (entry_of (laid_tree laid.now).file of.number).ctype of }
{
    match type_at(laid, of.number) {
        CType::Array { element, .. } => {
            if is_bare {
                return Given::Pointer(Qualified {
                    number: element,
                    constant: of.constant,
                    volatile: of.volatile,
                });
            }
            Given::Pointer(of)
        }
        CType::Void | CType::Int(_) | CType::Pointer(_) | CType::Struct(_) => Given::Pointer(of),
    }
}

// ## Calls

// The number of the type of what the function of a path gives.
fn result_number(laid: &Laid, path: u32) -> u32
    ensures { result ≡ (function_at (laid_tree laid.now) path).result }
{
    match function_at(laid, path) {
        Some(function) => function.result,
        None => 0,
    }
}

// What a call of a path gives.
#[tactic(auto, unfolding(body_builder::specs::Fragments::tree_in))]
fn given_by_call(laid: &Laid, path: u32) -> Given
    ensures { result ≡ given_by (function_at (laid_tree laid.now) path).result
        (result_type (laid_tree laid.now) (function_at (laid_tree laid.now) path)) }
{
    given_by(result_number(laid, path), result_type(laid, path))
}

// The number of the type of a parameter of the function of a path.
fn parameter_number(laid: &Laid, path: u32, number: usize) -> u32
    ensures { result ≡ get_or (function_at (laid_tree laid.now) path).parameters number 0 }
{
    match function_at(laid, path) {
        Some(function) => match function.parameters.get(number) {
            Some(of) => *of,
            None => 0,
        },
        None => 0,
    }
}

// The type of a parameter of the function of a path.
#[tactic(auto, unfolding(body_builder::specs::Fragments::tree_in))]
fn parameter_type(laid: &Laid, path: u32, number: usize) -> CType
    ensures { result ≡ (entry_of (laid_tree laid.now).file
        (get_or (function_at (laid_tree laid.now) path).parameters number 0)).ctype }
{
    type_at(laid, parameter_number(laid, path, number))
}

// How many edges the body of a path has.
fn size_of(sizes: &[u32], path: u32) -> u32
    ensures { result ≡ sizes_in sizes.now path }
{
    match sizes.get(path as usize) {
        Some(size) => *size,
        None => 0,
    }
}

// The arguments of a call (C99 6.5.2.2p10): each stands against those before it, and a sequence point behind all.
#[cycle(walk)]
fn walk_arguments(
    here: &Here<'_>,
    to: &mut Notes,
    path: u32,
    arguments: &[Rvalue],
    place: Place,
) -> Result<(), NoMemory>
    ensures { OnOk result (AreRead here.now.laid.now here.now.opens.now here.now.sizes.now here.now.path path
        arguments.now place to.old to.new) }
{
    let pending = to.pending.len();
    let first = to.size;
    for number in 0..arguments.len() {
        let argument = &arguments[number];
        let before = since(to, first);
        let walked = walk_part(here, to, argument, Wanted::Value)?;
        let ctype = parameter_type(here.laid, path, number);
        note_passing(to, rvalue_place(argument), walked.given, ctype)?;
        note_against(to, place, number, before, walked.edges)?;
    }
    sequence(to, pending);
    Ok(())
}

// The life of a parameter, which begins with the store of its argument. Its scope ends later.
#[tactic(auto, unfolding(body_builder::specs::Fragments::tree_in))]
fn life_of(laid: &Laid, path: u32, number: u32, first: u32, begins: u32) -> Result<Life, NoMemory>
    ensures { IfOk result (λ l. l ≡ life_from (laid_tree laid.now) path number first begins) }
{
    let object = object_of(laid, path, ObjectNumber::Local(number))?;
    Ok(Life {
        object,
        place: object_at(laid, object).place,
        begins,
        scope: Span { first, end: first },
        initialiser: None,
    })
}

// So many arguments are stored to the parameters of a path, which live from then on.
fn note_stores(
    here: &Here<'_>,
    to: &mut Notes,
    path: u32,
    count: usize,
    place: Place,
) -> Result<(), NoMemory>
    ensures { OnOk result (IsBehind to.old to.new (stores (laid_tree here.now.laid.now) (is_among here.now.opens.now)
        (sizes_in here.now.sizes.now) here.now.path path count place)) }
{
    let first = to.size;
    let mut number = 0;
    for _index in 0..count {
        note(to, place, Form::Base)?;
        let begins = to.size;
        note(to, place, Form::Store)?;
        note_life(to, life_of(here.laid, path, number, first, begins)?)?;
        number = more(number, 1)?;
    }
    Ok(())
}

// The stores of so many arguments, and the body of a path, to whose end the parameters live (C99 6.2.4p5).
fn note_call(
    here: &Here<'_>,
    to: &mut Notes,
    path: u32,
    count: usize,
    place: Place,
    used: bool,
) -> Result<(), NoMemory>
    ensures { OnOk result (IsBehind to.old to.new (scoped (stores_and_body (laid_tree here.now.laid.now)
        (is_among here.now.opens.now) (sizes_in here.now.sizes.now) here.now.path path used count place))) }
{
    let outer = to.unended.len();
    note_stores(here, to, path, count, place)?;
    note_body(to, path, size_of(here.sizes, path), used)?;
    end_scopes(to, outer)?;
    Ok(())
}

// The same with the end of the call, and what it gives.
fn call_end(
    here: &Here<'_>,
    to: &mut Notes,
    path: u32,
    count: usize,
    place: Place,
    wanted: Wanted,
    used: bool,
) -> Result<Given, NoMemory>
    ensures noted { OnOk result (IsBehind to.old to.new (behind (scoped (stores_and_body (laid_tree here.now.laid.now)
        (is_among here.now.opens.now) (sizes_in here.now.sizes.now) here.now.path path used count place))
        (end_by wanted (is_pointer (given_by (function_at (laid_tree here.now.laid.now) path).result
        (result_type (laid_tree here.now.laid.now) (function_at (laid_tree here.now.laid.now) path)))) place))) }
    ensures given { IfOk result (λ g. g ≡ given_by (function_at (laid_tree here.now.laid.now) path).result
        (result_type (laid_tree here.now.laid.now) (function_at (laid_tree here.now.laid.now) path))) }
{
    note_call(here, to, path, count, place, used)?;
    let gives = given_by_call(here.laid, path);
    end_with(to, wanted, gives.is_pointer(), place, gives)
}
