//! The initialisers of objects of static storage, at the level of the file and in functions.
ghost use Rattle.std.specs.Prelude.{◌≡◌, ◌≤◌, ◌++◌, OnOk, length, map, option_map};
ghost use Rattle.tm_terms.specs.ExprTrees.{tree_of};
ghost use Rattle.tm_trees.specs.DeclarationTrees.{value_tree, as_values, initialiser_tree, init_declarator_tree};
ghost use Rattle.tm_trees.specs.DeclarationTrees.{declaration_tree};
ghost use Rattle.tm_trees.specs.FileTrees.{statement_tree, part_tree, as_parts, case_tree, as_cases, first_tree};
ghost use Rattle.tm_trees.specs.FileTrees.{body_tree, item_tree, file_tree};
ghost use Rattle.tm_typed.specs.TypedFiles.{typed_file_tree};
ghost use Rattle.tm_laid.specs.Layable.{IsLayable};
ghost use Rattle.tm_laid.specs.Layouts.{laid_tree};
ghost use Rattle.part_extents.specs.Parts.{deepest};
ghost use Rattle.text_choices.specs.Choices.{Adds};
ghost use Rattle.text_choices.specs.Initialisers.{is_lost, scalar_within};
ghost use Rattle.text_choices.specs.reading.Files.{lost_at, given_to, given_type, expression_choices, value_choices};
ghost use Rattle.text_choices.specs.reading.Files.{values_choices, initialiser_choices, declarator_choices, declarators_choices};
ghost use Rattle.text_choices.specs.reading.Files.{local_choices, first_choices, statement_choices, part_choices};
ghost use Rattle.text_choices.specs.reading.Files.{parts_choices, case_choices, cases_choices, body_choices};
ghost use Rattle.text_choices.specs.reading.Files.{item_choices, file_choices, element_type, IsOfFile};
ghost use Rattle.text_choices.specs.reading.Spots.{spot_of, IsIndexed};

use crate::address_constants::{named, pointed};
use crate::kinds::{Choice, Kind};
use crate::reserved::{has_storage, name_of};
use crate::spots::Spot;
use crate::static_names::{StaticNames, static_names};
use part_extents::{type_at, unenumerated};
use std::alloc::Global;
use tm_laid::Laid;
use tm_lattice::NoMemory;
use tm_terms::{Expr, Place, Storage};
use tm_trees::{
    Block, BlockPart, Declaration, File, ForFirst, InitDeclarator, Initialiser, Item, Statement,
    SwitchPart, Value,
};
use tm_typed::CType;

// How deep types are made of others at most.
const DEEPEST: usize = 1024;

// Whether a `const` is lost where a pointer to a spot is given to a type, or the targets differ; a cast may give
// anything.
fn is_lost(spot: Spot, given: CType) -> bool
    ensures { result ≡ is_lost (spot_of spot) given }
{
    match given {
        CType::Pointer(to) => {
            !spot.cast
                && ((spot.constant && !to.constant)
                    || unenumerated(spot.of) != unenumerated(to.number))
        }
        CType::Void | CType::Int(_) | CType::Array { .. } | CType::Struct(_) => false,
    }
}

// The type of the elements of an array.
fn element_type(ctype: CType) -> Option<u32>
    ensures { result ≡ element_type ctype }
{
    match ctype {
        CType::Array { element, .. } => Some(element),
        CType::Void | CType::Int(_) | CType::Pointer(_) | CType::Struct(_) => None,
    }
}

// The type of the scalars of a type that is one, or an array of such.
fn scalar_number(laid: &Laid, number: u32) -> u32
    ensures { result ≡ scalar_within (laid_tree laid.now) deepest number }
{
    let mut at = number;
    for _step in 0..DEEPEST {
        match element_type(type_at(laid, at)) {
            Some(element) => at = element,
            None => return at,
        }
    }
    at
}

// What is given to each scalar of an object, if there is such an object. Of the members of structures nothing is told.
fn given_to(laid: &Laid, object: Option<Spot>) -> CType
    ensures { result ≡ given_to (laid_tree laid.now) (option_map spot_of object) }
{
    match object {
        Some(object) => type_at(laid, scalar_number(laid, object.of)),
        None => CType::Void,
    }
}

// One more place at which a `const` is lost, if it is.
fn push_lost(
    place: Place,
    given: CType,
    spot: Option<Spot>,
    choices: &mut Vec<Choice>,
) -> Result<(), NoMemory>
    ensures { OnOk result (choices.new.items ≡ choices.old.items ++ lost_at place given (option_map spot_of spot)) }
{
    match spot {
        Some(spot) => {
            if is_lost(spot, given) {
                let kind = Kind::Const;
                match choices.push(Choice { place, kind }) {
                    Ok(()) => Ok(()),
                    Err(_) => Err(NoMemory),
                }
            } else {
                Ok(())
            }
        }
        None => Ok(()),
    }
}

// Adds what an expression leaves open that is given to this type.
fn push_expression(
    laid: &Laid,
    names: &StaticNames,
    given: CType,
    expr: &Expr,
    choices: &mut Vec<Choice>,
) -> Result<(), NoMemory>
    requires indexed { IsIndexed laid.now names.now }
    ensures { OnOk result (choices.new.items
        ≡ choices.old.items ++ expression_choices (laid_tree laid.now) given (tree_of expr.now)) }
{
    let spot = pointed(laid, names, expr, choices)?;
    push_lost(expr.place(), given, spot, choices)
}

// Adds what a value leaves open.
#[cycle(values)]
#[tactic(auto, using(std::proofs::lemmas::List::append_assoc))]
fn push_value(
    laid: &Laid,
    names: &StaticNames,
    given: CType,
    value: &Value,
    choices: &mut Vec<Choice>,
) -> Result<(), NoMemory>
    requires indexed { IsIndexed laid.now names.now }
    ensures { OnOk result (choices.new.items
        ≡ choices.old.items ++ value_choices (laid_tree laid.now) given (value_tree value.now)) }
{
    match value {
        Value::Expression(expr) => push_expression(laid, names, given, expr, choices),
        Value::List { values, .. } => push_values(laid, names, given, values, choices),
    }
}

// Those of some values.
#[cycle(values)]
#[tactic(auto, using(std::proofs::lemmas::List::append_assoc))]
fn push_values(
    laid: &Laid,
    names: &StaticNames,
    given: CType,
    values: &[Value],
    choices: &mut Vec<Choice>,
) -> Result<(), NoMemory>
    requires indexed { IsIndexed laid.now names.now }
    ensures { OnOk result (choices.new.items
        ≡ choices.old.items ++ values_choices (laid_tree laid.now) given (as_values (map value_tree values.now))) }
{
    for value in values {
        push_value(laid, names, given, value, choices)?;
    }
    Ok(())
}

// Those of an initialiser, if there is one.
fn push_initialiser(
    laid: &Laid,
    names: &StaticNames,
    given: CType,
    initialiser: &Option<Initialiser>,
    choices: &mut Vec<Choice>,
) -> Result<(), NoMemory>
    requires indexed { IsIndexed laid.now names.now }
    ensures { OnOk result (choices.new.items ≡ choices.old.items
        ++ initialiser_choices (laid_tree laid.now) given (initialiser_tree initialiser.now)) }
{
    match initialiser {
        Some(initialiser) => push_value(laid, names, given, &initialiser.value, choices),
        None => Ok(()),
    }
}

// What is given to each scalar of a declared object.
fn given_type(laid: &Laid, names: &StaticNames, one: &InitDeclarator) -> CType
    requires indexed { IsIndexed laid.now names.now }
    ensures { result ≡ given_type (laid_tree laid.now) (init_declarator_tree one.now) }
{
    let (name, place) = name_of(&one.declarator);
    given_to(laid, named(laid, names, name, place))
}

// Those of a declared object.
fn push_declarator(
    laid: &Laid,
    names: &StaticNames,
    one: &InitDeclarator,
    choices: &mut Vec<Choice>,
) -> Result<(), NoMemory>
    requires indexed { IsIndexed laid.now names.now }
    ensures { OnOk result (choices.new.items
        ≡ choices.old.items ++ declarator_choices (laid_tree laid.now) (init_declarator_tree one.now)) }
{
    let given = given_type(laid, names, one);
    push_initialiser(laid, names, given, &one.initialiser, choices)
}

// Those of the objects of a declaration.
#[tactic(auto, using(std::proofs::lemmas::List::append_assoc))]
fn push_declarators(
    laid: &Laid,
    names: &StaticNames,
    declarators: &[InitDeclarator],
    choices: &mut Vec<Choice>,
) -> Result<(), NoMemory>
    requires indexed { IsIndexed laid.now names.now }
    ensures { OnOk result (choices.new.items
        ≡ choices.old.items ++ declarators_choices (laid_tree laid.now) (map init_declarator_tree declarators.now)) }
{
    for one in declarators {
        push_declarator(laid, names, one, choices)?;
    }
    Ok(())
}

// Those of a declaration in a block, if its objects are of static storage.
fn push_local(
    laid: &Laid,
    names: &StaticNames,
    declaration: &Declaration,
    choices: &mut Vec<Choice>,
) -> Result<(), NoMemory>
    requires indexed { IsIndexed laid.now names.now }
    ensures { OnOk result (choices.new.items
        ≡ choices.old.items ++ local_choices (laid_tree laid.now) (declaration_tree declaration.now)) }
{
    if has_storage(&declaration.specifiers, Storage::Static) {
        push_declarators(laid, names, &declaration.declarators, choices)
    } else {
        Ok(())
    }
}

// Those of what a `for` does first.
fn push_first(
    laid: &Laid,
    names: &StaticNames,
    first: &ForFirst,
    choices: &mut Vec<Choice>,
) -> Result<(), NoMemory>
    requires indexed { IsIndexed laid.now names.now }
    ensures { OnOk result (choices.new.items
        ≡ choices.old.items ++ first_choices (laid_tree laid.now) (first_tree first.now)) }
{
    match first {
        ForFirst::Declaration(declaration) => push_local(laid, names, declaration, choices),
        ForFirst::Expression(_) => Ok(()),
    }
}

// Those of a part of a block.
#[cycle(blocks)]
fn push_part(
    laid: &Laid,
    names: &StaticNames,
    part: &BlockPart,
    choices: &mut Vec<Choice>,
) -> Result<(), NoMemory>
    requires indexed { IsIndexed laid.now names.now }
    ensures { OnOk result (choices.new.items
        ≡ choices.old.items ++ part_choices (laid_tree laid.now) (part_tree part.now)) }
{
    match part {
        BlockPart::Declaration(declaration) => push_local(laid, names, declaration, choices),
        BlockPart::Statement(statement) => push_statement(laid, names, statement, choices),
    }
}

// Those of the parts of a block.
#[cycle(blocks)]
#[tactic(auto, using(std::proofs::lemmas::List::append_assoc))]
fn push_parts(
    laid: &Laid,
    names: &StaticNames,
    parts: &[BlockPart],
    choices: &mut Vec<Choice>,
) -> Result<(), NoMemory>
    requires indexed { IsIndexed laid.now names.now }
    ensures { OnOk result (choices.new.items
        ≡ choices.old.items ++ parts_choices (laid_tree laid.now) (as_parts (map part_tree parts.now))) }
{
    for part in parts {
        push_part(laid, names, part, choices)?;
    }
    Ok(())
}

// Those of a part of a `switch`.
#[cycle(blocks)]
fn push_case(
    laid: &Laid,
    names: &StaticNames,
    part: &SwitchPart,
    choices: &mut Vec<Choice>,
) -> Result<(), NoMemory>
    requires indexed { IsIndexed laid.now names.now }
    ensures { OnOk result (choices.new.items
        ≡ choices.old.items ++ case_choices (laid_tree laid.now) (case_tree part.now)) }
{
    match part {
        SwitchPart::Statement(statement) => push_statement(laid, names, statement, choices),
        SwitchPart::Case { .. } | SwitchPart::Default { .. } => Ok(()),
    }
}

// Those of the parts of a `switch`.
#[cycle(blocks)]
#[tactic(auto, using(std::proofs::lemmas::List::append_assoc))]
fn push_cases(
    laid: &Laid,
    names: &StaticNames,
    parts: &[SwitchPart],
    choices: &mut Vec<Choice>,
) -> Result<(), NoMemory>
    requires indexed { IsIndexed laid.now names.now }
    ensures { OnOk result (choices.new.items
        ≡ choices.old.items ++ cases_choices (laid_tree laid.now) (as_cases (map case_tree parts.now))) }
{
    for part in parts {
        push_case(laid, names, part, choices)?;
    }
    Ok(())
}

// Those of a statement.
#[cycle(blocks)]
#[tactic(auto, using(std::proofs::lemmas::List::append_assoc))]
fn push_statement(
    laid: &Laid,
    names: &StaticNames,
    statement: &Statement,
    choices: &mut Vec<Choice>,
) -> Result<(), NoMemory>
    requires indexed { IsIndexed laid.now names.now }
    ensures { OnOk result (choices.new.items
        ≡ choices.old.items ++ statement_choices (laid_tree laid.now) (statement_tree statement.now)) }
{
    match statement {
        Statement::Block(block) => push_parts(laid, names, &block.parts, choices),
        Statement::If { first, second, .. } => {
            push_statement(laid, names, first, choices)?;
            match second {
                Some(second) => push_statement(laid, names, second, choices),
                None => Ok(()),
            }
        }
        Statement::While { body, .. } => push_statement(laid, names, body, choices),
        Statement::Do { body, .. } => push_statement(laid, names, body, choices),
        Statement::For { first, body, .. } => {
            push_first(laid, names, first, choices)?;
            push_statement(laid, names, body, choices)
        }
        Statement::Switch { parts, .. } => push_cases(laid, names, parts, choices),
        Statement::Expression(_)
        | Statement::Break { .. }
        | Statement::Continue { .. }
        | Statement::Return { .. }
        | Statement::Lock { .. }
        | Statement::Unlock { .. }
        | Statement::Yield { .. } => Ok(()),
    }
}

// Those of a body, if there is one.
fn push_body(
    laid: &Laid,
    names: &StaticNames,
    body: &Option<Block>,
    choices: &mut Vec<Choice>,
) -> Result<(), NoMemory>
    requires indexed { IsIndexed laid.now names.now }
    ensures { OnOk result (choices.new.items
        ≡ choices.old.items ++ body_choices (laid_tree laid.now) (body_tree body.now)) }
{
    match body {
        Some(body) => push_parts(laid, names, &body.parts, choices),
        None => Ok(()),
    }
}

// Those of a part of a file.
fn push_item(
    laid: &Laid,
    names: &StaticNames,
    item: &Item,
    choices: &mut Vec<Choice>,
) -> Result<(), NoMemory>
    requires indexed { IsIndexed laid.now names.now }
    ensures { OnOk result (choices.new.items
        ≡ choices.old.items ++ item_choices (laid_tree laid.now) (item_tree item.now)) }
{
    match item {
        Item::Declaration(declaration) => {
            push_declarators(laid, names, &declaration.declarators, choices)
        }
        Item::Function(function) => push_body(laid, names, &function.body, choices),
        Item::Task { body, .. } => push_parts(laid, names, &body.parts, choices),
        Item::Empty | Item::Mutex { .. } => Ok(()),
    }
}

// Those of the parts of a file.
#[tactic(auto, using(std::proofs::lemmas::List::append_assoc))]
fn push_items(
    laid: &Laid,
    names: &StaticNames,
    items: &[Item],
    choices: &mut Vec<Choice>,
) -> Result<(), NoMemory>
    requires indexed { IsIndexed laid.now names.now }
    ensures { OnOk result (choices.new.items
        ≡ choices.old.items ++ file_choices (laid_tree laid.now) (map item_tree items.now)) }
{
    for item in items {
        push_item(laid, names, item, choices)?;
    }
    Ok(())
}

/// Adds what the initialisers of static storage of a file leave open.
pub(crate) fn add_static_moves(
    alloc: Global,
    laid: &Laid,
    file: &File,
    choices: &mut Vec<Choice>,
) -> Result<(), NoMemory>
    requires layable { IsLayable (typed_file_tree laid.now.file) laid.now.file.order.items }
    requires few { length laid.now.cells.items ≤ 65536 }
    ensures { OnOk result (Adds choices.old.items choices.new.items
        (IsOfFile (laid_tree laid.now) (file_tree file.now))) }
{
    let names = static_names(alloc, &laid.file.statics)?;
    push_items(laid, &names, &file.items, choices)
}
