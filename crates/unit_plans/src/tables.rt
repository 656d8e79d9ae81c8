//! The first of some names that is a given one.

ghost use Rattle.std.specs.Prelude.{◌≡◌, ◌++◌, [], ◌∷◌, IfOk, List, OnOk, Option, length};
ghost use Rattle.unit_plans.specs.Names.{first_named, is_among, is_name, is_same, name_in, named};
ghost use Rattle.unit_plans.specs.declared.declarations.Local.{Local as Name};
ghost use Rattle.unit_plans.specs.reading.Tables.{IsTable};

use crate::declarations::{Local, Role};
use std::alloc::Global;
use std::collections::BTreeMap;
use tm_lattice::NoMemory;
use tm_terms::{Shape, Token};

/// The name of a token in a name space.
pub fn named(unit: usize, is_tag: bool, shape: Shape) -> Option<Local>
    ensures { result ≡ named unit is_tag shape }
{
    match shape {
        Shape::Name(name) => Some(Local { unit, is_tag, name }),
        Shape::Word(_) | Shape::Integer(_) | Shape::Character(_) | Shape::Sign(_) => None,
    }
}

/// The name of a token with this role.
pub fn name_in(unit: usize, token: Token, role: Role) -> Option<Local>
    ensures { result ≡ name_in unit token role }
{
    match role {
        Role::Used | Role::Declared(_) => named(unit, false, token.shape),
        Role::Tag | Role::Opened | Role::OpenedWithin => named(unit, true, token.shape),
        Role::None | Role::Defines(_) => None,
    }
}

/// A table of no names.
pub fn no_names(alloc: Global) -> BTreeMap<Local, usize>
    ensures { IsTable result [] }
{
    BTreeMap::new(alloc)
}

/// Adds a name, if it is one, which has this number.
pub fn note(
    table: &mut BTreeMap<Local, usize>,
    name: Option<Local>,
    number: usize,
) -> Result<(), NoMemory>
    ensures { (names : List (Option Name)) → IsTable table.old names → number ≡ length names
        → OnOk result (IsTable table.new (names ++ name ∷ [])) }
{
    let Some(name) = name else {
        return Ok(());
    };
    if table.contains_key(&name) {
        return Ok(());
    }
    match table.insert(name, number) {
        Ok(_) => Ok(()),
        Err(_) => Err(NoMemory),
    }
}

/// The number of the first of the names that is this one.
pub fn first_named(table: &BTreeMap<Local, usize>, name: Local) -> Option<usize>
    ensures { (names : List (Option Name)) → IsTable table.now names → result ≡ first_named name names }
{
    match table.get(&name) {
        Some(number) => Some(*number),
        None => None,
    }
}

/// The first of each of some names.
pub fn table_of(alloc: Global, names: &[Option<Local>]) -> Result<BTreeMap<Local, usize>, NoMemory>
    ensures { IfOk result (λ table. IsTable table names.now) }
{
    let mut table = no_names(alloc);
    for (number, name) in names.iter().enumerate() {
        note(&mut table, *name, number)?;
    }
    Ok(table)
}

/// Whether there is a name, and it is among these.
pub fn is_among(table: &BTreeMap<Local, usize>, name: Option<Local>) -> bool
    ensures { (names : List (Option Name)) → IsTable table.now names → result ≡ is_among names name }
{
    match name {
        Some(name) => first_named(table, name).is_some(),
        None => false,
    }
}
