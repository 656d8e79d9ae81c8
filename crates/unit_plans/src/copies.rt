//! Which declarations are left out: those of types, constants and mutexes that an earlier unit has token for token.

ghost use Rattle.std.specs.Prelude.{◌≡◌, ◌<◌, ◌++◌, [], ◌∷◌, IfOk, List, None, OnOk, Option, Some, length, map};
ghost use Rattle.std.specs.Prelude.{if◌then◌else◌, is_some};
ghost use Rattle.unit_plans.specs.Copies.{added, closed, declaration_to, declared_name, earlier_at, earlier_keyed};
ghost use Rattle.unit_plans.specs.Copies.{earlier_to, is_any_kept, is_declaring, is_same_text, key_of};
ghost use Rattle.unit_plans.specs.Copies.{knowns_of, may_leave, name_of, one_added};
ghost use Rattle.unit_plans.specs.declared.declarations.Local.{Local as Name};
ghost use Rattle.unit_plans.specs.reading.Founds.{copies_of};
ghost use Rattle.unit_plans.specs.reading.Tables.{IsTable};

use crate::declarations::{Known, Local, Role, Sight};
use crate::tables::{first_named, is_among, name_in, no_names, note, table_of};
use std::alloc::Global;
use std::collections::BTreeMap;
use tm_lattice::NoMemory;

/// The name by which the declaration that ends with a token is known, if it only declares.
fn key_of(sight: Sight) -> Option<Local>
    ensures { result ≡ key_of sight }
{
    if sight.ends && sight.spot.declares {
        sight.spot.key
    } else {
        None
    }
}

fn is_declaring(role: Role) -> bool
    ensures { result ≡ is_declaring role }
{
    match role {
        Role::Declared(_) | Role::Opened | Role::OpenedWithin => true,
        _ => false,
    }
}

/// The name of a token in its unit, if it has one.
pub fn name_of(sight: Sight) -> Option<Local>
    ensures { result ≡ name_of sight }
{
    name_in(sight.unit, sight.token, sight.role)
}

/// The name that a token declares.
fn declared_name(sight: Sight) -> Option<Local>
    ensures { result ≡ declared_name sight }
{
    if is_declaring(sight.role) {
        name_of(sight)
    } else {
        None
    }
}

/// Whether declarations are the same token for token.
fn is_same_text(one: &[Sight], other: &[Sight]) -> bool
    ensures { result ≡ is_same_text one.now other.now }
{
    let mut left = one;
    let mut right = other;
    while let [one, more @ ..] = left {
        match right {
            [other, others @ ..] => {
                if one.token.shape != other.token.shape {
                    return false;
                }
                right = others;
            }
            [] => return false,
        }
        left = more;
    }
    right.is_empty()
}

/// What is found so far.
#[derive(Drop)]
pub struct Found {
    knowns: Vec<Known>,
    kept: Vec<Option<Local>>,
    /// The first of each name that is kept.
    table: BTreeMap<Local, usize>,
}

/// Whether a declaration that stays has one of the names before.
fn is_any_kept(table: &BTreeMap<Local, usize>, sights: &[Sight]) -> bool
    ensures { (kept : List (Option Name)) → IsTable table.now kept → result ≡ is_any_kept kept sights.now }
{
    let mut left = sights;
    while let [sight, rest @ ..] = left {
        if is_among(table, name_of(*sight)) {
            return true;
        }
        left = rest;
    }
    false
}

/// The tokens of the declaration that ends with the token of this number.
fn declaration_to(all: &[Sight], number: usize, last: Sight) -> &[Sight]
    requires { number < length all.now }
    ensures { result.now ≡ declaration_to all.now number last }
{
    let from = last.spot.from;
    if from <= number {
        &all[from..number + 1]
    } else {
        &[]
    }
}

/// Whether a declaration may be left out for that of another unit.
fn may_leave(
    table: &BTreeMap<Local, usize>,
    own: &[Sight],
    last: Sight,
    others: &[Sight],
    other: Sight,
) -> bool
    ensures { (kept : List (Option Name)) → IsTable table.now kept
        → result ≡ may_leave kept own.now last others.now other }
{
    other.unit != last.unit && is_same_text(others, own) && !is_any_kept(table, own)
}

/// The tokens of the declaration that ends with the token of this number, if another one may be left out for it.
fn earlier_at<'a>(
    table: &BTreeMap<Local, usize>,
    all: &'a [Sight],
    own: &[Sight],
    last: Sight,
    number: usize,
) -> &'a [Sight]
    ensures { (kept : List (Option Name)) → IsTable table.now kept
        → result.now ≡ earlier_at all.now kept own.now last (Some number) }
{
    match all.get(number) {
        Some(other) => {
            let others = declaration_to(all, number, *other);
            if may_leave(table, own, last, others, *other) {
                others
            } else {
                &[]
            }
        }
        None => &[],
    }
}

/// The tokens for which those of a declaration are left out, if they are.
fn earlier_keyed<'a>(
    table: &BTreeMap<Local, usize>,
    keys: &BTreeMap<Local, usize>,
    all: &'a [Sight],
    own: &[Sight],
    last: Sight,
) -> &'a [Sight]
    ensures { (kept : List (Option Name)) → IsTable table.now kept → IsTable keys.now (map key_of all.now)
        → result.now ≡ earlier_keyed all.now kept own.now last (key_of last) }
{
    match key_of(last) {
        Some(key) => match first_named(keys, key) {
            Some(number) => earlier_at(table, all, own, last, number),
            None => &[],
        },
        None => &[],
    }
}

/// What a token of a declaration that stays declares.
fn kept_name(sight: Sight, like: Option<Sight>) -> Option<Local>
    ensures { result ≡ (if is_some like then None else declared_name sight) }
{
    match like {
        Some(_) => None,
        None => declared_name(sight),
    }
}

/// Adds a token of a declaration that has ended.
fn add_one(found: &mut Found, sight: Sight, like: Option<Sight>) -> Result<(), NoMemory>
    requires { IsTable found.old.table found.old.kept.items }
    ensures copies { OnOk result (copies_of found.new ≡ one_added (copies_of found.old) sight like) }
    ensures table { OnOk result (IsTable found.new.table found.new.kept.items) }
{
    let name = kept_name(sight, like);
    note(&mut found.table, name, found.kept.len())?;
    found.kept.push(name)?;
    found.knowns.push(Known { sight, like })?;
    Ok(())
}

/// Adds the tokens of a declaration.
fn add(found: &mut Found, own: &[Sight], others: &[Sight]) -> Result<(), NoMemory>
    requires { IsTable found.old.table found.old.kept.items }
    ensures copies { OnOk result (copies_of found.new ≡ added (copies_of found.old) own.now others.now) }
    ensures table { OnOk result (IsTable found.new.table found.new.kept.items) }
{
    let mut left = own;
    let mut right = others;
    while let [sight, rest @ ..] = left {
        match right {
            [other, more @ ..] => {
                add_one(found, *sight, Some(*other))?;
                right = more;
            }
            [] => add_one(found, *sight, None)?,
        }
        left = rest;
    }
    Ok(())
}

/// Adds a declaration that ends with this token.
fn close(
    found: &mut Found,
    keys: &BTreeMap<Local, usize>,
    all: &[Sight],
    own: &[Sight],
    last: Sight,
) -> Result<(), NoMemory>
    requires table { IsTable found.old.table found.old.kept.items }
    requires keys { IsTable keys.now (map key_of all.now) }
    ensures copies { OnOk result (copies_of found.new ≡ closed all.now (copies_of found.old) own.now last) }
    ensures table { OnOk result (IsTable found.new.table found.new.kept.items) }
{
    let others = earlier_keyed(&found.table, keys, all, own, last);
    add(found, own, others)
}

/// The names by which declarations are known, at their last tokens.
fn keys_of(alloc: Global, sights: &[Sight]) -> Result<Vec<Option<Local>>, NoMemory>
    ensures { IfOk result (λ keys. keys.items ≡ map key_of sights.now) }
{
    let mut keys = Vec::new(alloc);
    for sight in sights {
        keys.push(key_of(*sight))?;
    }
    Ok(keys)
}

/// The tokens of the units, each with that for which it is left out.
pub fn knowns_of(alloc: Global, sights: &[Sight]) -> Result<Vec<Known>, NoMemory>
    ensures { IfOk result (λ knowns. knowns.items ≡ knowns_of sights.now) }
{
    let keys = table_of(alloc, &keys_of(alloc, sights)?)?;
    let mut found = Found {
        knowns: Vec::new(alloc),
        kept: Vec::new(alloc),
        table: no_names(alloc),
    };
    let mut own = Vec::new(alloc);
    let mut left = sights;
    while let [sight, rest @ ..] = left {
        own.push(*sight)?;
        if sight.ends {
            close(&mut found, &keys, sights, &own, *sight)?;
            own.clear();
        }
        left = rest;
    }
    let Found {
        knowns,
        kept: _kept,
        table: _table,
    } = found;
    Ok(knowns)
}
