//! What the units have their names for.

ghost use Rattle.std.specs.Prelude.{◌≡◌, IfOk, List, Option, if◌then◌else◌, is_some, map};
ghost use Rattle.unit_plans.specs.Linkages.{Lists, common_name, defined_by, defined_name, defined_token, far_name};
ghost use Rattle.unit_plans.specs.Linkages.{internal_name, is_apart, is_external, is_internal, is_left, is_linked};
ghost use Rattle.unit_plans.specs.Linkages.{is_mention, is_ordinary, is_own, is_renamed, is_unlinked, is_within};
ghost use Rattle.unit_plans.specs.Linkages.{known_at, known_named, linked_name, lists_of, name_like, standing_name};
ghost use Rattle.unit_plans.specs.declared.declarations.Local.{Local as Name};
ghost use Rattle.unit_plans.specs.reading.Tables.{AreTables, IsTable, viewed};

use crate::copies::name_of;
use crate::declarations::{Declared, Known, Local, Role, Sight};
use crate::tables::{first_named, is_among, name_in, named, table_of};
use std::alloc::Global;
use std::collections::BTreeMap;
use tm_lattice::NoMemory;
use tm_terms::Token;

fn is_external(role: Role) -> bool
    ensures { result ≡ is_external role }
{
    match role {
        Role::Declared(Declared::Extern | Declared::Defined | Declared::Mutex) => true,
        _ => false,
    }
}

fn is_unlinked(role: Role) -> bool
    ensures { result ≡ is_unlinked role }
{
    match role {
        Role::Declared(Declared::Typedef | Declared::Enumerator) => true,
        Role::Opened | Role::OpenedWithin => true,
        _ => false,
    }
}

fn is_internal(role: Role) -> bool
    ensures { result ≡ is_internal role }
{
    match role {
        Role::Declared(Declared::Static) => true,
        other => is_unlinked(other),
    }
}

fn is_mention(role: Role) -> bool
    ensures { result ≡ is_mention role }
{
    match role {
        Role::Tag => true,
        _ => false,
    }
}

/// The name of a token as that of all units.
pub fn common_name(sight: Sight) -> Option<Local>
    ensures { result ≡ common_name sight }
{
    name_in(0, sight.token, sight.role)
}

/// The name that a token declares with internal linkage or without.
pub fn internal_name(known: Known) -> Option<Local>
    ensures { result ≡ internal_name known }
{
    if is_internal(known.sight.role) {
        name_of(known.sight)
    } else {
        None
    }
}

fn is_left(known: Known) -> bool
    ensures { result ≡ is_left known }
{
    known.like.is_some() && is_unlinked(known.sight.role)
}

/// The name of a token in the unit of another one.
pub fn name_like(sight: Sight, like: Option<Sight>) -> Option<Local>
    ensures { result ≡ name_like sight like }
{
    match like {
        Some(other) => name_in(other.unit, sight.token, sight.role),
        None => None,
    }
}

fn standing_name(known: Known) -> Option<Local>
    ensures { result ≡ standing_name known }
{
    if is_mention(known.sight.role) {
        None
    } else {
        common_name(known.sight)
    }
}

/// A way in which tokens have names.
#[derive(Clone, Copy)]
pub enum View {
    /// Declared with external linkage.
    External,
    /// Declared with internal linkage, or without.
    Internal,
    /// Of a declaration that is left out.
    Left,
    /// The same, in the unit that has the earlier declaration.
    Earlier,
    /// The same, in all units.
    Shared,
    /// Standing in a unit, of all units.
    Standing,
}

/// The name of a token, if it has it in this way.
fn viewed(view: View, known: Known) -> Option<Local>
    ensures { result ≡ viewed view known }
{
    let sight = known.sight;
    let has = match view {
        View::External => is_external(sight.role),
        View::Internal => return internal_name(known),
        View::Left | View::Earlier | View::Shared => is_left(known),
        View::Standing => return standing_name(known),
    };
    if !has {
        return None;
    }
    match view {
        View::Earlier => name_like(sight, known.like),
        View::Shared => common_name(sight),
        _ => name_of(sight),
    }
}

fn views(alloc: Global, view: View, knowns: &[Known]) -> Result<Vec<Option<Local>>, NoMemory>
    ensures { IfOk result (λ names. names.items ≡ map (viewed view) knowns.now) }
{
    let mut names = Vec::new(alloc);
    for known in knowns {
        names.push(viewed(view, *known))?;
    }
    Ok(names)
}

/// The first of each name that tokens have in this way.
fn table_by(alloc: Global, view: View, knowns: &[Known]) -> Result<BTreeMap<Local, usize>, NoMemory>
    ensures { IfOk result (λ table. IsTable table (map (viewed view) knowns.now)) }
{
    let names = views(alloc, view, knowns)?;
    table_of(alloc, &names)
}

fn is_apart(sight: Sight, known: Option<Known>) -> bool
    ensures { result ≡ is_apart sight known }
{
    match known {
        Some(known) => known.sight.unit != sight.unit,
        None => false,
    }
}

/// The token with this number.
pub fn known_at(knowns: &[Known], number: Option<usize>) -> Option<Known>
    ensures { result ≡ known_at knowns.now number }
{
    match number {
        Some(number) => knowns.get(number).copied(),
        None => None,
    }
}

/// The first token that has this name.
pub fn known_named(
    knowns: &[Known],
    table: &BTreeMap<Local, usize>,
    name: Option<Local>,
) -> Option<Known>
    ensures { (names : List (Option Name)) → IsTable table.now names → result ≡ known_named knowns.now names name }
{
    match name {
        Some(name) => known_at(knowns, first_named(table, name)),
        None => None,
    }
}

fn far_name(knowns: &[Known], standings: &BTreeMap<Local, usize>, known: Known) -> Option<Local>
    ensures { (names : List (Option Name)) → IsTable standings.now names → result ≡ far_name knowns.now names known }
{
    let name = standing_name(known);
    if is_apart(known.sight, known_named(knowns, standings, name)) {
        name
    } else {
        None
    }
}

fn fars(
    alloc: Global,
    knowns: &[Known],
    standings: &BTreeMap<Local, usize>,
) -> Result<Vec<Option<Local>>, NoMemory>
    ensures { IfOk result (λ fars. (names : List (Option Name)) → IsTable standings.now names
        → fars.items ≡ map (far_name knowns.now names) knowns.now) }
{
    let mut fars = Vec::new(alloc);
    for known in knowns {
        fars.push(far_name(knowns, standings, *known))?;
    }
    Ok(fars)
}

fn defined_by(token: Token, role: Role) -> Option<Token>
    ensures { result ≡ defined_by token role }
{
    match role {
        Role::Declared(Declared::Defined | Declared::Mutex) => Some(token),
        Role::Defines(other) => Some(other),
        _ => None,
    }
}

/// The token that tells the name of what is defined here.
pub fn defined_token(known: Known) -> Option<Token>
    ensures { result ≡ defined_token known }
{
    match known.like {
        Some(_) => None,
        None => defined_by(known.sight.token, known.sight.role),
    }
}

fn linked_name(
    internals: &BTreeMap<Local, usize>,
    unit: usize,
    token: Option<Token>,
) -> Option<Local>
    ensures { (names : List (Option Name)) → IsTable internals.now names → result ≡ linked_name names unit token }
{
    match token {
        Some(token) => {
            if is_among(internals, named(unit, false, token.shape)) {
                None
            } else {
                named(0, false, token.shape)
            }
        }
        None => None,
    }
}

/// The name that is defined here with external linkage.
pub fn defined_name(internals: &BTreeMap<Local, usize>, known: Known) -> Option<Local>
    ensures { (names : List (Option Name)) → IsTable internals.now names → result ≡ defined_name names known }
{
    linked_name(internals, known.sight.unit, defined_token(known))
}

fn definitions(
    alloc: Global,
    knowns: &[Known],
    internals: &BTreeMap<Local, usize>,
) -> Result<Vec<Option<Local>>, NoMemory>
    ensures { IfOk result (λ made. (names : List (Option Name)) → IsTable internals.now names
        → made.items ≡ map (defined_name names) knowns.now) }
{
    let mut made = Vec::new(alloc);
    for known in knowns {
        made.push(defined_name(internals, *known))?;
    }
    Ok(made)
}

/// The first of each name that tokens have in each way.
#[derive(Drop)]
pub struct Tables {
    pub externals: BTreeMap<Local, usize>,
    pub internals: BTreeMap<Local, usize>,
    pub lefts: BTreeMap<Local, usize>,
    pub earliers: BTreeMap<Local, usize>,
    pub shareds: BTreeMap<Local, usize>,
    pub fars: BTreeMap<Local, usize>,
    pub definitions: BTreeMap<Local, usize>,
}

/// What the units have their names for.
pub fn tables_of(alloc: Global, knowns: &[Known]) -> Result<Tables, NoMemory>
    ensures { IfOk result (λ tables. AreTables tables (lists_of knowns.now)) }
{
    let externals = table_by(alloc, View::External, knowns)?;
    let internals = table_by(alloc, View::Internal, knowns)?;
    let lefts = table_by(alloc, View::Left, knowns)?;
    let earliers = table_by(alloc, View::Earlier, knowns)?;
    let shareds = table_by(alloc, View::Shared, knowns)?;
    let standings = table_by(alloc, View::Standing, knowns)?;
    let fars = fars(alloc, knowns, &standings)?;
    let fars = table_of(alloc, &fars)?;
    let definitions = definitions(alloc, knowns, &internals)?;
    let definitions = table_of(alloc, &definitions)?;
    Ok(Tables {
        externals,
        internals,
        lefts,
        earliers,
        shareds,
        fars,
        definitions,
    })
}

/// Whether a unit has a name with external linkage.
pub fn is_linked(tables: &Tables, name: Option<Local>) -> bool
    ensures { (lists : Lists) → AreTables tables.now lists → result ≡ is_linked lists name }
{
    is_among(&tables.externals, name) && !is_among(&tables.internals, name)
}

/// Whether a unit has a name for itself alone.
fn is_own(tables: &Tables, name: Option<Local>) -> bool
    ensures { (lists : Lists) → AreTables tables.now lists → result ≡ is_own lists name }
{
    is_among(&tables.internals, name)
        && !(is_among(&tables.lefts, name) || is_among(&tables.earliers, name))
}

fn is_ordinary(name: Option<Local>) -> bool
    ensures { result ≡ is_ordinary name }
{
    match name {
        Some(name) => !name.is_tag,
        None => false,
    }
}

/// Whether a unit declares a name within blocks or parameters alone.
fn is_within(tables: &Tables, name: Option<Local>) -> bool
    ensures { (lists : Lists) → AreTables tables.now lists → result ≡ is_within lists name }
{
    is_ordinary(name) && !(is_among(&tables.externals, name) || is_among(&tables.internals, name))
}

/// Whether a name of a unit, which is this one of all units, gets a new one.
pub fn is_renamed(tables: &Tables, name: Option<Local>, common: Option<Local>) -> bool
    ensures { (lists : Lists) → AreTables tables.now lists → result ≡ is_renamed lists name common }
{
    (is_own(tables, name) && is_among(&tables.fars, common))
        || (is_within(tables, name) && is_among(&tables.shareds, common))
}
