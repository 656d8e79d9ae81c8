//! RESERVED: names of the library.
ghost use Rattle.std.specs.Prelude.{◌≡◌, ◌↔◌, ◌++◌, ◌||◌, [], ◌∷◌, ℕ, List, true, false, length, map, IfOk, IsTrue, OnOk};
ghost use Rattle.indexmap.specs.IndexMap.{get};
ghost use Rattle.tm_terms.specs.Names.{is_same_name};
ghost use Rattle.tm_terms.specs.Spelling.{text_of};
ghost use Rattle.tm_trees.specs.DeclarationTrees.{SpecifierTrees, and_specifier, specifier_tree, specifier_trees};
ghost use Rattle.tm_trees.specs.DeclarationTrees.{declarator_tree, declared_name, declaration_tree, init_declarator_tree};
ghost use Rattle.tm_trees.specs.FileTrees.{a_declaration, a_function, file_tree, function_tree, item_tree};
ghost use Rattle.text_choices.specs.Choices.{Adds, OfKind};
ghost use Rattle.text_choices.specs.Texts.{IsPlaceBefore, IsReservedName, declared_by, declared_in, declarator_place};
ghost use Rattle.text_choices.specs.Texts.{has_storage, is_storage, objects_of};
ghost use Rattle.text_choices.specs.reading.Declared.{IsReservedAmong, Yields, declared_of};
ghost use Rattle.text_choices.specs.reading.Foremost.{IsKept, IsJoined, AddsOne, YieldsTo, AreForemost};

use crate::adding::add_where;
use crate::kinds::{Choice, Kind};
use crate::library_names::is_of_library;
use indexmap::IndexMap;
use std::alloc::Global;
use tm_lattice::NoMemory;
use tm_terms::{Name, Place, SpecWord, Storage, text_of};
use tm_trees::{Declaration, Declarator, File, Function, InitDeclarator, Item, Specifier};

// A declaration of a function, a task or an object at the level of the file.
#[derive(Clone, Copy)]
struct Declared {
    name: Name,
    place: Place,
    // An object counts as defined where it is declared.
    defined: bool,
    internal: bool,
}

// Whether a word is this storage class, `static` or `typedef`.
fn is_storage(wanted: Storage, word: SpecWord) -> bool
    ensures { result ≡ is_storage wanted word }
{
    match (wanted, word) {
        (Storage::Static, SpecWord::Storage(Storage::Static)) => true,
        (Storage::Typedef, SpecWord::Storage(Storage::Typedef)) => true,
        _ => false,
    }
}

// Whether a specifier is this storage class.
fn is_storage_specifier(wanted: Storage, specifier: &Specifier) -> bool
    ensures { (rest : SpecifierTrees) → has_storage wanted (and_specifier (specifier_tree specifier.now) rest)
        ≡ (result || has_storage wanted rest) }
{
    match specifier {
        Specifier::Plain(spec) => is_storage(wanted, spec.word),
        Specifier::Struct { .. } | Specifier::Enum { .. } => false,
    }
}

/// Whether a storage class, `static` or `typedef`, stands among specifiers.
pub(crate) fn has_storage(specifiers: &[Specifier], wanted: Storage) -> bool
    ensures { result ≡ has_storage wanted (specifier_trees specifiers.now) }
{
    for specifier in specifiers {
        if is_storage_specifier(wanted, specifier) {
            return true;
        }
    }
    false
}

/// The name that a declarator declares, and its place.
pub(crate) fn name_of(declarator: &Declarator) -> (Name, Place)
    ensures { result ≡ (declared_name (declarator_tree declarator.now), declarator_place (declarator_tree declarator.now)) }
{
    match declarator {
        Declarator::Name { name, place, .. } => (*name, *place),
        Declarator::Nested { inside, .. } => name_of(inside),
    }
}

// Adds an object.
fn add_object(
    one: &InitDeclarator,
    internal: bool,
    found: &mut Vec<Declared>,
) -> Result<(), NoMemory>
    ensures { OnOk result (map declared_of found.new.items
        ≡ map declared_of found.old.items ++ objects_of internal (init_declarator_tree one.now ∷ [])) }
{
    let (name, place) = name_of(&one.declarator);
    found.push(Declared {
        name,
        place,
        defined: true,
        internal,
    })?;
    Ok(())
}

// Adds objects.
fn add_objects(
    declarators: &[InitDeclarator],
    internal: bool,
    found: &mut Vec<Declared>,
) -> Result<(), NoMemory>
    ensures { OnOk result (map declared_of found.new.items
        ≡ map declared_of found.old.items ++ objects_of internal (map init_declarator_tree declarators.now)) }
{
    for one in declarators {
        add_object(one, internal, found)?;
    }
    Ok(())
}

// Adds the objects of a declaration.
fn add_declaration(declaration: &Declaration, found: &mut Vec<Declared>) -> Result<(), NoMemory>
    ensures { OnOk result (map declared_of found.new.items
        ≡ map declared_of found.old.items ++ declared_by (a_declaration (declaration_tree declaration.now))) }
{
    if has_storage(&declaration.specifiers, Storage::Typedef) {
        return Ok(());
    }
    let internal = has_storage(&declaration.specifiers, Storage::Static);
    add_objects(&declaration.declarators, internal, found)
}

// Adds a function.
fn add_function(function: &Function, found: &mut Vec<Declared>) -> Result<(), NoMemory>
    ensures { OnOk result (map declared_of found.new.items
        ≡ map declared_of found.old.items ++ declared_by (a_function (function_tree function.now))) }
{
    let internal = has_storage(&function.specifiers, Storage::Static);
    found.push(Declared {
        name: function.name,
        place: function.place,
        defined: function.body.is_some(),
        internal,
    })?;
    Ok(())
}

// Adds a task.
fn add_task(name: Name, place: Place, found: &mut Vec<Declared>) -> Result<(), NoMemory>
    ensures { OnOk result (map declared_of found.new.items ≡ map declared_of found.old.items
        ++ (record { name = name; place = place; defined = true; internal = false }) ∷ []) }
{
    found.push(Declared {
        name,
        place,
        defined: true,
        internal: false,
    })?;
    Ok(())
}

// Adds what a part of a file declares.
fn add_item(item: &Item, found: &mut Vec<Declared>) -> Result<(), NoMemory>
    ensures { OnOk result (map declared_of found.new.items
        ≡ map declared_of found.old.items ++ declared_by (item_tree item.now)) }
{
    match item {
        Item::Declaration(declaration) => add_declaration(declaration, found),
        Item::Function(function) => add_function(function, found),
        Item::Task {
            name,
            name_place,
            ..
        } => add_task(*name, *name_place, found),
        Item::Empty | Item::Mutex { .. } => Ok(()),
    }
}

// What a file declares.
fn declared_in(alloc: Global, file: &File) -> Result<Vec<Declared>, NoMemory>
    ensures { IfOk result (λ found. map declared_of found.items ≡ declared_in (file_tree file.now)) }
{
    let mut found = Vec::new(alloc);
    for item in &file.items {
        add_item(item, &mut found)?;
    }
    Ok(found)
}

// Whether a text begins with another one.
fn begins_with(text: &[u8], front: &[u8]) -> bool
    ensures { IsTrue result ↔ ((rest : List ℕ) × (text.now ≡ front.now ++ rest)) }
{
    text.starts_with(front)
}

// Whether compilers may take a name as one of their own.
fn is_reserved_name(name: &[u8]) -> bool
    ensures { IsTrue result ↔ IsReservedName name.now }
{
    if begins_with(name, b"__builtin_".as_slice()) {
        return true;
    }
    if begins_with(name, b"__sync_".as_slice()) {
        return true;
    }
    if begins_with(name, b"__atomic_".as_slice()) {
        return true;
    }
    is_of_library(name)
}

// Whether a place comes before another one.
fn is_before(one: Place, other: Place) -> bool
    ensures { IsTrue result ↔ IsPlaceBefore one other }
{
    one.line < other.line || (one.line == other.line && one.col < other.col)
}

// Whether another declaration leaves it to this one: it is not static, so that the name is of external linkage (C99
// 6.2.2p3), it is no definition where this is none, and it stands behind it where it is one as this is.
fn yields(it: Declared, other: Declared) -> bool
    ensures { IsTrue result ↔ Yields (declared_of it) (declared_of other) }
{
    if other.name != it.name {
        return true;
    }
    if other.internal {
        return false;
    }
    if other.defined != it.defined {
        return it.defined;
    }
    is_before(it.place, other.place) || (it.place == other.place && !it.internal)
}

// Of two declarations of a name the one that others of that name have to yield to: who yields to it yields to both.
fn foremost(one: Declared, other: Declared) -> Declared
    ensures { IsKept (declared_of one) (declared_of other) (declared_of result) }
{
    if one.internal {
        return one;
    }
    if yields(one, other) { one } else { other }
}

// What is to be kept of the name of a declaration.
fn joined(found: &IndexMap<Name, Declared>, it: Declared) -> Declared
    ensures { IsJoined (get is_same_name found.now it.name) it result }
{
    match found.get(&it.name) {
        Some(other) => foremost(*other, it),
        None => it,
    }
}

// Keeps it of the name of one declaration more.
fn add_foremost(found: &mut IndexMap<Name, Declared>, it: Declared) -> Result<(), NoMemory>
    ensures { OnOk result (AddsOne (get is_same_name found.old) (get is_same_name found.new) it) }
{
    let kept = joined(found, it);
    match found.insert(it.name, kept) {
        Ok(_) => Ok(()),
        Err(_) => Err(NoMemory),
    }
}

// Of each name the declaration that decides which one is told.
fn foremost_of(alloc: Global, declared: &[Declared]) -> Result<IndexMap<Name, Declared>, NoMemory>
    ensures { IfOk result (λ found. AreForemost declared.now (length declared.now) (get is_same_name found)) }
{
    let mut found = IndexMap::new(alloc);
    for it in declared {
        add_foremost(&mut found, *it)?;
    }
    Ok(found)
}

// Whether a declaration yields to what is kept of its name.
fn is_first(found: &IndexMap<Name, Declared>, it: Declared) -> bool
    ensures { IsTrue result ↔ YieldsTo (get is_same_name found.now it.name) (declared_of it) }
{
    match found.get(&it.name) {
        Some(kept) => yields(it, *kept),
        None => true,
    }
}

// Whether a name is told at this one of its declarations.
fn is_told(bytes: &[u8], found: &IndexMap<Name, Declared>, it: Declared) -> bool
    ensures { IsTrue result ↔ (YieldsTo (get is_same_name found.now it.name) (declared_of it)
        × IsReservedName (text_of bytes.now it.name)) }
{
    if is_first(found, it) {
        is_reserved_name(text_of(bytes, it.name))
    } else {
        false
    }
}

// Adds the places of the declarations at which their names are told.
fn add_told(
    bytes: &[u8],
    declared: &[Declared],
    found: &IndexMap<Name, Declared>,
    choices: &mut Vec<Choice>,
) -> Result<(), NoMemory>
    requires { AreForemost declared.now (length declared.now) (get is_same_name found.now) }
    ensures { OnOk result (Adds choices.old.items choices.new.items
        (OfKind Kind.Reserved (IsReservedAmong bytes.now (map declared_of declared.now)))) }
{
    for it in declared {
        let choice = Choice {
            place: it.place,
            kind: Kind::Reserved,
        };
        let told = is_told(bytes, found, *it);
        add_where(told, choice, choices)?;
    }
    Ok(())
}

/// Adds the places of functions and objects of external linkage with names of C99's library, or with names that gcc and
/// clang know (C99 7.1.3p1): where a function is defined, or else where it is first declared.
pub(crate) fn add_reserved_names(
    alloc: Global,
    bytes: &[u8],
    file: &File,
    choices: &mut Vec<Choice>,
) -> Result<(), NoMemory>
    ensures { OnOk result (Adds choices.old.items choices.new.items
        (OfKind Kind.Reserved (IsReservedAmong bytes.now (declared_in (file_tree file.now))))) }
{
    let declared = declared_in(alloc, file)?;
    let found = foremost_of(alloc, &declared)?;
    add_told(bytes, &declared, &found, choices)
}
