//! Specifiers, pointer parts and type names (C99 6.7, 6.7.5, 6.7.6).
ghost use Rattle.std.specs.Prelude.{◌≡◌, ◌||◌, [], ◌∷◌, ◌++◌, length, false, IfOk, OnOk};
ghost use Rattle.tm_terms.specs.ExprTrees.{type_tree};
ghost use Rattle.tm_terms.specs.ExprSpelling.{is_type_spec};
ghost use Rattle.c_expr_parser.specs.reading.Founds.{seen_type};
ghost use Rattle.c_expr_parser.specs.reading.Parts.{seen_pair, name_at, spec_at, word_spec, tagged_by};
ghost use Rattle.c_expr_parser.specs.reading.Parts.{specs_from, pointer_by, pointer_at, pointers_from, without_first};
ghost use Rattle.c_expr_parser.specs.reading.Parts.{type_name, begins_type, begins_word};

use crate::found::Tried;
use crate::marks::name_at;
use crate::operators::spec_of;
use crate::spec_lists::{is_type_name_list, is_type_spec};
use std::alloc::Global;
use tm_lattice::NoMemory;
use tm_terms::{
    Name, Names, Place, PointerWord, Shape, Sign, Spec, SpecWord, TagKind, Token, TypeName, Word,
};

/// The specifier that comes first, where `seen` says whether a type stands before it in the list.
pub fn spec_at<'a>(types: &Names, seen: bool, tokens: &'a [Token]) -> Option<(Spec, &'a [Token])>
    ensures { seen_pair result ≡ spec_at types.now seen tokens.now }
{
    if let [first, rest @ ..] = tokens {
        let place = first.place;
        match first.shape {
            Shape::Name(name) => {
                if types.contains(name) && !seen {
                    return Some((
                        Spec {
                            word: SpecWord::Alias(name),
                            place,
                        },
                        rest,
                    ));
                }
                return None;
            }
            Shape::Word(word) => return word_spec(spec_of(word), word, place, rest),
            _ => return None,
        }
    }
    None
}

fn word_spec<'a>(
    found: Option<SpecWord>,
    word: Word,
    place: Place,
    rest: &'a [Token],
) -> Option<(Spec, &'a [Token])>
    ensures { seen_pair result ≡ word_spec found word place rest.now }
{
    match found {
        Some(word) => Some((Spec { word, place }, rest)),
        None => match word {
            Word::Struct => tagged(TagKind::Struct, place, rest),
            Word::Enum => tagged(TagKind::Enum, place, rest),
            _ => None,
        },
    }
}

// A tag after `struct` or `enum`.
fn tagged<'a>(kind: TagKind, place: Place, rest: &'a [Token]) -> Option<(Spec, &'a [Token])>
    ensures { seen_pair result ≡ tagged_by kind place (name_at rest.now) }
{
    match name_at(rest) {
        None => None,
        Some((tag, tag_place, next)) => {
            let word = SpecWord::Tagged {
                kind,
                tag,
                tag_place,
            };
            Some((Spec { word, place }, next))
        }
    }
}

/// Whether the first token begins a type name.
pub fn begins_type(types: &Names, tokens: &[Token]) -> bool
    ensures { result ≡ begins_type types.now tokens.now }
{
    if let [first, ..] = tokens {
        return match first.shape {
            Shape::Name(name) => types.contains(name),
            Shape::Word(word) => begins_word(spec_of(word), word),
            _ => false,
        };
    }
    false
}

fn begins_word(found: Option<SpecWord>, word: Word) -> bool
    ensures { result ≡ begins_word found word }
{
    match found {
        Some(_) => true,
        None => match word {
            Word::Struct => true,
            Word::Enum => true,
            _ => false,
        },
    }
}

fn pointer_by(started: bool, shape: Shape) -> Option<PointerWord>
    ensures { result ≡ pointer_by started shape }
{
    match (started, shape) {
        (_, Shape::Sign(Sign::Star)) => Some(PointerWord::Star),
        (true, Shape::Word(Word::Const)) => Some(PointerWord::Const),
        (true, Shape::Word(Word::Volatile)) => Some(PointerWord::Volatile),
        (true, Shape::Word(Word::Restrict)) => Some(PointerWord::Restrict),
        _ => None,
    }
}

// The token of a pointer part that comes first.
fn pointer_at(started: bool, tokens: &[Token]) -> Option<PointerWord>
    ensures { result ≡ pointer_at started tokens.now }
{
    if let [first, ..] = tokens {
        return pointer_by(started, first.shape);
    }
    None
}

fn without_first(tokens: &[Token]) -> &[Token]
    ensures { result.now ≡ without_first tokens.now }
{
    if let [_, rest @ ..] = tokens {
        return rest;
    }
    tokens
}

fn push_spec(specs: &mut Vec<Spec>, spec: Spec) -> Result<(), NoMemory>
    ensures { OnOk result (specs.new.items ≡ specs.old.items ++ spec ∷ []) }
{
    match specs.push(spec) {
        Ok(()) => Ok(()),
        Err(_) => Err(NoMemory),
    }
}

fn push_pointer(words: &mut Vec<PointerWord>, word: PointerWord) -> Result<(), NoMemory>
    ensures { OnOk result (words.new.items ≡ words.old.items ++ word ∷ []) }
{
    match words.push(word) {
        Ok(()) => Ok(()),
        Err(_) => Err(NoMemory),
    }
}

// Whether a type was seen, here or before.
fn sees_type(seen: bool, word: SpecWord) -> bool
    ensures { result ≡ (seen || is_type_spec word) }
{
    seen || is_type_spec(word)
}

// All specifiers that come first.
fn read_specs<'a>(
    alloc: Global,
    types: &Names,
    tokens: &'a [Token],
) -> Result<(Vec<Spec>, &'a [Token]), NoMemory>
    ensures { IfOk result (λ found. (found.0.items, found.1.now)
        ≡ specs_from types.now (length tokens.now) false [] tokens.now) }
{
    let mut specs = Vec::new(alloc);
    let mut seen = false;
    let mut rest = tokens;
    let limit = tokens.len();
    for _i in 0..limit {
        match spec_at(types, seen, rest) {
            None => return Ok((specs, rest)),
            Some((spec, next)) => {
                let still_seen = sees_type(seen, spec.word);
                push_spec(&mut specs, spec)?;
                seen = still_seen;
                rest = next;
            }
        }
    }
    Ok((specs, rest))
}

/// The pointer part that comes first.
pub fn read_pointers<'a>(
    alloc: Global,
    tokens: &'a [Token],
) -> Result<(Vec<PointerWord>, &'a [Token]), NoMemory>
    ensures { IfOk result (λ found. (found.0.items, found.1.now)
        ≡ pointers_from (length tokens.now) false [] tokens.now) }
{
    let mut words = Vec::new(alloc);
    let mut started = false;
    let mut rest = tokens;
    let limit = tokens.len();
    for _i in 0..limit {
        match pointer_at(started, rest) {
            None => return Ok((words, rest)),
            Some(word) => {
                started = true;
                push_pointer(&mut words, word)?;
                rest = without_first(rest);
            }
        }
    }
    Ok((words, rest))
}

// The type name that comes first (C99 6.7.6).
pub(crate) fn read_type_name<'a>(
    alloc: Global,
    types: &Names,
    tokens: &'a [Token],
) -> Result<Tried<'a, (TypeName, &'a [Token])>, NoMemory>
    ensures { IfOk result (λ found. seen_type found ≡ type_name types.now tokens.now) }
{
    let (specs, after_specs) = read_specs(alloc, types, tokens)?;
    let (pointers, rest) = read_pointers(alloc, after_specs)?;
    if is_type_name_list(&specs) {
        return Ok(Tried::Found((TypeName { specs, pointers }, rest)));
    }
    Ok(Tried::Stuck(after_specs))
}
