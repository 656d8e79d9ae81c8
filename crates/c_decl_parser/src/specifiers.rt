//! Specifiers of declarations, structures and their members (C99 6.7, 6.7.2).
ghost use Rattle.std.specs.Prelude.{◌≡◌, ◌≤◌, ◌||◌, [], ◌∷◌, true, false, length, map, Some, IfOk};
ghost use Rattle.tm_terms.specs.ExprSpelling.{is_type_spec, is_type_name_list};
ghost use Rattle.c_expr_parser.specs.reading.Parts.{then_read, and_after, after, spec_at};
ghost use Rattle.tm_trees.specs.DeclarationTrees.{a_struct, specifier_tree, member_tree, as_members, name_or_none};
ghost use Rattle.tm_trees.specs.DeclarationTrees.{counts_as, count_as, as_specifiers, word_height};
ghost use Rattle.c_decl_parser.specs.reading.Parts.{seen};
ghost use Rattle.c_decl_parser.specs.reading.Repetitions.{until_brace, one_or_more};
ghost use Rattle.c_decl_parser.specs.reading.Openings.{opened_of, seen_begun};
ghost use Rattle.c_decl_parser.specs.reading.DeclarationDescent.{declarator, plain_by, specifier, specifiers_from};
ghost use Rattle.c_decl_parser.specs.reading.DeclarationDescent.{specifiers, body_by, body, member_after, members_by};
ghost use Rattle.c_decl_parser.specs.reading.DeclarationDescent.{member};

use crate::declarators::MemberDeclarators;
use crate::enumerations::enumerators;
use crate::lists::parts;
use crate::openings::{Opening, opened};
use crate::reads::{Read, push};
use c_expr_parser::marks::{Mark, after};
use c_expr_parser::spec_lists::{is_type_name_list, is_type_spec};
use c_expr_parser::type_names::spec_at;
use std::alloc::Global;
use tm_lattice::NoMemory;
use tm_terms::{Name, Names, Place, Spec, SpecWord, TagKind, Token};
use tm_trees::{Member, Specifier, Tag};

/// A specifier that comes first and what follows it, or that none begins, or that what begins is none.
#[derive(Drop)]
pub enum Begun<'a> {
    Whole(Specifier, &'a [Token]),
    Nothing,
    Broken(&'a [Token]),
}

// ## Lists of specifiers

fn name_or_none(tag: Option<Tag>) -> Name
    ensures { result ≡ name_or_none tag }
{
    match tag {
        None => Name {
            start: 0,
            length: 0,
        },
        Some(tag) => tag.name,
    }
}

fn tagged(kind: TagKind, tag: Option<Tag>, place: Place) -> Spec
    ensures { result ≡ record { word = SpecWord.Tagged kind (name_or_none tag) place; place = place } }
{
    let word = SpecWord::Tagged {
        kind,
        tag: name_or_none(tag),
        tag_place: place,
    };
    Spec { word, place }
}

// What a specifier counts for in a list: a structure or an enumeration for one tag.
fn counts_as(specifier: &Specifier) -> Spec
    ensures { result ≡ counts_as (specifier_tree specifier.now) }
{
    match specifier {
        Specifier::Plain(spec) => *spec,
        Specifier::Struct { tag, place, .. } => tagged(TagKind::Struct, *tag, *place),
        Specifier::Enum { tag, place, .. } => tagged(TagKind::Enum, *tag, *place),
    }
}

/// What the specifiers count for.
pub fn counted(alloc: Global, specifiers: &[Specifier]) -> Result<Vec<Spec>, NoMemory>
    ensures { IfOk result (λ v. v.items ≡ count_as (as_specifiers (map specifier_tree specifiers.now))) }
{
    let mut specs = Vec::new(alloc);
    for specifier in specifiers {
        push(&mut specs, counts_as(specifier))?;
    }
    Ok(specs)
}

/// Whether these may be the specifiers of members, or of a declaration in a block: they name one type.
pub fn names_type(alloc: Global, specifiers: &[Specifier]) -> Result<bool, NoMemory>
    ensures { IfOk result (λ named. named
        ≡ is_type_name_list (count_as (as_specifiers (map specifier_tree specifiers.now)))) }
{
    let specs = counted(alloc, specifiers)?;
    Ok(is_type_name_list(&specs))
}

// ## Specifiers

fn word_height(word: SpecWord) -> u32
    ensures { result ≡ word_height word }
{
    match word {
        SpecWord::Tagged { .. } => 1,
        SpecWord::Storage(_) | SpecWord::Qualifier(_) => 0,
        SpecWord::Basic(_) | SpecWord::Alias(_) => 0,
    }
}

// A word, a typedef name or a tag alone, as high as it may be.
fn plain<'a>(types: &Names, seen: bool, allowed: u32, tokens: &'a [Token]) -> Begun<'a>
    ensures { seen_begun result ≡ plain_by allowed (spec_at types.now seen tokens.now) }
{
    match spec_at(types, seen, tokens) {
        None => Begun::Nothing,
        Some((spec, rest)) => {
            if word_height(spec.word) <= allowed {
                Begun::Whole(Specifier::Plain(spec), rest)
            } else {
                Begun::Broken(tokens)
            }
        }
    }
}

fn structure(tag: Option<Tag>, members: Vec<Member>, place: Place) -> Specifier
    ensures { specifier_tree result ≡ a_struct tag (as_members (map member_tree members.items)) place }
{
    Specifier::Struct {
        tag,
        members,
        place,
    }
}

// Whether a type was seen, before or here.
fn sees_type(seen: bool, specifier: &Specifier) -> bool
    ensures { result ≡ (seen || is_type_spec (counts_as (specifier_tree specifier.now)).word) }
{
    seen || is_type_spec(counts_as(specifier).word)
}

/// All specifiers that come first.
#[cycle(specifiers)]
#[tactic(auto, unfolding(crate::specs::reading::DeclarationDescent::specifiers))]
pub fn specifiers<'a>(
    alloc: Global,
    types: &Names,
    allowed: u32,
    tokens: &'a [Token],
) -> Result<Read<'a, Vec<Specifier>>, NoMemory>
    requires { allowed ≤ 500 }
    ensures { IfOk result (λ read. seen (λ v. map specifier_tree v.items) read
        ≡ specifiers types.now allowed tokens.now) }
{
    if allowed == 0 {
        return Ok(Read::Stuck(tokens));
    }
    all_specifiers(alloc, types, allowed - 1, tokens)
}

// The same, where each may have the allowed height.
#[cycle(specifiers)]
fn all_specifiers<'a>(
    alloc: Global,
    types: &Names,
    allowed: u32,
    tokens: &'a [Token],
) -> Result<Read<'a, Vec<Specifier>>, NoMemory>
    requires { allowed ≤ 499 }
    ensures { IfOk result (λ read. seen (λ v. map specifier_tree v.items) read
        ≡ specifiers_from types.now allowed (body types.now allowed) (length tokens.now) false [] tokens.now) }
{
    let mut found = Vec::new(alloc);
    let mut type_seen = false;
    let mut rest = tokens;
    let limit = tokens.len();
    'specifiers: for _i in 0..limit {
        match specifier(alloc, types, type_seen, allowed, rest)? {
            Begun::Nothing => return Ok(Read::Found(found, rest)),
            Begun::Broken(at) => return Ok(Read::Stuck(at)),
            Begun::Whole(specifier, next) => {
                let still_seen = sees_type(type_seen, &specifier);
                push(&mut found, specifier)?;
                type_seen = still_seen;
                rest = next;
            }
        }
    }
    Ok(Read::Found(found, rest))
}

// The specifier that comes first.
#[cycle(specifiers)]
#[tactic(auto, unfolding(crate::specs::reading::DeclarationDescent::specifier))]
fn specifier<'a>(
    alloc: Global,
    types: &Names,
    seen: bool,
    allowed: u32,
    tokens: &'a [Token],
) -> Result<Begun<'a>, NoMemory>
    requires { allowed ≤ 499 }
    ensures { IfOk result (λ begun. seen_begun begun
        ≡ specifier types.now seen allowed (body types.now allowed) tokens.now) }
{
    match opened(tokens) {
        None => Ok(plain(types, seen, allowed, tokens)),
        Some((opening, inside)) => match body(alloc, types, allowed, opening, inside)? {
            Read::Stuck(at) => Ok(Begun::Broken(at)),
            Read::Found(specifier, rest) => Ok(Begun::Whole(specifier, rest)),
        },
    }
}

// The body of a structure or an enumeration after its `{`.
#[cycle(specifiers)]
#[tactic(auto, unfolding(crate::specs::reading::DeclarationDescent::body))]
fn body<'a>(
    alloc: Global,
    types: &Names,
    allowed: u32,
    opening: Opening,
    tokens: &'a [Token],
) -> Result<Read<'a, Specifier>, NoMemory>
    requires { allowed ≤ 499 }
    ensures { IfOk result (λ read. seen specifier_tree read ≡ body types.now allowed (opened_of opening) tokens.now) }
{
    if allowed == 0 {
        return Ok(Read::Stuck(tokens));
    }
    let tag = opening.tag;
    let place = opening.place;
    match opening.kind {
        TagKind::Struct => struct_body(alloc, types, allowed - 1, tag, place, tokens),
        TagKind::Enum => enum_body(alloc, types, allowed - 1, tag, place, tokens),
    }
}

#[cycle(specifiers)]
fn struct_body<'a>(
    alloc: Global,
    types: &Names,
    allowed: u32,
    tag: Option<Tag>,
    place: Place,
    tokens: &'a [Token],
) -> Result<Read<'a, Specifier>, NoMemory>
    requires { allowed ≤ 498 }
    ensures { IfOk result (λ read. seen specifier_tree read
        ≡ body_by types.now allowed (member types.now allowed) TagKind.Struct tag place tokens.now) }
{
    match members(alloc, types, allowed, tokens)? {
        Read::Stuck(at) => Ok(Read::Stuck(at)),
        Read::Found(members, rest) => Ok(Read::Found(structure(tag, members, place), rest)),
    }
}

fn enum_body<'a>(
    alloc: Global,
    types: &Names,
    allowed: u32,
    tag: Option<Tag>,
    place: Place,
    tokens: &'a [Token],
) -> Result<Read<'a, Specifier>, NoMemory>
    requires { allowed ≤ 500 }
    ensures { IfOk result (λ read. seen specifier_tree read
        ≡ body_by types.now allowed (member types.now allowed) TagKind.Enum tag place tokens.now) }
{
    match enumerators(alloc, types, allowed, tokens)? {
        Read::Stuck(at) => Ok(Read::Stuck(at)),
        Read::Found(enumerators, rest) => Ok(Read::Found(
            Specifier::Enum {
                tag,
                enumerators,
                place,
            },
            rest,
        )),
    }
}

// ## Members

// At least one declaration of members, and the `}`.
#[cycle(specifiers)]
fn members<'a>(
    alloc: Global,
    types: &Names,
    allowed: u32,
    tokens: &'a [Token],
) -> Result<Read<'a, Vec<Member>>, NoMemory>
    requires { allowed ≤ 498 }
    ensures { IfOk result (λ read. seen (λ v. map member_tree v.items) read
        ≡ members_by (member types.now allowed) tokens.now) }
{
    match member(alloc, types, allowed, tokens)? {
        Read::Stuck(at) => Ok(Read::Stuck(at)),
        Read::Found(first, rest) => further_members(alloc, types, allowed, first, rest),
    }
}

// Behind the first members the further ones up to the `}`.
#[cycle(specifiers)]
fn further_members<'a>(
    alloc: Global,
    types: &Names,
    allowed: u32,
    first: Member,
    tokens: &'a [Token],
) -> Result<Read<'a, Vec<Member>>, NoMemory>
    requires { allowed ≤ 498 }
    ensures { IfOk result (λ read. seen (λ v. map member_tree v.items) read
        ≡ until_brace (member types.now allowed) (length tokens.now) (member_tree first ∷ []) tokens.now) }
{
    let mut found = Vec::new(alloc);
    push(&mut found, first)?;
    let mut rest = tokens;
    let limit = tokens.len();
    'members: for _i in 0..limit {
        match after(Mark::CloseBrace, rest) {
            Some(end) => return Ok(Read::Found(found, end)),
            None => match member(alloc, types, allowed, rest)? {
                Read::Stuck(at) => return Ok(Read::Stuck(at)),
                Read::Found(member, next) => {
                    push(&mut found, member)?;
                    rest = next;
                }
            },
        }
    }
    Ok(Read::Stuck(rest))
}

// The members of one declaration.
#[cycle(specifiers)]
#[tactic(auto, unfolding(crate::specs::reading::DeclarationDescent::member))]
fn member<'a>(
    alloc: Global,
    types: &Names,
    allowed: u32,
    tokens: &'a [Token],
) -> Result<Read<'a, Member>, NoMemory>
    requires { allowed ≤ 498 }
    ensures { IfOk result (λ read. seen member_tree read ≡ member types.now allowed tokens.now) }
{
    if allowed == 0 {
        return Ok(Read::Stuck(tokens));
    }
    match specifiers(alloc, types, allowed - 1, tokens)? {
        Read::Stuck(at) => Ok(Read::Stuck(at)),
        Read::Found(found, rest) => member_after(alloc, types, allowed - 1, found, rest),
    }
}

// The declarators of members behind their specifiers, and the `;`.
fn declared_members<'a>(
    alloc: Global,
    types: &Names,
    allowed: u32,
    specifiers: Vec<Specifier>,
    tokens: &'a [Token],
) -> Result<Read<'a, Member>, NoMemory>
    requires { allowed ≤ 500 }
    ensures { IfOk result (λ read. seen member_tree read
        ≡ then_read (one_or_more (declarator true types.now allowed) tokens.now) (λ declarators a.
        and_after (after Mark.Semicolon a)
        (λ rest. Some ((as_specifiers (map specifier_tree specifiers.items), declarators), rest)))) }
{
    match parts::<MemberDeclarators>(alloc, types, allowed, tokens)? {
        Read::Stuck(at) => Ok(Read::Stuck(at)),
        Read::Found(declarators, next) => match after(Mark::Semicolon, next) {
            None => Ok(Read::Stuck(next)),
            Some(rest) => Ok(Read::Found(
                Member {
                    specifiers,
                    declarators,
                },
                rest,
            )),
        },
    }
}

// The members of one declaration, whose specifiers were read.
fn member_after<'a>(
    alloc: Global,
    types: &Names,
    allowed: u32,
    specifiers: Vec<Specifier>,
    tokens: &'a [Token],
) -> Result<Read<'a, Member>, NoMemory>
    requires { allowed ≤ 500 }
    ensures { IfOk result (λ read. seen member_tree read
        ≡ member_after types.now allowed (map specifier_tree specifiers.items) tokens.now) }
{
    let named = names_type(alloc, &specifiers)?;
    if named {
        declared_members(alloc, types, allowed, specifiers, tokens)
    } else {
        Ok(Read::Stuck(tokens))
    }
}
