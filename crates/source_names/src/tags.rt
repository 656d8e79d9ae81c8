//! The tags of structures.
ghost use Rattle.std.specs.Prelude.{◌≡◌, ◌<◌, ◌++◌, List, All, IfOk, IfSome, OnOk, Ok, Some, option_to_list};
ghost use Rattle.tm_terms.specs.Spelling.{Lexes};
ghost use Rattle.tm_terms.specs.Limits.{most_tokens};
ghost use Rattle.tm_terms.specs.declared.tokens.Token.{Token as TokenOf};
ghost use Rattle.source_names.specs.Tags.{StandsIn, IsTagIn};

use c_lexer::lex;
use c_scope::Tags;
use std::alloc::Global;
use tm_lattice::NoMemory;
use tm_terms::limits::{MOST_BYTES, MOST_TOKENS};
use tm_terms::{Fail, Name, Shape, Sign, Token, Word};
use tm_typed::{TagBinding, Tagged};

// What follows a `struct`: the tag, and the sign behind it.
#[derive(Clone, Copy)]
struct Mention {
    tag: Option<Name>,
    next: Option<Sign>,
}

// An open brace: whether a block begins there, and how many tags are declared outside of the innermost block.
#[derive(Clone, Copy)]
struct Brace {
    is_block: bool,
    outer: usize,
}

// What is read so far: the tags in scope, of each structure whether its members are known, and the open braces.
struct Read {
    tags: Tags,
    opened: Vec<bool>,
    braces: Vec<Brace>,
}

// By hand: a function that lets one go calls this, and its check does not go through the fields.
impl Drop for Read {
    fn drop(self) {
        let Read {
            tags: _tags,
            opened: _opened,
            braces: _braces,
        } = self;
    }
}

// A name of no bytes.
fn no_name() -> Name
    ensures { result.length ≡ 0 }
{
    Name {
        start: 0,
        length: 0,
    }
}

// The sign at this place of the tokens, if one stands there.
fn sign_at(tokens: &[Token], at: usize) -> Option<Sign> {
    match tokens.get(at) {
        Some(token) => match token.shape {
            Shape::Sign(sign) => Some(sign),
            _ => None,
        },
        None => None,
    }
}

// The name at this place, if one stands there.
fn name_at(tokens: &[Token], at: usize) -> Option<Name>
    ensures { IfSome result (λ name. StandsIn tokens.now name) }
{
    match tokens.get(at) {
        Some(token) => match token.shape {
            Shape::Name(name) => Some(name),
            _ => None,
        },
        None => None,
    }
}

// What stands behind the `struct` at this place.
fn mention_behind(tokens: &[Token], at: usize) -> Mention
    ensures { IfSome result.tag (λ name. StandsIn tokens.now name) }
{
    let behind = at.saturating_add(1);
    let tag = name_at(tokens, behind);
    let next = match tag {
        Some(_) => sign_at(tokens, behind.saturating_add(1)),
        None => sign_at(tokens, behind),
    };
    Mention { tag, next }
}

// Whether a brace is opened.
fn is_open(sign: Option<Sign>) -> bool {
    match sign {
        Some(Sign::OpenBrace) => true,
        _ => false,
    }
}

// Whether a declaration ends.
fn is_end(sign: Option<Sign>) -> bool {
    match sign {
        Some(Sign::Semicolon) => true,
        _ => false,
    }
}

// How many tags are declared outside of the innermost block.
fn outer_of(braces: &[Brace]) -> usize {
    match braces.last() {
        Some(brace) => brace.outer,
        None => 0,
    }
}

// The structure that has a tag by a declaration of the innermost block.
fn structure_here(read: &Read, tag: Name) -> Option<u32> {
    match read.tags.named_since(outer_of(&read.braces), tag) {
        Some(Tagged::Structure(number)) => Some(number),
        _ => None,
    }
}

// Whether the members of a structure are known.
fn is_known(opened: &[bool], structure: u32) -> bool {
    match opened.get(structure as usize) {
        Some(is) => *is,
        None => false,
    }
}

// Whether a mention of a tag declares a structure anew (C99 6.7.2.3).
fn is_new(read: &Read, mention: Mention, tag: Name) -> bool {
    if read.tags.named(tag).is_none() {
        return true;
    }
    match structure_here(read, tag) {
        Some(structure) => is_open(mention.next) && is_known(&read.opened, structure),
        None => is_open(mention.next) || is_end(mention.next),
    }
}

// The members of a structure of the innermost block become known.
fn open(read: &mut Read, tag: Name) {
    if let Some(structure) = structure_here(read, tag) {
        let at = structure as usize;
        if at < read.opened.len() {
            read.opened[at] = true;
        }
    }
}

// A number of 32 bits.
fn numbered(count: usize) -> u32 {
    if count < 4_294_967_295 {
        count as u32
    } else {
        4_294_967_295
    }
}

// Declares a structure with a tag.
fn declare(read: &mut Read, mention: Mention, tag: Name) -> Result<(), NoMemory> {
    let number = numbered(read.opened.len());
    read.opened.push(is_open(mention.next))?;
    read.tags.push(TagBinding {
        name: tag,
        tagged: Tagged::Structure(number),
    })
}

// Reads the mention of a structure: the tag of the one that it declares, if it declares one.
fn read_mention(read: &mut Read, mention: Mention) -> Result<Option<Name>, NoMemory>
    ensures { IfOk result (λ found. IfSome found (λ name. 0 < name.length → mention.tag ≡ Some name)) }
{
    let Some(tag) = mention.tag else {
        read.opened.push(is_open(mention.next))?;
        return Ok(Some(no_name()));
    };
    if is_new(read, mention, tag) {
        declare(read, mention, tag)?;
        return Ok(Some(tag));
    }
    if is_open(mention.next) {
        open(read, tag);
    }
    Ok(None)
}

// A brace ends, and with a block the scope of its tags.
fn close(read: &mut Read) {
    if let Some(brace) = read.braces.pop() {
        if brace.is_block {
            read.tags.truncate(brace.outer);
        }
    }
}

// Whether the brace at this place begins a block: it does not where members or constants follow.
fn begins_block(tokens: &[Token], at: usize) -> bool {
    let before = at.saturating_sub(1);
    let tag = match name_at(tokens, before) {
        Some(_) => before.saturating_sub(1),
        None => before,
    };
    match tokens.get(tag) {
        Some(token) => match token.shape {
            Shape::Word(Word::Struct) | Shape::Word(Word::Enum) => false,
            _ => true,
        },
        None => true,
    }
}

// The brace at this place begins.
fn begin(read: &mut Read, is_block: bool) -> Result<(), NoMemory> {
    let outer = if is_block {
        read.tags.len()
    } else {
        outer_of(&read.braces)
    };
    read.braces.push(Brace { is_block, outer })?;
    Ok(())
}

// Reads the token at this place: the tag of the structure that it declares, if it declares one.
fn read_token(tokens: &[Token], read: &mut Read, at: usize) -> Result<Option<Name>, NoMemory>
    ensures { IfOk result (λ found. IfSome found (λ name. IsTagIn tokens.now name)) }
{
    let Some(token) = tokens.get(at) else {
        return Ok(None);
    };
    match token.shape {
        Shape::Word(Word::Struct) => read_mention(read, mention_behind(tokens, at)),
        Shape::Sign(Sign::OpenBrace) => {
            begin(read, begins_block(tokens, at))?;
            Ok(None)
        }
        Shape::Sign(Sign::CloseBrace) => {
            close(read);
            Ok(None)
        }
        _ => Ok(None),
    }
}

// Adds a tag, if there is one.
fn push_some(found: &mut Vec<Name>, tag: Option<Name>) -> Result<(), NoMemory>
    ensures { OnOk result (found.new.items ≡ found.old.items ++ option_to_list tag) }
{
    if let Some(tag) = tag {
        found.push(tag)?;
    }
    Ok(())
}

// The tags of the structures that tokens declare.
#[tactic(auto, using(crate::proofs::TagLists::one_more))]
fn tags_of(alloc: Global, tokens: &[Token]) -> Result<Vec<Name>, NoMemory>
    ensures { IfOk result (λ tags. All (IsTagIn tokens.now) tags.items) }
{
    let mut found = Vec::new(alloc);
    let mut read = Read {
        tags: Tags::new(alloc),
        opened: Vec::new(alloc),
        braces: Vec::new(alloc),
    };
    for at in 0..tokens.len() {
        push_some(&mut found, read_token(tokens, &mut read, at)?)?;
    }
    Ok(found)
}

/// The tags of the structures of a source, in the order in which they are declared: a name of no bytes where one has
/// none.
pub fn structure_tags(alloc: Global, bytes: &[u8]) -> Result<Vec<Name>, NoMemory>
    ensures there { (tokens : List TokenOf) → Lexes most_tokens bytes.now (Ok tokens)
        → IfOk result (λ tags. All (IsTagIn tokens) tags.items) }
{
    if bytes.len() > MOST_BYTES as usize {
        return Ok(Vec::new(alloc));
    }
    match lex(alloc, bytes, MOST_TOKENS as usize) {
        Ok(tokens) => tags_of(alloc, &tokens),
        Err(Fail::Refused(_)) => Ok(Vec::new(alloc)),
        Err(Fail::NoMemory) => Err(NoMemory),
    }
}
