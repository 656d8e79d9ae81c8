//! Whole files (C99 6.9).
ghost use Rattle.std.specs.Prelude.{◌≡◌, ◌<◌, length, IfOk, IfSome};
ghost use Rattle.tm_trees.specs.Parsing.{IsPlaceOf, Parses, answer_of};
ghost use Rattle.c_parser.specs.reading.Founds.{whole};
ghost use Rattle.c_parser.specs.reading.FileDescent.{is_end, file};

use crate::brackets::first_deep;
use crate::items::item;
use c_decl_parser::reads::{Read, push};
use std::alloc::Global;
use tm_lattice::NoMemory;
use tm_terms::{Fail, Kind, Names, Place, Refusal, Token};
use tm_trees::File;

// The greatest height of the parts of an item: the file and the item are nodes above them.
const PART_HEIGHT: u32 = 498;

fn is_end(tokens: &[Token]) -> bool
    ensures { result ≡ is_end tokens.now }
{
    match tokens {
        [] => true,
        _ => false,
    }
}

// A whole file.
fn file<'a>(alloc: Global, tokens: &'a [Token]) -> Result<Read<'a, File>, NoMemory>
    ensures { IfOk result (λ read. whole read ≡ file tokens.now) }
{
    let mut types = Names::new(alloc);
    let mut items = Vec::new(alloc);
    let mut rest = tokens;
    let limit = tokens.len();
    'items: for _i in 0..limit {
        if is_end(rest) {
            return Ok(Read::Found(File { items }, rest));
        }
        match item(alloc, &mut types, PART_HEIGHT, rest)? {
            Read::Stuck(at) => return Ok(Read::Stuck(at)),
            Read::Found(one, next) => {
                push(&mut items, one)?;
                rest = next;
            }
        }
    }
    if is_end(rest) {
        return Ok(Read::Found(File { items }, rest));
    }
    Ok(Read::Stuck(rest))
}

// The place of the first of the tokens `rest` that end the text, or of its last token.
fn place_of(tokens: &[Token], rest: &[Token]) -> Place
    requires { 0 < length tokens.now }
    ensures { IsPlaceOf tokens.now result }
{
    let last = tokens.len() - 1;
    let at = tokens.len().saturating_sub(rest.len()).min(last);
    tokens[at].place
}

fn refused(kind: Kind, place: Place) -> Fail
    ensures { result ≡ Fail.Refused (record { kind = kind; place = place; limit = None }) }
{
    Fail::Refused(Refusal {
        kind,
        place,
        limit: None,
    })
}

/// Reads a file of height at most 500 from all of its tokens. Where more than 200 brackets are open the
/// answer is `Deep` at the first bracket too many; where the tokens spell no such file, it is `Syntax` at
/// the token at which no form of the grammar goes on, or at the last one.
pub fn parse(alloc: Global, tokens: &[Token]) -> Result<File, Fail>
    ensures told { IfSome (answer_of result) (λ answer. Parses tokens.now answer) }
{
    match first_deep(tokens) {
        Some(place) => Err(refused(Kind::Deep, place)),
        None => match file(alloc, tokens) {
            Err(NoMemory) => Err(Fail::NoMemory),
            Ok(Read::Found(file, _)) => Ok(file),
            Ok(Read::Stuck(rest)) => Err(refused(Kind::Syntax, place_of(tokens, rest))),
        },
    }
}
