ghost use Rattle.std.specs.Prelude.{◌≡◌, ℕ, List, [], IfOk, OnOk, unwrap_or};
ghost use Rattle.tm_terms.specs.Spelling.{noted, noted_at, start_of, text_of, told, with_first_names};
ghost use Rattle.c_lexer.specs.reading.Starts.{HasStarts};

use std::alloc::Global;
use std::collections::BTreeMap;
use tm_lattice::NoMemory;
use tm_terms::{Name, Shape, Token, behind, front};

// Where a text stood first as a name: where the map has it, or else here, and the map has it then.
fn first_start<'a>(
    starts: &mut BTreeMap<&'a [u8], u32>,
    text: &'a [u8],
    here: u32,
) -> Result<u32, NoMemory>
    ensures start { (table : List (List ℕ × ℕ)) → HasStarts starts.old table
        → IfOk result (λ start. start ≡ unwrap_or (start_of table text.now) here) }
    ensures noted { (table : List (List ℕ × ℕ)) → HasStarts starts.old table
        → OnOk result (HasStarts starts.new (noted_at table text.now here)) }
{
    if let Some(start) = starts.get(&text) {
        return Ok(*start);
    }
    match starts.insert(text, here) {
        Ok(_) => Ok(here),
        Err(_) => Err(NoMemory),
    }
}

// The token, with a name told by where its text stood first.
fn told<'a>(
    starts: &mut BTreeMap<&'a [u8], u32>,
    bytes: &'a [u8],
    token: Token,
) -> Result<Token, NoMemory>
    ensures shape { (table : List (List ℕ × ℕ)) → HasStarts starts.old table
        → IfOk result (λ t. t ≡ record { shape = told bytes.now table token.shape; place = token.place }) }
    ensures noted { (table : List (List ℕ × ℕ)) → HasStarts starts.old table
        → OnOk result (HasStarts starts.new (noted bytes.now table token.shape)) }
{
    match token.shape {
        Shape::Name(name) => {
            let text = front(behind(bytes, name.start as usize), name.length as usize);
            let start = first_start(starts, text, name.start)?;
            Ok(Token {
                shape: Shape::Name(Name {
                    start,
                    length: name.length,
                }),
                place: token.place,
            })
        }
        Shape::Word(_) | Shape::Integer(_) | Shape::Character(_) | Shape::Sign(_) => Ok(token),
    }
}

/// Tells each name by where its text stands first among the tokens.
pub fn tell_names(alloc: Global, bytes: &[u8], tokens: &mut Vec<Token>) -> Result<(), NoMemory>
    ensures { OnOk result (tokens.new.items ≡ with_first_names bytes.now [] tokens.old.items) }
{
    let mut starts = BTreeMap::new(alloc);
    for i in 0..tokens.len() {
        let token = told(&mut starts, bytes, tokens[i])?;
        tokens[i] = token;
    }
    Ok(())
}
