//! The first token of a text.
ghost use Rattle.std.specs.Prelude.{◌≡◌, ◌||◌, not};
ghost use Rattle.tm_terms.specs.Names.{is_typedef};
ghost use Rattle.c_expr_parser.specs.reading.Parts.{seen_rest, seen_pair, seen_name};
ghost use Rattle.c_decl_parser.specs.reading.Parts.{is_keyword, after_word, place_after, declared_at};

use c_expr_parser::marks::{Mark, is_mark, name_at};
use tm_terms::{Name, Names, Place, Shape, Token, Word};

/// A word that stands inside a form.
#[derive(Clone, Copy)]
pub enum Keyword {
    Else,
    While,
    Void,
}

fn is_keyword(word: Keyword, shape: Shape) -> bool
    ensures { result ≡ is_keyword word shape }
{
    match (word, shape) {
        (Keyword::Else, Shape::Word(Word::Else)) => true,
        (Keyword::While, Shape::Word(Word::While)) => true,
        (Keyword::Void, Shape::Word(Word::Void)) => true,
        _ => false,
    }
}

/// What follows the word, if it comes first.
pub fn after_word(word: Keyword, tokens: &[Token]) -> Option<&[Token]>
    ensures { seen_rest result ≡ after_word word tokens.now }
{
    if let [first, rest @ ..] = tokens {
        if is_keyword(word, first.shape) {
            return Some(rest);
        }
    }
    None
}

/// The place of the mark that comes first, and what follows it.
pub fn place_after(mark: Mark, tokens: &[Token]) -> Option<(Place, &[Token])>
    ensures { seen_pair result ≡ place_after mark tokens.now }
{
    if let [first, rest @ ..] = tokens {
        if is_mark(mark, first.shape) {
            return Some((first.place, rest));
        }
    }
    None
}

fn may_be_declared(types: &Names, member: bool, name: Name) -> bool
    ensures { result ≡ (member || not (is_typedef types.now name)) }
{
    member || !types.contains(name)
}

/// A name that may be declared, its place, and what follows it: the name of a member may be any.
pub fn declared_at<'a>(
    types: &Names,
    member: bool,
    tokens: &'a [Token],
) -> Option<(Name, Place, &'a [Token])>
    ensures { seen_name result ≡ declared_at member types.now tokens.now }
{
    match name_at(tokens) {
        None => None,
        Some((name, place, rest)) => {
            if may_be_declared(types, member, name) {
                Some((name, place, rest))
            } else {
                None
            }
        }
    }
}
