//! What opens the body of a structure or an enumeration (C99 6.7.2.1, 6.7.2.2).
ghost use Rattle.std.specs.Prelude.{◌≡◌};
ghost use Rattle.c_decl_parser.specs.reading.Openings.{seen_opened};
ghost use Rattle.c_decl_parser.specs.reading.DeclarationDescent.{tag_at, opened_by, opened_word, opened};

use c_expr_parser::marks::{Mark, after, name_at};
use tm_terms::{Place, Shape, TagKind, Token, Word};
use tm_trees::Tag;

/// `struct` or `enum`, its place, and the tag, if there is one, before a `{`.
#[derive(Clone, Copy)]
pub struct Opening {
    pub kind: TagKind,
    pub tag: Option<Tag>,
    pub place: Place,
}

// A tag, if a name comes first.
fn tag_at(tokens: &[Token]) -> (Option<Tag>, &[Token])
    ensures { (result.0, result.1.now) ≡ tag_at tokens.now }
{
    match name_at(tokens) {
        None => (None, tokens),
        Some((name, place, rest)) => (Some(Tag { name, place }), rest),
    }
}

fn opened_by(kind: TagKind, place: Place, tokens: &[Token]) -> Option<(Opening, &[Token])>
    ensures { seen_opened result ≡ opened_by kind place (tag_at tokens.now) }
{
    let (tag, next) = tag_at(tokens);
    match after(Mark::OpenBrace, next) {
        None => None,
        Some(rest) => Some((Opening { kind, tag, place }, rest)),
    }
}

fn opened_word(word: Word, place: Place, tokens: &[Token]) -> Option<(Opening, &[Token])>
    ensures { seen_opened result ≡ opened_word word place tokens.now }
{
    match word {
        Word::Struct => opened_by(TagKind::Struct, place, tokens),
        Word::Enum => opened_by(TagKind::Enum, place, tokens),
        _ => None,
    }
}

/// What opens the body of a structure or an enumeration, if it comes first, and what follows its `{`.
#[tactic(auto, unfolding(crate::specs::reading::DeclarationDescent::opened))]
pub fn opened(tokens: &[Token]) -> Option<(Opening, &[Token])>
    ensures { seen_opened result ≡ opened tokens.now }
{
    if let [first, rest @ ..] = tokens {
        return match first.shape {
            Shape::Word(word) => opened_word(word, first.place, rest),
            _ => None,
        };
    }
    None
}
