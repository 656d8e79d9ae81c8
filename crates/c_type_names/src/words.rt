//! Specifiers one after the other, where their tags are declared.
ghost use Rattle.std.specs.Prelude.{◌≡◌, None};
ghost use Rattle.tm_terms.specs.declared.refusals.Fail.{Fail};
ghost use Rattle.tm_typed.specs.Refusals.{Gives};
ghost use Rattle.tm_typed.specs.Scopes.{named, tagged};
ghost use Rattle.tm_typed.specs.Specifiers.{nothing_said, alias_rules, struct_rules, enum_rules, word_rules};
ghost use Rattle.tm_typed.specs.TypeNames.{words_said};

use crate::said::{nothing_said, plain, said_basic, said_qualifier, said_type};
use c_scope::Scope;
use tm_terms::{Fail, Kind, Place, Refusal, Spec, SpecWord, TagKind};
use tm_typed::{CType, Named, Said, Tagged, enumeration_number};

/// A refusal of this kind at this place.
pub fn refusal(kind: Kind, place: Place) -> Fail
    ensures { result ≡ Fail.Refused (record { kind = kind; place = place; limit = None }) }
{
    Fail::Refused(Refusal {
        kind,
        place,
        limit: None,
    })
}

fn alias(said: Said, place: Place, named: Option<Named>) -> Result<Said, Fail>
    ensures { Gives (λ d. d) result (alias_rules said place named) }
{
    match named {
        Some(Named::Alias(of)) => Ok(said_type(said, of)),
        Some(_) | None => Err(refusal(Kind::Undeclared, place)),
    }
}

fn tagged_struct(
    scope: &Scope,
    said: Said,
    place: Place,
    tagged: Option<Tagged>,
) -> Result<Said, Fail>
    ensures { Gives (λ d. d) result (struct_rules scope.now said place tagged) }
{
    match tagged {
        Some(Tagged::Structure(structure)) => {
            let number = scope.number(CType::Struct(structure));
            Ok(said_type(said, plain(number)))
        }
        Some(Tagged::Enumeration { .. }) => Err(refusal(Kind::Redeclared, place)),
        None => Err(refusal(Kind::Undeclared, place)),
    }
}

fn tagged_enum(said: Said, place: Place, tagged: Option<Tagged>) -> Result<Said, Fail>
    ensures { Gives (λ d. d) result (enum_rules said place tagged) }
{
    match tagged {
        Some(Tagged::Enumeration { is_from_zero }) => {
            Ok(said_type(said, plain(enumeration_number(is_from_zero))))
        }
        Some(Tagged::Structure(_)) => Err(refusal(Kind::Redeclared, place)),
        None => Err(refusal(Kind::Undeclared, place)),
    }
}

/// What one more specifier says, whose tag is declared.
pub fn word(scope: &Scope, said: Said, spec: Spec) -> Result<Said, Fail>
    ensures { Gives (λ d. d) result (word_rules scope.now said spec.place spec.word) }
{
    match spec.word {
        SpecWord::Storage(storage) => Ok(Said {
            storage: Some(storage),
            ..said
        }),
        SpecWord::Qualifier(qualifier) => Ok(said_qualifier(said, qualifier)),
        SpecWord::Basic(basic) => Ok(said_basic(said, basic)),
        SpecWord::Alias(name) => alias(said, spec.place, scope.named(name)),
        SpecWord::Tagged {
            kind: TagKind::Struct,
            tag,
            tag_place,
        } => tagged_struct(scope, said, tag_place, scope.tagged(tag)),
        SpecWord::Tagged {
            kind: TagKind::Enum,
            tag,
            tag_place,
        } => tagged_enum(said, tag_place, scope.tagged(tag)),
    }
}

/// What specifiers say together, whose tags are declared.
#[tactic(auto, using(crate::proofs::Frames::passes, crate::proofs::Frames::goes_on))]
pub(crate) fn words(scope: &Scope, specs: &[Spec]) -> Result<Said, Fail>
    ensures { Gives (λ d. d) result (words_said scope.now nothing_said specs.now) }
{
    let mut said = nothing_said();
    'words: for spec in specs {
        said = word(scope, said, *spec)?;
    }
    Ok(said)
}
