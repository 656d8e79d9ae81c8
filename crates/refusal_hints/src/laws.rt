//! Laws of hints.

ghost use Rattle.std.specs.Prelude.{◌≡◌, ℕ, List, Some};
ghost use Rattle.tm_terms.specs.declared.places.Place.{Place as PlaceOf};
ghost use Rattle.tm_terms.specs.declared.refusals.Kind.{Kind as KindOf};
ghost use Rattle.refusal_hints.specs.declared.constructs.Construct.{Construct as ConstructOf};
ghost use Rattle.refusal_hints.specs.Hints.{IsFitting, construct_at};

/// A construct is told only where the patterns of one of its rows stand.
pub fn told_where_it_stands()
    ensures { (text : List ℕ) (place : PlaceOf) (kind : KindOf) (construct : ConstructOf)
        → construct_at text place kind ≡ Some construct → IsFitting text place kind construct }
{}
