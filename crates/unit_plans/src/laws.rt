//! What the definitions say by themselves: nothing here runs.

ghost use Rattle.std.specs.Prelude.{◌≡◌, List, None, Option, false, true};
ghost use Rattle.std.specs.List.{AllByRecursion};
ghost use Rattle.unit_plans.specs.Copies.{knowns_of};
ghost use Rattle.unit_plans.specs.LeftOut.{IsLeftRightly};
ghost use Rattle.unit_plans.specs.Linkages.{Lists, is_linked, is_renamed};
ghost use Rattle.unit_plans.specs.Plans.{fate_by};
ghost use Rattle.unit_plans.specs.declared.declarations.Local.{Local as Name};
ghost use Rattle.unit_plans.specs.declared.declarations.Role.TheVariants as roles;
ghost use Rattle.unit_plans.specs.declared.declarations.Sight.{Sight as Seen};
ghost use Rattle.unit_tokens.specs.declared.fates.Fate.TheVariants as fates;

/// A name with external linkage gets no new one, nor do those of members and what is no name.
pub fn renaming()
    ensures linked { (lists : Lists) (name common : Option Name) → is_linked lists name ≡ true
        → is_renamed lists name common ≡ false }
    ensures members { (lists : Lists) (sight : Seen) → sight.role ≡ roles.None
        → fate_by lists sight None ≡ fates.Stays }
{}

/// What is left out stands in a whole declaration at file scope that defines nothing, and that another unit has token
/// for token.
pub fn left_out()
    ensures { (all : List Seen) → AllByRecursion (IsLeftRightly all) (knowns_of all) }
{}
