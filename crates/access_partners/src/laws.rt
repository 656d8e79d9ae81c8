//! The laws. They speak of definitions alone: no call is made.
ghost use Rattle.std.specs.Prelude.{ℕ};
ghost use Rattle.post_recheck.specs.transfer_rows.StateForms.{State};
ghost use Rattle.post_recheck.specs.table_covers.Solutions.{NodeTable};
ghost use Rattle.post_recheck.specs.program_equations.Programs.{ProgramBodies};
ghost use Rattle.access_groups.specs.declared.object_access.ObjectAccess.{ObjectAccess};
ghost use Rattle.access_partners.specs.Partners.{ArePartners};

/// Where one access races with another, that one races with it.
pub fn partners_are_mutual()
    ensures { (p : ProgramBodies) (tables : ℕ → NodeTable State) (object : ℕ) (e f : ObjectAccess)
        → ArePartners p tables object e f → ArePartners p tables object f e }
{}
