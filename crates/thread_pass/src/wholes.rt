//! Programs as wholes: passes until nothing is added end in the least solution.
ghost use Rattle.std.specs.Prelude.{◌∷◌, List};
ghost use Rattle.tm_lattice.specs.Rounds.{IsHistory, IsClosed};
ghost use Rattle.interfere_set.specs.Stores.{Interferences};
ghost use Rattle.program_equality.specs.program_equations.Programs.{ProgramBodies, IsProgram};
ghost use Rattle.program_equality.specs.program_equations.Systems.{stores, least_section, least_local};
ghost use Rattle.program_equality.specs.program_equations.Solutions.{passing, IsWholeLeast};

use crate::analyses::{Analysis, SectionTable};
use least_tables::Analysed;
use program_systems::BodyState;

impl Analysed for Analysis {
    ghost use Rattle.program_equality.specs.program_equations.Solutions.{node_count, links_in, after_in, entry_in};
    ghost use Rattle.program_equality.specs.program_equations.Solutions.{outward_in, heads_in};
    ghost use Rattle.program_equality.specs.program_equations.Solutions.{suits_in, limit_in, added_in};
    ghost use Rattle.cell_env.specs.States.{state_height};
    ghost use Rattle.program_equality.specs.value_heights.Heights.{value_height};
    ghost use Rattle.program_equality.specs.program_equations.Systems.{IsSection, IsSectionBelow, least_section};
    ghost use Rattle.program_equality.specs.program_equations.Systems.{least_local};
    ghost use Rattle.thread_pass.specs.laws.WholeLawful.{whole_is_lawful};
    ghost use Rattle.program_systems.specs.ReadPrograms.{program_of};

    type State = BodyState;

    type Before = SectionTable;

    ghost nodes = { λ p. node_count (program_of p) };

    ghost links_of = { λ p. links_in (program_of p) };

    ghost after = { λ p. after_in (program_of p) };

    ghost entry = { λ p. entry_in (program_of p) };

    ghost outward = { λ p. outward_in (program_of p) };

    ghost heads = { λ p. heads_in (program_of p) };

    ghost suits = { λ p. suits_in (program_of p) };

    ghost height = { state_height value_height };

    ghost limit = { λ p. limit_in (program_of p) };

    ghost added = { λ p. added_in (program_of p) };

    ghost is_before = { λ p. IsSection (program_of p) };

    ghost precedes = { λ p. IsSectionBelow (program_of p) };

    ghost before = { λ p. least_section (program_of p) };

    ghost table_of = { λ p. least_local (program_of p) };

    ghost whole = { whole_is_lawful };
}

/// A store that ends a history of passes and to which no pass adds anything, with the least tables over it and that of
/// the initial section, is the least solution of the program: so it is one for every order of the passes.
pub fn closed_stores_are_least()
    ensures { (p : ProgramBodies) (store : Interferences) (earlier : List Interferences) → IsProgram p
        → IsHistory stores passing p (store ∷ earlier) → IsClosed stores passing p store
        → IsWholeLeast p (least_section p) (λ t. least_local p t store) store }
{}
