//! The laws of the equations of a program. They speak of definitions alone: no call is made.
ghost use Rattle.std.specs.Prelude.{◌≡◌, ◌<◌, ℕ, true, List, Option, IfSome, length};
ghost use Rattle.region_cells.specs.tm_lattice.Tables.{IsBelow};
ghost use Rattle.region_cells.specs.tm_lattice.Fitting.{IsFitting, IsBottom, IsMonotone};
ghost use Rattle.region_cells.specs.tm_laid.Layouts.{abstract_at};
ghost use Rattle.edge_filters.specs.pointer_dom.Values.{Values};
ghost use Rattle.edge_filters.specs.interfere_set.Stores.{Interferences, no_interference};
ghost use Rattle.edge_filters.specs.transfer_rows.StateForms.{State, IsStateUnder};
ghost use Rattle.edge_filters.specs.edge_actions.Layouts.{is_shared_cell};
ghost use Rattle.task_equations.specs.typed_values.Types.{IsOfType};
ghost use Rattle.task_equations.specs.table_covers.Systems.{IsLawfulSystem};
ghost use Rattle.task_equations.specs.table_covers.Solutions.{NodeTable, at, least_of, IsLeastSolution};
ghost use Rattle.task_equations.specs.Equations.{equations_of};
ghost use Rattle.program_equations.specs.Programs.{ProgramBodies, body_at, IsProgram};
ghost use Rattle.program_equations.specs.Entries.{entry_state, first_state};
ghost use Rattle.program_equations.specs.Systems.{states, stores, FitsBody, FitsProgram};
ghost use Rattle.program_equations.specs.Systems.{task_entry, task_system, least_section, least_local, pass_of};
ghost use Rattle.program_equations.specs.Systems.{added_at, IsSection, IsSectionBelow, IsLeastSection};
ghost use Rattle.program_equations.specs.Solutions.{IsWholeLawful, IsWholeLeast};

/// The equations of each body of a program, over a store that fits, are a system of equations in the states that fit
/// the body.
pub fn equations_are_lawful()
    ensures { (p : ProgramBodies) → IsProgram p → (t : ℕ) → t < length p.bodies → (entry : Option State)
        (store : Interferences) → FitsProgram p store → IfSome entry (FitsBody (body_at p t) 0)
        → IsLawfulSystem states.is_value states.leq states.joined (FitsBody (body_at p t))
        (equations_of (body_at p t) entry store) }
{}

/// Each body of a program begins in a state that fits it: before anything has run, where cells of static storage have
/// values of their types, and after each solution of the initial section. And where one such solution lies below
/// another, so do the states at the entries after them.
pub fn entries_fit()
    ensures given { (p : ProgramBodies) → IsProgram p → (t : ℕ) → t < length p.bodies → (shared : ℕ → Values)
        → ((x : ℕ) → is_shared_cell p.laid x ≡ true
        → (let a = abstract_at p.laid x in IsOfType p.laid a.scalar (shared x)))
        → FitsBody (body_at p t) 0 (entry_state p.laid t shared) }
    ensures first { (p : ProgramBodies) → IsProgram p → (t : ℕ) → t < length p.bodies
        → FitsBody (body_at p t) 0 (first_state p.laid t) }
    ensures later { (p : ProgramBodies) → IsProgram p → (section : List (Option State)) → IsSection p section → (t : ℕ)
        → t < length p.bodies → IfSome (task_entry p section t) (FitsBody (body_at p t) 0) }
    ensures rise { (p : ProgramBodies) → IsProgram p → (one other : List (Option State)) → IsSection p one
        → IsSection p other → IsSectionBelow p one other → (t : ℕ)
        → IsBelow IsStateUnder (task_entry p one t) (task_entry p other t) }
{}

/// A program is lawful: its equations are systems of equations that rise with the store and with the table of the
/// initial section, of which there is a least one; and a pass of a task is the least store that holds what its edges
/// contribute at its least table.
pub fn programs_are_lawful()
    ensures { (p : ProgramBodies) → IsProgram p → IsWholeLawful p (least_section p) (least_local p) }
{}

/// What the passes, joins and roundings of stores that fit a program make fits it; the store with no entry is below all
/// stores, and its own rounding; and a pass over more gives more.
pub fn passes_are_lawful()
    ensures fitting { (p : ProgramBodies) → IsProgram p
        → IsFitting stores p.marks p.tasks no_interference (pass_of p) (FitsProgram p) }
    ensures bottom { (p : ProgramBodies) → IsProgram p → IsBottom stores p.marks no_interference }
    ensures monotone { (p : ProgramBodies) → IsProgram p → IsMonotone stores p.tasks (pass_of p) (FitsProgram p) }
{}

/// A least solution of the initial section agrees with its least table at each node, and tasks begin alike after both.
/// A least solution of a task after it agrees with the task's least table, and what its edges contribute is the task's
/// pass.
pub fn entries_are_one()
    ensures sections { (p : ProgramBodies) → IsProgram p → (section : List (Option State))
        → IsLeastSection p section → p.tasks < length p.bodies → (n : ℕ)
        → n < (let b = body_at p p.tasks in length b.nodes) → at section n ≡ at (least_section p) n }
    ensures entries { (p : ProgramBodies) → IsProgram p → (section : List (Option State))
        → IsLeastSection p section → (t : ℕ) → task_entry p section t ≡ task_entry p (least_section p) t }
    ensures tables { (p : ProgramBodies) → IsProgram p → (section : List (Option State)) → IsLeastSection p section
        → (t : ℕ) → t < p.tasks → (store : Interferences) → FitsProgram p store → (table : NodeTable State)
        → IsLeastSolution states (FitsBody (body_at p t)) (task_system p section store t) table → (n : ℕ)
        → n < (let b = body_at p t in length b.nodes) → table n ≡ least_local p t store n }
    ensures passes { (p : ProgramBodies) → IsProgram p → (section : List (Option State)) → IsLeastSection p section
        → (t : ℕ) → t < p.tasks → (store : Interferences) → FitsProgram p store → (table : NodeTable State)
        → IsLeastSolution states (FitsBody (body_at p t)) (task_system p section store t) table
        → added_at p t table ≡ pass_of p t store }
    ensures least_passes { (p : ProgramBodies) → IsProgram p → (section : List (Option State))
        → IsLeastSection p section → (t : ℕ) → t < p.tasks → (store : Interferences) → FitsProgram p store
        → added_at p t (least_of states (FitsBody (body_at p t)) (task_system p section store t)) ≡ pass_of p t store }
{}

/// Tables that are least solutions, of the initial section, and of each task after it over a store, are with the store
/// the least solution of the whole program where the least tables are.
pub fn wholes_are_one()
    ensures { (p : ProgramBodies) → IsProgram p → (section : List (Option State)) → IsLeastSection p section
        → (store : Interferences) (tables : ℕ → NodeTable State)
        → ((t : ℕ) → t < p.tasks
        → IsLeastSolution states (FitsBody (body_at p t)) (task_system p section store t) (tables t))
        → IsWholeLeast p (least_section p) (λ t. least_local p t store) store → IsWholeLeast p section tables store }
{}
