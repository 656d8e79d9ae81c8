//! Laws of runs, each the contract of a function that does nothing.
ghost use Rattle.std.specs.Prelude.{◌≡◌, ℕ, ◌<◌, ◌≤◌, ◌^◌, length, Some, None};
ghost use Rattle.layout_laws.specs.tm_laid.Layouts.{LaidTree};
ghost use Rattle.program_shape.specs.concrete_steps.NextAction.{After, next};
ghost use Rattle.program_shape.specs.concrete_steps.Worlds.{World};
ghost use Rattle.program_shape.specs.concrete_steps.Occurring.{IsReached};
ghost use Rattle.program_shape.specs.flow_graph.Graphs.{Edges, IsLive};
ghost use Rattle.program_shape.specs.flow_graph.Runs.{at_entry};
ghost use Rattle.lowering_laws.specs.lowering.Built.{graph_of};
ghost use Rattle.lowering_laws.specs.LaidFiles.{IsLaidFile};
ghost use Rattle.program_shape.specs.tm_soundness.Numbered.{TaskOf};
ghost use Rattle.program_shape.specs.tm_soundness.Section.{alone};
ghost use Rattle.program_shape.specs.tm_soundness.Worlds.{IsLowered, IsReached as IsTheoremReached};
ghost use Rattle.program_equations.specs.Readings.{read_layout};
ghost use Rattle.program_shape.specs.Shape.{Parts, shape_of};
ghost use Rattle.sound_runs.specs.Sources.{source_of, LaysCells, IsRunning, KeepsAddresses};
ghost use Rattle.sound_runs.specs.Addresses.{HasKinds};
ghost use Rattle.sound_runs.specs.Images.{the_shape, the_section, the_source, section_source, tasks_world, memory_of};
ghost use Rattle.sound_runs.specs.Images.{IsImage};
ghost use Rattle.sound_runs.specs.Programs.{HasGraphs};

/// Graphs that run along the next actions of bodies are lowered as the soundness theorem wants: where a task stands,
/// its next action is that of an edge that leaves, at its place; an access goes to a cell of its type that the task may
/// use; and each answer that fits leads on.
pub fn graphs_are_lowered()
    ensures { (x : Parts) (next_of : ℕ → After) → LaysCells x.laid
        → ((i : TaskOf x.tasks)
        → IsRunning x.laid (x.graph (x.number i)) (x.number i) (next_of (x.number i)))
        → IsLowered (shape_of x) (source_of x next_of) (λ i. at_entry.temps) }
{}

/// Over what is read of the layout of a typed file each object has its cells, with abstract cells of their types; and
/// the graph of each body runs along the next actions of the body, where parts and elements are taken within their
/// objects.
pub fn graphs_run_over_readings()
    ensures cells { (laid : LaidTree) → IsLaidFile laid → LaysCells (read_layout laid) }
    ensures runs { (laid : LaidTree) → IsLaidFile laid → length laid.objects ≤ 2 ^ 32 → (body : ℕ)
        → body < length laid.bodies → KeepsAddresses (read_layout laid) (graph_of laid body)
        → IsRunning (read_layout laid) (graph_of laid body) body (next laid body) }
{}

/// Parts and elements are taken within their objects where each operation keeps the kinds of its temporaries, of which
/// none is live at the entry.
pub fn addresses_are_kept()
    ensures { (laid : LaidTree) (body : ℕ) (g : Edges) → HasKinds laid body g → ((temp : ℕ) → IsLive g temp 0 → ⊥)
        → KeepsAddresses laid g }
{}

/// For each world that a run reaches one of the theorem's worlds stands, which is reached from the same memory.
pub fn worlds_are_images()
    ensures { (laid : LaidTree) (graph : ℕ → Edges) → IsLaidFile laid → length laid.objects ≤ 2 ^ 32 → (main : ℕ)
        → laid.file.main ≡ Some main → (w : World) → IsReached laid w → IsImage laid graph w }
{}

/// So it is without an initial section, where only tasks run.
pub fn worlds_are_plain_images()
    ensures { (laid : LaidTree) (graph : ℕ → Edges) → IsLaidFile laid → length laid.objects ≤ 2 ^ 32
        → laid.file.main ≡ None → (w : World) → IsReached laid w
        → IsTheoremReached (the_shape laid graph) (the_source laid graph) (memory_of laid graph)
        (tasks_world laid graph w) }
{}

/// The graphs of the bodies of a file are lowered so: those of the tasks, and that of the initial section alone.
pub fn files_are_lowered()
    ensures tasks { (laid : LaidTree) (graph : ℕ → Edges) → HasGraphs laid graph
        → IsLowered (the_shape laid graph) (the_source laid graph) (λ i. at_entry.temps) }
    ensures section { (laid : LaidTree) (graph : ℕ → Edges) → HasGraphs laid graph → (main : ℕ)
        → laid.file.main ≡ Some main
        → IsLowered (alone (the_shape laid graph) (the_section laid graph)) (section_source laid graph)
        (λ i. at_entry.temps) }
{}
