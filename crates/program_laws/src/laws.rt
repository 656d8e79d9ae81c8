//! The laws. They speak of definitions alone: no call is made.
ghost use Rattle.std.specs.Prelude.{ℕ, ℤ, List, Ok};
ghost use Rattle.layout_laws.specs.tm_typed.TypedFiles.{typed_file_tree};
ghost use Rattle.layout_laws.specs.tm_laid.declared.layouts.Laid.{Laid};
ghost use Rattle.layout_laws.specs.tm_laid.declared.scales.Scale.{Scale};
ghost use Rattle.layout_laws.specs.tm_laid.Layouts.{LaidTree, laid_tree};
ghost use Rattle.layout_laws.specs.tm_laid.Layable.{IsLayable};
ghost use Rattle.operation_laws.specs.call_graph.Orders.{IsWholeOrder};
ghost use Rattle.graph_builder.specs.flow_graph.declared.graphs.Graph.{Graph};
ghost use Rattle.graph_builder.specs.Lowered.{AreGraphs};
ghost use Rattle.operation_laws.specs.mutex_configs.declared.nodes.ConfiguredGraph.{ConfiguredGraph};
ghost use Rattle.operation_laws.specs.mutex_configs.declared.programs.Program.{Program};
ghost use Rattle.operation_laws.specs.mutex_configs.Programs.{IsAnswer};
ghost use Rattle.thresholds.specs.Thresholds.{Numbers, AreThresholds};
ghost use Rattle.program_systems.specs.typed_values.Types.{HaveEnds};
ghost use Rattle.operation_laws.specs.lowering_laws.LaidFiles.{IsLaidFile};
ghost use Rattle.program_systems.specs.program_equations.Programs.{ProgramBodies, IsProgramOf, IsProgram};
ghost use Rattle.program_systems.specs.Analysable.{IsAnalysable};

/// Thresholds have the least and the greatest value of each integer type.
pub fn thresholds_have_ends()
    ensures { (numbers : Numbers) (marks : List ℤ) → AreThresholds numbers marks → HaveEnds marks }
{}

/// The program of a typed file that is laid out, of its graphs, their configured graphs and thresholds, keeps what the
/// equations ask: its bodies are those of the tasks and of at most one initial section; operations fit the sorts of
/// temporaries, and their constants lead to no object; tests are comparisons, or have labels of integer types; each
/// cell that an access reaches is of an abstract cell with the same values; nothing is live at the entry, to which no
/// edge leads; cells of static storage hold values of their types at first; and no limit is exceeded.
pub fn prepared_programs_are_programs()
    ensures { (laid : LaidTree) → IsLaidFile laid → (graphs : List Graph) (configured : List ConfiguredGraph)
        → (scale : Scale) → AreGraphs scale laid graphs → IsAnswer scale laid graphs (Ok configured)
        → (numbers : Numbers) (marks : List ℤ) → AreThresholds numbers marks
        → (p : ProgramBodies) → IsProgramOf laid graphs configured marks p → IsProgram p }
{}

/// A typed file that is laid out can be laid out in the order of functions that typing found, where that is all of its
/// functions, each behind those that it calls.
pub fn files_are_layable()
    ensures { (laid : Laid) → IsLaidFile (laid_tree laid)
        → IsWholeOrder (typed_file_tree laid.file).calls laid.file.order.items
        → IsLayable (typed_file_tree laid.file) laid.file.order.items }
{}

/// A prepared program can be analysed: one whose file is typed, laid out, and has its functions in an order in which
/// each stands behind those that it calls, with its graphs, their configured graphs and thresholds.
pub fn prepared_programs_are_analysable()
    ensures { (program : Program) → IsLaidFile (laid_tree program.laid)
        → IsWholeOrder (typed_file_tree program.laid.file).calls program.laid.file.order.items
        → (scale : Scale) → AreGraphs scale (laid_tree program.laid) program.graphs.graphs.items
        → IsAnswer scale (laid_tree program.laid) program.graphs.graphs.items (Ok program.configured.items)
        → (numbers : Numbers) → AreThresholds numbers program.marks → IsAnalysable program }
{}
