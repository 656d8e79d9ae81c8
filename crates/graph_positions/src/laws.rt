//! What positions stand on, and where they stand.
ghost use Rattle.std.specs.Prelude.{◌≡◌, ℕ, List, Ok};
ghost use Rattle.tm_laid.specs.tm_typed.declared.files.TypedFile.{TypedFile};
ghost use Rattle.tm_laid.specs.tm_typed.TypedFiles.{typed_file_tree};
ghost use Rattle.tm_laid.specs.declared.layouts.Laid.{Laid};
ghost use Rattle.tm_laid.specs.declared.scales.Scale.{Scale};
ghost use Rattle.tm_laid.specs.Layouts.{LaidTree, laid_tree, laid_out};
ghost use Rattle.tm_laid.specs.Layable.{IsLayable};
ghost use Rattle.concrete_values.specs.declared.values.Answer.{Answer};
ghost use Rattle.concrete_values.specs.declared.actions.Next.{Next};
ghost use Rattle.flow_graph.specs.Graphs.{Edges};
ghost use Rattle.flow_graph.specs.Runs.{Memory, at_entry, move, GraphNext};
ghost use Rattle.flow_graph.specs.Positions.{Reaches, Is, StandsAt};
ghost use Rattle.graph_positions.specs.Layouts.{IsServing};

/// The layout of a file that can be laid out serves, where it keeps the file's order of functions.
pub fn layouts_serve()
    ensures { (scale : Scale) (typed : TypedFile) (laid : Laid) → IsLayable (typed_file_tree typed) typed.order.items
        → laid_out scale (typed_file_tree typed) ≡ Ok (laid_tree laid) → laid.file.order.items ≡ typed.order.items
        → IsServing laid }
{}

/// Where these answers lead, and from where nothing goes on by itself, a task of the graph stands after them.
pub fn stands_where_it_leads()
    ensures { (laid : LaidTree) (g : Edges) (next_is : List Answer → Next)
        → ((answers : List Answer) → GraphNext laid g answers (next_is answers)) → (answers : List Answer) (node : ℕ)
        (m : Memory) (n : Next) → Reaches laid g 0 at_entry answers node m → Is (move laid g node m) n
        → StandsAt laid g next_is answers node m }
{}
