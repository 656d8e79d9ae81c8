//! The law of addresses, the contract of a function that does nothing.
ghost use Rattle.std.specs.Prelude.{ℕ, ◌<◌, ◌≤◌, ◌^◌, length};
ghost use Rattle.operation_laws.specs.tm_laid.Layouts.{LaidTree};
ghost use Rattle.operation_laws.specs.lowering.Built.{graph_of};
ghost use Rattle.operation_laws.specs.lowering_laws.LaidFiles.{IsLaidFile};
ghost use Rattle.sound_runs.specs.program_equations.Readings.{read_layout};
ghost use Rattle.sound_runs.specs.Sources.{KeepsAddresses};
ghost use Rattle.sound_runs.specs.Addresses.{HasKinds};

/// In the graph of each body of a typed file that is laid out, each temporary whose address is taken further holds one
/// at which its type stands. So parts and elements are taken within their objects wherever control comes to them, over
/// what is read of the layout, where numbers of 32 bits are enough for the objects.
pub fn addresses_stay_within()
    ensures kinds { (laid : LaidTree) → IsLaidFile laid → length laid.objects ≤ 2 ^ 32 → (body : ℕ)
        → body < length laid.bodies → HasKinds laid body (graph_of laid body) }
    ensures addresses { (laid : LaidTree) → IsLaidFile laid → length laid.objects ≤ 2 ^ 32 → (body : ℕ)
        → body < length laid.bodies → KeepsAddresses (read_layout laid) (graph_of laid body) }
{}
