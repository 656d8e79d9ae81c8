//! The calls of each function, in the order of their numbers.
ghost use Rattle.std.specs.Prelude.{◌≡◌, [], ◌∷◌, ◌++◌, ◌<◌, length, slice_get, OnOk, OnSome};
ghost use Rattle.tm_typed.specs.CallGraph.{calls_in};
ghost use Rattle.call_graph.specs.Graphs.{lists};

use tm_lattice::NoMemory;

// The call of the function f that stands at the place k among its calls.
pub(crate) fn call_at(calls: &[Vec<u32>], f: u32, k: usize) -> Option<u32>
    ensures call { result ≡ slice_get (calls_in (lists calls.now) f) k }
    ensures room { OnSome result (k < usize.MAX) }
{
    match calls.get(f as usize) {
        None => None,
        Some(callees) => callees.get(k).copied(),
    }
}

// The functions that f calls.
pub(crate) fn calls_of(calls: &[Vec<u32>], f: u32) -> &[u32]
    requires { f < length calls.now }
    ensures { result.now ≡ calls_in (lists calls.now) f }
{
    calls[f as usize].as_slice()
}

// One more at the end.
pub(crate) fn push(items: &mut Vec<u32>, item: u32) -> Result<(), NoMemory>
    ensures { OnOk result (items.new.items ≡ items.old.items ++ item ∷ []) }
{
    match items.push(item) {
        Ok(()) => Ok(()),
        Err(_) => Err(NoMemory),
    }
}
