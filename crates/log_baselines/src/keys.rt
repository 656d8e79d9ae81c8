//! By what results of two logs match.

ghost use Rattle.std.specs.Prelude.{◌≡◌, ◌++◌, ◌∷◌, [], ℕ, ◌<◌, List, Some, length, slice_get, map, IfOk, OnOk, string_bytes};
ghost use Rattle.log_baselines.specs.Keys.{key_of, keys_of};
ghost use Rattle.log_baselines.specs.reading.Seen.{IsIndex, text_seen};

use std::alloc::{AllocError, Global};
use std::collections::HashMap;

/// A fingerprint, a space, and how many equal ones stand before.
fn key_of(alloc: Global, print: &str, number: usize) -> Result<String, AllocError>
    ensures { IfOk result (λ key. string_bytes key ≡ key_of print.now number) }
{
    format!(in alloc; "{print} {number}")
}

/// The fingerprint at a place.
fn print_at<'p>(prints: &[&'p str], at: usize) -> &'p str
    requires { at < length prints.now }
    ensures { slice_get prints.now at ≡ Some result }
{
    prints[at]
}

/// The keys of results, by their fingerprints.
pub fn keys_of(alloc: Global, prints: &[&str]) -> Result<Vec<String>, AllocError>
    ensures { IfOk result (λ keys. map string_bytes keys.items ≡ keys_of (map text_seen prints.now)) }
{
    let mut keys = Vec::with_capacity(alloc, prints.len())?;
    let mut counts: HashMap<&str, usize> = HashMap::new(alloc);
    for i in 0..prints.len() {
        let print = print_at(prints, i);
        let count = counts.get(print).copied().unwrap_or(0);
        keys.push(key_of(alloc, print, count)?)?;
        counts.insert(print, count + 1)?;
    }
    Ok(keys)
}

/// Adds where a key stands, unless it stands before.
fn push_key<'k>(
    index: &mut HashMap<&'k str, usize>,
    key: &'k str,
    at: usize,
) -> Result<(), AllocError>
    ensures { OnOk result ((keys : List (List ℕ)) → length keys ≡ at → IsIndex index.old keys
        → IsIndex index.new (keys ++ key.now ∷ [])) }
{
    if index.contains_key(key) {
        return Ok(());
    }
    index.insert(key, at)?;
    Ok(())
}

/// Where each key stands first.
pub fn index_of(alloc: Global, keys: &[String]) -> Result<HashMap<&str, usize>, AllocError>
    ensures { IfOk result (λ index. IsIndex index (map string_bytes keys.now)) }
{
    let mut index: HashMap<&str, usize> = HashMap::new(alloc);
    for i in 0..keys.len() {
        push_key(&mut index, keys[i].as_str(), i)?;
    }
    Ok(index)
}
