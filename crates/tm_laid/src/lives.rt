//! Which objects are alive on a call path.
ghost use Rattle.std.specs.Prelude.{◌≡◌};
ghost use Rattle.tm_laid.specs.Layouts.{laid_tree, is_on_path, is_alive};

use crate::layouts::Laid;
use crate::lookups::{object_at, path_at};

// Whether a call path begins with another one.
fn is_on_path(laid: &Laid, first: u32, path: u32) -> bool
    ensures { result ≡ is_on_path (laid_tree laid.now) first path }
{
    let end = u64::from(first) + u64::from(path_at(laid, first).paths);
    first <= path && u64::from(path) < end
}

/// Whether an object is alive on a call path: it is of static storage, or the path begins with the one whose parameter
/// or local object it is.
pub fn is_alive(laid: &Laid, path: u32, object: u32) -> bool
    ensures { result ≡ is_alive (laid_tree laid.now) path object }
{
    match object_at(laid, object).owner {
        Some(owner) => is_on_path(laid, owner, path),
        None => true,
    }
}
