//! Values that are compared, and lists of them.
ghost use Rattle.std.specs.Prelude.{◌≡◌, ◌↔◌, IsTrue};

/// Plain data that is compared as a whole. Most crates that own such types derive no `PartialEq` for them.
pub(crate) trait Alike {
    /// Whether both are the same value.
    fn is_alike(&self, other: &Self) -> bool
        ensures { IsTrue result ↔ (self.now ≡ other.now) };
}

/// Whether two lists are as long, and have the same values in the same order.
pub(crate) fn are_alike<T: Alike>(one: &[T], other: &[T]) -> bool
    ensures { IsTrue result ↔ (one.now ≡ other.now) }
{
    if one.len() != other.len() {
        return false;
    }
    for index in 0..one.len() {
        if !one[index].is_alike(&other[index]) {
            return false;
        }
    }
    true
}
