//! How far sets of values extend.
use pointer_dom::{AbsValue, PointerSet};
use strided_dom::Strided;

/// How far a set of values extends. Two sets of pointers to different objects may extend equally far.
#[derive(Clone, Copy)]
pub struct Extent {
    /// Its numbers.
    pub numbers: Strided,
    /// The offsets of its pointers to objects, in cells, whatever the object.
    pub offsets: Strided,
    /// Whether it has the null pointer.
    pub null: bool,
    /// Whether it has the invalid pointer.
    pub invalid: bool,
}

/// That of these numbers, and no pointer.
pub fn numbers_alone(numbers: Strided) -> Extent {
    Extent {
        numbers,
        offsets: Strided::empty(),
        null: false,
        invalid: false,
    }
}

/// That of no value.
pub(crate) fn no_extent() -> Extent {
    numbers_alone(Strided::empty())
}

// The offsets of pointers, in whatever object.
fn offsets_of(pointers: &PointerSet) -> Strided {
    let mut all = Strided::empty();
    for (_, offsets) in pointers.objects().entries() {
        all = all.hull(&offsets.set());
    }
    all
}

/// That of a set of values.
pub fn extent_of(value: &AbsValue) -> Extent {
    match value.pointers() {
        None => numbers_alone(value.numbers()),
        Some(pointers) => Extent {
            numbers: value.numbers(),
            offsets: offsets_of(pointers),
            null: pointers.has_null(),
            invalid: pointers.has_invalid(),
        },
    }
}

/// That of both together.
pub(crate) fn joined(one: &Extent, other: &Extent) -> Extent {
    Extent {
        numbers: one.numbers.hull(&other.numbers),
        offsets: one.offsets.hull(&other.offsets),
        null: one.null || other.null,
        invalid: one.invalid || other.invalid,
    }
}

/// That of what both have.
pub fn common(one: &Extent, other: &Extent) -> Extent {
    Extent {
        numbers: one.numbers.meet(&other.numbers),
        offsets: one.offsets.meet(&other.offsets),
        null: one.null && other.null,
        invalid: one.invalid && other.invalid,
    }
}

/// Whether it has a value.
pub(crate) fn has_some(extent: &Extent) -> bool {
    !extent.numbers.is_empty() || !extent.offsets.is_empty() || extent.null || extent.invalid
}

/// Whether all values of the one are among those of the other.
pub fn is_within(one: &Extent, other: &Extent) -> bool {
    one.numbers.below(&other.numbers)
        && one.offsets.below(&other.offsets)
        && (!one.null || other.null)
        && (!one.invalid || other.invalid)
}

// From the least to the greatest number; 0 where there is none.
fn width(set: &Strided) -> u128 {
    if set.is_empty() {
        return 0;
    }
    set.hi().abs_diff(set.lo())
}

/// Whether it has the null or the invalid pointer.
pub fn is_flagged(extent: &Extent) -> bool {
    extent.null || extent.invalid
}

/// What is compared where the set with the most values is looked for: from the least to the greatest number or offset,
/// in numbers or cells. The null and the invalid pointer count more than any of these.
pub fn weight(extent: &Extent) -> u128 {
    if is_flagged(extent) {
        return u128::MAX;
    }
    width(&extent.numbers).max(width(&extent.offsets))
}

/// The least and the greatest of its numbers; none where it has no number.
pub fn bounds(extent: &Extent) -> Option<(i128, i128)> {
    if extent.numbers.is_empty() {
        return None;
    }
    Some((extent.numbers.lo(), extent.numbers.hi()))
}
