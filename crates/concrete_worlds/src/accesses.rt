//! Accesses of next actions.
ghost use Rattle.std.specs.Prelude.{◌≡◌};
ghost use Rattle.concrete_worlds.specs.reading.Access.{access_of, do_race, races_with_some};

use concrete_values::Next;
use tm_terms::Place;

/// A load or a store of a cell.
#[derive(Clone, Copy)]
pub(crate) struct Access {
    pub(crate) object: u32,
    pub(crate) offset: u32,
    pub(crate) stores: bool,
    pub(crate) place: Place,
}

/// The access that an action is.
pub(crate) fn access_of(action: Next) -> Option<Access>
    ensures { result ≡ access_of action }
{
    match action {
        Next::Load {
            object,
            offset,
            place,
            ..
        } => Some(Access {
            object,
            offset,
            stores: false,
            place,
        }),
        Next::Store {
            object,
            offset,
            place,
            ..
        } => Some(Access {
            object,
            offset,
            stores: true,
            place,
        }),
        _ => None,
    }
}

// Two accesses of different tasks race.
fn do_race(one: Access, other: Access) -> bool
    ensures { result ≡ do_race one other }
{
    one.object == other.object && one.offset == other.offset && (one.stores || other.stores)
}

/// The access of this task races with that of another one.
pub(crate) fn races_with_some(task: usize, access: Access, accesses: &[Option<Access>]) -> bool
    ensures { result ≡ races_with_some task access 0 accesses.now }
{
    for (other, found) in accesses.iter().enumerate() {
        if let Some(found) = found {
            if other != task && do_race(access, *found) {
                return true;
            }
        }
    }
    false
}
