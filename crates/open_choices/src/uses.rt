//! LIFETIME, where pointers are used: an object is followed, compared or tested outside of its block.
ghost use Rattle.std.specs.Prelude.{◌≡◌, ◌↔◌, IsTrue};
ghost use Rattle.post_recheck.specs.transfer_rows.StateForms.{value_of};
ghost use Rattle.operand_orders.specs.reading.Scopes.{AreLivesOf};
ghost use Rattle.operand_orders.specs.reading.Views.{solved};
ghost use Rattle.open_choices.specs.reading.Found.{LeadsOut};

use calculations::pointers_of;
use cell_env::State;
use operand_orders::{BodyView, ObjectLives, is_open};
use pointer_dom::{AbsValue, PointerSet};

// Whether a pointer may lead to a local object that is not open at an edge.
fn leads_out(view: BodyView<'_>, lives: &ObjectLives, edge: usize, pointers: &PointerSet) -> bool
    requires { AreLivesOf view.origins.now.lives.items lives.now }
    ensures { IsTrue result ↔ LeadsOut (solved view.entry) edge pointers.now }
{
    for (object, _offsets) in pointers.objects().entries() {
        if !is_open(view, lives, edge, *object) {
            return true;
        }
    }
    false
}

/// The same of the pointer in a temporary.
pub(crate) fn pointer_leads_out(
    view: BodyView<'_>,
    lives: &ObjectLives,
    edge: usize,
    state: &State<AbsValue>,
    pointer: u32,
) -> bool
    requires { AreLivesOf view.origins.now.lives.items lives.now }
    ensures { IsTrue result ↔ (let v = value_of state.now pointer in LeadsOut (solved view.entry) edge v.pointers) }
{
    let none = PointerSet::new(view.alloc);
    leads_out(view, lives, edge, pointers_of(state, pointer, &none))
}
