//! Which objects are open where.
ghost use Rattle.std.specs.Prelude.{◌≡◌, ◌↔◌, ◌⊎◌, ℕ, Contains, IfOk, OnOk, IsTrue};
ghost use Rattle.path_origins.specs.declared.origins.Life.{Life as ALife};
ghost use Rattle.tm_laid.specs.Layouts.{laid_tree, is_shared};
ghost use Rattle.operand_orders.specs.Reached.{IsWithin, IsOpen};
ghost use Rattle.access_races.specs.reading.Ways.{list_at, HasOne};
ghost use Rattle.operand_orders.specs.reading.Scopes.{AreLivesOf};
ghost use Rattle.operand_orders.specs.reading.Views.{solved};

use crate::lists::empty_lists;
use crate::views::BodyView;
use access_races::make_room;
use edge_origins::BodyOrigins;
use path_origins::{Life, Span};
use std::alloc::Global;
use tm_laid::{Laid, object_at};
use tm_lattice::NoMemory;

/// For each object its lives in a body.
#[derive(Drop)]
pub struct ObjectLives {
    by_object: Vec<Vec<Life>>,
}

// Puts a life behind those of its object.
fn add_life(alloc: Global, lists: &mut Vec<Vec<Life>>, life: Life) -> Result<(), NoMemory>
    ensures { OnOk result ((o : ℕ) (l : ALife) → Contains (list_at lists.new.items o) l
        ↔ (Contains (list_at lists.old.items o) l ⊎ ((o ≡ life.object) × (l ≡ life)))) }
{
    make_room(alloc, lists, life.object)?;
    lists[life.object as usize].push(life)?;
    Ok(())
}

/// For each object its lives in a body, one that the layout does not have too.
pub fn lives_of(alloc: Global, laid: &Laid, origins: &BodyOrigins) -> Result<ObjectLives, NoMemory>
    ensures { IfOk result (λ lives. AreLivesOf origins.now.lives.items lives) }
{
    let mut by_object = empty_lists(alloc, laid.objects.len())?;
    for life in &origins.lives {
        add_life(alloc, &mut by_object, *life)?;
    }
    Ok(ObjectLives { by_object })
}

impl ObjectLives {
    /// The lives of an object.
    pub fn of(&self, object: u32) -> &[Life]
        ensures { result.now ≡ list_at self.now.by_object.items object }
    {
        match self.by_object.get(object as usize) {
            Some(lives) => lives,
            None => &[],
        }
    }
}

/// Whether an edge is one of these.
pub fn is_within(edge: usize, span: Span) -> bool
    ensures { IsTrue result ↔ IsWithin edge span }
{
    span.first as usize <= edge && edge < span.end as usize
}

/// Whether an object is of static storage.
pub fn is_static(laid: &Laid, object: u32) -> bool
    ensures { result ≡ is_shared (laid_tree laid.now) object }
{
    object_at(laid, object).owner.is_none()
}

// Whether an edge is in the scope of one of these.
fn is_in_one(lives: &[Life], edge: usize) -> bool
    ensures { IsTrue result ↔ HasOne (λ (life : ALife). IsWithin edge life.scope) lives.now }
{
    for life in lives {
        if is_within(edge, life.scope) {
            return true;
        }
    }
    false
}

/// Whether an object is open at an edge: it is of static storage, or the edge is in the scope of its declaration.
pub fn is_open(view: BodyView<'_>, lives: &ObjectLives, edge: usize, object: u32) -> bool
    requires lives { AreLivesOf view.origins.now.lives.items lives.now }
    ensures { IsTrue result ↔ IsOpen (solved view.entry) edge object }
{
    is_static(view.laid, object) || is_in_one(lives.of(object), edge)
}
