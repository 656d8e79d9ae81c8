//! What a state says of one temporary.
ghost use Rattle.std.specs.Prelude.{◌≡◌, ◌↔◌, IsTrue, IfOk, Option};
ghost use Rattle.cell_env.specs.Temps.{IsCopyBelow, joined_copy};

use std::alloc::Global;
use tm_lattice::{Lattice, NoMemory};

/// A temporary's value, and the cell of which it is a copy.
#[derive(Drop)]
pub struct TempState<V: Lattice> {
    /// The value.
    pub value: V,
    /// The cell of which the temporary is a copy.
    pub copy: Option<u32>,
}

impl<V: Lattice> Lattice for TempState<V> {
    ghost use Rattle.cell_env.specs.Temps.{IsTemp, IsTempBelow, joined_temp};
    ghost use Rattle.cell_env.specs.laws.TempLaws.{temp_order, temp_join, temp_closure, temp_nothing};

    type Marks = V::Marks;

    ghost is_value = { IsTemp V.is_value };

    ghost is_marks = { V.is_marks };

    ghost leq = { IsTempBelow V.leq };

    ghost joined = { joined_temp V.joined };

    ghost rounded = { λ marks t. t };

    ghost nothing = { λ t. ⊥ };

    fn is_nothing(&self) -> bool {
        let _own = self.value.is_nothing();
        false
    }

    fn below(&self, other: &Self) -> bool {
        is_copy_below(self.copy, other.copy) && self.value.below(&other.value)
    }

    fn join(&self, alloc: Global, other: &Self) -> Result<Self, NoMemory> {
        Ok(TempState {
            value: self.value.join(alloc, &other.value)?,
            copy: common_copy(self.copy, other.copy),
        })
    }

    fn round(&self, alloc: Global, _marks: &V::Marks) -> Result<Self, NoMemory> {
        Ok(TempState {
            value: self.value.copied(alloc)?,
            copy: self.copy,
        })
    }

    fn copied(&self, alloc: Global) -> Result<Self, NoMemory> {
        Ok(TempState {
            value: self.value.copied(alloc)?,
            copy: self.copy,
        })
    }

    ghost order = { temp_order V.is_value V.leq V.order };

    ghost join_laws = { temp_join V.is_value V.leq V.joined V.join_laws };

    ghost closure = { temp_closure V.is_value V.is_marks V.leq V.order };

    ghost nothing_laws = { temp_nothing V.is_value V.is_marks V.leq V.order };
}

// Whether the other side has no copy that this one has not.
fn is_copy_below(one: Option<u32>, other: Option<u32>) -> bool
    ensures { IsTrue result ↔ IsCopyBelow one other }
{
    match other {
        None => true,
        Some(cell) => match one {
            None => false,
            Some(same) => same == cell,
        },
    }
}

// The copy that both have.
fn common_copy(one: Option<u32>, other: Option<u32>) -> Option<u32>
    ensures { result ≡ joined_copy one other }
{
    match one {
        None => None,
        Some(cell) => match other {
            None => None,
            Some(same) => { if cell == same { Some(cell) } else { None } }
        },
    }
}
