//! Addresses of lvalues are walked.
ghost use Rattle.std.specs.Prelude.{IfOk};
ghost use Rattle.path_origins.specs.reading.Reading.{IsTyped, IsAddressed};

use crate::expressions::{walk_against, walk_part, walk_rvalue};
use crate::notes::{note, note_type, note_type_behind, since};
use crate::origins::{Form, Notes};
use crate::types::{element_of, member_at, object_type};
use crate::walks::{Here, Wanted};
use tm_lattice::NoMemory;
use tm_typed::{Lvalue, Qualified};

/// The address of an lvalue; and the type of what it designates.
#[cycle(walk)]
pub(crate) fn walk_address(
    here: &Here<'_>,
    to: &mut Notes,
    lvalue: &Lvalue,
) -> Result<Qualified, NoMemory>
    ensures noted { IfOk result (λ q. IsAddressed here.now.laid.now here.now.opens.now here.now.sizes.now
        here.now.path lvalue.now to.old to.new) }
    ensures of { IfOk result (λ q. IsTyped here.now.laid.now here.now.opens.now here.now.path lvalue.now q) }
{
    match lvalue {
        Lvalue::Object { object, place } => {
            note(to, *place, Form::Base)?;
            object_type(here.laid, here.path, *object)
        }
        Lvalue::Element {
            array,
            index,
            place,
            ..
        } => {
            let begin = to.size;
            let of = walk_address(here, to, array)?;
            let base = since(to, begin);
            let _by = walk_against(here, to, base, index, Wanted::Value, *place)?;
            note_type(to, *place, Form::Element, element_of(here.laid, of))
        }
        Lvalue::Subscript {
            pointer,
            index,
            target,
            place,
            ..
        } => {
            let base = walk_part(here, to, pointer, Wanted::Value)?;
            let _by = walk_against(here, to, base.edges, index, Wanted::Value, *place)?;
            let of = base.given.followed(*target);
            note_type_behind(to, *place, Form::Move(*target), Form::Follow, of)
        }
        Lvalue::Pointed {
            pointer,
            target,
            place,
        } => {
            let given = walk_rvalue(here, to, pointer, Wanted::Value, true)?;
            note_type(to, *place, Form::Follow, given.followed(*target))
        }
        Lvalue::Arrow {
            pointer,
            target,
            cell,
            place,
        } => {
            let given = walk_rvalue(here, to, pointer, Wanted::Value, true)?;
            let of = member_at(here.laid, given.followed(*target), *cell);
            note_type_behind(to, *place, Form::Follow, Form::Part, of)
        }
        Lvalue::Member {
            structure,
            cell,
            place,
        } => {
            let of = walk_address(here, to, structure)?;
            note_type(to, *place, Form::Part, member_at(here.laid, of, *cell))
        }
    }
}
