//! `sizeof` (C99 6.5.3.4).
ghost use Rattle.std.specs.Prelude.{◌≡◌};
ghost use Rattle.tm_typed.specs.TypedTrees.{operand_tree};
ghost use Rattle.tm_typed.specs.Refusals.{row, Gives};
ghost use Rattle.tm_typed.specs.Rules.{size_made, sizeof_type_rules, sizeof_sort, sizeof_rules};

use crate::forms::{constant, refused};
use c_scope::Scope;
use std::alloc::Global;
use tm_cint::IntType;
use tm_terms::{Fail, Kind, Place};
use tm_typed::{Operand, Sort, bytes_of};

fn size_made(alloc: Global, size: u32, place: Place) -> Result<Operand, Fail>
    ensures { Gives operand_tree result (size_made size place) }
{
    constant(alloc, IntType::UInt, i128::from(size), place)
}

/// `sizeof` of a type
pub fn sizeof_type(alloc: Global, scope: &Scope, place: Place, number: u32) -> Result<Operand, Fail>
    ensures { Gives operand_tree result (sizeof_type_rules scope.now place number) }
{
    if !scope.is_complete(number) {
        return refused(Kind::Mismatch, place);
    }
    size_made(alloc, scope.size(number), place)
}

fn sizeof_sort(alloc: Global, scope: &Scope, place: Place, sort: Sort) -> Result<Operand, Fail>
    ensures { Gives operand_tree result (sizeof_sort scope.now place sort) }
{
    match sort {
        Sort::Integer(of, _) => size_made(alloc, bytes_of(of), place),
        Sort::Pointer(_) | Sort::Null => size_made(alloc, 4, place),
        Sort::Structure(structure) => size_made(alloc, scope.structure_size(structure), place),
        Sort::Nothing => refused(Kind::Mismatch, place),
    }
}

/// `sizeof` of an expression
pub(crate) fn sizeof(
    alloc: Global,
    scope: &Scope,
    place: Place,
    operand: Operand,
) -> Result<Operand, Fail>
    ensures { Gives operand_tree result (sizeof_rules scope.now place (operand_tree operand)) }
{
    match operand {
        Operand::Lvalue { of, .. } => sizeof_type(alloc, scope, place, of.number),
        Operand::Value(valued) => sizeof_sort(alloc, scope, place, valued.sort),
    }
}
