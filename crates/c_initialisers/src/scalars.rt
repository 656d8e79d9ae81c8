//! Which scalars stand in an object.
ghost use Rattle.std.specs.Prelude.{◌≡◌, ◌+◌};
ghost use Rattle.tm_typed.specs.Scopes.{entry, ctype_of, structure};
ghost use Rattle.tm_typed.specs.StaticValues.{part_at, inside_part, look_in, scalar_at, is_same_scalar, stands_at};
ghost use Rattle.c_initialisers.specs.reading.Cells.{found_tree, in_array};

use c_scope::Scope;
use tm_typed::{CType, Member, Scalar, is_same_int};

// Where a cell of a type is found: it is this scalar, or a cell of a type that the type is made of, or there is none.
#[derive(Clone, Copy)]
enum Found {
    Scalar(Scalar),
    Inside { of: u32, cell: u64 },
    Nowhere,
}

// The last member that does not begin behind the cell.
fn part_at(members: &[Member], cell: u64) -> Option<Member>
    ensures { result ≡ part_at cell members.now }
{
    let mut last = None;
    'members: for member in members {
        if u64::from(member.part.cell) <= cell {
            last = Some(*member);
        }
    }
    last
}

fn look_in(scope: &Scope, of: u32, cell: u64) -> Found
    ensures { found_tree result ≡ look_in scope.now (entry scope.now of) (ctype_of scope.now of) cell }
{
    let entry = scope.entry(of);
    match entry.ctype {
        CType::Int(int) => {
            if cell == 0 {
                Found::Scalar(Scalar::Int(int))
            } else {
                Found::Nowhere
            }
        }
        CType::Pointer(_) => {
            if cell == 0 {
                Found::Scalar(Scalar::Pointer(entry.class))
            } else {
                Found::Nowhere
            }
        }
        CType::Array { element, length } => look_in_array(scope, element, length, cell),
        CType::Struct(structure) => look_in_structure(scope, structure, cell),
        CType::Void => Found::Nowhere,
    }
}

// An array repeats the cells of its elements.
fn look_in_array(scope: &Scope, element: u32, length: u32, cell: u64) -> Found
    ensures { found_tree result ≡ in_array scope.now element length cell }
{
    let cells = u64::from(scope.cells(element));
    if cell < u64::from(length) * cells {
        Found::Inside {
            of: element,
            cell: cell % cells,
        }
    } else {
        Found::Nowhere
    }
}

fn look_in_structure(scope: &Scope, number: u32, cell: u64) -> Found
    ensures { found_tree result ≡ inside_part cell (part_at cell (structure scope.now number).members) }
{
    match scope.structure(number) {
        Some(structure) => match part_at(&structure.members, cell) {
            Some(member) => Found::Inside {
                of: member.part.of.number,
                cell: cell.saturating_sub(u64::from(member.part.cell)),
            },
            None => Found::Nowhere,
        },
        None => Found::Nowhere,
    }
}

// The scalar type of a cell; no type has more types one inside the other than there are.
fn scalar_at(scope: &Scope, of: u32, cell: u64) -> Option<Scalar>
    ensures { result ≡ scalar_at scope.now of cell }
{
    let mut found = Found::Inside { of, cell };
    'inside: for _depth in 0..u64::from(scope.types_len()) + 2 {
        match found {
            Found::Scalar(scalar) => return Some(scalar),
            Found::Nowhere => return None,
            Found::Inside { of, cell } => found = look_in(scope, of, cell),
        }
    }
    None
}

fn is_same_scalar(left: Option<Scalar>, right: Option<Scalar>) -> bool
    ensures { result ≡ is_same_scalar left right }
{
    match (left, right) {
        (Some(Scalar::Int(left)), Some(Scalar::Int(right))) => is_same_int(left, right),
        (Some(Scalar::Pointer(left)), Some(Scalar::Pointer(right))) => left == right,
        _ => false,
    }
}

/// Whether all cells of a type stand in the type `of` from a cell on.
pub(crate) fn stands_at(scope: &Scope, of: u32, cell: u32, target: u32) -> bool
    ensures { result ≡ stands_at scope.now of cell target }
{
    'cells: for index in 0..scope.cells(target) {
        let here = scalar_at(scope, of, u64::from(cell) + u64::from(index));
        if !is_same_scalar(here, scalar_at(scope, target, u64::from(index))) {
            return false;
        }
    }
    true
}
