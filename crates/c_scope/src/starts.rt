//! The scope with which every file begins, and what is left of one at the end of a file.
ghost use Rattle.std.specs.Prelude.{◌≡◌, ◌<◌, ◌++◌, [], ◌∷◌, length, map, OnOk, IfOk};
ghost use Rattle.tm_typed.specs.TypeRows.{number_in, row_in};
ghost use Rattle.tm_typed.specs.Scopes.{structure_of};
ghost use Rattle.tm_typed.specs.Files.{first_scope};
ghost use Rattle.c_scope.specs.reading.Starts.{with_types};

use crate::declarations::{Bindings, Tags};
use crate::scopes::Scope;
use crate::structures::Structures;
use crate::types::Types;
use std::alloc::Global;
use tm_cint::IntType;
use tm_lattice::NoMemory;
use tm_typed::{CType, StructEntry, TypeEntry};

// The types that every file has, in their order, but for `int` once more behind them.
const FIRST_TYPES: [CType; 12] = [
    CType::Void,
    CType::Int(IntType::Bool),
    CType::Int(IntType::Char),
    CType::Int(IntType::UChar),
    CType::Int(IntType::Short),
    CType::Int(IntType::UShort),
    CType::Int(IntType::Int),
    CType::Int(IntType::UInt),
    CType::Int(IntType::Long),
    CType::Int(IntType::ULong),
    CType::Int(IntType::LLong),
    CType::Int(IntType::ULLong),
];

/// The tables of types and structures.
#[derive(Drop)]
pub struct ScopeTables {
    pub types: Vec<TypeEntry>,
    pub structs: Vec<StructEntry>,
}

impl Scope {
    /// The scope before the first item of a file.
    pub fn first(alloc: Global) -> Result<Scope, NoMemory>
        ensures { IfOk result (λ s. s ≡ first_scope) }
    {
        let mut scope = Scope {
            names: Bindings::new(alloc),
            tags: Tags::new(alloc),
            outer_names: 0,
            outer_tags: 0,
            types: Types::new(alloc),
            structs: Structures::new(alloc),
            functions: Vec::new(alloc),
        };
        scope.add_types(&FIRST_TYPES)?;
        scope.add_int_again()?;
        Ok(scope)
    }

    // `int` once more, for enumerations.
    fn add_int_again(&mut self) -> Result<(), NoMemory>
        requires { number_in self.old (CType.Int IntType.Int) < length self.old.types }
        ensures { OnOk result (self.new
            ≡ record self.old { types = self.old.types ++ row_in self.old (CType.Int IntType.Int) ∷ [] }) }
    {
        let row = self.row_in(CType::Int(IntType::Int));
        self.types.push_again(row)
    }

    // The table has these types from now on, each behind those before it.
    fn add_types(&mut self, ctypes: &[CType]) -> Result<(), NoMemory>
        ensures { OnOk result (self.new ≡ with_types self.old ctypes.now) }
    {
        'types: for ctype in ctypes {
            let _number = self.add_type(*ctype)?;
        }
        Ok(())
    }

    /// The tables at the end of a file.
    pub fn into_tables(self) -> ScopeTables
        ensures types { result.types.items ≡ self.types }
        ensures structs { map structure_of result.structs.items ≡ self.structs }
    {
        let Scope {
            names: _names,
            tags: _tags,
            outer_names: _outer_names,
            outer_tags: _outer_tags,
            types,
            structs,
            functions: _functions,
        } = self;
        ScopeTables {
            types: types.into_entries(),
            structs: structs.into_entries(),
        }
    }
}
