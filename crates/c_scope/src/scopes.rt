//! Scopes: what is visible at a place of the text.
ghost use Rattle.std.specs.Prelude.{◌≡◌, length, option_map, slice_get, IfSome, IfNone};
ghost use Rattle.tm_typed.specs.Scopes.{function_of, structure_of, no_structure, named, named_here, tagged};
ghost use Rattle.tm_typed.specs.Scopes.{tagged_here, entry, ctype_of, is_same_type, structure, is_complete, cells_of};
ghost use Rattle.tm_typed.specs.Scopes.{abstract_cells_of, size_of, tight_size_of, alignment_of, member_of};
ghost use Rattle.tm_typed.specs.Operands.{scalar_of};
ghost use Rattle.tm_typed.specs.Rules.{is_volatile_pointer};
ghost use Rattle.tm_typed.specs.Structures.{are_from_zero};
ghost use Rattle.tm_typed.specs.TypeRows.{number_in};

use crate::declarations::{Bindings, Tags};
use crate::structures::Structures;
use crate::types::Types;
use std::marker::Model;
use tm_terms::Name;
use tm_typed::{
    CType, FunctionEntry, Member, Named, Qualified, Scalar, StructEntry, Tagged, TypeEntry,
};

/// What is visible, innermost declarations last, and the tables of types, structures and functions.
#[derive(Drop)]
pub struct Scope {
    pub(crate) names: Bindings,
    pub(crate) tags: Tags,
    pub(crate) outer_names: usize,
    pub(crate) outer_tags: usize,
    pub(crate) types: Types,
    pub(crate) structs: Structures,
    pub(crate) functions: Vec<FunctionEntry>,
}

impl Model for Scope {
    ghost use Rattle.std.specs.Prelude.{map};
    ghost use Rattle.tm_typed.specs.Scopes.{Scope as PlainScope, function_of};

    ghost Value = { PlainScope };

    ghost view = { λ s. record {
      names = s.names;
      tags = s.tags;
      outer_names = s.outer_names;
      outer_tags = s.outer_tags;
      types = s.types;
      structs = s.structs;
      functions = map function_of s.functions.items;
    } };
}

impl Scope {
    /// What a name names: its innermost declaration.
    pub fn named(&self, name: Name) -> Option<Named>
        ensures { result ≡ named self.now name }
    {
        self.names.named(name)
    }

    /// What a name names by a declaration of the present block.
    pub fn named_here(&self, name: Name) -> Option<Named>
        ensures { result ≡ named_here self.now name }
    {
        self.names.named_since(self.outer_names, name)
    }

    /// How many declarations of ordinary names are visible.
    pub fn names_len(&self) -> usize
        ensures { result ≡ length self.now.names }
    {
        self.names.len()
    }

    /// Whether none of the declarations of names from the one at `start` on is that of a negative constant.
    pub fn are_from_zero(&self, start: usize) -> bool
        ensures { result ≡ are_from_zero start self.now }
    {
        self.names.are_from_zero(start)
    }

    /// What a tag names.
    pub fn tagged(&self, name: Name) -> Option<Tagged>
        ensures { result ≡ tagged self.now name }
    {
        self.tags.named(name)
    }

    /// What a tag names by a declaration of the present block.
    pub fn tagged_here(&self, name: Name) -> Option<Tagged>
        ensures { result ≡ tagged_here self.now name }
    {
        self.tags.named_since(self.outer_tags, name)
    }

    /// A row of the table of types.
    pub fn entry(&self, number: u32) -> TypeEntry
        ensures { result ≡ entry self.now number }
    {
        self.types.entry(number)
    }

    /// Whether a type is a volatile pointer, or an array of such.
    pub fn is_volatile_pointer(&self, of: Qualified) -> bool
        ensures { result ≡ is_volatile_pointer self.now of }
    {
        of.volatile && self.entry(of.number).of_pointers
    }

    /// The type with this number.
    pub fn ctype(&self, number: u32) -> CType
        ensures { result ≡ ctype_of self.now number }
    {
        self.entry(number).ctype
    }

    /// Whether two types are the same but for `const`.
    pub fn is_same_type(&self, left: u32, right: u32) -> bool
        ensures { result ≡ is_same_type self.now left right }
    {
        self.entry(left).class == self.entry(right).class
    }

    /// Whether it is an object type whose size is known.
    pub fn is_complete(&self, number: u32) -> bool
        ensures { result ≡ is_complete self.now number }
    {
        match self.ctype(number) {
            CType::Void => false,
            CType::Struct(structure) => match self.structs.structure(structure) {
                Some(structure) => structure.complete,
                None => false,
            },
            CType::Int(_) | CType::Pointer(_) | CType::Array { .. } => true,
        }
    }

    /// The scalar cells of a type.
    pub fn cells(&self, number: u32) -> u32
        ensures { result ≡ cells_of self.now number }
    {
        match self.ctype(number) {
            CType::Struct(structure) => match self.structs.structure(structure) {
                Some(structure) => structure.cells,
                None => 0,
            },
            CType::Void | CType::Int(_) | CType::Pointer(_) | CType::Array { .. } => {
                self.entry(number).cells
            }
        }
    }

    /// The bytes of a type, modulo 2^32.
    pub fn size(&self, number: u32) -> u32
        ensures { result ≡ size_of self.now number }
    {
        match self.ctype(number) {
            CType::Struct(structure) => self.structure_size(structure),
            CType::Void | CType::Int(_) | CType::Pointer(_) | CType::Array { .. } => {
                self.entry(number).size
            }
        }
    }

    /// The bytes of a structure, modulo 2^32.
    pub fn structure_size(&self, number: u32) -> u32
        ensures { result ≡ (structure self.now number).size }
    {
        match self.structs.structure(number) {
            Some(structure) => structure.size,
            None => 0,
        }
    }

    /// The bytes of a type, modulo 2^32, where `long long` is aligned to 4.
    pub fn tight_size(&self, number: u32) -> u32
        ensures { result ≡ tight_size_of self.now number }
    {
        match self.ctype(number) {
            CType::Struct(structure) => self.tight_structure_size(structure),
            CType::Void | CType::Int(_) | CType::Pointer(_) | CType::Array { .. } => {
                self.entry(number).tight_size
            }
        }
    }

    /// The bytes of a structure, modulo 2^32, where `long long` is aligned to 4.
    pub fn tight_structure_size(&self, number: u32) -> u32
        ensures { result ≡ (structure self.now number).tight_size }
    {
        match self.structs.structure(number) {
            Some(structure) => structure.tight_size,
            None => 0,
        }
    }

    /// The alignment of a type.
    pub fn alignment(&self, number: u32) -> u32
        ensures { result ≡ alignment_of self.now number }
    {
        match self.ctype(number) {
            CType::Struct(structure) => match self.structs.structure(structure) {
                Some(structure) => structure.alignment,
                None => 0,
            },
            CType::Void | CType::Int(_) | CType::Pointer(_) | CType::Array { .. } => {
                self.entry(number).alignment
            }
        }
    }

    /// The scalar of a cell of a type; none where it is no scalar type.
    pub fn scalar(&self, number: u32) -> Option<Scalar>
        ensures { result ≡ scalar_of self.now number }
    {
        let entry = self.entry(number);
        match entry.ctype {
            CType::Int(of) => Some(Scalar::Int(of)),
            CType::Pointer(_) => Some(Scalar::Pointer(entry.class)),
            CType::Void | CType::Array { .. } | CType::Struct(_) => None,
        }
    }

    /// The member of a complete structure with this name.
    pub fn member(&self, structure: u32, name: Name) -> Option<Member>
        ensures { result ≡ member_of self.now structure name }
    {
        self.structs.member(structure, name)
    }

    /// A function.
    pub fn function(&self, number: u32) -> Option<&FunctionEntry>
        ensures { option_map (λ f. function_of f.now) result ≡ slice_get self.now.functions number }
    {
        self.functions.get(number as usize)
    }

    /// The number of a type: where it stands, or else would stand.
    pub fn number(&self, ctype: CType) -> u32
        ensures { result ≡ number_in self.now ctype }
    {
        self.types.number(ctype)
    }

    /// The cells of a type that an analysis tells apart.
    pub fn abstract_cells(&self, number: u32) -> u32
        ensures { result ≡ abstract_cells_of self.now number }
    {
        match self.ctype(number) {
            CType::Struct(structure) => match self.structs.structure(structure) {
                Some(structure) => structure.abstract_cells,
                None => 0,
            },
            CType::Void | CType::Int(_) | CType::Pointer(_) | CType::Array { .. } => {
                self.entry(number).abstract_cells
            }
        }
    }

    /// A structure.
    pub fn structure(&self, number: u32) -> Option<&StructEntry>
        ensures value { IfSome result (λ s. structure self.now number ≡ structure_of s.now) }
        ensures none { IfNone result (structure self.now number ≡ no_structure) }
    {
        self.structs.structure(number)
    }

    /// Whether the `{` of a structure is read.
    pub fn is_opened(&self, number: u32) -> bool
        ensures { result ≡ (structure self.now number).opened }
    {
        match self.structs.structure(number) {
            Some(structure) => structure.opened,
            None => false,
        }
    }

    /// Whether the `}` of a structure is read.
    pub fn is_complete_structure(&self, number: u32) -> bool
        ensures { result ≡ (structure self.now number).complete }
    {
        match self.structs.structure(number) {
            Some(structure) => structure.complete,
            None => false,
        }
    }
}
