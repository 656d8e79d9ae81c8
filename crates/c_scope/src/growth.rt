//! What changes a scope: names and tags that are declared, blocks that begin and end, and rows of the tables.
ghost use Rattle.std.specs.Prelude.{◌≡◌, ◌+◌, ◌*◌, ◌<◌, ◌≤◌, length, take, map, slice_get, slice_set, get_or, true, false};
ghost use Rattle.std.specs.Prelude.{[], ◌∷◌, ◌++◌, OnOk, OnErr, IfOk};
ghost use Rattle.tm_typed.specs.Scopes.{structure_of, function_of, structure, entry};
ghost use Rattle.tm_typed.specs.TypeRows.{is_founded, apart_from_const, cells_in, abstract_cells_in, size_in};
ghost use Rattle.tm_typed.specs.TypeRows.{tight_size_in, alignment_in, of_pointers_in, row_in, number_in, with_row, with_type};
ghost use Rattle.tm_typed.specs.TypeRows.{clipped, wrapped};
ghost use Rattle.tm_typed.specs.Specifiers.{new_structure};
ghost use Rattle.tm_typed.specs.Functions.{function, names_here};
ghost use Rattle.tm_typed.specs.States.{with_name, with_tag, entered, left_to};

use crate::scopes::Scope;
use std::alloc::Global;
use tm_lattice::NoMemory;
use tm_terms::Name;
use tm_typed::{
    Binding, CType, FunctionEntry, Named, Qualified, StructEntry, TagBinding, Tagged, TypeEntry,
};

/// How many names and tags stand outside a block.
#[derive(Clone, Copy)]
pub struct Outside {
    pub names: usize,
    pub tags: usize,
}

// ## Names, tags and blocks

impl Scope {
    /// One more ordinary name in the present block. After want of memory all is as before.
    pub fn add_name(&mut self, name: Name, named: Named) -> Result<(), NoMemory>
        ensures ok { OnOk result (self.new ≡ with_name name named self.old) }
        ensures err { OnErr result (self.new ≡ self.old) }
    {
        self.names.push(Binding { name, named })
    }

    /// One more tag in the present block. After want of memory all is as before.
    pub fn add_tag(&mut self, name: Name, tagged: Tagged) -> Result<(), NoMemory>
        ensures ok { OnOk result (self.new ≡ with_tag name tagged self.old) }
        ensures err { OnErr result (self.new ≡ self.old) }
    {
        self.tags.push(TagBinding { name, tagged })
    }

    /// How many names and tags stand outside the present block.
    pub fn outside(&self) -> Outside
        ensures { result ≡ record { names = self.now.outer_names; tags = self.now.outer_tags } }
    {
        Outside {
            names: self.outer_names,
            tags: self.outer_tags,
        }
    }

    /// A block begins: what is declared so far stands outside.
    pub fn enter(&mut self)
        ensures { self.new ≡ entered self.old }
    {
        self.outer_names = self.names.len();
        self.outer_tags = self.tags.len();
    }

    /// The present block ends, so that its names and tags are no longer visible; `outside` stand outside the one around
    /// it.
    pub fn leave(&mut self, outside: Outside)
        ensures { self.new ≡ left_to outside.names outside.tags self.old }
    {
        self.names.truncate(self.outer_names);
        self.tags.truncate(self.outer_tags);
        self.outer_names = outside.names;
        self.outer_tags = outside.tags;
    }

    /// A block of ordinary names alone begins.
    pub fn enter_names(&mut self)
        ensures { self.new ≡ record self.old { outer_names = length self.old.names } }
    {
        self.outer_names = self.names.len();
    }

    /// The names of the present block are no longer visible, its tags are; `outside` names stand outside the one around
    /// it.
    pub fn leave_names(&mut self, outside: usize)
        ensures { self.new ≡ record self.old
            { names = take self.old.outer_names self.old.names; outer_names = outside } }
    {
        self.names.truncate(self.outer_names);
        self.outer_names = outside;
    }

    /// More ordinary names in the present block.
    pub fn add_names(&mut self, names: &[Binding]) -> Result<(), NoMemory>
        ensures { OnOk result (self.new ≡ record self.old { names = self.old.names ++ names.now }) }
    {
        'names: for binding in names {
            self.add_name(binding.name, binding.named)?;
        }
        Ok(())
    }

    /// The declarations of names in the present block.
    pub fn names_here(&self, alloc: Global) -> Result<Vec<Binding>, NoMemory>
        ensures { IfOk result (λ v. v.items ≡ names_here self.now) }
    {
        self.names.since(alloc, self.outer_names)
    }

    /// The tags of the present block are no longer visible, its names are; `outside` tags stand outside the one around
    /// it.
    pub fn leave_tags(&mut self, outside: usize)
        ensures { self.new ≡ record self.old { tags = take self.old.outer_tags self.old.tags; outer_tags = outside } }
    {
        self.tags.truncate(self.outer_tags);
        self.outer_tags = outside;
    }
}

// ## Types

impl Scope {
    // Whether the types that a type is made of stand in the table.
    fn is_founded(&self, ctype: CType) -> bool
        ensures { result ≡ is_founded self.now ctype }
    {
        match ctype {
            CType::Pointer(of) => of.number < self.types.len(),
            CType::Array { element, .. } => element < self.types.len(),
            CType::Void | CType::Int(_) | CType::Struct(_) => true,
        }
    }

    // A type without `const`.
    fn apart_from_const(&self, ctype: CType) -> CType
        ensures { result ≡ apart_from_const self.now.types ctype }
    {
        match ctype {
            CType::Pointer(of) => CType::Pointer(Qualified {
                number: self.types.entry(of.number).class,
                constant: false,
                volatile: of.volatile,
            }),
            CType::Array { element, length } => CType::Array {
                element: self.types.entry(element).class,
                length,
            },
            CType::Void | CType::Int(_) | CType::Struct(_) => ctype,
        }
    }

    fn cells_in(&self, ctype: CType) -> u32
        ensures { result ≡ cells_in self.now ctype }
    {
        match ctype {
            CType::Int(_) | CType::Pointer(_) => 1,
            CType::Array { element, length } => clipped_product(length, self.cells(element)),
            CType::Void | CType::Struct(_) => 0,
        }
    }

    fn abstract_cells_in(&self, ctype: CType) -> u32
        ensures { result ≡ abstract_cells_in self.now ctype }
    {
        match ctype {
            CType::Int(_) | CType::Pointer(_) => 1,
            CType::Array { element, length } => {
                if length >= 65 {
                    self.abstract_cells(element)
                } else {
                    clipped_product(length, self.abstract_cells(element))
                }
            }
            CType::Void | CType::Struct(_) => 0,
        }
    }

    fn size_in(&self, ctype: CType) -> u32
        ensures { result ≡ size_in self.now ctype }
    {
        match ctype {
            CType::Int(of) => tm_typed::bytes_of(of),
            CType::Pointer(_) => 4,
            CType::Array { element, length } => wrapped_product(length, self.size(element)),
            CType::Void | CType::Struct(_) => 0,
        }
    }

    fn tight_size_in(&self, ctype: CType) -> u32
        ensures { result ≡ tight_size_in self.now ctype }
    {
        match ctype {
            CType::Int(of) => tm_typed::bytes_of(of),
            CType::Pointer(_) => 4,
            CType::Array { element, length } => wrapped_product(length, self.tight_size(element)),
            CType::Void | CType::Struct(_) => 0,
        }
    }

    fn alignment_in(&self, ctype: CType) -> u32
        ensures { result ≡ alignment_in self.now ctype }
    {
        match ctype {
            CType::Int(of) => tm_typed::bytes_of(of),
            CType::Pointer(_) => 4,
            CType::Array { element, .. } => self.alignment(element),
            CType::Void | CType::Struct(_) => 0,
        }
    }

    fn of_pointers_in(&self, ctype: CType) -> bool
        ensures { result ≡ of_pointers_in self.now ctype }
    {
        match ctype {
            CType::Pointer(_) => true,
            CType::Array { element, .. } => self.entry(element).of_pointers,
            CType::Void | CType::Int(_) | CType::Struct(_) => false,
        }
    }

    // The row of a type that is made of types of the table.
    pub(crate) fn row_in(&self, ctype: CType) -> TypeEntry
        ensures { result ≡ row_in self.now ctype }
    {
        TypeEntry {
            ctype,
            class: self.number(self.apart_from_const(ctype)),
            cells: self.cells_in(ctype),
            abstract_cells: self.abstract_cells_in(ctype),
            size: self.size_in(ctype),
            tight_size: self.tight_size_in(ctype),
            alignment: self.alignment_in(ctype),
            of_pointers: self.of_pointers_in(ctype),
        }
    }

    fn add_row(&mut self, ctype: CType) -> Result<(), NoMemory>
        ensures ok { OnOk result (self.new ≡ with_row self.old ctype) }
        ensures err { OnErr result (self.new ≡ self.old) }
    {
        if self.is_founded(ctype) && self.number(ctype) == self.types.len() {
            let row = self.row_in(ctype);
            self.types.push(row)
        } else {
            Ok(())
        }
    }

    /// How many types there are.
    pub fn types_len(&self) -> u32
        ensures { result ≡ length self.now.types }
    {
        self.types.len()
    }

    /// The number of a type, which the table has from now on. After want of memory types may have been added.
    pub fn add_type(&mut self, ctype: CType) -> Result<u32, NoMemory>
        ensures ok { OnOk result (self.new ≡ with_type self.old ctype) }
        ensures number { IfOk result (λ n. n ≡ number_in self.new ctype) }
    {
        let apart = self.apart_from_const(ctype);
        self.add_row(apart)?;
        self.add_row(ctype)?;
        Ok(self.number(ctype))
    }
}

// ## Structures and functions

impl Scope {
    /// How many structures there are.
    pub fn structs_len(&self) -> usize
        ensures { result ≡ length self.now.structs }
    {
        self.structs.len()
    }

    /// A further structure, of which nothing is known, with its type. After want of memory it may have been added.
    pub fn add_structure(&mut self, alloc: Global) -> Result<u32, NoMemory>
        ensures ok { OnOk result (self.new ≡ new_structure self.old) }
        ensures number { IfOk result (λ k. k ≡ length self.old.structs) }
    {
        match u32::try_from(self.structs.len()) {
            Ok(number) => {
                self.structs.push(alloc)?;
                self.add_type(CType::Struct(number))?;
                Ok(number)
            }
            Err(_) => Err(NoMemory),
        }
    }

    /// The `{` of a structure is read.
    pub fn open_structure(&mut self, number: u32)
        ensures { self.new ≡ record self.old
            { structs = slice_set self.old.structs number (record (structure self.old number) { opened = true }) } }
    {
        self.structs.open(number);
    }

    /// The `}` of a structure that is not complete is read. After want of memory all is as before.
    pub fn complete_structure(&mut self, number: u32, entry: StructEntry) -> Result<(), NoMemory>
        requires incomplete { (structure self.old number).complete ≡ false }
        requires complete { entry.complete ≡ true }
        ensures ok { OnOk result (self.new
            ≡ record self.old { structs = slice_set self.old.structs number (structure_of entry) }) }
        ensures err { OnErr result (self.new ≡ self.old) }
    {
        self.structs.complete(number, entry)
    }

    /// How many functions there are.
    pub fn functions_len(&self) -> usize
        ensures { result ≡ length self.now.functions }
    {
        self.functions.len()
    }

    /// A further function. After want of memory all is as before.
    pub fn add_function(&mut self, entry: FunctionEntry) -> Result<(), NoMemory>
        ensures ok { OnOk result (self.new
            ≡ record self.old { functions = self.old.functions ++ function_of entry ∷ [] }) }
        ensures err { OnErr result (self.new ≡ self.old) }
    {
        match self.functions.push(entry) {
            Ok(()) => Ok(()),
            Err(_) => Err(NoMemory),
        }
    }
}

impl Scope {
    /// A function has a body from now on.
    pub fn define_function(&mut self, number: u32)
        ensures { self.new ≡ record self.old {
          functions = slice_set self.old.functions number
              (record (function self.old number) { defined = true });
        } }
    {
        let index = number as usize;
        if index < self.functions.len() {
            self.functions[index].defined = true;
        }
    }
}

// ## Numbers

/// A number of cells, as which all greater than 65,536 are 65,537.
pub fn clipped_sum(left: u32, right: u32) -> u32
    ensures { result ≡ clipped (left + right) }
{
    (u64::from(left) + u64::from(right)).min(65537) as u32
}

/// A number of cells, as which all greater than 65,536 are 65,537.
pub fn clipped_product(left: u32, right: u32) -> u32
    ensures { result ≡ clipped (left * right) }
{
    (u64::from(left) * u64::from(right)).min(65537) as u32
}

// A number of bytes modulo 2^32.
fn wrapped_product(left: u32, right: u32) -> u32
    ensures { result ≡ wrapped (left * right) }
{
    (u64::from(left) * u64::from(right) % 4294967296) as u32
}
