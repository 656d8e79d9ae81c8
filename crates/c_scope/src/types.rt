//! The table of types.
ghost use Rattle.std.specs.Prelude.{◌≡◌, ℕ, ◌+◌, ◌<◌, get_or, map, length, OnOk, OnErr, ◌++◌, [], ◌∷◌};
ghost use Rattle.std.specs.List.{position_or_len};
ghost use Rattle.tm_typed.specs.Types.{no_type};
ghost use Rattle.tm_typed.specs.TypeRows.{is_same_ctype};

use indexmap::IndexMap;
use std::alloc::Global;
use std::marker::Model;
use tm_lattice::NoMemory;
use tm_typed::{CType, TypeEntry};

const NO_TYPE: TypeEntry = TypeEntry {
    ctype: CType::Void,
    class: 0,
    cells: 0,
    abstract_cells: 0,
    size: 0,
    tight_size: 0,
    alignment: 0,
    of_pointers: false,
};

/// The table of types, with a look-up of the first row of each.
#[derive(Drop)]
pub struct Types {
    entries: Vec<TypeEntry>,
    rows: IndexMap<CType, u32>,
}

impl Model for Types {
    ghost use Rattle.std.specs.Prelude.{◌≡◌, List, map, length, ◌≤◌};
    ghost use Rattle.std.specs.List.{position};
    ghost use Rattle.indexmap.specs.IndexMap.{get};
    ghost use Rattle.tm_typed.specs.declared.types.CType.{CType as AType};
    ghost use Rattle.tm_typed.specs.declared.types.TypeEntry.{TypeEntry};
    ghost use Rattle.tm_typed.specs.TypeRows.{is_same_ctype};

    ghost Value = { List TypeEntry };

    ghost view = { λ t. t.entries.items };

    ghost invariant = { λ t. ((c : AType)
        → get is_same_ctype t.rows c ≡ position (is_same_ctype c) (map (λ e. e.ctype) t.entries.items))
        × (length t.entries.items ≤ 4294967295) };
}

impl Types {
    /// No types.
    pub fn new(alloc: Global) -> Types
        ensures { result ≡ [] }
    {
        Types {
            entries: Vec::new(alloc),
            rows: IndexMap::new(alloc),
        }
    }

    /// A row of the table; where there is none, that of `void`.
    pub fn entry(&self, number: u32) -> TypeEntry
        ensures { result ≡ get_or self.now number no_type }
    {
        match self.entries.get(number as usize) {
            Some(entry) => *entry,
            None => NO_TYPE,
        }
    }

    /// How many types there are.
    pub fn len(&self) -> u32
        ensures { result ≡ length self.now }
    {
        self.entries.len() as u32
    }

    /// The number of a type: where it stands, or else would stand.
    pub fn number(&self, ctype: CType) -> u32
        ensures { result ≡ position_or_len (is_same_ctype ctype) (map (λ e. e.ctype) self.now) }
    {
        match self.rows.get(&ctype) {
            Some(number) => *number,
            None => self.len(),
        }
    }

    /// A further row, of a type that has none. After want of memory all is as before.
    pub fn push(&mut self, entry: TypeEntry) -> Result<(), NoMemory>
        requires { position_or_len (is_same_ctype entry.ctype) (map (λ e. e.ctype) self.old) ≡ length self.old }
        ensures ok { OnOk result (self.new ≡ self.old ++ entry ∷ []) }
        ensures err { OnErr result (self.new ≡ self.old) }
    {
        if self.entries.len() >= 4294967295 {
            return Err(NoMemory);
        }
        let number = self.len();
        match self.entries.push(entry) {
            Ok(()) => match self.rows.insert(entry.ctype, number) {
                Ok(_) => Ok(()),
                Err(_) => {
                    let _ = self.entries.pop();
                    Err(NoMemory)
                }
            },
            Err(_) => Err(NoMemory),
        }
    }

    /// A further row of a type that has one. After want of memory all is as before.
    pub fn push_again(&mut self, entry: TypeEntry) -> Result<(), NoMemory>
        requires { position_or_len (is_same_ctype entry.ctype) (map (λ e. e.ctype) self.old) < length self.old }
        ensures ok { OnOk result (self.new ≡ self.old ++ entry ∷ []) }
        ensures err { OnErr result (self.new ≡ self.old) }
    {
        if self.entries.len() >= 4294967295 {
            return Err(NoMemory);
        }
        match self.entries.push(entry) {
            Ok(()) => Ok(()),
            Err(_) => Err(NoMemory),
        }
    }

    /// The rows alone.
    pub fn into_entries(self) -> Vec<TypeEntry>
        ensures { result.items ≡ self }
    {
        let Types {
            entries,
            rows: _rows,
        } = self;
        entries
    }
}
