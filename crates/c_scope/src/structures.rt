//! The table of structures, and their members by name.
ghost use Rattle.std.specs.Prelude.{◌≡◌, ◌<◌, ◌≤◌, true, false, option_map, slice_get, slice_set, get_or, cond, map};
ghost use Rattle.std.specs.Prelude.{length, [], ◌∷◌, ◌++◌, IfSome, IfNone, OnOk, OnErr};
ghost use Rattle.indexmap.specs.IndexMap.{get, spare};
ghost use Rattle.c_scope.specs.declared.structures.MemberKey.{MemberKey};
ghost use Rattle.c_scope.specs.reading.Members.{is_same_key, with_members};
ghost use Rattle.tm_typed.specs.Scopes.{structure_of, no_structure, members_of, last_declared};

use indexmap::IndexMap;
use std::alloc::Global;
use std::marker::Model;
use tm_lattice::NoMemory;
use tm_terms::Name;
use tm_typed::{Member, StructEntry};

// A member of a structure, by the structure's number and the member's name.
#[derive(Clone, Copy, PartialEq, Eq, Hash)]
struct MemberKey {
    structure: u32,
    name: Name,
}

/// The table of structures.
#[derive(Drop)]
pub struct Structures {
    entries: Vec<StructEntry>,
    members: IndexMap<MemberKey, Member>,
}

impl Model for Structures {
    ghost use Rattle.std.specs.Prelude.{◌≡◌, List, map};
    ghost use Rattle.tm_typed.specs.Scopes.{Structure, structure_of};
    ghost use Rattle.std.specs.Prelude.{ℕ, false, [], get_or};
    ghost use Rattle.indexmap.specs.IndexMap.{get};
    ghost use Rattle.tm_terms.specs.declared.tokens.Name.{Name};
    ghost use Rattle.tm_typed.specs.Scopes.{no_structure, last_declared};
    ghost use Rattle.c_scope.specs.reading.Members.{is_same_key};

    ghost Value = { List Structure };

    ghost view = { λ s. map structure_of s.entries.items };

    ghost invariant = { λ s. ((k : ℕ) (n : Name) → get is_same_key s.members (record { structure = k; name = n })
        ≡ last_declared (λ m. m.name) n (get_or (map structure_of s.entries.items) k no_structure).members)
        × ((k : ℕ) → (get_or (map structure_of s.entries.items) k no_structure).complete ≡ false
        → (get_or (map structure_of s.entries.items) k no_structure).members ≡ []) };
}

impl Structures {
    /// No structures.
    pub fn new(alloc: Global) -> Structures
        ensures { result ≡ [] }
    {
        Structures {
            entries: Vec::new(alloc),
            members: IndexMap::new(alloc),
        }
    }

    /// A structure.
    pub fn structure(&self, number: u32) -> Option<&StructEntry>
        ensures found { option_map (λ s. structure_of s.now) result ≡ slice_get self.now number }
        ensures value { IfSome result (λ s. get_or self.now number no_structure ≡ structure_of s.now) }
        ensures none { IfNone result (get_or self.now number no_structure ≡ no_structure) }
    {
        self.entries.get(number as usize)
    }

    /// The member of a complete structure with this name.
    pub fn member(&self, number: u32, name: Name) -> Option<Member>
        ensures { result ≡ last_declared (λ m. m.name) name (members_of (get_or self.now number no_structure)) }
    {
        match self.structure(number) {
            Some(structure) => {
                if structure.complete {
                    let key = MemberKey {
                        structure: number,
                        name,
                    };
                    match self.members.get(&key) {
                        Some(member) => Some(*member),
                        None => None,
                    }
                } else {
                    None
                }
            }
            None => None,
        }
    }

    /// The entries alone.
    pub fn into_entries(self) -> Vec<StructEntry>
        ensures { map structure_of result.items ≡ self }
    {
        let Structures {
            entries,
            members: _members,
        } = self;
        entries
    }

    /// How many structures there are.
    pub fn len(&self) -> usize
        ensures { result ≡ length self.now }
    {
        self.entries.len()
    }

    /// A further structure, of which nothing is known. After want of memory all is as before.
    pub fn push(&mut self, alloc: Global) -> Result<(), NoMemory>
        ensures ok { OnOk result (self.new ≡ self.old ++ no_structure ∷ []) }
        ensures err { OnErr result (self.new ≡ self.old) }
    {
        let entry = StructEntry {
            opened: false,
            complete: false,
            members: Vec::new(alloc),
            cells: 0,
            abstract_cells: 0,
            size: 0,
            tight_size: 0,
            alignment: 0,
        };
        match self.entries.push(entry) {
            Ok(()) => Ok(()),
            Err(_) => Err(NoMemory),
        }
    }

    /// The `{` of a structure is read.
    pub fn open(&mut self, number: u32)
        ensures { self.new ≡ slice_set self.old number
            (record (get_or self.old number no_structure) { opened = true }) }
    {
        let index = number as usize;
        if index < self.entries.len() {
            self.entries[index].opened = true;
        }
    }

    /// The `}` of a structure that is not complete is read. After want of memory all is as before.
    pub fn complete(&mut self, number: u32, entry: StructEntry) -> Result<(), NoMemory>
        requires incomplete { (get_or self.old number no_structure).complete ≡ false }
        requires complete { entry.complete ≡ true }
        ensures ok { OnOk result (self.new ≡ slice_set self.old number (structure_of entry)) }
        ensures err { OnErr result (self.new ≡ self.old) }
    {
        let index = number as usize;
        if index >= self.entries.len() {
            return Ok(());
        }
        match self.members.reserve(entry.members.len()) {
            Ok(()) => {
                note_members(&mut self.members, number, &entry.members);
                self.entries[index] = entry;
                Ok(())
            }
            Err(_) => Err(NoMemory),
        }
    }
}

// Members of a structure are found by their names, beside those that are found so far.
fn note_members(found: &mut IndexMap<MemberKey, Member>, structure: u32, members: &[Member])
    requires { length members.now ≤ spare found.old }
    ensures { (k : MemberKey)
        → get is_same_key found.new k ≡ with_members structure members.now k (get is_same_key found.old k) }
{
    for member in members {
        let key = MemberKey {
            structure,
            name: member.name,
        };
        match found.insert(key, *member) {
            Ok(_) => {}
            Err(_) => unreachable!(),
        }
    }
}
