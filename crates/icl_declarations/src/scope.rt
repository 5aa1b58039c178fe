// The parts of a module by their names.
ghost use Rattle.std.specs.Prelude.{ℕ, List, None, ◌||◌, ◌≡◌, ◌<◌, ◌≤◌, ◌+◌, ◌^◌, map, length, IfOk, OnOk};
ghost use Rattle.std.specs.Prelude.{OnErr};
ghost use Rattle.icl_lexer.specs.Views.{seen_item};
ghost use Rattle.icl_declarations.specs.Scopes.{GoesOn, IsAdded, IsKept, IsScopeOf, entry_of};
ghost use Rattle.icl_declarations.specs.Taken.{KeepsNames, has_entry};
ghost use Rattle.std.specs.Str.{bytes_eq};

use crate::kinds::{is_part, is_signal};
use icl_lexer::Item;
use ij_bits::OutOfMemory;
use indexmap::IndexMap;
use std::alloc::Global;

/// The parts of a module that signals may name, by their names.
#[derive(Drop)]
pub struct Scope {
    parts: IndexMap<Vec<u8>, u32>,
}

impl Scope {
    /// The number of this name, as that of a part, if there is one. Takes no memory.
    pub fn find(&self, name: &[u8]) -> Option<u32>
        ensures { result ≡ entry_of self.now name.now }
    {
        self.parts.get(name).copied()
    }

    /// Adds a name with a number, unless the name is there. After want of memory the names are as they were.
    pub fn add(&mut self, alloc: Global, name: &[u8], part: u32) -> Result<(), OutOfMemory>
        ensures ok { OnOk result (IsAdded self.old self.new name.now part) }
        ensures err { OnErr result (IsKept self.old self.new) }
    {
        match self.find(name) {
            Some(_) => Ok(()),
            None => {
                let key = Vec::from_slice(alloc, name)?;
                self.parts.insert(key, part)?;
                Ok(())
            }
        }
    }

    /// A table without names.
    pub fn new(alloc: Global) -> Scope
        ensures { (name : List ℕ) → entry_of result name ≡ None }
    {
        Scope {
            parts: IndexMap::new(alloc),
        }
    }

    /// Whether there is a part of this name. Takes no memory.
    pub fn has(&self, name: &[u8]) -> bool
        ensures { result ≡ has_entry self.now name.now }
    {
        self.find(name).is_some()
    }

    /// Adds a name. After want of memory the names are as they were.
    pub fn note(&mut self, alloc: Global, name: &[u8]) -> Result<(), OutOfMemory>
        ensures ok { OnOk result ((n : List ℕ)
            → has_entry self.new n ≡ (has_entry self.old n || bytes_eq n name.now)) }
        ensures err { OnErr result (KeepsNames self.old self.new) }
    {
        self.add(alloc, name, 0)
    }

    /// Adds an item, before which this many parts stand, and answers how many stand after it.
    fn note_item(&mut self, alloc: Global, item: &Item, part: u32) -> Result<u32, OutOfMemory>
        requires { part + 1 < 2 ^ 32 }
        ensures few { IfOk result (λ next. next ≤ part + 1) }
        ensures goes_on { IfOk result (λ next. GoesOn self.old self.new part next (seen_item item.now)) }
    {
        if !is_part(&item.what) {
            return Ok(part);
        }
        if !is_signal(&item.what) {
            return Ok(part + 1);
        }
        self.add(alloc, item.name.as_slice(), part)?;
        Ok(part + 1)
    }

    /// The scope of a module with these items. Of parts with one name the first one counts.
    pub fn of(alloc: Global, items: &[Item]) -> Result<Scope, OutOfMemory>
        requires { length items.now + 1 < 2 ^ 32 }
        ensures { IfOk result (λ scope. IsScopeOf scope (map seen_item items.now)) }
    {
        let mut scope = Scope {
            parts: IndexMap::new(alloc),
        };
        let mut part = 0;
        for item in items {
            part = scope.note_item(alloc, item, part)?;
        }
        Ok(scope)
    }
}
