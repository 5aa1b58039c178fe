// Names with numbers.
ghost use Rattle.std.specs.Prelude.{◌≡◌, ◌+◌, ◌^◌, ◌<◌, ◌++◌, [], codes, length, slice_get, Some, IsTrue};
ghost use Rattle.std.specs.Prelude.{◌↔◌, OnOk, OnErr, IfOk};
ghost use Rattle.ij_text.specs.Numbering.{AreDistinct, number_in, number_or_next, with_name};

use crate::Name;
use ij_bits::{List, OutOfMemory};
use indexmap::IndexMap;
use std::alloc::Global;
use std::marker::Model;

/// A name of these bytes.
pub fn name_of(alloc: Global, bytes: &[u8]) -> Result<Name, OutOfMemory>
    ensures { IfOk result (λ name. name.items ≡ bytes.now) }
{
    Ok(List::from(Vec::from_slice(alloc, bytes)?))
}

/// A text with a dot and a name added. It takes memory by the allocator of the text.
pub fn with_dotted(text: Name, name: &[u8]) -> Result<Name, OutOfMemory>
    ensures { IfOk result (λ r. r.items ≡ text.items ++ (codes "." ++ name.now)) }
{
    let mut bytes = text.into_vec();
    bytes.push(b'.')?;
    bytes.extend_from_slice(name)?;
    Ok(List::from(bytes))
}

/// A list of distinct names, each of which has a number: its position, counted from 0 in the order in which
/// the names came.
///
/// Contracts see the list of the names. Only [`intern`](Names::intern) takes memory, by the allocator that
/// the list was made with.
#[derive(Drop)]
pub struct Names {
    alloc: Global,
    numbered: IndexMap<Vec<u8>, Name>,
}

impl Model for Names {
    ghost use Rattle.std.specs.Prelude.{◌≡◌, ◌<◌, ◌^◌, ℕ, List, map, length};
    ghost use Rattle.indexmap.specs.IndexMap.{keys, values};

    ghost Value = { List (List ℕ) };

    ghost view = { λ n. map (λ key. key.items) (keys n.numbered) };

    ghost invariant = { λ n. (map (λ name. name.items) (values n.numbered) ≡ map (λ key. key.items) (keys n.numbered))
        × (length (map (λ key. key.items) (keys n.numbered)) < 2 ^ 32) };
}

impl Names {
    /// A list without names, which will grow by `alloc`. Takes no memory.
    pub fn new(alloc: Global) -> Self
        ensures { result ≡ [] }
    {
        Names {
            alloc,
            numbered: IndexMap::new(alloc),
        }
    }

    /// How many names there are. Takes no memory.
    pub fn len(&self) -> u32
        ensures { result ≡ length self.now }
    {
        self.numbered.len() as u32
    }

    /// Whether there is no name. Takes no memory.
    pub fn is_empty(&self) -> bool
        ensures { IsTrue result ↔ (self.now ≡ []) }
    {
        self.len() == 0
    }

    /// The number of a name. One that isn't in the list yet is added, and gets the next number.
    ///
    /// There are fewer than 2^32 names, this one included. After a refusal the list is as it was.
    pub fn intern(&mut self, name: &Name) -> Result<u32, OutOfMemory>
        requires { length self.old + 1 < 2 ^ 32 }
        ensures number { IfOk result (λ number. number ≡ number_or_next self.old name.now.items) }
        ensures names { OnOk result (self.new ≡ with_name self.old name.now.items) }
        ensures err { OnErr result (self.new ≡ self.old) }
    {
        if let Some(number) = self.find(name) {
            return Ok(number);
        }
        let number = self.numbered.len();
        let key = Vec::from_slice(self.alloc, name.as_slice())?;
        let copy = Vec::from_slice(self.alloc, name.as_slice())?;
        self.numbered.insert(key, List::from(copy))?;
        Ok(number as u32)
    }

    /// The number of a name, or `None` exactly where it isn't in the list. Takes no memory.
    pub fn find(&self, name: &Name) -> Option<u32>
        ensures number { result ≡ number_in self.now name.now.items }
        ensures distinct { AreDistinct self.now }
    {
        match self.numbered.get_index_of(name.as_slice()) {
            Some(number) => Some(number as u32),
            None => None,
        }
    }

    /// The name with this number. Takes no memory.
    pub fn name(&self, number: u32) -> &Name
        requires { number < length self.now }
        ensures { slice_get self.now number ≡ Some result.now.items }
    {
        &self.numbered[number as usize]
    }
}
