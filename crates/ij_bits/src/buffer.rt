// A list whose room can be reserved ahead of use.
ghost use Rattle.std.specs.Prelude.{◌≡◌, ◌↔◌, ◌+◌, ◌-◌, ◌<◌, ◌≤◌, [], ◌∷◌, ◌++◌, length, reverse, slice_set};
ghost use Rattle.std.specs.Prelude.{slice_index_or, IsTrue, OnOk, OnErr};

use crate::{List, OutOfMemory};
use std::alloc::Global;
use std::marker::Model;

/// A list of values for calls that take no memory: room for them is reserved ahead of use, and kept.
///
/// Contracts see a record: `items`, the values in order, and `spare`, how many more values the list takes
/// without memory. Only [`reserve`](Buffer::reserve) takes memory, by the allocator that the list was made
/// with, and [`OutOfMemory`] is all that it refuses by.
#[derive(Drop)]
pub struct Buffer<T> {
    vec: Vec<T>,
}

impl<T> Model for Buffer<T> {
    ghost use Rattle.std.specs.Prelude.{◌-◌, vec_len, vec_capacity};
    ghost use Rattle.ij_bits.specs.Room.{Roomy};

    ghost Value = { Roomy T };

    ghost view = { λ l. record { items = l.vec.items; spare = vec_capacity l.vec - vec_len l.vec } };
}

impl<T> Buffer<T> {
    /// A list without values, which will grow by `alloc`. Takes no memory.
    pub fn new(alloc: Global) -> Self
        ensures { result.items ≡ [] }
    {
        Buffer {
            vec: Vec::new(alloc),
        }
    }

    /// How many values there are. Takes no memory.
    pub fn len(&self) -> usize
        ensures { result ≡ length self.now.items }
    {
        self.vec.len()
    }

    /// Whether there is no value. Takes no memory.
    pub fn is_empty(&self) -> bool
        ensures { IsTrue result ↔ (self.now.items ≡ []) }
    {
        self.vec.is_empty()
    }

    /// The values, for loops and iterators. Takes no memory.
    pub fn as_slice(&self) -> &[T]
        ensures { result.now ≡ self.now.items }
    {
        &self.vec
    }

    /// The values as a list that shows no room. Takes no memory.
    pub fn into_list(self) -> List<T>
        ensures { result.items ≡ self.items }
    {
        List::from(self.vec)
    }

    /// The value at index `i`, counted from 0. Takes no memory.
    pub fn get(&self, i: usize) -> &T
        requires { i < length self.now.items }
        ensures { result.now ≡ slice_index_or self.now.items i result.now }
    {
        &self.vec[i]
    }

    /// Makes room for `n` more values, which [`push_reserved`](Buffer::push_reserved) fills. The values stay,
    /// and room that was there is kept. After a refusal the room is as it was, too.
    pub fn reserve(&mut self, n: usize) -> Result<(), OutOfMemory>
        ensures items { self.new.items ≡ self.old.items }
        ensures kept { self.old.spare ≤ self.new.spare }
        ensures ok { OnOk result (n ≤ self.new.spare) }
        ensures err { OnErr result (self.new.spare ≡ self.old.spare) }
    {
        self.vec.reserve(n)?;
        Ok(())
    }

    /// Adds `t` at the end, in room that is there. Takes no memory.
    pub fn push_reserved(&mut self, t: T)
        requires { 1 ≤ self.old.spare }
        ensures items { self.new.items ≡ self.old.items ++ t ∷ [] }
        ensures spare { self.new.spare + 1 ≡ self.old.spare }
    {
        self.vec.push_reserved(t);
    }

    /// Turns the order of the values round. Takes no memory.
    pub fn reverse(&mut self)
        ensures items { self.new.items ≡ reverse self.old.items }
        ensures spare { self.new.spare ≡ self.old.spare }
    {
        self.vec.reverse();
    }
}

impl<T: Drop> Buffer<T> {
    /// Puts `t` in place of the value at index `i`, which is dropped. Takes no memory.
    pub fn set(&mut self, i: usize, t: T)
        requires { i < length self.old.items }
        ensures items { self.new.items ≡ slice_set self.old.items i t }
        ensures spare { self.new.spare ≡ self.old.spare }
    {
        self.vec[i] = t;
    }

    /// Drops all values, and keeps their room. Takes no memory.
    pub fn clear(&mut self)
        ensures items { self.new.items ≡ [] }
        ensures spare { self.new.spare ≡ length self.old.items + self.old.spare }
    {
        self.vec.clear();
    }
}
