// Lists that have mostly one value.
ghost use Rattle.std.specs.Prelude.{◌≡◌, ◌++◌, ◌∷◌, [], IfOk};
ghost use Rattle.std.specs.Mem.{FitsInMemory};
ghost use Rattle.icl_lexer.specs.Held.{one_or_more};

use ij_bits::{List, OutOfMemory};
use std::alloc::Global;
use std::marker::Model;
use std::slice::from_ref;

/// Where the values lie.
#[derive(Drop)]
enum Values<T> {
    One(T),
    More(List<T>),
}

/// One value or more, in order. One alone lies in the list itself, and takes no memory of its own.
///
/// Contracts see a record of one field: `items`, the values.
#[derive(Drop)]
pub struct OneOrMore<T> {
    values: Values<T>,
}

impl<T> Model for OneOrMore<T> {
    ghost use Rattle.icl_lexer.specs.Held.{Items, one_or_more};

    ghost Value = { Items T };

    ghost view = { λ f. record { items = one_or_more f.values } };
}

impl<T: Drop> Values<T> {
    /// The values in a list.
    fn into_list(self, alloc: Global) -> Result<List<T>, OutOfMemory>
        ensures { IfOk result (λ list. list.items ≡ one_or_more self) }
    {
        match self {
            Values::One(first) => {
                let mut list = List::from(Vec::with_capacity(alloc, 2)?);
                list.push(first)?;
                Ok(list)
            }
            Values::More(list) => Ok(list),
        }
    }
}

impl<T> OneOrMore<T> {
    /// One value.
    pub fn one(value: T) -> OneOrMore<T>
        ensures { result.items ≡ value ∷ [] }
    {
        OneOrMore {
            values: Values::One(value),
        }
    }

    /// The values. A known type always fits in memory; a generic caller asks for it too.
    pub fn as_slice(&self) -> &[T]
        requires { FitsInMemory T.row }
        ensures { result.now ≡ self.now.items }
    {
        let values = &self.values;
        match values {
            Values::One(one) => from_ref(one),
            Values::More(list) => list.as_slice(),
        }
    }
}

impl<T: Drop> OneOrMore<T> {
    /// The values, with one more after them.
    pub fn with(self, alloc: Global, value: T) -> Result<OneOrMore<T>, OutOfMemory>
        ensures { IfOk result (λ f. f.items ≡ self.items ++ value ∷ []) }
    {
        let mut list = self.values.into_list(alloc)?;
        list.push(value)?;
        Ok(OneOrMore {
            values: Values::More(list),
        })
    }

    /// The values in a list. One alone makes room for itself alone.
    pub fn into_list(self, alloc: Global) -> Result<List<T>, OutOfMemory>
        ensures { IfOk result (λ list. list.items ≡ self.items) }
    {
        match self.values {
            Values::One(first) => {
                let mut values = Vec::new(alloc);
                values.reserve_exact(1)?;
                values.push(first)?;
                Ok(List::from(values))
            }
            Values::More(list) => Ok(list),
        }
    }
}
