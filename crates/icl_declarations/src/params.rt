// Parameters.
ghost use Rattle.std.specs.Prelude.{◌≡◌, [], OnOk, OnErr};
ghost use Rattle.std.specs.Option.{option_map};
ghost use Rattle.icl_declarations.specs.Values.{seen_value, param_value, with_param};
ghost use Rattle.icl_declarations.specs.Tables.{seen_table};

use crate::value::Value;
use ij_bits::OutOfMemory;
use indexmap::IndexMap;
use std::alloc::Global;

/// The parameters of a module in one cell, with their values.
#[derive(Drop)]
pub struct ParamTable {
    table: IndexMap<Vec<u8>, Value>,
}

impl ParamTable {
    /// No parameters. Takes no memory.
    pub fn new(alloc: Global) -> Self
        ensures { seen_table result ≡ [] }
    {
        ParamTable {
            table: IndexMap::new(alloc),
        }
    }

    /// The value of a parameter, if there is one of this name. Takes no memory.
    pub fn find(&self, name: &[u8]) -> Option<&Value>
        ensures { option_map (λ v. seen_value v.now) result ≡ param_value (seen_table self.now) name.now }
    {
        self.table.get(name)
    }

    /// Gives a parameter a value, in place of the one that it has. After a refusal the parameters are as they
    /// were.
    pub fn insert(&mut self, alloc: Global, name: &[u8], value: Value) -> Result<(), OutOfMemory>
        ensures ok { OnOk result (seen_table self.new
            ≡ with_param (seen_table self.old) name.now (seen_value value)) }
        ensures err { OnErr result (seen_table self.new ≡ seen_table self.old) }
    {
        let key = Vec::from_slice(alloc, name)?;
        self.table.insert(key, value)?;
        Ok(())
    }
}
