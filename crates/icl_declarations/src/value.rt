// Values.
ghost use Rattle.std.specs.Prelude.{◌≡◌, ◌<◌, IfOk};
ghost use Rattle.icl_declarations.specs.Values.{seen_value};

use ij_bits::{OutOfMemory, Tern};
use ij_text::{Text, name_of};
use std::alloc::Global;

/// The value of a parameter or an expression.
#[derive(Drop)]
pub enum Value {
    /// An integer, which counts as a number without a size.
    Integer(u32),
    /// A number in bits, of which some may be open, and whether it has a size. Position 0 is the lowest bit.
    Bits { sized: bool, bits: Tern },
    /// A text: the bytes between its quotes, as they stand.
    Text(Text),
}

impl Value {
    /// The same value.
    pub fn copy(&self, alloc: Global) -> Result<Value, OutOfMemory>
        ensures { IfOk result (λ v. seen_value v ≡ seen_value self.now) }
    {
        match self {
            Value::Integer(n) => Ok(Value::Integer(*n)),
            Value::Bits { sized, bits } => {
                let bits = bits.copy(alloc)?;
                Ok(Value::Bits {
                    sized: *sized,
                    bits,
                })
            }
            Value::Text(text) => {
                let text = name_of(alloc, text.as_slice())?;
                Ok(Value::Text(text))
            }
        }
    }
}
