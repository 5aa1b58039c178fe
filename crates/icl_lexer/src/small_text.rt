// Short texts.
ghost use Rattle.std.specs.Prelude.{◌≡◌, ◌≤◌, length, IfOk, IsOk};

use ij_bits::OutOfMemory;
use std::alloc::Global;
use std::marker::Model;

/// The most bytes that lie in the text itself.
const NEAR: usize = 14;

/// Where the bytes lie.
#[derive(Drop)]
enum Held {
    /// This many of these.
    Near(u8, [u8; NEAR]),
    /// Here.
    Far(Box<Vec<u8>>),
}

/// The bytes of a name or a number of ICL. Up to 14 lie in it, so that most take no memory of their own.
///
/// Contracts see a record of one field: `items`, the bytes.
#[derive(Drop)]
pub struct SmallText {
    held: Held,
}

impl Model for SmallText {
    ghost use Rattle.std.specs.Prelude.{ℕ};
    ghost use Rattle.icl_lexer.specs.Held.{Items, near_or_far, IsNear};

    ghost Value = { Items ℕ };

    ghost view = { λ t. record { items = near_or_far t.held } };

    ghost invariant = { λ t. IsNear t.held };
}

impl SmallText {
    /// A text with these bytes. Up to 14 take no memory.
    pub fn of(alloc: Global, bytes: &[u8]) -> Result<SmallText, OutOfMemory>
        ensures bytes { IfOk result (λ t. t.items ≡ bytes.now) }
        ensures near { length bytes.now ≤ 14 → IsOk result }
    {
        let held = if bytes.len() <= NEAR {
            let mut near = [0; NEAR];
            near[..bytes.len()].copy_from_slice(bytes);
            Held::Near(bytes.len() as u8, near)
        } else {
            let mut far = Vec::with_capacity(alloc, bytes.len())?;
            far.extend_from_slice(bytes)?;
            Held::Far(Box::new(alloc, far)?)
        };
        Ok(SmallText { held })
    }

    /// The bytes.
    pub fn as_slice(&self) -> &[u8]
        ensures { result.now ≡ self.now.items }
    {
        match &self.held {
            Held::Near(len, bytes) => &bytes[..*len as usize],
            Held::Far(far) => far,
        }
    }
}

const _: () = prove!(size_of::<SmallText>() == 16);
