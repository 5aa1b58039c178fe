// The names of the files of a made design.
ghost use Rattle.std.specs.Prelude.{◌≡◌, IfOk};
ghost use Rattle.std.specs.String.{string_bytes};
ghost use Rattle.ijtag_work.specs.Seen.{seen_made_name};

use ij_bits::OutOfMemory;
use std::alloc::Global;

/// The name of a file of a made design: a word, and the ending of its kind of file.
#[derive(Clone, Copy)]
pub struct MadeName<'a> {
    /// What the names of all files of the design begin with.
    pub stem: &'a str,
    /// What this one ends with.
    pub ending: &'static str,
}

impl MadeName<'_> {
    /// The whole name.
    pub fn text(&self, alloc: Global) -> Result<String, OutOfMemory>
        ensures { IfOk result (λ text. string_bytes text ≡ seen_made_name self.now) }
    {
        let mut text = String::from_str(alloc, self.stem)?;
        text.push_str(self.ending)?;
        Ok(text)
    }
}
