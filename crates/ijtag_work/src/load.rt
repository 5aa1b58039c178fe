// The files that a command loads.
ghost use Rattle.std.specs.Prelude.{◌≡◌, ◌≤◌, List, ℕ, [], ◌∷◌, length, map, IfOk};
ghost use Rattle.ij_io.specs.Causes.{SameCounts};
ghost use Rattle.ijtag_work.specs.Loads.{loaded, loaded_one, names_of};
ghost use Rattle.ijtag_work.specs.Follows.{LoadsAndFollows, AreTexts, seen_texts};
ghost use Rattle.ijtag_work.specs.Runs.{OnlyTheseRise};
ghost use Rattle.ijtag_work.specs.Seen.{seen_load};

use crate::stop::Stop;
use ij_io::{LoadFault, Shelf};
use ij_text::{SOURCE_LIMIT, SVF_LIMIT};
use ijtag_stages::{Stage, refused_name};
use std::alloc::Global;

/// A file that is loaded, by its name.
#[derive(Clone, Copy)]
pub enum Load<'a> {
    /// A text of ICL, PDL, a device or tables.
    Source(&'a str),
    /// An SVF text, which may be longer.
    Svf(&'a str),
}

impl<'a> Load<'a> {
    fn name(&self) -> &'a str
        ensures { result.now ≡ (seen_load self.now).name }
    {
        match self {
            Load::Source(name) => name,
            Load::Svf(name) => name,
        }
    }

    /// The most bytes that the file may have. One of exactly this many is accepted; a longer one is refused
    /// as `Long`.
    fn limit(&self) -> u32
        ensures { result ≡ (seen_load self.now).limit }
    {
        match self {
            Load::Source(_) => SOURCE_LIMIT,
            Load::Svf(_) => SVF_LIMIT,
        }
    }
}

/// Loads one file, and says which one it is where that stops. No file changes.
fn load_one<'a, S: Shelf>(
    alloc: Global,
    load: &Load<'a>,
    shelf: &mut S,
) -> Result<Vec<u8>, Stop<'a>>
    ensures follows { LoadsAndFollows (S.files shelf.old) (seen_load load.now ∷ [])
        (S.load_faults shelf.old) (S.load_faults shelf.new)
        (loaded_one (S.files shelf.old) (seen_load load.now)) (λ bytes. bytes.items) result }
    ensures fits { IfOk result (λ bytes. length bytes.items ≤ 134217728) }
    ensures files { S.files shelf.new ≡ S.files shelf.old }
    ensures later { (any : List ℕ) → S.load_faults shelf.old any ≤ S.load_faults shelf.new any }
    ensures others { OnlyTheseRise ((seen_load load.now).name ∷ [])
        (S.load_faults shelf.old) (S.load_faults shelf.new) }
    ensures stores { SameCounts (S.store_faults shelf.old) (S.store_faults shelf.new) }
{
    let name = load.name();
    match shelf.load(alloc, name, load.limit()) {
        Ok(bytes) => Ok(bytes),
        Err(LoadFault::Failed) => Err(Stop::ReadFault(name)),
        Err(LoadFault::Long) => {
            let fault = refused_name(alloc, Stage::File, b"Long", name.as_bytes());
            Err(Stop::from(fault))
        }
        Err(LoadFault::OutOfMemory) => Err(Stop::OutOfMemory),
    }
}

/// Loads these files in their order, each once, and stops at the first that can't be loaded or is too long,
/// or where memory ends. No file changes, and the counts of no other names.
pub fn load_files<'a, S: Shelf>(
    alloc: Global,
    loads: &[Load<'a>],
    shelf: &mut S,
) -> Result<Vec<Vec<u8>>, Stop<'a>>
    ensures follows { LoadsAndFollows (S.files shelf.old) (map seen_load loads.now)
        (S.load_faults shelf.old) (S.load_faults shelf.new)
        (loaded (S.files shelf.old) (map seen_load loads.now)) (λ texts. seen_texts texts.items) result }
    ensures texts { IfOk result (λ texts. AreTexts (length loads.now) (seen_texts texts.items)) }
    ensures files { S.files shelf.new ≡ S.files shelf.old }
    ensures others { OnlyTheseRise (names_of (map seen_load loads.now))
        (S.load_faults shelf.old) (S.load_faults shelf.new) }
    ensures stores { SameCounts (S.store_faults shelf.old) (S.store_faults shelf.new) }
{
    let mut texts = Vec::new(alloc);
    for load in loads {
        let text = load_one(alloc, load, shelf)?;
        texts.push(text)?;
    }
    Ok(texts)
}
