// A file that is written.
ghost use Rattle.std.specs.Prelude.{◌≡◌, Some, OnOk, OnErr};
ghost use Rattle.std.specs.Option.{option_map};
ghost use Rattle.retargeter.specs.Files.{HoldsPart};
ghost use Rattle.ij_io.specs.Causes.{HasCauseAt, SameCounts};
ghost use Rattle.ij_io.specs.Files.{file_at, OthersStay};

use ij_io::{Shelf, StoreFault};

/// Begins a file, writes its bytes, from its front, and finishes it. After a refusal it is as before, or
/// holds some first bytes.
pub fn write_file<S: Shelf>(name: &str, bytes: &[u8], shelf: &mut S) -> Result<(), StoreFault>
    ensures whole { OnOk result
        (file_at (S.files shelf.new) name.now ≡ option_map (λ _. Some bytes.now) (S.files shelf.old)) }
    ensures part { OnErr result (HoldsPart (S.files shelf.old) (S.files shelf.new) name.now bytes.now) }
    ensures others { OthersStay (S.files shelf.old) (S.files shelf.new) name.now }
    ensures cause { HasCauseAt name.now (S.store_faults shelf.old)
        (S.store_faults shelf.new) result StoreFault.Failed }
    ensures loads { SameCounts (S.load_faults shelf.old) (S.load_faults shelf.new) }
{
    shelf.begin(name)?;
    shelf.append(name, bytes)?;
    shelf.finish(name)?;
    Ok(())
}
