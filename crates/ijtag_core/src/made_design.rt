// The made design: its texts, and what they are accepted as.
ghost use Rattle.std.specs.Prelude.{false, true, IfOk};
ghost use Rattle.ijtag_stages.specs.Follows.{Follows};
ghost use Rattle.ijtag_work.specs.Command.{made_names};
ghost use Rattle.ijtag_work.specs.Order.{accepted_made, made_files, written_as};
ghost use Rattle.ijtag_work.specs.Using.{CanUse, seen_accepted};
ghost use Rattle.ijtag_work.specs.Words.{seen_make};
ghost use Rattle.ijtag_core.specs.Files.{texts_of};

use crate::made_files::{check_lengths, files_of};
use design_maker::{Made, MakeFault, make};
use ijtag_stages::{Stage, StageFault, refused_number};
use ijtag_work::{Accepted, MakeWords, Texts, accept};
use std::alloc::Global;

/// The top module of a made design.
const TOP: &str = "chip";

/// Its procedure.
const PROCEDURE: &str = "p";

/// The four texts of the design, of 1 to 64 instruments.
#[tactic(auto, unfolding(ijtag_work::specs::Order::made_files))]
pub(crate) fn make_design(alloc: Global, words: &MakeWords<'_>) -> Result<Made, StageFault>
    ensures { Follows (made_files (seen_make words.now))
        (λ made. written_as (made_names words.now.stem.now) (texts_of made)) result }
{
    match make(alloc, words.seed, words.size) {
        Ok(made) => Ok(made),
        Err(MakeFault::BadSize { size }) => {
            Err(refused_number(alloc, Stage::Make, b"BadSize", size))
        }
        Err(MakeFault::OutOfMemory) => Err(StageFault::OutOfMemory),
    }
}

/// What the texts of a design are accepted as, each of them no longer than a file may be that is loaded.
#[tactic(auto, unfolding(ijtag_work::specs::Order::accepted_made))]
pub(crate) fn accept_design<'t>(
    alloc: Global,
    stem: &str,
    made: &'t Made,
) -> Result<Accepted<'t>, StageFault>
    ensures follows { Follows
        (accepted_made (written_as (made_names stem.now) (texts_of made.now))) seen_accepted result }
    ensures can { IfOk result (CanUse (record { tables = true; svf = false; pdl = true })) }
{
    check_lengths(alloc, &files_of(stem, made))?;
    let it = accept(
        alloc,
        &Texts {
            icl: made.icl.as_slice(),
            device: made.device.as_slice(),
            tables: Some(made.tables.as_slice()),
            svf: None,
            top: TOP,
            pdl: Some(made.pdl.as_slice()),
            procedure: PROCEDURE,
        },
    )?;
    Ok(it)
}
