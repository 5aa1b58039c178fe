// The texts that commands accept: the words that name their files, how these are loaded, and which text is
// what.
ghost use Rattle.std.specs.Prelude.{◌≡◌, List, ℕ, Some, length, IfOk};
ghost use Rattle.ij_io.specs.Causes.{SameCounts};
ghost use Rattle.ijtag_work.specs.Follows.{LoadsAndFollows, AreTexts, seen_texts};
ghost use Rattle.ijtag_work.specs.Inputs.{Inputs as NamedInputs, OfAudit, OfDirect, OfNetwork, OfPlay};
ghost use Rattle.ijtag_work.specs.Inputs.{OfProcedure, loads_of, texts_of};
ghost use Rattle.ijtag_work.specs.Loads.{loaded, names_of};
ghost use Rattle.ijtag_work.specs.Runs.{OnlyTheseRise};
ghost use Rattle.ijtag_work.specs.Using.{AreShortTexts, needs_in, needs_of, seen_named};
ghost use Rattle.ijtag_work.specs.Words.{seen_audit, seen_direct, seen_network, seen_play, seen_procedure};

use crate::accepted::Texts;
use crate::load::{Load, load_files};
use crate::stop::Stop;
use ij_io::Shelf;
use std::alloc::Global;

/// Words that name the files of a command's texts, the top module, and the procedure where there is one.
pub trait Inputs {
    /// The words without where they lie in memory.
    ghost named: { Self → NamedInputs };

    /// Loads the files in their order, each once, and stops at the first that can't be loaded or is too long.
    /// No file changes, and the counts of no other names.
    fn load<'a, S: Shelf>(&'a self, alloc: Global, shelf: &mut S) -> Result<Vec<Vec<u8>>, Stop<'a>>
        ensures follows { LoadsAndFollows (S.files shelf.old) (loads_of (named self.now))
            (S.load_faults shelf.old) (S.load_faults shelf.new)
            (loaded (S.files shelf.old) (loads_of (named self.now)))
            (λ texts. seen_texts texts.items) result }
        ensures texts { IfOk result
            (λ texts. AreTexts (length (loads_of (named self.now))) (seen_texts texts.items)) }
        ensures files { S.files shelf.new ≡ S.files shelf.old }
        ensures others { OnlyTheseRise (names_of (loads_of (named self.now)))
            (S.load_faults shelf.old) (S.load_faults shelf.new) }
        ensures stores { SameCounts (S.store_faults shelf.old) (S.store_faults shelf.new) };

    /// The texts by what they are, of those that were loaded.
    fn texts<'t>(&'t self, loaded: &'t [Vec<u8>]) -> Texts<'t>
        requires { AreTexts (length (loads_of (named self.now))) (seen_texts loaded.now) }
        ensures texts { texts_of (named self.now) (seen_texts loaded.now) ≡ Some (seen_named result) }
        ensures short { AreShortTexts (seen_named result) }
        ensures needs { needs_of (seen_named result) ≡ needs_in (named self.now) };
}

/// The words `ICL DEVICE TOP`.
#[derive(Clone, Copy)]
pub struct NetworkWords<'a> {
    /// The file of the network (IEEE 1687-2014, ICL).
    pub icl: &'a str,
    /// The file of the device's TAP.
    pub device: &'a str,
    /// The top module's name.
    pub top: &'a str,
}

impl<'w> Inputs for NetworkWords<'w> {
    ghost named = { λ words. OfNetwork (seen_network words) };

    fn load<'a, S: Shelf>(
        &'a self,
        alloc: Global,
        shelf: &mut S,
    ) -> Result<Vec<Vec<u8>>, Stop<'a>> {
        let loads = [Load::Source(self.icl), Load::Source(self.device)];
        load_files(alloc, &loads, shelf)
    }

    fn texts<'t>(&'t self, loaded: &'t [Vec<u8>]) -> Texts<'t> {
        let [icl, device] = loaded else {
            unreachable!()
        };
        Texts {
            icl,
            device,
            tables: None,
            svf: None,
            top: self.top,
            pdl: None,
            procedure: "",
        }
    }
}

/// The words `ICL PDL DEVICE TOP PROC`.
#[derive(Clone, Copy)]
pub struct ProcedureWords<'a> {
    /// The network.
    pub network: NetworkWords<'a>,
    /// The file of the procedures (IEEE 1687-2014, PDL level 0).
    pub pdl: &'a str,
    /// The procedure's name.
    pub name: &'a str,
}

impl<'w> Inputs for ProcedureWords<'w> {
    ghost named = { λ words. OfProcedure (seen_procedure words) };

    fn load<'a, S: Shelf>(
        &'a self,
        alloc: Global,
        shelf: &mut S,
    ) -> Result<Vec<Vec<u8>>, Stop<'a>> {
        let loads = [
            Load::Source(self.network.icl),
            Load::Source(self.pdl),
            Load::Source(self.network.device),
        ];
        load_files(alloc, &loads, shelf)
    }

    fn texts<'t>(&'t self, loaded: &'t [Vec<u8>]) -> Texts<'t> {
        let [icl, pdl, device] = loaded else {
            unreachable!()
        };
        Texts {
            icl,
            device,
            tables: None,
            svf: None,
            top: self.network.top,
            pdl: Some(pdl),
            procedure: self.name,
        }
    }
}

/// The words `ICL PDL DEVICE TABLES TOP PROC`.
#[derive(Clone, Copy)]
pub struct DirectWords<'a> {
    /// The procedure.
    pub procedure: ProcedureWords<'a>,
    /// The file of the instruments' tables.
    pub tables: &'a str,
}

impl<'w> Inputs for DirectWords<'w> {
    ghost named = { λ words. OfDirect (seen_direct words) };

    fn load<'a, S: Shelf>(
        &'a self,
        alloc: Global,
        shelf: &mut S,
    ) -> Result<Vec<Vec<u8>>, Stop<'a>> {
        let loads = [
            Load::Source(self.procedure.network.icl),
            Load::Source(self.procedure.pdl),
            Load::Source(self.procedure.network.device),
            Load::Source(self.tables),
        ];
        load_files(alloc, &loads, shelf)
    }

    fn texts<'t>(&'t self, loaded: &'t [Vec<u8>]) -> Texts<'t> {
        let [icl, pdl, device, tables] = loaded else {
            unreachable!()
        };
        Texts {
            icl,
            device,
            tables: Some(tables),
            svf: None,
            top: self.procedure.network.top,
            pdl: Some(pdl),
            procedure: self.procedure.name,
        }
    }
}

/// The words `SVF ICL DEVICE TABLES TOP`.
#[derive(Clone, Copy)]
pub struct PlayWords<'a> {
    /// The file that is played (Serial Vector Format, revision E).
    pub svf: &'a str,
    /// The network.
    pub network: NetworkWords<'a>,
    /// The file of the instruments' tables.
    pub tables: &'a str,
}

impl<'w> Inputs for PlayWords<'w> {
    ghost named = { λ words. OfPlay (seen_play words) };

    fn load<'a, S: Shelf>(
        &'a self,
        alloc: Global,
        shelf: &mut S,
    ) -> Result<Vec<Vec<u8>>, Stop<'a>> {
        let loads = [
            Load::Svf(self.svf),
            Load::Source(self.network.icl),
            Load::Source(self.network.device),
            Load::Source(self.tables),
        ];
        load_files(alloc, &loads, shelf)
    }

    fn texts<'t>(&'t self, loaded: &'t [Vec<u8>]) -> Texts<'t> {
        let [svf, icl, device, tables] = loaded else {
            unreachable!()
        };
        Texts {
            icl,
            device,
            tables: Some(tables),
            svf: Some(svf),
            top: self.network.top,
            pdl: None,
            procedure: "",
        }
    }
}

/// The words `SVF ICL PDL DEVICE TOP PROC`.
#[derive(Clone, Copy)]
pub struct AuditWords<'a> {
    /// The file that is audited (Serial Vector Format, revision E).
    pub svf: &'a str,
    /// The procedure.
    pub procedure: ProcedureWords<'a>,
}

impl<'w> Inputs for AuditWords<'w> {
    ghost named = { λ words. OfAudit (seen_audit words) };

    fn load<'a, S: Shelf>(
        &'a self,
        alloc: Global,
        shelf: &mut S,
    ) -> Result<Vec<Vec<u8>>, Stop<'a>> {
        let loads = [
            Load::Svf(self.svf),
            Load::Source(self.procedure.network.icl),
            Load::Source(self.procedure.pdl),
            Load::Source(self.procedure.network.device),
        ];
        load_files(alloc, &loads, shelf)
    }

    fn texts<'t>(&'t self, loaded: &'t [Vec<u8>]) -> Texts<'t> {
        let [svf, icl, pdl, device] = loaded else {
            unreachable!()
        };
        Texts {
            icl,
            device,
            tables: None,
            svf: Some(svf),
            top: self.procedure.network.top,
            pdl: Some(pdl),
            procedure: self.procedure.name,
        }
    }
}
