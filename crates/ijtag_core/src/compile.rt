// The command `compile`.
ghost use Rattle.ijtag_work.specs.Order.{compile};
ghost use Rattle.ijtag_work.specs.Words.{seen_compile};

use crate::effect::Effect;
use crate::svf::write_svf;
use ij_io::{Shelf, Sink};
use ijtag_work::{Accepted, CompileWords, ProcedureWords, Stop, Verdict};
use std::alloc::Global;

/// Writes the SVF file, from its front, and prints nothing.
impl<'w> Effect for CompileWords<'w> {
    ghost table_row = { λ words. compile (seen_compile words) };

    type Words = ProcedureWords<'w>;

    fn words(&self) -> &Self::Words {
        &self.procedure
    }

    fn prints(&self) -> bool {
        false
    }

    fn act<'a, S: Shelf, O: Sink>(
        &'a self,
        alloc: Global,
        it: &Accepted,
        shelf: &mut S,
        _out: &mut O,
    ) -> Result<Verdict, Stop<'a>> {
        match write_svf(alloc, it, self.svf, shelf) {
            Ok(()) => Ok(Verdict::Agrees),
            Err(fault) => Err(Stop::of_file(fault, self.svf)),
        }
    }
}
