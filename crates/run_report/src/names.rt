// The iReads of a procedure by scan and position.
ghost use Rattle.std.specs.Prelude.{◌≡◌, ◌≤◌, ◌<◌, ◌^◌, IfOk, IfSome, length, map};
ghost use Rattle.bench_report.specs.Report.{Names};
ghost use Rattle.merge_order.specs.BitSteps.{bit_steps};
ghost use Rattle.ij_text.specs.Numbering.{AreDistinct};
ghost use Rattle.pdl_parser.specs.Grammar.{full_names};
ghost use Rattle.pdl_parser.specs.Views.{seen_proc};
ghost use Rattle.run_report.specs.Procedure.{AreReadNames, CanRetarget};
ghost use Rattle.run_report.specs.Reaching.{IsCursor};

use crate::cursor::Cursor;
use bench_report::ReadNames;
use ij_bits::OutOfMemory;
use net_graph::{Net, ReadBit};
use net_tree::Tree;
use pdl_parser::Proc;
use std::alloc::Global;
use std::marker::Model;

/// The iReads of a procedure by the scan and the position at which its SVF compares them (IEEE 1687-2014, PDL
/// level 0: iRead).
///
/// Nothing is looked at before it is asked for, and only the reads of one bit step are kept. Contracts see
/// the network, its nested form and the bit steps of the procedure.
#[derive(Drop)]
pub struct ReadPlaces<'a> {
    alloc: Global,
    procs: &'a [Proc],
    net: &'a Net,
    tree: &'a Tree,
    name: &'a [u8],
    cursor: Option<Cursor<'a>>,
}

impl<'a> Model for ReadPlaces<'a> {
    ghost use Rattle.std.specs.Coded.{codes};
    ghost use Rattle.std.specs.Prelude.{map};
    ghost use Rattle.merge_order.specs.BitSteps.{bit_steps};
    ghost use Rattle.net_tree.specs.FormCode.{form_code};
    ghost use Rattle.pdl_parser.specs.Views.{seen_proc};
    ghost use Rattle.run_report.specs.Procedure.{Procedure};
    ghost use Rattle.run_report.specs.Asking.{AreAsked};

    ghost Value = { Procedure };

    ghost coded = { Prim.hlevel (codes, form_code) };

    ghost view = { λ r. record {
      net = r.net.now;
      form = r.tree.now;
      steps =
          (bit_steps (map seen_proc r.procs.now) r.net.now r.tree.now r.name.now).steps;
    } };

    ghost invariant = { λ r. AreAsked r.procs.now r.net.now r.tree.now r.name.now r.cursor };
}

/// A cursor that is at the scan or before it: the one that there is, or a new one.
fn cursor_for<'a>(
    alloc: Global,
    procs: &'a [Proc],
    net: &'a Net,
    tree: &'a Tree,
    name: &[u8],
    cursor: Option<Cursor<'a>>,
    scan: u32,
) -> Result<Cursor<'a>, OutOfMemory>
    requires procs { AreDistinct (full_names (map seen_proc procs.now)) }
    requires few { length procs.now < 2 ^ 32 }
    requires can { CanRetarget net.now tree.now
        (bit_steps (map seen_proc procs.now) net.now tree.now name.now) }
    requires cursor { IfSome cursor
        (IsCursor net.now tree.now (bit_steps (map seen_proc procs.now) net.now tree.now name.now).steps) }
    ensures cursor { IfOk result
        (IsCursor net.now tree.now (bit_steps (map seen_proc procs.now) net.now tree.now name.now).steps) }
    ensures first { IfOk result (λ c. c.first ≤ scan) }
{
    if let Some(cursor) = cursor {
        if cursor.first <= scan {
            return Ok(cursor);
        }
        drop(cursor);
    }
    Cursor::new(alloc, procs, net, tree, name)
}

impl<'a> ReadPlaces<'a> {
    /// Those of a procedure of the top module on a network, which ends in no fault. It takes no memory.
    pub fn new(
        alloc: Global,
        procs: &'a [Proc],
        net: &'a Net,
        tree: &'a Tree,
        name: &'a [u8],
    ) -> Self
        requires procs { AreDistinct (full_names (map seen_proc procs.now)) }
        requires few { length procs.now < 2 ^ 32 }
        requires can { CanRetarget net.now tree.now
            (bit_steps (map seen_proc procs.now) net.now tree.now name.now) }
        ensures { result ≡ record {
          net = net.now;
          form = tree.now;
          steps =
              (bit_steps (map seen_proc procs.now) net.now tree.now name.now).steps;
        } }
    {
        ReadPlaces {
            alloc,
            procs,
            net,
            tree,
            name,
            cursor: None,
        }
    }
}

impl<'a> ReadNames for ReadPlaces<'a> {
    ghost AreNames = { λ p names. AreReadNames p names };

    fn read_at(&mut self, scan: u32, bit: u32) -> Result<Option<ReadBit>, OutOfMemory>
        ensures found { IfOk result (λ read. (names : Names)
            → AreReadNames self.old names → read ≡ names scan bit) }
        ensures same { (names : Names) → AreReadNames self.old names → AreReadNames self.new names }
        ensures stays { self.new ≡ self.old }
    {
        let before = self.cursor.take();
        let mut cursor = cursor_for(
            self.alloc, self.procs, self.net, self.tree, self.name, before, scan,
        )?;
        // What is let go of is let go of by a call: the prover goes through its parts once.
        match cursor.reach(self.alloc, self.net, self.tree, scan) {
            Ok(()) => {
                let read = cursor.find(scan, bit);
                drop(self.cursor.replace(cursor));
                Ok(read)
            }
            Err(fault) => {
                drop(cursor);
                Err(fault)
            }
        }
    }
}
