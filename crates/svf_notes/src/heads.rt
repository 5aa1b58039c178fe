// What rows begin with, kept from note to note.
ghost use Rattle.std.specs.Prelude.{◌≡◌, ◌≢◌, ◌⊎◌, ◌<◌, ◌≤◌, ◌++◌, [], Some, codes, length, IfOk, IsTrue};
ghost use Rattle.std.specs.Prelude.{OnOk};
ghost use Rattle.ij_io.specs.Bytes.{Adds};
ghost use Rattle.net_graph.specs.Nets.{IsNet};
ghost use Rattle.svf_notes.specs.Heads.{row_head};
ghost use Rattle.svf_notes.specs.Notes.{positions_text};

use crate::names::{put_range, put_register_path};
use ij_bits::OutOfMemory;
use ij_io::{Sink, StoreFault, SureSink, Word, put_words};
use net_graph::Net;
use std::alloc::Global;
use std::marker::Model;

/// What begins a row isn't kept where it has more bytes.
const LONG: usize = 256;

/// What the row of a register began with last, or no byte: then it isn't known.
#[derive(Drop)]
pub(crate) struct Head {
    /// The position in the scan of the register's position 0.
    pub at: u32,
    pub text: Vec<u8>,
}

impl Head {
    /// Whether it is known, and for this position.
    fn is_of(&self, at: u32) -> bool
        ensures { IsTrue result → (self.now.at ≡ at) × (self.now.text.items ≢ []) }
    {
        self.at == at && !self.text.is_empty()
    }

    /// Keeps what a row begins with at this position, if it is short.
    fn keep(&mut self, at: u32, text: &[u8]) -> Result<(), OutOfMemory>
        ensures { (self.new.text.items ≡ []) ⊎ ((self.new.at ≡ at) × (self.new.text.items ≡ text.now)) }
    {
        self.text.clear();
        self.at = at;
        if text.len() <= LONG {
            self.text.extend_from_slice(text)?;
        }
        Ok(())
    }
}

/// What the rows of a network's registers begin with. What is kept of one is written again where the register
/// is at the same position.
///
/// Contracts see the network.
#[derive(Drop)]
pub(crate) struct Heads<'a> {
    net: &'a Net,
    heads: Vec<Head>,
}

impl<'a> Model for Heads<'a> {
    ghost use Rattle.net_graph.specs.declared.net.Net.{Net};
    ghost use Rattle.svf_notes.specs.Heads.{AreHeads};

    ghost Value = { Net };

    ghost view = { λ h. h.net.now };

    ghost invariant = { λ h. AreHeads h.net.now h.heads.items };
}

/// Writes the positions of a register of this width, from a position on.
#[tactic(auto, unfolding(ij_io::specs::Words::words_text))]
fn put_positions(at: u32, width: u32, note: &mut SureSink) -> Result<(), StoreFault>
    requires { 1 ≤ width }
    ensures { OnOk result (Adds (Some note.old) (Some note.new) (codes "\n!:" ++ positions_text at width)) }
{
    let low = u64::from(at);
    put_words(
        note,
        &[
            Word::Text(b"\n!:   "),
            Word::Number(low + u64::from(width - 1)),
            Word::Text(b".."),
            Word::Number(low),
            Word::Text(b" "),
        ],
    )
}

/// Writes what the row of a register begins with, up to its values.
fn put_head(net: &Net, reg: u32, at: u32, note: &mut SureSink) -> Result<(), StoreFault>
    requires well_formed { IsNet net.now }
    requires there { reg < length net.now.regs.items }
    ensures { OnOk result (Adds (Some note.old) (Some note.new) (row_head net.now reg at)) }
{
    let width = net.regs.get(reg as usize).width;
    put_positions(at, width, note)?;
    put_register_path(net, reg, note)?;
    put_range(net, reg, width, note)?;
    note.write(b" writes ")?;
    Ok(())
}

impl<'a> Heads<'a> {
    /// Nothing is known yet.
    pub(crate) fn new(alloc: Global, net: &'a Net) -> Result<Heads<'a>, OutOfMemory>
        ensures { IfOk result (λ heads. heads ≡ net.now) }
    {
        let mut heads = Vec::new(alloc);
        for _reg in 0..net.regs.len() {
            heads.push(Head {
                at: 0,
                text: Vec::new(alloc),
            })?;
        }
        Ok(Heads { net, heads })
    }

    /// Writes what the row of a register begins with, up to its values, where its position 0 is this one of
    /// the scan.
    pub(crate) fn put_row_head(
        &mut self,
        reg: u32,
        at: u32,
        note: &mut SureSink,
    ) -> Result<(), StoreFault>
        requires well_formed { IsNet self.old }
        requires there { reg < length self.old.regs.items }
        ensures same { self.new ≡ self.old }
        ensures text { OnOk result (Adds (Some note.old) (Some note.new) (row_head self.old reg at)) }
    {
        let i = reg as usize;
        let head = &self.heads[i];
        if head.is_of(at) {
            return note.write(&head.text);
        }
        let from = note.bytes().len();
        put_head(self.net, reg, at, note)?;
        self.heads[i].keep(at, &note.bytes()[from..])?;
        Ok(())
    }
}
