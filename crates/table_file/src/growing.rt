// A model with one more line.
ghost use Rattle.std.specs.Prelude.{◌≡◌, ◌^◌, ◌<◌, ◌≤◌, false, option_map, IfOk, IfSome, OnOk};
ghost use Rattle.instruments.specs.Seen.{seen_model, seen_word, seen_memory, seen_port};
ghost use Rattle.table_lines.specs.Reading.{plain_value};
ghost use Rattle.table_lines.specs.Said.{Input, Word, Memory, Output, Change, Run};
ghost use Rattle.table_lines.specs.SeenSaid.{seen_slice, seen_row, seen_starts, seen_said};
ghost use Rattle.table_file.specs.Small.{IsSmall, AreFewStarts};
ghost use Rattle.table_file.specs.Tables.{with_line, width_fault, limit_fault};

use crate::adding::{out_said, row_said};
use ij_bits::OutOfMemory;
use ij_text::{Number, name_of};
use instruments::{MemDef, Model, PortDef, WordDef};
use std::alloc::Global;
use table_lines::{SaidLine, SaidRow, Slice, StartNumbers, plain_number};

fn port_def(alloc: Global, name: &[u8], width: u128) -> Result<PortDef, OutOfMemory>
    requires { width ≤ 64 }
    ensures { IfOk result (λ d. seen_port d ≡ record { name = name.now; width = width }) }
{
    Ok(PortDef {
        name: name_of(alloc, name)?,
        width: width as u32,
    })
}

/// The number at a reset, if there is one.
fn reset_number(reset: &Option<Number>) -> Option<u64>
    requires { IfSome (option_map plain_value reset.now) (λ n. n < 2 ^ 64) }
    ensures { result ≡ option_map plain_value reset.now }
{
    match reset {
        Some(n) => Some(plain_number(n)),
        None => None,
    }
}

fn word_def(
    alloc: Global,
    name: &[u8],
    width: u128,
    starts: &StartNumbers,
) -> Result<WordDef, OutOfMemory>
    requires width { width ≤ 64 }
    requires starts { AreFewStarts (seen_starts starts.now) }
    ensures { IfOk result (λ d. seen_word d ≡ record {
      name = name.now;
      width = width;
      init =
          (seen_starts starts.now).init;
      reset = (seen_starts starts.now).reset;
    }) }
{
    Ok(WordDef {
        name: name_of(alloc, name)?,
        width: width as u32,
        init: plain_number(&starts.init),
        reset: reset_number(&starts.reset),
    })
}

fn mem_def(
    alloc: Global,
    name: &[u8],
    depth: u128,
    width: u128,
    starts: &StartNumbers,
) -> Result<MemDef, OutOfMemory>
    requires depth { depth ≤ 256 }
    requires width { width ≤ 64 }
    requires starts { AreFewStarts (seen_starts starts.now) }
    ensures { IfOk result (λ d. seen_memory d ≡ record {
      name = name.now;
      depth = depth;
      width = width;
      init =
          (seen_starts starts.now).init;
      reset = (seen_starts starts.now).reset;
    }) }
{
    Ok(MemDef {
        name: name_of(alloc, name)?,
        depth: depth as u32,
        width: width as u32,
        init: plain_number(&starts.init),
        reset: reset_number(&starts.reset),
    })
}

fn with_input(alloc: Global, m: &mut Model, name: &[u8], width: u128) -> Result<(), OutOfMemory>
    requires width { width_fault (seen_model m.old) (Input name.now width) ≡ false }
    requires limit { limit_fault (seen_model m.old) (Input name.now width) ≡ false }
    ensures { OnOk result (seen_model m.new ≡ with_line (seen_model m.old) (Input name.now width)) }
{
    m.ins.push(port_def(alloc, name, width)?)
}

fn with_word(
    alloc: Global,
    m: &mut Model,
    name: &[u8],
    width: u128,
    starts: &StartNumbers,
) -> Result<(), OutOfMemory>
    requires width { width_fault (seen_model m.old) (Word name.now width (seen_starts starts.now)) ≡ false }
    requires limit { limit_fault (seen_model m.old) (Word name.now width (seen_starts starts.now)) ≡ false }
    ensures { OnOk result (seen_model m.new
        ≡ with_line (seen_model m.old) (Word name.now width (seen_starts starts.now))) }
{
    m.words.push(word_def(alloc, name, width, starts)?)
}

fn with_memory(
    alloc: Global,
    m: &mut Model,
    name: &[u8],
    depth: u128,
    width: u128,
    starts: &StartNumbers,
) -> Result<(), OutOfMemory>
    requires width { width_fault (seen_model m.old)
        (Memory name.now depth width (seen_starts starts.now)) ≡ false }
    requires limit { limit_fault (seen_model m.old)
        (Memory name.now depth width (seen_starts starts.now)) ≡ false }
    ensures { OnOk result (seen_model m.new
        ≡ with_line (seen_model m.old) (Memory name.now depth width (seen_starts starts.now))) }
{
    m.mem = Some(mem_def(alloc, name, depth, width, starts)?);
    Ok(())
}

fn with_output(alloc: Global, m: &mut Model, name: &[u8], slice: &Slice) -> Result<(), OutOfMemory>
    requires small { IsSmall (seen_model m.old) }
    requires width { width_fault (seen_model m.old) (Output name.now (seen_slice slice.now)) ≡ false }
    ensures { OnOk result (seen_model m.new
        ≡ with_line (seen_model m.old) (Output name.now (seen_slice slice.now))) }
{
    let out = out_said(alloc, m, name, slice)?;
    m.outs.push(out)
}

fn with_change(alloc: Global, m: &mut Model, row: &SaidRow) -> Result<(), OutOfMemory>
    requires small { IsSmall (seen_model m.old) }
    requires width { width_fault (seen_model m.old) (Change (seen_row row.now)) ≡ false }
    ensures { OnOk result (seen_model m.new ≡ with_line (seen_model m.old) (Change (seen_row row.now))) }
{
    let row = row_said(alloc, m, row)?;
    m.change.push(row)
}

fn with_run(alloc: Global, m: &mut Model, row: &SaidRow) -> Result<(), OutOfMemory>
    requires small { IsSmall (seen_model m.old) }
    requires width { width_fault (seen_model m.old) (Run (seen_row row.now)) ≡ false }
    ensures { OnOk result (seen_model m.new ≡ with_line (seen_model m.old) (Run (seen_row row.now))) }
{
    let row = row_said(alloc, m, row)?;
    m.run.push(row)
}

/// Adds what a line says to a model; its widths and limits aren't at fault.
pub(crate) fn with_line(alloc: Global, m: &mut Model, l: &SaidLine) -> Result<(), OutOfMemory>
    requires small { IsSmall (seen_model m.old) }
    requires width { width_fault (seen_model m.old) (seen_said l.now) ≡ false }
    requires limit { limit_fault (seen_model m.old) (seen_said l.now) ≡ false }
    ensures { OnOk result (seen_model m.new ≡ with_line (seen_model m.old) (seen_said l.now)) }
{
    match l {
        SaidLine::Input { name, width } => with_input(alloc, m, name, *width),
        SaidLine::Word {
            name,
            width,
            starts,
        } => with_word(alloc, m, name, *width, starts),
        SaidLine::Memory {
            name,
            depth,
            width,
            starts,
        } => with_memory(alloc, m, name, *depth, *width, starts),
        SaidLine::Output { name, slice } => with_output(alloc, m, name, slice),
        SaidLine::Change(row) => with_change(alloc, m, row),
        SaidLine::Run(row) => with_run(alloc, m, row),
        SaidLine::End => Ok(()),
    }
}
