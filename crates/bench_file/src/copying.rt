// The words, memory and ports of a model in the order of an instrument.
ghost use Rattle.std.specs.Prelude.{◌≡◌, ◌<◌, ◌≤◌, map, length, get_or, unwrap_or, option_map, All, IfOk};
ghost use Rattle.std.specs.Prelude.{IfSome};
ghost use Rattle.instruments.specs.Seen.{seen_word, seen_memory, seen_port, seen_out};
ghost use Rattle.table_file.specs.Tables.{named};
ghost use Rattle.bench_file.specs.Fits.{in_port, out_port, no_out, out_named};

use ij_bits::{List, OutOfMemory};
use ij_text::name_of;
use instruments::{MemDef, OutDef, PortDef, WordDef};
use net_graph::{PortIn, PortOut};
use std::alloc::Global;
use table_lines::is;

fn word_copy(alloc: Global, d: &WordDef) -> Result<WordDef, OutOfMemory>
    ensures { IfOk result (λ r. seen_word r ≡ seen_word d.now) }
{
    Ok(WordDef {
        name: name_of(alloc, d.name.as_slice())?,
        width: d.width,
        init: d.init,
        reset: d.reset,
    })
}

pub(crate) fn words_copy(alloc: Global, words: &[WordDef]) -> Result<List<WordDef>, OutOfMemory>
    ensures { IfOk result (λ l. map seen_word l.items ≡ map seen_word words.now) }
{
    let mut all = List::new(alloc);
    for d in words {
        all.push(word_copy(alloc, d)?)?;
    }
    Ok(all)
}

fn mem_copy(alloc: Global, d: &MemDef) -> Result<MemDef, OutOfMemory>
    ensures { IfOk result (λ r. seen_memory r ≡ seen_memory d.now) }
{
    Ok(MemDef {
        name: name_of(alloc, d.name.as_slice())?,
        depth: d.depth,
        width: d.width,
        init: d.init,
        reset: d.reset,
    })
}

pub(crate) fn memory_copy(
    alloc: Global,
    mem: &Option<MemDef>,
) -> Result<Option<MemDef>, OutOfMemory>
    ensures { IfOk result (λ r. option_map seen_memory r ≡ option_map seen_memory mem.now) }
{
    match mem {
        Some(d) => {
            let copy = mem_copy(alloc, d)?;
            Ok(Some(copy))
        }
        None => Ok(None),
    }
}

fn port_def(alloc: Global, port: &PortIn) -> Result<PortDef, OutOfMemory>
    requires { length port.now.bits.items ≤ 64 }
    ensures { IfOk result (λ r. seen_port r ≡ in_port port.now) }
{
    Ok(PortDef {
        name: name_of(alloc, port.name.as_slice())?,
        width: port.bits.len() as u32,
    })
}

/// The inputs of an instrument.
pub(crate) fn port_defs(alloc: Global, ports: &[PortIn]) -> Result<List<PortDef>, OutOfMemory>
    requires { All (λ port. length port.bits.items ≤ 64) ports.now }
    ensures { IfOk result (λ l. map seen_port l.items ≡ map in_port ports.now) }
{
    let mut all = List::new(alloc);
    for port in ports {
        all.push(port_def(alloc, port)?)?;
    }
    Ok(all)
}

/// The number of the output of a name.
fn find_out(outs: &[OutDef], name: &[u8]) -> Option<usize>
    ensures value { result ≡ named name.now (map (λ d. d.name) (map seen_out outs.now)) }
    ensures there { IfSome result (λ k. k < length outs.now) }
{
    for i in 0..outs.len() {
        if is(outs[i].name.as_slice(), name) {
            return Some(i);
        }
    }
    None
}

fn out_copy(alloc: Global, d: &OutDef) -> Result<OutDef, OutOfMemory>
    ensures { IfOk result (λ r. seen_out r ≡ seen_out d.now) }
{
    Ok(OutDef {
        name: name_of(alloc, d.name.as_slice())?,
        word: d.word,
        left: d.left,
        right: d.right,
    })
}

/// The output at a number; no output is past the last one.
fn out_at(alloc: Global, outs: &[OutDef], k: usize) -> Result<OutDef, OutOfMemory>
    ensures { IfOk result (λ r. seen_out r ≡ get_or (map seen_out outs.now) k no_out) }
{
    if k < outs.len() {
        return out_copy(alloc, &outs[k]);
    }
    Ok(OutDef {
        name: List::new(alloc),
        word: 0,
        left: 0,
        right: 0,
    })
}

fn number_or_first(k: Option<usize>) -> usize
    ensures { result ≡ unwrap_or k 0 }
{
    match k {
        Some(k) => k,
        None => 0,
    }
}

/// The output of a name.
fn out_named(alloc: Global, outs: &[OutDef], name: &[u8]) -> Result<OutDef, OutOfMemory>
    ensures { IfOk result (λ r. seen_out r ≡ out_named (map seen_out outs.now) name.now) }
{
    out_at(alloc, outs, number_or_first(find_out(outs, name)))
}

/// The outputs of a model in the order of an instrument.
pub(crate) fn outs_named(
    alloc: Global,
    outs: &[OutDef],
    ports: &[PortOut],
) -> Result<List<OutDef>, OutOfMemory>
    ensures { IfOk result (λ l. map seen_out l.items
        ≡ map (λ port. out_named (map seen_out outs.now) port.name) (map out_port ports.now)) }
{
    let mut all = List::new(alloc);
    for port in ports {
        all.push(out_named(alloc, outs, port.name.as_slice())?)?;
    }
    Ok(all)
}
