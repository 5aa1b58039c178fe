// The comment before the scans of one row of a mux.
ghost use Rattle.std.specs.Prelude.{◌<◌, ◌∷◌, ◌++◌, [], codes, decimal, length, OnOk, OnErr};
ghost use Rattle.ij_io.specs.Bytes.{Adds, AddsPart};
ghost use Rattle.ij_io.specs.Causes.{HasCause};
ghost use Rattle.net_graph.specs.Nets.{IsNet};
ghost use Rattle.svf_writer.specs.RowMarks.{row_mark};

use ij_io::{Sink, StoreFault, Word, put_words};
use net_graph::{Branch, Net};
use path_names::put_mux_path;

/// Writes the row of a mark, and what ends its line.
#[tactic(auto, unfolding(ij_io::specs::Words::words_text))]
fn put_row_number<K: Sink>(row: u32, k: &mut K) -> Result<(), StoreFault>
    ensures whole { OnOk result
        (Adds (K.taken k.old) (K.taken k.new) (codes " row " ++ (decimal row ++ 10 ∷ []))) }
    ensures part { OnErr result
        (AddsPart (K.taken k.old) (K.taken k.new) (codes " row " ++ (decimal row ++ 10 ∷ []))) }
    ensures cause { HasCause (K.faults k.old) (K.faults k.new) result StoreFault.Failed }
{
    put_words(
        k,
        &[
            Word::Text(b" row "),
            Word::Number(row as u64),
            Word::Text(b"\n"),
        ],
    )
}

/// Writes the comment before the scans of one row of a scan multiplexer: `! mux PATH row R` and a line feed.
/// R is the row's number in the text, counted from 0 (IEEE 1687-2014, ICL: `ScanMux`).
///
/// The refusals are those of the sink, which then took some first bytes of the text. It takes no memory
/// itself.
pub fn put_row_mark<K: Sink>(net: &Net, branch: Branch, k: &mut K) -> Result<(), StoreFault>
    requires well_formed { IsNet net.now }
    requires there { branch.mux < length net.now.muxes.items }
    ensures whole { OnOk result (Adds (K.taken k.old) (K.taken k.new) (row_mark net.now branch)) }
    ensures part { OnErr result (AddsPart (K.taken k.old) (K.taken k.new) (row_mark net.now branch)) }
    ensures cause { HasCause (K.faults k.old) (K.faults k.new) result StoreFault.Failed }
{
    k.write(b"! mux ")?;
    put_mux_path(net, branch.mux, k)?;
    put_row_number(branch.row, k)?;
    Ok(())
}
