// Rows of muxes, and the rows around an item.
ghost use Rattle.std.specs.Prelude.{◌≡◌, ◌<◌, ◌++◌, length, All, OnOk, OnErr};
ghost use Rattle.ij_io.specs.Bytes.{Adds, AddsPart};
ghost use Rattle.ij_io.specs.Causes.{HasCause};
ghost use Rattle.net_graph.specs.Nets.{IsNet};
ghost use Rattle.path_planner.specs.Planning.{IsBranchOf};
ghost use Rattle.path_planner.specs.Settling.{values_of};
ghost use Rattle.net_list.specs.Forms as forms;
ghost use Rattle.net_list.specs.Lines as lines;

use crate::format::{ListFormat, put_text_or_json, text_or_json};
use crate::values::put_values;
use ij_bits::Tern;
use ij_io::{Sink, StoreFault};
use net_graph::{Branch, Net};
use path_names::put_mux_path;

/// The select values of a row.
fn values_of(net: &Net, branch: Branch) -> &[Tern]
    requires { IsBranchOf net.now branch }
    ensures { result.now ≡ values_of net.now branch }
{
    let mux = net.muxes.get(branch.mux as usize);
    mux.rows.get(branch.row as usize).values.as_slice()
}

/// Writes the select values of a row.
fn put_row_values<K: Sink>(net: &Net, branch: Branch, k: &mut K) -> Result<(), StoreFault>
    requires { IsBranchOf net.now branch }
    ensures whole { OnOk result
        (Adds (K.taken k.old) (K.taken k.new) (forms.values_text (values_of net.now branch))) }
    ensures part { OnErr result
        (AddsPart (K.taken k.old) (K.taken k.new) (forms.values_text (values_of net.now branch))) }
    ensures cause { HasCause (K.faults k.old) (K.faults k.new) result StoreFault.Failed }
{
    put_values(values_of(net, branch), k)
}

/// Writes the mux of a row and its select values.
fn put_row<K: Sink>(
    format: ListFormat,
    net: &Net,
    branch: Branch,
    k: &mut K,
) -> Result<(), StoreFault>
    requires well_formed { IsNet net.now }
    requires there { IsBranchOf net.now branch }
    ensures whole { OnOk result
        (Adds (K.taken k.old) (K.taken k.new) (lines.branch_text format net.now branch)) }
    ensures part { OnErr result
        (AddsPart (K.taken k.old) (K.taken k.new) (lines.branch_text format net.now branch)) }
    ensures cause { HasCause (K.faults k.old) (K.faults k.new) result StoreFault.Failed }
{
    put_text_or_json(format, b"", b"[\"", k)?;
    put_mux_path(net, branch.mux, k)?;
    put_text_or_json(format, b"=", b"\",\"", k)?;
    put_row_values(net, branch, k)?;
    put_text_or_json(format, b"", b"\"]", k)?;
    Ok(())
}

/// Writes a row after something before it.
fn put_next_row<K: Sink>(
    format: ListFormat,
    before: &[u8],
    net: &Net,
    branch: Branch,
    k: &mut K,
) -> Result<(), StoreFault>
    requires well_formed { IsNet net.now }
    requires there { IsBranchOf net.now branch }
    ensures whole { OnOk result
        (Adds (K.taken k.old) (K.taken k.new) (before.now ++ lines.branch_text format net.now branch)) }
    ensures part { OnErr result
        (AddsPart (K.taken k.old) (K.taken k.new) (before.now ++ lines.branch_text format net.now branch)) }
    ensures cause { HasCause (K.faults k.old) (K.faults k.new) result StoreFault.Failed }
{
    k.write(before)?;
    put_row(format, net, branch, k)?;
    Ok(())
}

/// Writes rows, with something before the first of them and something between.
fn put_rows<K: Sink>(
    format: ListFormat,
    between: &[u8],
    first: &[u8],
    net: &Net,
    place: &[Branch],
    k: &mut K,
) -> Result<(), StoreFault>
    requires well_formed { IsNet net.now }
    requires there { All (IsBranchOf net.now) place.now }
    ensures whole { OnOk result (Adds (K.taken k.old) (K.taken k.new)
        (forms.items (lines.branch_text format net.now) between.now first.now place.now)) }
    ensures part { OnErr result (AddsPart (K.taken k.old) (K.taken k.new)
        (forms.items (lines.branch_text format net.now) between.now first.now place.now)) }
    ensures cause { HasCause (K.faults k.old) (K.faults k.new) result StoreFault.Failed }
{
    let mut before = first;
    for branch in place {
        put_next_row(format, before, net, *branch, k)?;
        before = between;
    }
    Ok(())
}

/// Writes the rows around an item.
pub(crate) fn put_place<K: Sink>(
    format: ListFormat,
    net: &Net,
    place: &[Branch],
    k: &mut K,
) -> Result<(), StoreFault>
    requires well_formed { IsNet net.now }
    requires there { All (IsBranchOf net.now) place.now }
    ensures whole { OnOk result
        (Adds (K.taken k.old) (K.taken k.new) (lines.place_text format net.now place.now)) }
    ensures part { OnErr result
        (AddsPart (K.taken k.old) (K.taken k.new) (lines.place_text format net.now place.now)) }
    ensures cause { HasCause (K.faults k.old) (K.faults k.new) result StoreFault.Failed }
{
    let between = text_or_json(format, b" ", b",");
    let first = text_or_json(format, b" in ", b"");
    put_text_or_json(format, b"", b",\"in\":[", k)?;
    put_rows(format, between, first, net, place, k)?;
    put_text_or_json(format, b"", b"]", k)?;
    Ok(())
}
