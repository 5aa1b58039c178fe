// Lines that pass a limit.
ghost use Rattle.std.specs.Prelude.{◌≡◌, ◌+◌, ◌<◌, ◌≤◌, ◌==◌, ◌||◌, nat_le, length, map, is_some};
ghost use Rattle.instruments.specs.Seen.{seen_model, seen_row};
ghost use Rattle.table_file.specs.Tables.{no_width, limit_fault, rank};
ghost use Rattle.table_lines.specs.SeenSaid.{seen_said};

use instruments::Model;
use table_lines::SaidLine;

fn no_width(width: u128) -> bool
    ensures { result ≡ no_width width }
{
    width == 0 || 64 < width
}

/// Whether a model has all rows that it may have.
fn has_all_rows(m: &Model) -> bool
    requires change { length m.now.change.items ≤ 64 }
    requires run { length m.now.run.items ≤ 64 }
    ensures { result
        ≡ nat_le 64 (length (map seen_row m.now.change.items) + length (map seen_row m.now.run.items)) }
{
    64 <= m.change.len() + m.run.len()
}

/// Whether a line passes a limit.
pub(crate) fn limit_fault(m: &Model, l: &SaidLine) -> bool
    requires change { length m.now.change.items ≤ 64 }
    requires run { length m.now.run.items ≤ 64 }
    ensures { result ≡ limit_fault (seen_model m.now) (seen_said l.now) }
{
    match l {
        SaidLine::Input { width, .. } => no_width(*width) || 16 <= m.ins.len(),
        SaidLine::Word { width, .. } => no_width(*width) || 8 <= m.words.len(),
        SaidLine::Memory { depth, width, .. } => {
            no_width(*width) || *depth == 0 || 256 < *depth || m.mem.is_some()
        }
        SaidLine::Output { .. } => 16 <= m.outs.len(),
        SaidLine::Change(_) => has_all_rows(m),
        SaidLine::Run(_) => has_all_rows(m),
        SaidLine::End => false,
    }
}

/// The kind of a line, in the order in which the lines of a block stand.
pub(crate) fn rank(l: &SaidLine) -> u32
    ensures value { result ≡ rank (seen_said l.now) }
    ensures few { result ≤ 6 }
{
    match l {
        SaidLine::Input { .. } => 0,
        SaidLine::Word { .. } => 1,
        SaidLine::Memory { .. } => 2,
        SaidLine::Output { .. } => 3,
        SaidLine::Change(_) => 4,
        SaidLine::Run(_) => 5,
        SaidLine::End => 6,
    }
}
