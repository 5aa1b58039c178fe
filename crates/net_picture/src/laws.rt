// What is proved of the definitions.
ghost use Rattle.net_picture.specs.Apart.{DrawingsAreApart};
ghost use Rattle.net_picture.specs.Edges.{EdgesAreSources};
ghost use Rattle.net_picture.specs.Line.{DrawingsAreLines, DrawingsWithoutPath};
ghost use Rattle.net_picture.specs.Marked.{DrawingsAreMarked, FunnelsAreMarked};
ghost use Rattle.net_picture.specs.Met.{MetIsPath};
ghost use Rattle.net_picture.specs.Outline.{OutlinesAreOne};
ghost use Rattle.net_picture.specs.ReadGraph.{CommentsAreRead, GraphsAreRead};
ghost use Rattle.net_picture.specs.Rows.{RowsAreMarked};
ghost use Rattle.net_picture.specs.Said.{EdgesAreSaid};
ghost use Rattle.net_picture.specs.Whole.{DrawingsAreWhole};

/// What is proved of every drawing: it carries no code, its clauses say what holds of the definitions.
///
/// Each register has one box and each multiplexer one funnel (IEEE 1687-2014, ICL: `ScanRegister`,
/// `ScanMux`). No two boxes or funnels share a point, and all lie in the view.
///
/// Where there is an active path, the boxes in colour are its registers, from scan-in to scan-out, and what
/// is in colour is one line from TDI to TDO (IEEE 1687-2014: active scan path). Where there is none, nothing
/// is in colour. The funnel of a multiplexer is in colour exactly where the multiplexer is on the active
/// path, and the wire of a row into it exactly where the row is the one that is selected, too. Any two states
/// have the same drawing, but for its colours and the wires within funnels: so each row that some state
/// selects is drawn in all states as that line goes.
pub fn picture_laws()
    ensures whole { DrawingsAreWhole }
    ensures apart { DrawingsAreApart }
    ensures marked { DrawingsAreMarked }
    ensures line { DrawingsAreLines }
    ensures pathless { DrawingsWithoutPath }
    ensures funnels { FunnelsAreMarked }
    ensures rows { RowsAreMarked }
    ensures outline { OutlinesAreOne }
{}

/// What is proved of every graph: it carries no code, its clauses say what holds of the definitions.
///
/// The edges into a register, a multiplexer or scan-out are exactly its scan sources, of a multiplexer in the
/// order of its rows, and its select bits (IEEE 1687-2014, ICL: `ScanInSource`, `ScanMux`, `SelectedBy`). A
/// reader of the text, which knows of lines and words alone and takes no line that it can't read as a whole,
/// finds exactly these edges in it, each once and in their order, before them each register and each
/// multiplexer once, with its path, and nothing else. A register and the edge to it are in colour exactly
/// where it is on the active path, a multiplexer where it is met there, and the edge of a row where this is
/// the one that is selected, too; what is marked is red. A comment on a line before the text is read as it
/// is.
pub fn graph_laws()
    ensures sources { EdgesAreSources }
    ensures edges { EdgesAreSaid }
    ensures read { GraphsAreRead }
    ensures comment { CommentsAreRead }
    ensures path { MetIsPath }
{}
