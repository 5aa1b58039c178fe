// What is known of every design's cells.
ghost use Rattle.icl_frames.specs.Laws.{FramesAreDeclared, FramesAreFew, FramesAreTree};
ghost use Rattle.icl_frames.specs.Preorder.{FramesArePreorder};
ghost use Rattle.icl_frames.specs.Written.{DesignsAreWritten, FramesAreWritten};

/// The cells that the first pass gives are the instances in preorder, at most 64 inside one another below the
/// top, each with the parameters that its module evaluates to.
pub fn frames_are_preorder()
    ensures { FramesArePreorder }
{}

/// The cells form a tree: there is a top, and every other cell comes after its parent, whose module declares
/// it as an instance of that name, with at most 64 instances inside one another below the top. No two
/// instances of one parent have one name.
pub fn frames_are_tree()
    ensures { FramesAreTree }
{}

/// Each part of a cell has the bounds that its range says in the cell's parameters, and at most 65,536 bits.
/// The names of a cell's signals differ, and so do the words of an enumeration and the instructions of a
/// link. An instrument has at most 16 data inputs and 16 data outputs, of at most 64 bits. In all there are
/// at most 8192 cells, 4096 bits of scan registers, 1024 scan multiplexers and 256 instruments.
pub fn frames_are_within_limits()
    ensures each { FramesAreDeclared }
    ensures all { FramesAreFew }
{}

/// In a design that the grammar derives from a text's tokens, fewer than 2^32, the names of modules, items
/// and words are names of ICL, and a multiplexer has a select and rows, each with a value.
pub fn designs_have_icl_names()
    ensures { DesignsAreWritten }
{}

/// Where the names of a design's modules, items and words are names of ICL, and its multiplexers have a
/// select and rows, each with a value, so have the modules of its cells, and each cell below the top has a
/// name of ICL.
pub fn frames_have_icl_names()
    ensures { FramesAreWritten }
{}
