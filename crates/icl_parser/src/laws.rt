// What follows from the grammar.
ghost use Rattle.icl_parser.specs.Laws.{DesignsAreOne, DesignsAreNotRefused, RefusalsAreOne};

/// The grammar is unambiguous: the tokens of a text have one design at most.
pub fn designs_are_one()
    ensures { DesignsAreOne }
{}

/// A text has one fault at most, at one place, and none where it has a design.
pub fn refusals_are_one()
    ensures one { RefusalsAreOne }
    ensures none { DesignsAreNotRefused }
{}
