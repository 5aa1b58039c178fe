// What follows from the definition of a cutting.
ghost use Rattle.icl_lexer.specs.Laws.{CutTextsHaveNoFault, FaultsAreOne, TextsAreCutOrAtFault};
ghost use Rattle.icl_lexer.specs.Laws.{TokenizationIsUnique, TokensAreInText};

/// A text is cut into pieces in one way at most, so it has at most one list of tokens. The pieces together
/// are the text, and each is the longest that begins at its place.
pub fn tokenization_is_unique()
    ensures { TokenizationIsUnique }
{}

/// A text has either tokens or a fault, and no more than one fault.
pub fn texts_are_cut_or_at_fault()
    ensures either { TextsAreCutOrAtFault }
    ensures not_both { CutTextsHaveNoFault }
    ensures one { FaultsAreOne }
{}

/// The tokens of a text stand in it one after the other, each with the place of its first byte, and the bytes
/// of each are a piece of its kind.
pub fn tokens_are_in_the_text()
    ensures { TokensAreInText }
{}
