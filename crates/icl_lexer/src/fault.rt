// Why a text isn't cut into tokens.
use ij_text::Place;

/// Why an ICL text is not cut into tokens: the first fault of the text, and its place.
#[derive(Clone, Copy, PartialEq, Eq, Debug)]
pub enum LexFault {
    /// The byte at this place begins no token and no gap.
    BadByte { at: Place },
    /// The comment whose `/*` is at this place has no end.
    OpenComment { at: Place },
    /// The quoted text whose first `"` is at this place has no end.
    OpenText { at: Place },
}
