// What a plan does beside taking few clocks.

/// What a plan does beside taking few clocks.
#[derive(Clone, Copy, Debug, PartialEq, Eq)]
pub enum How {
    /// Each round has one scan with all registers that it names.
    Full,
    /// A register that a round doesn't change and doesn't read isn't scanned for it.
    Lean,
    /// As [`How::Full`], and a segment stays open for one scan after it was written: for chips on which a
    /// register and its segment insertion bit can't be updated at once.
    Late,
}
