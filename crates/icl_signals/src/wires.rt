// Signal bits, what each stands for, and where its trace ends.

use icl_elab::Ref;

/// A bit of a part of a cell of a hierarchy.
#[derive(Clone, Copy, Drop)]
pub struct Wire {
    /// The cell, by its number.
    pub cell: u32,
    /// The part of that cell, by its number.
    pub part: u32,
    /// The position in the part; position 0 is the right index.
    pub pos: u32,
}

/// What a signal bit stands for (IEEE 1687-2014, ICL: the connections of ports): another bit, or nothing
/// further, since it is where a trace ends.
#[derive(Clone, Copy, Drop)]
pub enum Driver {
    /// Another signal bit, or a constant.
    Another(Ref),
    /// Itself: it is a bit of a scan register.
    ARegisterBit,
    /// Itself: it is the output of a scan multiplexer.
    AMuxOutput,
    /// Itself: it is an output of an instrument.
    AnInstrumentOutput,
    /// The network's scan-in.
    TheEntry,
    /// A data input of the top, which is 0.
    AFreeInput,
    /// Nothing: no signal drives it.
    NothingAtAll,
}

/// Where a trace ends.
#[derive(Clone, Copy, Drop)]
pub enum End {
    /// At a constant.
    AtConstant(bool),
    /// At a bit that stands for no other one.
    AtBit {
        /// The bit.
        wire: Wire,
        /// Whether the inverse of the bit is meant.
        inverted: bool,
        /// What the bit stands for.
        stands: Driver,
    },
    /// Nowhere: it comes back to a bit that it left.
    InLoop,
}
