// What a drawing is made of.
ghost use Rattle.std.specs.Prelude.{◌≡◌};
ghost use Rattle.net_picture.specs.Svg as svg;

/// One thing that is drawn. Places are in units of the view, x to the right and y downwards.
#[derive(Clone, Copy, Drop)]
pub(crate) enum Shape {
    /// A register: a box from x on, 26 high, its middle at y.
    Register {
        reg: u32,
        x: u64,
        y: u64,
        width: u64,
        active: bool,
    },
    /// A multiplexer: a funnel from x on, 14 wide, with its output at y and so high between its first and its
    /// last row.
    Mux {
        mux: u32,
        x: u64,
        y: u64,
        height: u64,
        active: bool,
    },
    /// The select values of a row, to the left of a funnel at x, above the wire at y.
    Values {
        mux: u32,
        row: usize,
        x: u64,
        y: u64,
    },
    /// A wire from one place to another, which goes up or down at the turn.
    Wire {
        x: u64,
        y: u64,
        turn: u64,
        to_x: u64,
        to_y: u64,
        active: bool,
    },
}

impl Shape {
    /// Whether it is on the active path.
    pub(crate) fn is_active(self) -> bool
        ensures { result ≡ svg.is_active self }
    {
        match self {
            Shape::Register { active, .. } => active,
            Shape::Mux { active, .. } => active,
            Shape::Values { .. } => false,
            Shape::Wire { active, .. } => active,
        }
    }
}

/// Where the wire of a row has come to at the row's end.
#[derive(Clone, Copy, Drop)]
pub(crate) struct RowEnd {
    pub x: u64,
    pub y: u64,
}
