// Where things stand.
ghost use Rattle.std.specs.Prelude.{◌≡◌, ◌+◌, IfOk};
ghost use Rattle.net_picture.specs.Pens as pens;

use crate::numbers::{greater, plus};
use ij_bits::OutOfMemory;

/// Where a list of items has come to, in units of the view: x to the right, y downwards.
#[derive(Clone, Copy, Drop)]
pub(crate) struct Pen {
    /// Where the lines of the list begin.
    pub left: u64,
    /// Where its wire has come to.
    pub x: u64,
    pub y: u64,
    /// How far right the list has come on any of its lines.
    pub right: u64,
    /// How far down it has come.
    pub bottom: u64,
}

/// Where the rows of a multiplexer have come to.
#[derive(Clone, Copy, Drop)]
pub(crate) struct Fan {
    /// Where each row begins.
    pub x: u64,
    /// Where the next row begins.
    pub y: u64,
    /// How far right rows have come.
    pub right: u64,
    /// Where the wire of the last row has ended.
    pub last: u64,
    /// How far down rows have come.
    pub bottom: u64,
}

impl Pen {
    /// A list of items begins.
    pub(crate) fn start_at(x: u64, y: u64) -> Result<Pen, OutOfMemory>
        ensures { IfOk result (λ pen. pen ≡ pens.start_at x y) }
    {
        Ok(Pen {
            left: x,
            x,
            y,
            right: x,
            bottom: plus(y, 16)?,
        })
    }

    /// Whether the line takes no more items.
    pub(crate) fn is_full(self) -> Result<bool, OutOfMemory>
        ensures { IfOk result (λ full. full ≡ pens.is_full self) }
    {
        let end = plus(self.left, 1000)?;
        Ok(end <= self.x)
    }

    /// The beginning of the next line.
    fn next_line(self) -> Result<Pen, OutOfMemory>
        ensures { IfOk result (λ pen. pen ≡ pens.next_line self) }
    {
        let y = plus(self.bottom, 30)?;
        let bottom = plus(self.bottom, 46)?;
        let right = greater(self.right, plus(self.x, 9)?);
        Ok(Pen {
            left: self.left,
            x: self.left,
            y,
            right,
            bottom,
        })
    }

    /// Where the next item's wire begins.
    pub(crate) fn next_wire_start(self) -> Result<Pen, OutOfMemory>
        ensures { IfOk result (λ pen. pen ≡ pens.next_wire_start self) }
    {
        if self.is_full()? {
            self.next_line()
        } else {
            Ok(self)
        }
    }

    /// An item ends at x, and reaches down to the bottom.
    fn moved(self, x: u64, bottom: u64) -> Pen
        ensures { result ≡ pens.moved self x bottom }
    {
        Pen {
            left: self.left,
            x,
            y: self.y,
            right: greater(self.right, x),
            bottom: greater(self.bottom, bottom),
        }
    }

    /// A register comes after its wire.
    pub(crate) fn after_register(self, width: u64) -> Result<Pen, OutOfMemory>
        ensures { IfOk result (λ pen. pen ≡ pens.after_register self width) }
    {
        let x = plus(plus(self.x, 18)?, width)?;
        Ok(self.moved(x, self.bottom))
    }

    /// Where the rows of a multiplexer begin.
    pub(crate) fn fan(self) -> Result<Fan, OutOfMemory>
        ensures { IfOk result (λ fan. fan ≡ pens.fan_at self) }
    {
        let x = plus(self.x, 34)?;
        Ok(Fan {
            x,
            y: self.y,
            right: x,
            last: self.y,
            bottom: self.bottom,
        })
    }

    /// A multiplexer comes after its wire.
    pub(crate) fn after_mux(self, fan: Fan, values: u64, name: u64) -> Result<Pen, OutOfMemory>
        ensures { IfOk result (λ pen. pen ≡ pens.after_mux self fan values name) }
    {
        let x = plus(plus(fan.funnel(values)?, 14)?, name)?;
        Ok(self.moved(x, fan.bottom))
    }
}

impl Fan {
    /// Where the next row begins, below all of the row that ends with this pen.
    pub(crate) fn after_row(self, pen: Pen) -> Result<Fan, OutOfMemory>
        ensures { IfOk result (λ fan. fan ≡ pens.after_row self pen) }
    {
        let y = plus(pen.bottom, 24)?;
        Ok(Fan {
            x: self.x,
            y,
            right: greater(self.right, pen.right),
            last: pen.y,
            bottom: pen.bottom,
        })
    }

    /// Where the funnel is.
    pub(crate) fn funnel(self, values: u64) -> Result<u64, OutOfMemory>
        ensures { IfOk result (λ x. x ≡ pens.funnel_at self values) }
    {
        plus(self.right, values)
    }
}
