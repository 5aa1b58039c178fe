//! Lines and words of the files that describe a device and its instruments, and what the lines of a table
//! file say, whatever their names mean.
#![tactic(auto)]

mod block_lines;
mod bytes;
mod lines;
mod parts;
mod said;
mod word;

pub use block_lines::read_line_of_block;
pub use bytes::{Cut, cut_at};
pub use lines::{Line, end_place, next_line, words};
pub use said::{
    InstrumentPath, SaidAmount, SaidCond, SaidEntry, SaidLine, SaidRow, SaidSet, SaidSlot, Slice,
    StartNumbers, instrument, version,
};
pub use word::{
    care_in, decimal, hex, is, is_decimal_above, is_number_above, is_wide, number, plain,
    plain_number, value_in,
};
