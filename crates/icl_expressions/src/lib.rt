//! Reads expressions and signals of ICL (IEEE 1687-2014): the parts of which items are made.
#![tactic(auto)]

mod expressions;
mod leaves;
mod parts;
mod reading;
mod signals;
mod signs;
mod stop;

pub use leaves::read_decimal;
pub use parts::{Parted, read_parted};
pub use reading::{
    Parsed, begins_mark, is_next_not_close, push_parsed, read_mark, read_name, read_word,
};
pub use signals::{
    maybe_expr_after, maybe_range, read_expr_after, read_sig, read_sigs, read_value,
};
pub use stop::ReadStop;
