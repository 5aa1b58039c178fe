//! Notes for SVF: what each bit of each scan of a play is (Serial Vector Format, revision E).
#![tactic(auto)]

mod before;
mod bits;
mod digits;
mod explained;
mod heads;
mod instruction;
mod laws;
mod most;
mod names;
mod note;
mod place;
mod playing;
mod row;
mod scan;

pub use before::holds_at;
pub use explained::{explained_len, put_explained_file};
pub use laws::{
    commands_stay, explained_commands_stay, notes_follow_their_scans, read_scans_are_numbered,
    read_scans_have_bits, scans_are_numbered, scans_begin, scans_compare, scans_keep_their_path,
};
pub use most::explained_len_bound;
pub use place::{BitAnswer, FoundBit, find_bit};
