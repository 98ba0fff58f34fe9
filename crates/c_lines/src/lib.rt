//! The lines of a timekeeper that C owns, and the seconds that it announced, in plain numbers: what they
//! stand for, what they add to its check word, and what each line is.
//!
//! As in c_numbers a function `.._of` gives the value that numbers stand for, and `.._for_c` the
//! numbers of a value. There is no memory to ask for.
#![tactic(auto)]

mod announced;
mod line;
mod masks;
mod quiet;
mod sums;

pub use announced::{
    IrigAnnounced, NOTHING_ANNOUNCED, announced_for_c, announced_of, is_announced, is_small,
};
pub use line::{
    IrigLine, IrigLines, frames_of, keep_lines, keep_no_more, line_at, lines_of_nothing, put_line,
    seen_of, unread_lines_of,
};
pub use masks::{IrigMasks, NO_LINES, States, masks_in, number_of};
pub use quiet::are_quiet;
pub use sums::{line_change, lines_sums, with_announced};
