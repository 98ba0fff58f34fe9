//! The text of a log: the lines of its entries, of what ports told, and its last line.
#![tactic(auto)]

mod laws;
mod offset;
mod port_text;
mod shown;
mod text;
mod when_text;

pub use laws::{ok_words_are_true_claims, words_show_clean_ticks};
pub use offset::{Offset, offset_between, offset_from, same_offset};
pub use port_text::{push_ticks, push_word};
pub use shown::Shown;
pub use text::{
    ReportText, cause_word, name_at, push_audit, push_entries, push_lock, push_number,
    push_refusal, push_time,
};
pub use when_text::{push_offset, push_offsets, push_when};
