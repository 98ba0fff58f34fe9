//! Texts in words: what a number, a name or a word of a log means; and why a line, a time or a frame
//! is refused. Which line is refused, and where, is for others to say (`text_refusal`).
#![tactic(auto)]

mod allowed;
mod draft;
mod explained;
mod json;
mod misfit;
mod misfit_text;
mod mistake;
mod path;
mod reason;
mod start;
mod time;
mod why;

pub use explained::{explanation, why_no_word};
pub use json::{reason_of_json, reason_of_long_line};
pub use misfit::{Expected, Found, Misfit, Note};
pub use path::JsonPath;
pub use reason::{Parts, Reason, Span, reason_of_cause};
pub use text_faults::{Meaning, meaning_of};
pub use time::{reason_of_day, reason_of_time};
pub use why::{why_no_frame, why_no_time};
