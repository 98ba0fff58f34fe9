//! Why a line is refused: the place in the line, what stands there and what may stand there, by the
//! tables by which the line was read.
#![tactic(auto)]

mod event;
mod names;
mod place;
mod plan;
mod plant;
mod range;
mod refused;
mod shape;
mod value;
mod walk;

pub use refused::{PlantContext, why_refused};
pub use text_words::{JsonPath, Parts, Reason, Span};
