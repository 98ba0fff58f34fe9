//! A run over lines: the loop that reads a scenario line by line, whatever plays the lines, and
//! writes what is said of each before the next is read. Of two plays the first line may choose one.
#![tactic(auto)]

mod chosen;
mod either;
mod either_play;
mod fault;
mod laws;
mod line;
mod play;
mod read;
mod run;
mod stop;
mod write;

pub use chosen::Chosen;
pub use either::{Either, EitherOutcome};
pub use fault::{OUT_OF_MEMORY, READ_FAILED, REFUSED, SceneFault, WRITE_FAILED};
pub use laws::{a_chosen_play_runs_alone, a_first_line_chooses};
pub use play::Play;
pub use read::{MAX_LINES, is_blank, limit_of, read_line, too_long};
pub use run::{LinesRun, run_lines};
pub use stop::{Failure, Stop};
pub use write::write_text;
