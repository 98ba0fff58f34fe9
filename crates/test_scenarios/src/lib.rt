//! Runs over devices that fail, a refused line handed back, and the callers in `example_uses`, tried by
//! their public calls. What a scenario can say is tried by cases.
//!
//! They stand apart from the crates that they try, which would be proved once more for them.
#![tactic(auto)]

#[cfg(test)]
mod scenes;
#[cfg(test)]
mod uses;
