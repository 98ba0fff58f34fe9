//! Recordings, from their bytes to a verdict in words, tried by the public calls of the crates that read
//! them: tables, disturbance records and their stamps, lines and what is said of them. What a whole
//! recording comes to is tried by cases.
#![tactic(auto)]

#[cfg(test)]
mod lists;
#[cfg(test)]
mod recorded;
#[cfg(test)]
mod samples;
#[cfg(test)]
mod stamps;
#[cfg(test)]
mod tables;
#[cfg(test)]
mod verdicts;
