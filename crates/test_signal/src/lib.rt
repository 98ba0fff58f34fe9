//! What plants are made of, tried by its public calls: time code, days, generators, ports, devices,
//! votes, readers and cables. What a scenario or a command line can say is tried by cases.
//!
//! They stand apart from the crates that they try, which would be proved once more for them.
#![tactic(auto)]

#[cfg(test)]
mod controls;
#[cfg(test)]
mod devices;
#[cfg(test)]
mod frames;
#[cfg(test)]
mod generators;
#[cfg(test)]
mod keepers;
#[cfg(test)]
mod played;
#[cfg(test)]
mod ports;
#[cfg(test)]
mod rates;
#[cfg(test)]
mod readers;
#[cfg(test)]
mod texts;
#[cfg(test)]
mod times;
#[cfg(test)]
mod wires;
