//! Short uses of the libraries, as a caller writes them, each proved. The first of each module is
//! the one to read.
#![tactic(auto)]

pub mod frames;
pub mod plants;
pub mod ports;
pub mod scenes;
pub mod times;
