//! The setup of a reader.

use irig_reader::ReaderRules;
use irig_time::LeapTable;

/// What a reader of a plant is made of.
#[derive(Drop)]
pub struct ReaderSetup {
    /// When it locks, and how long it holds over.
    pub rules: ReaderRules,
    /// The leaps that it knows beforehand.
    pub table: LeapTable,
}
