//! A single file above its samples.

use record_comtrade::ConfigText;

/// A single file as far as it was read, above its samples.
#[derive(Drop)]
pub struct Head {
    /// The lines of the configuration.
    pub(crate) text: ConfigText,
    /// Whether lines are those of a configuration.
    pub(crate) is_config: bool,
    /// The line that is open.
    pub(crate) line: Vec<u8>,
}
