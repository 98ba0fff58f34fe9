//! What a path says of a recording.

ghost use Rattle.std.specs.Prelude.{◌≡◌};
ghost use Rattle.irig_main.specs.Paths.{ending_of};

use std::alloc::{AllocError, Global};

/// How the path of a recording ends, in letters of either case.
#[derive(Clone, Copy)]
pub(crate) enum Ending {
    /// With .cfg: it is the configuration of a disturbance record.
    Configuration,
    /// With .dat: these are the samples of one.
    Samples,
    /// With .cff: it is both.
    Single,
    /// Otherwise.
    Other,
}

/// How a path ends.
pub(crate) fn ending_of(path: &str) -> Ending
    ensures { result ≡ ending_of path.now }
{
    let bytes = path.as_bytes();
    let (_, last) = bytes.split_at(bytes.len().saturating_sub(4));
    if last.eq_ignore_ascii_case(b".cfg") {
        Ending::Configuration
    } else if last.eq_ignore_ascii_case(b".dat") {
        Ending::Samples
    } else if last.eq_ignore_ascii_case(b".cff") {
        Ending::Single
    } else {
        Ending::Other
    }
}

/// The path beside this one that ends with these letters behind its point, each in the case of the
/// letter whose place it takes.
pub(crate) fn path_beside(alloc: Global, path: &str, letters: &str) -> Result<String, AllocError> {
    let (stem, ending) = path.rsplit_once('.').unwrap_or((path, ""));
    let mut text = String::new(alloc);
    text.push_str(stem)?;
    text.push_str(".")?;
    for (letter, other) in ending.chars().zip(letters.chars()) {
        text.push(if letter.is_ascii_uppercase() {
            other.to_ascii_uppercase()
        } else {
            other
        })?;
    }
    Ok(text)
}
