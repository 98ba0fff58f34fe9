//! The name of a channel.

ghost use Rattle.std.specs.Prelude.{◌≡◌, ◌∷◌, ◌++◌, [], IfOk};
ghost use Rattle.record_table.specs.Titles.{bytes_of, numbered};

use itoa::Buffer;
use std::alloc::{AllocError, Global};

/// The name of a channel, as it stands above its column.
#[derive(Drop)]
pub struct Name {
    /// Its bytes, without blanks and quotes round it.
    pub bytes: Vec<u8>,
}

/// Adds a name.
pub(crate) fn add(alloc: Global, names: &mut Vec<Name>, text: &[u8]) -> Result<(), AllocError>
    ensures { IfOk result (λ _. bytes_of names.new.items
        ≡ bytes_of names.old.items ++ text.now ∷ []) }
{
    let mut bytes = Vec::new(alloc);
    bytes.extend_from_slice(text)?;
    names.push(Name { bytes })?;
    Ok(())
}

/// Adds the name of a D and a number.
pub(crate) fn add_numbered(
    alloc: Global,
    names: &mut Vec<Name>,
    number: usize,
) -> Result<(), AllocError>
    ensures { IfOk result (λ _. bytes_of names.new.items
        ≡ bytes_of names.old.items ++ numbered number ∷ []) }
{
    let mut buffer = Buffer::new();
    let mut bytes = Vec::new(alloc);
    bytes.push(b'D')?;
    bytes.extend_from_slice(buffer.format(number).as_bytes())?;
    names.push(Name { bytes })?;
    Ok(())
}
