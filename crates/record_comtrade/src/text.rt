//! A text of its own.

ghost use Rattle.std.specs.Prelude.{◌≡◌, ◌∷◌, ◌++◌, [], IfOk};
ghost use Rattle.record_comtrade.specs.Texts.{texts_of};

use std::alloc::{AllocError, Global};

/// A line of a configuration.
#[derive(Drop)]
pub(crate) struct Text {
    pub(crate) bytes: Vec<u8>,
}

/// Adds a text.
pub(crate) fn keep(alloc: Global, texts: &mut Vec<Text>, text: &[u8]) -> Result<(), AllocError>
    ensures { IfOk result (λ _. texts_of texts.new.items
        ≡ texts_of texts.old.items ++ text.now ∷ []) }
{
    let mut bytes = Vec::new(alloc);
    bytes.extend_from_slice(text)?;
    texts.push(Text { bytes })?;
    Ok(())
}
