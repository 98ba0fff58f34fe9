//! Texts cut to what is shown of them.

ghost use Rattle.std.specs.Prelude.{◌≡◌, IfSome, length, take};

/// The first `most` characters of a text that has more; none if it has no more.
pub(crate) fn start_of(text: &str, most: usize) -> Option<&str>
    ensures { IfSome result (λ start. start.now ≡ take (length start.now) text.now) }
{
    match text.char_indices().nth(most) {
        Some((end, _)) => text.get(..end),
        None => None,
    }
}
