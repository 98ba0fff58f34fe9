//! Fields of a line.

ghost use Rattle.std.specs.Prelude.{◌≡◌, ◌≤◌, length};
ghost use Rattle.record_text.specs.Fields.{after_comma, comma_in, field, trimmed};

/// The field at a place of a line, from 0, without the blanks round it. Commas part fields; after the last
/// one they are empty.
pub fn field_of(line: &[u8], place: usize) -> &[u8]
    ensures { result.now ≡ field place line.now }
{
    let mut rest = line;
    for _passed in 0..place {
        rest = after_comma(rest);
    }
    let (text, _) = rest.split_at(comma_in(rest));
    trimmed(text)
}

/// A text without the blanks at both ends.
pub fn trimmed(text: &[u8]) -> &[u8]
    ensures { result.now ≡ trimmed text.now }
{
    text.trim_ascii()
}

/// What stands after the first comma of a line; nothing, if it has none.
pub fn after_comma(text: &[u8]) -> &[u8]
    ensures { result.now ≡ after_comma text.now }
{
    match text.split_at(comma_in(text)).1 {
        [_, after @ ..] => after,
        [] => &[],
    }
}

fn comma_in(text: &[u8]) -> usize
    ensures count { result ≡ comma_in text.now }
    ensures within { result ≤ length text.now }
{
    for (at, byte) in text.iter().enumerate() {
        if *byte == b',' {
            return at;
        }
    }
    text.len()
}
