//! Fields of a row.

ghost use Rattle.std.specs.Prelude.{◌≡◌, ◌+◌, ◌≤◌, [], IfNone, IfSome, length};
ghost use Rattle.record_text.specs.Fields.{after_comma, comma_in};
ghost use Rattle.record_samples.specs.Rows.{end_in, fields_in, from_field};

/// How many fields of a line stand before the one at a place, and the line from there on; all but
/// one, if there are no more, and nothing.
pub(crate) fn cut(line: &[u8], place: usize) -> (usize, &[u8])
    requires { place ≤ 2000000 }
    ensures text { result.1.now ≡ from_field place line.now }
    ensures count { result.0 + fields_in result.1.now ≡ fields_in line.now }
    ensures few { result.0 ≤ place }
{
    let mut rest = line;
    for passed in 0..place {
        match after_first(rest) {
            Some(after) => rest = after,
            None => return (passed, &[]),
        }
    }
    (place, rest)
}

// What stands after the first comma, if there is one.
#[tactic(auto, using(crate::proofs::FieldLaws::fields_one, crate::proofs::FieldLaws::fields_step))]
fn after_first(text: &[u8]) -> Option<&[u8]>
    ensures some { IfSome result (λ rest. rest.now ≡ after_comma text.now) }
    ensures fewer { IfSome result (λ rest. fields_in text.now ≡ fields_in rest.now + 1) }
    ensures none { IfNone result (after_comma text.now ≡ []) }
    ensures one { IfNone result (fields_in text.now ≡ 1) }
{
    let count = comma_in(text);
    if count < text.len() {
        Some(text.split_at(count + 1).1)
    } else {
        None
    }
}

fn comma_in(text: &[u8]) -> usize
    ensures count { result ≡ comma_in text.now }
    ensures within { result ≤ length text.now }
{
    for (at, byte) in text.iter().enumerate() {
        if *byte == b',' {
            return at;
        }
    }
    text.len()
}

/// How many fields a line has.
pub(crate) fn fields_in(line: &[u8]) -> usize
    ensures count { result ≡ fields_in line.now }
    ensures few { result ≤ length line.now + 1 }
{
    let mut count = 1usize;
    for byte in line {
        if *byte == b',' {
            count += 1;
        }
    }
    count
}

/// How many bytes stand before the end of a line.
pub(crate) fn end_in(bytes: &[u8]) -> usize
    ensures count { result ≡ end_in bytes.now }
    ensures within { result ≤ length bytes.now }
{
    for (at, byte) in bytes.iter().enumerate() {
        if matches!(*byte, b'\n' | b'\r' | 0x1a) {
            return at;
        }
    }
    bytes.len()
}
