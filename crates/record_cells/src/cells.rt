//! Cells of a row.

ghost use Rattle.std.specs.Prelude.{◌≡◌, ◌≤◌, ◌+◌, length};
ghost use Rattle.record_cells.specs.Cells.{before, columns_in, level_of, unquoted, unquoted_by};

/// A cell without the quotes in which it stands.
pub fn unquoted(cell: &[u8]) -> &[u8]
    ensures { result.now ≡ unquoted cell.now }
{
    match cell {
        [b'"', inner @ ..] => unquoted_by(inner, cell),
        _ => cell,
    }
}

// Without both quotes, if one stands at the end.
fn unquoted_by<'a>(inner: &'a [u8], cell: &'a [u8]) -> &'a [u8]
    ensures { result.now ≡ unquoted_by inner.now cell.now }
{
    let count = inner.len();
    if count > 0 && inner[count - 1] == b'"' {
        inner.split_at(count - 1).0
    } else {
        cell
    }
}

/// The level that a cell says: high for 1 and low for 0, in quotes or not.
pub fn level_of(cell: &[u8]) -> Option<bool>
    ensures { result ≡ level_of cell.now }
{
    match unquoted(cell) {
        b"0" => Some(false),
        b"1" => Some(true),
        _ => None,
    }
}

/// How many cells a text has.
pub fn columns_in(text: &[u8]) -> usize
    ensures count { result ≡ columns_in text.now }
    ensures few { result ≤ length text.now + 1 }
{
    let mut commas = 0usize;
    for byte in text {
        if *byte == b',' {
            commas += 1;
        }
    }
    commas + 1
}

/// How many bytes stand before the first one that is one of two.
pub(crate) fn before(first: u8, second: u8, text: &[u8]) -> usize
    ensures count { result ≡ before first second text.now }
    ensures within { result ≤ length text.now }
{
    for (at, byte) in text.iter().enumerate() {
        if *byte == first || *byte == second {
            return at;
        }
    }
    text.len()
}
