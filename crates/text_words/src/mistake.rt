//! What helps with a line that is no JSON: typical mistakes, by their bytes.

const ANY_HELP: &str = "; a line is one JSON value in UTF-8";

static COMMA: &str = "; a comma is missing before it";

/// What a file says of its encoding if its first bytes are not those of UTF-8 text.
pub(crate) fn other_encoding(line: &[u8]) -> Option<&'static str> {
    match line {
        [0xef, 0xbb, 0xbf, ..] => {
            Some("a byte order mark stands here (EF BB BF); save the file as UTF-8 without one")
        }
        [0xff, 0xfe, ..] | [0xfe, 0xff, ..] | [0, _, ..] | [_, 0, ..] => {
            Some("this is UTF-16; save the file as UTF-8 without a byte order mark")
        }
        _ => None,
    }
}

/// What a line is that plainly begins another file than a scenario.
pub(crate) fn other_file(line: &[u8]) -> Option<&'static str> {
    // A tick of a log, or its last line.
    if begins_with_number(line)
        || line.starts_with(b"premises ")
        || line.starts_with(b"refused: ")
    {
        return Some("this is a line of a log; give the scenario that the log was made of");
    }
    // A dump (VCD), a sound (WAV), an archive as sigrok makes it.
    if line.starts_with(b"$") || line.starts_with(b"RIFF") || line.starts_with(b"PK\x03\x04") {
        return Some("this is a recording; tools/capture makes a scenario of it");
    }
    None
}

/// Why a line that ends before its value is no JSON.
pub(crate) fn why_cut(line: &[u8]) -> &'static str {
    match line.first() {
        Some(b'[') => {
            "the line ends here, before its list does; no list stands round the lines: one value a line"
        }
        _ => "the line ends here, before its value does; each value stands on one line",
    }
}

/// The name of a mark at the front that is hard to see as itself.
pub(crate) fn name_of(rest: &[u8]) -> Option<&'static str> {
    match rest {
        [b'\'', ..] => Some("a single quote"),
        _ if is_typographic(rest) => Some("a typographic quote"),
        _ => None,
    }
}

/// What helps where reading stops before `rest`, with so many brackets open `before` it: what is
/// said behind "cannot stand here".
pub(crate) fn help_at(levels: usize, before: &[u8], rest: &[u8]) -> &'static str {
    match (rest, last_of(before)) {
        ([b'\'', ..], _) => "; keys and texts stand in double quotes",
        ([b'/' | b'#', ..], _) => "; a scenario has no comments",
        ([b'}' | b']', ..], Some(b',')) => ", behind a comma; leave out the comma",
        _ if is_typographic(rest) => "; keys and texts stand in plain double quotes",
        ([byte, ..], last) if levels == 0 => help_outside(last, *byte),
        ([byte, ..], Some(last)) => help_inside(last, before, *byte),
        _ => ANY_HELP,
    }
}

/// How many brackets are open behind these bytes; those in texts are none.
pub(crate) fn open_levels(bytes: &[u8]) -> usize {
    let mut levels = 0;
    let mut reading = Reading::Marks;
    for byte in bytes {
        if matches!(reading, Reading::Marks) {
            levels = levels_behind(levels, *byte);
        }
        reading = reading_behind(reading, *byte);
    }
    levels
}

// Whether a number stands first, behind blanks or not, and a blank behind it.
fn begins_with_number(line: &[u8]) -> bool {
    let mut has_digit = false;
    for byte in line {
        match byte {
            b'0'..=b'9' => has_digit = true,
            b' ' if has_digit => return true,
            b' ' => {}
            _ => return false,
        }
    }
    false
}

// ---- the bytes round the place

// A quote as word processors write it.
fn is_typographic(rest: &[u8]) -> bool {
    matches!(rest, [0xe2, 0x80, 0x98..=0x9f, ..])
}

// Where no bracket is open: before the value of the line, or behind it.
fn help_outside(last: Option<u8>, byte: u8) -> &'static str {
    match (last, byte) {
        (_, b'}' | b']') => "; it closes nothing: leave it out",
        (Some(b'}'), b',') => "; no comma stands behind a line: leave it out",
        (Some(b'}'), _) => "; the value of the line ends before it: one value a line",
        _ => {
            "; each line begins with {; if this is a recording, tools/capture makes a scenario of it"
        }
    }
}

fn help_inside(last: u8, before: &[u8], byte: u8) -> &'static str {
    match last {
        b'{' | b'[' | b',' | b':' if byte.is_ascii_alphabetic() => {
            "; keys and texts stand in double quotes; true and false are written small"
        }
        b'"' if begins_item(byte) => help_behind_text(before),
        b'}' | b']' | b'0'..=b'9' | b'a'..=b'z' if begins_item(byte) => COMMA,
        _ => ANY_HELP,
    }
}

// Behind a text that is a key a colon is missing, and what stands before it says if it may be one.
fn help_behind_text(before: &[u8]) -> &'static str {
    match last_before_text(before) {
        Some(b':' | b'[') => COMMA,
        _ => "; a comma or a colon is missing before it",
    }
}

fn begins_item(byte: u8) -> bool {
    matches!(byte, b'"' | b'{' | b'[' | b'-') || byte.is_ascii_alphanumeric()
}

// The last byte that is no blank.
fn last_of(bytes: &[u8]) -> Option<u8> {
    for byte in bytes.iter().rev() {
        if !matches!(byte, b' ' | b'\t') {
            return Some(*byte);
        }
    }
    None
}

// The same before the text at the end; a quote in that text counts as its first.
fn last_before_text(bytes: &[u8]) -> Option<u8> {
    let mut quotes: u8 = 0;
    for byte in bytes.iter().rev() {
        if *byte == b'"' {
            quotes = quotes.saturating_add(1);
        } else if quotes >= 2 && !matches!(byte, b' ' | b'\t') {
            return Some(*byte);
        }
    }
    None
}

// ---- the brackets that are open

#[derive(Clone, Copy)]
enum Reading {
    Marks,
    Text,
    Escape,
}

fn reading_behind(reading: Reading, byte: u8) -> Reading {
    match (reading, byte) {
        (Reading::Marks, b'"') | (Reading::Escape, _) => Reading::Text,
        (Reading::Text, b'"') => Reading::Marks,
        (Reading::Text, b'\\') => Reading::Escape,
        _ => reading,
    }
}

fn levels_behind(levels: usize, byte: u8) -> usize {
    match byte {
        b'{' | b'[' => levels.saturating_add(1),
        b'}' | b']' => levels.saturating_sub(1),
        _ => levels,
    }
}
