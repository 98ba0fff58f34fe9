//! Words of a scenario, or of a recording of lines: `lines` has the names of these, with a comma
//! between them, and nothing of a scenario.

ghost use Rattle.std.specs.Prelude.{◌≡◌, ◌++◌, OnOk, string_bytes};
ghost use Rattle.report_blame.specs.Text.{untrue_word, untrue_seconds, line_name, port_text};

use std::alloc::AllocError;

/// What a second is called that is not the one that begins.
pub(crate) fn untrue_word(lines: &str) -> &'static str
    ensures { result.now ≡ untrue_word lines.now }
{
    if lines.is_empty() {
        "untrue"
    } else {
        "unlike most lines"
    }
}

/// What a reader did that announced such seconds.
pub(crate) fn untrue_seconds(lines: &str) -> &'static str
    ensures { result.now ≡ untrue_seconds lines.now }
{
    if lines.is_empty() {
        " announced untrue seconds"
    } else {
        " announced seconds unlike most lines"
    }
}

/// Pushes a port, by the name of its line if that has one.
pub(crate) fn push_port(text: &mut String, lines: &str, port: u8) -> Result<(), AllocError>
    ensures { OnOk result (string_bytes text.new
        ≡ string_bytes text.old ++ port_text lines.now port) }
{
    let name = line_name(lines, port);
    if name.is_empty() {
        write!(text, "port {port}")
    } else {
        text.push_str(name)
    }
}

fn line_name(lines: &str, port: u8) -> &str
    ensures { result.now ≡ line_name lines.now port }
{
    lines.split(',').nth(usize::from(port)).unwrap_or("")
}
