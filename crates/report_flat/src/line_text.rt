//! The text of lines.

ghost use Rattle.std.specs.Prelude.{◌≡◌, ◌++◌, ◌∷◌, [], codes, string_bytes, OnOk};
ghost use Rattle.std.specs.Fmt.{decimal};
ghost use Rattle.report_log.specs.Text.{name_at, texts_of};
ghost use Rattle.report_flat.specs.EventText.{after_commas, numbers_text, event_line};

use indexmap::IndexSet;
use irig_plant::Event;
use report_log::{name_at, push_number};
use std::alloc::AllocError;

/// Adds the line of pulses that come from a generator to a reader: their widths in microseconds. A
/// reader that there is not has the empty name. Like all that adds to a text, it fails only if
/// there is no memory.
pub fn push_pulses(
    text: &mut String,
    names: &IndexSet<String>,
    g: u8,
    r: u8,
    widths: &[u32],
) -> Result<(), AllocError>
    ensures { OnOk result (string_bytes text.new ≡ string_bytes text.old
        ++ (event_line (texts_of names.now.keys) (Event.Raw g r widths.now) ++ 10 ∷ [])) }
{
    text.push_str("{\"do\":\"raw\",\"g\":")?;
    push_number(text, u64::from(g))?;
    text.push_str(",\"r\":\"")?;
    text.push_str(name_at(names, r))?;
    text.push_str("\",\"widths\":[")?;
    push_numbers(text, widths)?;
    text.push_str("]}\n")
}

fn push_numbers(text: &mut String, numbers: &[u32]) -> Result<(), AllocError>
    ensures { OnOk result (string_bytes text.new
        ≡ string_bytes text.old ++ numbers_text numbers.now) }
{
    match numbers {
        [] => Ok(()),
        [first, others @ ..] => {
            push_number(text, u64::from(*first))?;
            push_others(text, others)
        }
    }
}

fn push_others(text: &mut String, numbers: &[u32]) -> Result<(), AllocError>
    ensures { OnOk result (string_bytes text.new
        ≡ string_bytes text.old ++ after_commas numbers.now) }
{
    for number in numbers {
        push_other(text, *number)?;
    }
    Ok(())
}

// The widths of a clock's pulses are texts that are known.
#[tactic(auto, using(crate::proofs::PushLaws::width_of_0, crate::proofs::PushLaws::width_of_1, crate::proofs::PushLaws::width_of_marker))]
fn push_other(text: &mut String, number: u32) -> Result<(), AllocError>
    ensures { OnOk result (string_bytes text.new ≡ string_bytes text.old ++ 44 ∷ decimal number) }
{
    match number {
        2000 => text.push_str(",2000"),
        5000 => text.push_str(",5000"),
        8000 => text.push_str(",8000"),
        _ => {
            text.push_str(",")?;
            push_number(text, u64::from(number))
        }
    }
}

/// Adds the line of a reader's tick.
pub fn push_tick(text: &mut String, names: &IndexSet<String>, r: u8) -> Result<(), AllocError>
    ensures { OnOk result (string_bytes text.new ≡ string_bytes text.old
        ++ (event_line (texts_of names.now.keys) (Event.Tick r) ++ 10 ∷ [])) }
{
    push_named(text, "{\"do\":\"tick\",\"r\":\"", names, r)
}

/// Adds the line of a reader's restart.
pub fn push_restart(text: &mut String, names: &IndexSet<String>, r: u8) -> Result<(), AllocError>
    ensures { OnOk result (string_bytes text.new ≡ string_bytes text.old
        ++ (event_line (texts_of names.now.keys) (Event.Restart r) ++ 10 ∷ [])) }
{
    push_named(text, "{\"do\":\"restart\",\"r\":\"", names, r)
}

fn push_named(
    text: &mut String,
    front: &str,
    names: &IndexSet<String>,
    r: u8,
) -> Result<(), AllocError>
    ensures { OnOk result (string_bytes text.new ≡ string_bytes text.old
        ++ (front.now ++ (name_at (texts_of names.now.keys) r ++ codes "\"}\n"))) }
{
    text.push_str(front)?;
    text.push_str(name_at(names, r))?;
    text.push_str("\"}\n")
}
