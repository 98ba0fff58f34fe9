//! The line of how far off the seconds of a device lay.

ghost use Rattle.std.specs.Prelude.{◌≡◌, ◌++◌, OnOk, string_bytes};
ghost use Rattle.report_blame.specs.Text.{edges_line, reach_text};

use crate::reach::Reach;
use irig_station_scene::push_off;
use std::alloc::AllocError;

/// Pushes the line of a device that announced a second.
pub(crate) fn push_reach(
    text: &mut String,
    name: &str,
    reach: Option<Reach>,
) -> Result<(), AllocError>
    ensures { OnOk result (string_bytes text.new
        ≡ string_bytes text.old ++ reach_text name.now reach) }
{
    match reach {
        Some(reach) => push_edges(text, name, &reach),
        None => Ok(()),
    }
}

#[tactic(auto, unfolding(crate::specs::Text::edges_line))]
fn push_edges(text: &mut String, name: &str, reach: &Reach) -> Result<(), AllocError>
    ensures { OnOk result (string_bytes text.new
        ≡ string_bytes text.old ++ edges_line name.now reach.now) }
{
    let Reach {
        least,
        greatest,
        bound_us,
    } = *reach;
    write!(text, "edges of {name}: ")?;
    push_off(text, least.behind_us, least.before_us)?;
    text.push_str(" to ")?;
    push_off(text, greatest.behind_us, greatest.before_us)?;
    write!(text, " us off, bound at most {bound_us} us\n")
}
