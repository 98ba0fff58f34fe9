//! What the ticks of a reader show: what a tick ends or marks, and what is open.

ghost use Rattle.std.specs.Prelude.{◌≡◌, ◌++◌, OnOk};
ghost use Rattle.report_lanes.specs.Lanes.{if_some, ended_lanes, open_lanes};

use crate::lane::{Lane, ended};
use crate::reader::ReaderLanes;
use crate::shown::{mark_at, stood_at, told_at};
use report_found::Tick;
use std::alloc::AllocError;

/// Pushes all that a tick of a reader with so many ports ends, and its mark.
pub(crate) fn push_ended(
    lanes: &mut Vec<Lane>,
    ports: u8,
    reader: &ReaderLanes,
    tick: &Tick,
) -> Result<(), AllocError>
    ensures { OnOk result (lanes.new.items
        ≡ lanes.old.items ++ ended_lanes ports reader.now tick.now) }
{
    push(lanes, ended(reader.stood, &stood_at(tick)))?;
    for port in 0..ports {
        push(lanes, ended(reader.port(port), &told_at(port, tick)))?;
    }
    push(lanes, mark_at(tick))
}

/// Pushes all that is open.
pub(crate) fn push_open(
    lanes: &mut Vec<Lane>,
    ports: u8,
    reader: &ReaderLanes,
) -> Result<(), AllocError>
    ensures { OnOk result (lanes.new.items ≡ lanes.old.items ++ open_lanes ports reader.now) }
{
    push(lanes, reader.stood)?;
    for port in 0..ports {
        push(lanes, reader.port(port))?;
    }
    Ok(())
}

fn push(lanes: &mut Vec<Lane>, lane: Option<Lane>) -> Result<(), AllocError>
    ensures { OnOk result (lanes.new.items ≡ lanes.old.items ++ if_some lane) }
{
    if let Some(lane) = lane {
        lanes.push(lane)?;
    }
    Ok(())
}
