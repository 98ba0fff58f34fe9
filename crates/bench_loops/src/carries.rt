//! `Plant::apply` of `Carry`, from three generators to sixteen readers; one turn is one pulse, with
//! its share of the ticks and edges of a second.

ghost use Rattle.std.specs.Prelude.{IfSome};
ghost use Rattle.irig_plant.specs.History.{AreReaders};

use example_uses::plants::plain_plant;
use irig_plant::{Event, Plant, ReaderSetup};
use irig_port::FlowPort;
use irig_reader::ReaderRules;
use irig_time::{LeapTable, Timeline, UtcSecond};
use std::alloc::Global;
use std::io;

/// Plays whole seconds of 4,800 pulses, and counts those in which each reader has its entry.
pub fn run(rt: &HostRuntime, count: u32) -> io::Result<u64> {
    let Some(mut plant) = plant(rt.alloc()) else {
        return Ok(0);
    };
    let mut sum = 0u64;
    for _ in 0..count / 4800 {
        plays_a_second(&mut plant);
        sum = sum.wrapping_add(u64::from(plant.log().len() == 16));
        plant.clear_log();
    }
    Ok(sum)
}

fn plays_a_second(plant: &mut Plant<FlowPort>) {
    for r in 0..16 {
        for g in 0..3 {
            let _ = plant.apply(&Event::Carry { g, r });
        }
        let _ = plant.apply(&Event::Tick(r));
    }
    for g in 0..3 {
        let _ = plant.apply(&Event::GenEdge(g));
    }
}

// From 2001-01-01 on.
fn plant(alloc: Global) -> Option<Plant<FlowPort>> {
    let start = UtcSecond { day: 366, sod: 0 };
    let timeline = Timeline::new(alloc, start, &[]).ok()?;
    let readers = sixteen_readers(alloc)?;
    plain_plant(alloc, timeline, readers.as_slice())
}

fn sixteen_readers(alloc: Global) -> Option<Vec<ReaderSetup>>
    ensures { IfSome result (λ readers. AreReaders readers.items) }
{
    let rules = ReaderRules {
        lock_after: 2,
        holdover: 3600,
    };
    let mut readers = Vec::new(alloc);
    for _ in 0..16usize {
        let table = LeapTable::empty();
        readers.push(ReaderSetup { rules, table }).ok()?;
    }
    Some(readers)
}
