//! Uses of `irig_plant`.

ghost use Rattle.std.specs.Prelude.{◌≡◌, [], All, IfSome, OnOk};
ghost use Rattle.irig_plant.specs.Premises.{IsKept};
ghost use Rattle.irig_plant.specs.Truth.{AnnouncesTruth};
ghost use Rattle.irig_plant.specs.History.{AreGenerators, AreReaders, PlantHistory, HasPlantHistory, IsNew, with_cleared_log, with_events};

use irig_gen::{Generator, Zone};
use irig_plant::{Audit, Entry, Event, Plant, ReaderSetup, Refused};
use irig_port::Port;
use irig_time::{Rules, Timeline};
use std::alloc::Global;

/// A plant of three generators on UTC over this timeline, read by the plain rules; `None` if there
/// is no memory.
pub fn plain_plant<P: Port>(
    alloc: Global,
    timeline: Timeline,
    readers: &[ReaderSetup],
) -> Option<Plant<P>>
    requires { AreReaders readers.now }
    ensures { IfSome result (λ plant.
        (h : PlantHistory) × HasPlantHistory plant h × (h.events ≡ [])) }
{
    let generators = three_generators(alloc, Rules::PLAIN)?;
    Plant::new(alloc, timeline, generators, Rules::PLAIN, readers).ok()
}

fn three_generators(alloc: Global, rules: Rules) -> Option<Vec<Generator>>
    ensures { IfSome result (λ generators. AreGenerators rules generators.items) }
{
    let mut generators = Vec::new(alloc);
    for _ in 0..3usize {
        generators.push(plain_generator(alloc, rules)?).ok()?;
    }
    Some(generators)
}

fn plain_generator(alloc: Global, rules: Rules) -> Option<Generator>
    ensures { IfSome result (IsNew rules) }
{
    let zone = Zone {
        half_hours: 0,
        dst: false,
    };
    Generator::new(alloc, zone, &[], rules).ok()
}

/// The log, if the premises of the headline held so far: each second in it is then the true one.
#[tactic(auto, using(irig_plant::proofs::AuditLaws::kept_is))]
pub fn trusted_log<P: Port>(plant: &Plant<P>) -> Option<&[Entry]>
    ensures kept { (h : PlantHistory) → HasPlantHistory plant.now h
        → IfSome result (λ log. IsKept h.setup h.events) }
    ensures truth { (h : PlantHistory) → HasPlantHistory plant.now h
        → IfSome result (λ log. All (AnnouncesTruth h.setup h.events) log.now) }
{
    match plant.audit() {
        Audit::Kept => Some(plant.log()),
        Audit::Broken { .. } | Audit::FalseTable { .. } => None,
    }
}

/// How many entries stand after the events; they are let go, so that memory stays flat.
pub fn count_entries<P: Port>(plant: &mut Plant<P>, events: &[Event]) -> Result<usize, Refused>
    ensures { OnOk result ((h : PlantHistory) → HasPlantHistory plant.old h
        → HasPlantHistory plant.new (with_cleared_log (with_events events.now h))) }
{
    plant.run(events)?;
    let count = plant.log().len();
    plant.clear_log();
    Ok(count)
}
