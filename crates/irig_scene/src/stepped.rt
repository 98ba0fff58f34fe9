//! A plant that takes one event at a time.

ghost use Rattle.std.specs.Prelude.{◌≡◌, ◌≤◌, vec_len};
ghost use Rattle.irig_scene.specs.Faults.{stop_of_event};
ghost use Rattle.irig_scene.specs.Stepping.{HasSomeHistory, HasStepped, Steps};

use irig_plant::{Event, Plant, PlantFault};
use irig_port::Port;
use report_run::{Failure, Stop};
use text_faults::Refusal;

/// A plant whose log has the entry of its last event alone.
#[derive(Drop)]
pub(crate) struct SteppedPlant<P: Port> {
    plant: Plant<P>,
    ghost happened: { ∥ HasSomeHistory plant ∥₁ },
    ghost few: { vec_len plant.log ≤ 1 },
}

impl<P: Port> SteppedPlant<P> {
    /// A plant of which no entry stands.
    pub(crate) fn new(plant: Plant<P>) -> SteppedPlant<P>
        requires happened { ∥ HasSomeHistory plant ∥₁ }
        requires few { vec_len plant.log ≤ 1 }
        ensures { result.plant ≡ plant }
    {
        SteppedPlant { plant }
    }

    /// Lets the log go, and takes an event, or refuses it or fails and stands as it stood.
    #[inline(always)]
    pub(crate) fn step(&mut self, event: &Event) -> Result<(), Stop>
        ensures { Steps self.old.plant event.now result self.new.plant }
    {
        step_alone(&mut self.plant, event)
    }

    /// The plant, as its events left it.
    pub(crate) fn plant(&self) -> &Plant<P>
        ensures { result.now ≡ self.now.plant }
    {
        &self.plant
    }
}

#[inline(always)]
fn step_alone<P: Port>(plant: &mut Plant<P>, event: &Event) -> Result<(), Stop>
    ensures steps { Steps plant.old event.now result plant.new }
    ensures alone { HasSomeHistory plant.old → HasStepped plant.new }
{
    plant.clear_log();
    match plant.apply(event) {
        Ok(()) => Ok(()),
        Err(fault) => Err(stop_of_event(fault)),
    }
}

fn stop_of_event(fault: PlantFault) -> Stop
    ensures { result ≡ stop_of_event fault }
{
    match fault {
        PlantFault::NoSuchReader => Stop::Refused(Refusal::NoSuchReader),
        PlantFault::NoSuchGenerator => Stop::Refused(Refusal::NoSuchGenerator),
        PlantFault::FutureReplay => Stop::Refused(Refusal::FutureReplay),
        PlantFault::EndOfYears => Stop::Refused(Refusal::EndOfYears),
        PlantFault::Memory => Stop::Failed(Failure::Memory),
    }
}
