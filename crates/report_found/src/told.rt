//! What a device told, as a tick: what a reader's tick says, it says of the true edge to which it
//! lies nearest.

ghost use Rattle.std.specs.Prelude.{◌≡◌, ℕ, IfSome};
ghost use Rattle.irig_station.specs.Stations.{IsStationAt, LetGo};
ghost use Rattle.irig_station.specs.StationSetups.{StationSetup};
ghost use Rattle.irig_station.specs.StationStandings.{StationStanding};
ghost use Rattle.irig_station.specs.ValidEntries.{IsValidEntry};
ghost use Rattle.report_found.specs.DeviceTicks.{tick_of_told};
ghost use Rattle.report_found.specs.Soundness.{IsSoundTick};

use crate::tick::Tick;
use irig_plant::Entry as ReaderEntry;
use irig_port::Port;
use irig_station::{Entry, Station};

/// A second that a device told, as a tick; none of a stamp.
pub fn tick_of_told<P: Port>(station: &Station<P>, entry: &Entry) -> Option<Tick>
    requires { IsValidEntry entry.now }
    ensures exact { (s : StationSetup) (x : StationStanding) (shown : LetGo)
        → IsStationAt station.now s x shown → result ≡ tick_of_told s entry.now }
    ensures sound { IfSome result IsSoundTick }
{
    let Entry::Told { device, told } = entry else {
        return None;
    };
    let entry = ReaderEntry {
        reader: *device,
        edge: told.edge,
        report: told.beat.report,
        redundancy: station.redundancy(),
        told: told.beat.told,
        truth: station.truth(told.edge),
    };
    Some(Tick { entry })
}
