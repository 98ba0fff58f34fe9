//! How a station is made, and what it answers.

ghost use Rattle.std.specs.Prelude.{◌≡◌, ◌<◌, ◌≤◌, ℕ, All, drop, true, IfErr, IfOk};
ghost use Rattle.irig_plant.specs.History.{AreGenerators};
ghost use Rattle.irig_station.specs.StationSetups.{StationSetup, redundancy_of_station, station_setup, truth_before};
ghost use Rattle.irig_station.specs.StationStandings.{StationStanding, left_of_second, station_at_start};
ghost use Rattle.irig_station.specs.Stations.{AreDevices, AreNewDevices, IsStationAt, LetGo, all_let_go};
ghost use Rattle.irig_station.specs.ValidEntries.{IsValidEntry};

use crate::audit::{Audit, audit_at_start};
use crate::entry::Entry;
use crate::fault::StationFault;
use crate::frames::lines_of;
use crate::station::Station;
use irig_gen::Generator;
use irig_port::Port;
use irig_simulated::{DeviceSetup, HeardPulse, HeardPulses, Second, Simulated};
use irig_time::{Claim, Rules, Timeline};
use irig_vote::Redundancy;
use std::alloc::{AllocError, Global};

impl<P: Port> Station<P> {
    /// A station over this timeline, with these generators, whose frames are read by these rules,
    /// and with devices of these setups, to which nothing has happened.
    ///
    /// There must be three or five generators, made with these rules, at edge 0 and without fault. The
    /// pulses that devices hear are kept if that is asked for. `Memory` if there is none.
    pub fn new(
        alloc: Global,
        timeline: Timeline,
        generators: Vec<Generator>,
        rules: Rules,
        setups: &[DeviceSetup],
        keeps_heard: bool,
    ) -> Result<Self, StationFault>
        requires generators { AreGenerators rules generators.items }
        requires devices { AreDevices setups.now }
        ensures stands { IfOk result (λ p. IsStationAt p
            (station_setup timeline generators.items rules setups.now)
            (station_at_start (station_setup timeline generators.items rules setups.now))
            (all_let_go keeps_heard (station_at_start
            (station_setup timeline generators.items rules setups.now)))) }
        ensures memory { IfErr result (λ fault. fault ≡ StationFault.Memory) }
    {
        let redundancy = Redundancy::of_ports(generators.len());
        let audit = audit_at_start(&timeline, setups);
        let lines = lines_of::<P>(alloc, rules, &timeline, &generators)?;
        let devices = Self::new_devices(alloc, rules, redundancy, setups)?;
        Ok(Station {
            alloc,
            timeline,
            rules,
            generators,
            begun: 0,
            second: Second {
                number: 0,
                lines,
                before: Vec::new(alloc),
            },
            devices,
            now_us: 0,
            log: Vec::new(alloc),
            audit,
            heard: HeardPulses::new(alloc, keeps_heard),
            is_spent: false,
        })
    }

    fn new_devices(
        alloc: Global,
        rules: Rules,
        redundancy: Redundancy,
        setups: &[DeviceSetup],
    ) -> Result<Vec<Simulated<P>>, AllocError>
        requires { AreDevices setups.now }
        ensures { IfOk result (λ devices. AreNewDevices rules redundancy setups.now devices.items) }
    {
        let mut devices = Vec::new(alloc);
        for setup in setups {
            let device = match Simulated::new(alloc, rules, redundancy, setup) {
                Ok(device) => device,
                Err(_) => unreachable!(),
            };
            devices.push(device)?;
        }
        Ok(devices)
    }

    /// What devices told, and stamps that they gave, in order, since the log was last cleared. If
    /// the audit is kept, each entry is true: the law
    /// [`a_log_of_devices_is_true`](crate::a_log_of_devices_is_true).
    pub fn log(&self) -> &[Entry]
        ensures valid { All IsValidEntry result.now }
        ensures value { (s : StationSetup) (x : StationStanding) (shown : LetGo)
            → IsStationAt self.now s x shown → result.now ≡ drop shown.entries x.log }
    {
        self.log.as_slice()
    }

    /// The pulses that devices heard, in the order in which they had ended, device after device in
    /// each part of a second that was played at once, since the log was last cleared; if they are kept,
    /// and else none.
    pub fn heard(&self) -> &[HeardPulse]
        ensures { (s : StationSetup) (x : StationStanding) (shown : LetGo)
            → IsStationAt self.now s x shown → shown.keeps ≡ true
            → result.now ≡ drop shown.pulses x.heard }
    {
        self.heard.as_slice()
    }

    /// Empties the log, and lets the pulses go that devices heard. It changes nothing else.
    pub fn clear_log(&mut self)
        ensures { (s : StationSetup) (x : StationStanding) (shown : LetGo)
            → IsStationAt self.old s x shown
            → IsStationAt self.new s x (all_let_go shown.keeps x) }
    {
        self.log.clear();
        self.heard.clear();
    }

    /// Whether the premises hold so far, and if not the first place at which they broke.
    pub fn audit(&self) -> Audit
        ensures { (s : StationSetup) (x : StationStanding) (shown : LetGo)
            → IsStationAt self.now s x shown → result ≡ x.audit }
    {
        self.audit
    }

    /// How many lines each device has.
    pub fn redundancy(&self) -> Redundancy
        ensures { (s : StationSetup) (x : StationStanding) (shown : LetGo)
            → IsStationAt self.now s x shown → result ≡ redundancy_of_station s }
    {
        match self.generators.len() {
            3 => Redundancy::Three,
            _ => Redundancy::Five,
        }
    }

    /// How many microseconds are left of the present second, 1 to 1,000,000; where one ends, a whole
    /// one. A stretch of time may be cut there: the law
    /// [`time_passes_by_seconds`](crate::time_passes_by_seconds).
    pub fn left_us(&self) -> u64
        ensures some { 0 < result }
        ensures most { result ≤ 1000000 }
        ensures value { (s : StationSetup) (x : StationStanding) (shown : LetGo)
            → IsStationAt self.now s x shown → result ≡ left_of_second x }
    {
        1_000_000 - self.now_us % 1_000_000
    }

    /// What a line tells at an edge of a true frame: the claim of the second that ended there. None
    /// at edge 0, and where the timeline has no such second.
    pub fn truth(&self, edge: u64) -> Option<Claim>
        ensures { (s : StationSetup) (x : StationStanding) (shown : LetGo)
            → IsStationAt self.now s x shown → result ≡ truth_before s edge }
    {
        match edge.checked_sub(1) {
            Some(number) => self.timeline.truth(number),
            None => None,
        }
    }
}
