//! What the frames of ports that agree say beside the time.

ghost use Rattle.std.specs.Prelude.{◌≡◌, ◌-◌, ◌<◌, count_by};
ghost use Rattle.irig_control.specs.Control.{IsControl};
ghost use Rattle.c_numbers.specs.Standings.{first_zone, is_of_zone, sent_by, sent_if, sent_of, worst_of, zone_of};

use crate::standing::{Standing, Standings};
use irig_control::{Control, unpack};
use irig_port::Tally;
use irig_time::Sense;

/// The zone that a frame is written in.
#[derive(Clone, Copy)]
pub struct Zone {
    /// Local time minus UTC, in half hours.
    pub local_half_hours: i8,
    /// Whether it is daylight saving time.
    pub dst: bool,
}

/// What a frame says beside its time.
#[derive(Clone, Copy)]
pub(crate) struct Sent {
    pub(crate) zone: Zone,
    pub(crate) quality: u8,
}

/// What the frames of the ports say that agreed with the vote.
pub(crate) fn sent_by(standings: &Standings, sense: Sense, ports: &[Tally; 5]) -> [Option<Sent>; 5]
    ensures { result ≡ sent_by standings.now sense ports.now }
{
    [
        sent_if(standings.a, sense, &ports[0]),
        sent_if(standings.b, sense, &ports[1]),
        sent_if(standings.c, sense, &ports[2]),
        sent_if(standings.d, sense, &ports[3]),
        sent_if(standings.e, sense, &ports[4]),
    ]
}

#[inline(never)]
fn sent_if(standing: Standing, sense: Sense, tally: &Tally) -> Option<Sent>
    ensures { result ≡ sent_if standing sense tally.now }
{
    match standing {
        Standing::Agreed => Some(sent_of(sense, &unpack(tally.control_word()))),
        _ => None,
    }
}

fn sent_of(sense: Sense, control: &Control) -> Sent
    requires { IsControl control.now }
    ensures { result ≡ sent_of sense control.now }
{
    Sent {
        zone: zone_of(sense, control),
        quality: control.quality,
    }
}

fn zone_of(sense: Sense, control: &Control) -> Zone
    requires { IsControl control.now }
    ensures { result ≡ zone_of sense control.now }
{
    Zone {
        local_half_hours: match sense {
            Sense::Add => -control.offset_half_hours,
            Sense::Subtract => control.offset_half_hours,
        },
        dst: control.dst,
    }
}

/// The zone that at least `enough` of the frames are of, if that is more than half of the ports.
pub(crate) fn zone_sent_by(enough: usize, sent: &[Option<Sent>]) -> Option<Zone>
    requires { 0 < enough }
    ensures { result ≡ first_zone (enough - 1) sent.now sent.now }
{
    for frame in sent {
        let Some(frame) = frame else {
            continue;
        };
        if count_of(&frame.zone, sent) >= enough {
            return Some(frame.zone);
        }
    }
    None
}

fn count_of(zone: &Zone, sent: &[Option<Sent>]) -> usize
    ensures { result ≡ count_by (is_of_zone zone.now) sent.now }
{
    sent.iter().filter(|frame| is_of_zone(zone, frame)).count()
}

fn is_of_zone(zone: &Zone, frame: &Option<Sent>) -> bool
    ensures { result ≡ is_of_zone zone.now frame.now }
{
    match frame {
        Some(sent) => {
            zone.local_half_hours == sent.zone.local_half_hours && zone.dst == sent.zone.dst
        }
        None => false,
    }
}

/// The worst quality of the frames, 0 if there is none.
pub(crate) fn worst_of(sent: &[Option<Sent>]) -> u8
    ensures { result ≡ worst_of sent.now }
{
    let mut worst = 0;
    for frame in sent {
        if let Some(frame) = frame {
            worst = frame.quality.max(worst);
        }
    }
    worst
}
