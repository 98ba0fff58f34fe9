//! The audit of a station: whether the premises hold under which its devices tell the truth.

ghost use Rattle.std.specs.Prelude.{◌≡◌, ◌≤◌, length, None};
ghost use Rattle.irig_station.specs.StationAudits as audits;

use irig_plant::is_true_table;
use irig_simulated::DeviceSetup;
use irig_time::Timeline;

/// Whether the premises hold so far, and if not the first place at which they broke.
#[derive(Clone, Copy, PartialEq, Eq)]
pub enum Audit {
    /// They hold: what is logged is true.
    Kept,
    /// This is the first device that needs its leap table, since it holds over for more than 57
    /// seconds, and whose table isn't true. It goes before all that follows.
    FalseTable { device: u8 },
    /// This is the first device whose counter gains or loses more in a second than its setting
    /// says. It goes before any broken place.
    Drift { device: u8 },
    /// The calls of this device broke them first, in the second that begins at this edge: they were
    /// out of order, more than f of its lines were untrue at a tick, or it was asked for a stamp
    /// when it could not be ticked, or of an instant that was not in the half hour before.
    Broken { device: u8, edge: u64 },
}

pub(crate) fn audit_at_start(timeline: &Timeline, devices: &[DeviceSetup]) -> Audit
    requires { length devices.now ≤ 16 }
    ensures { result ≡ audits.audit_by_setup
        (audits.first_device (audits.is_misled_by_table timeline.now) 0 devices.now)
        (audits.first_device audits.drifts_beyond 0 devices.now) }
{
    for (r, device) in devices.iter().enumerate() {
        if is_misled_by_table(timeline, device) {
            return Audit::FalseTable { device: r as u8 };
        }
    }
    audit_of_drifts(devices)
}

// The same where each table is true, or is not needed.
fn audit_of_drifts(devices: &[DeviceSetup]) -> Audit
    requires { length devices.now ≤ 16 }
    ensures { result ≡ audits.audit_by_setup None
        (audits.first_device audits.drifts_beyond 0 devices.now) }
{
    for (r, device) in devices.iter().enumerate() {
        if drifts_beyond(device) {
            return Audit::Drift { device: r as u8 };
        }
    }
    Audit::Kept
}

fn is_misled_by_table(timeline: &Timeline, device: &DeviceSetup) -> bool
    ensures { result ≡ audits.is_misled_by_table timeline.now device.now }
{
    device.rules.holdover > 57 && !is_true_table(timeline, &device.table)
}

fn drifts_beyond(device: &DeviceSetup) -> bool
    ensures { result ≡ audits.drifts_beyond device.now }
{
    u32::from(device.gain_us.unsigned_abs()) > device.drift_us
}

// The audit once a device is seen in the second that begins at an edge.
pub(crate) fn audit_seen(audit: Audit, device: u8, edge: u64, is_kept: bool) -> Audit
    ensures { result ≡ audits.audit_seen audit device edge is_kept }
{
    match audit {
        Audit::Kept if !is_kept => Audit::Broken { device, edge },
        _ => audit,
    }
}
