//! What a device told, in the log, and its audit.

ghost use Rattle.std.specs.Prelude.{◌≡◌, ◌++◌, All, OnOk, map};
ghost use Rattle.irig_simulated.specs.Courses.{keeps_so_far, told_taken};
ghost use Rattle.irig_simulated.specs.Simulations.{ForSimulation, GoesOn};
ghost use Rattle.irig_simulated.specs.ToldSeconds.{IsToldOfUtc};
ghost use Rattle.irig_station.specs.StationAudits as audits;
ghost use Rattle.irig_station.specs.ValidEntries.{IsValidEntry};

use crate::audit::{Audit, audit_seen};
use crate::entry::Entry;
use irig_port::Port;
use irig_simulated::{Simulated, ToldSecond};
use std::alloc::AllocError;

// What a device told is logged and taken, and it is seen in the second of an edge.
pub(crate) fn see<P: Port>(
    device: &mut Simulated<P>,
    r: u8,
    edge: u64,
    log: &mut Vec<Entry>,
    audit: &mut Audit,
) -> Result<(), AllocError>
    ensures now { device.new.now_us ≡ device.old.now_us }
    ensures same { device.new.device.clock ≡ device.old.device.clock }
    ensures valid { All IsValidEntry log.old.items → All IsValidEntry log.new.items }
    ensures stands { OnOk result (GoesOn device.old device.new (λ k x. told_taken x)) }
    ensures logged { OnOk result (ForSimulation device.old (λ k symbol x.
        log.new.items ≡ log.old.items ++ map (λ told. Entry.Told r told) x.told)) }
    ensures audit { OnOk result (ForSimulation device.old (λ k symbol x.
        audit.new ≡ audits.audit_seen audit.old r edge (keeps_so_far k symbol x))) }
{
    log_told(log, r, device.told())?;
    *audit = audit_seen(*audit, r, edge, device.is_kept());
    device.take_told();
    Ok(())
}

fn log_told(log: &mut Vec<Entry>, r: u8, seconds: &[ToldSecond]) -> Result<(), AllocError>
    requires { All IsToldOfUtc seconds.now }
    ensures valid { All IsValidEntry log.old.items → All IsValidEntry log.new.items }
    ensures logged { OnOk result (log.new.items
        ≡ log.old.items ++ map (λ told. Entry.Told r told) seconds.now) }
{
    for told in seconds {
        log.push(Entry::Told {
            device: r,
            told: *told,
        })?;
    }
    Ok(())
}
