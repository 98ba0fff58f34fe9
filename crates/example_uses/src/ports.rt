//! Uses of `irig_port`.

ghost use Rattle.std.specs.Prelude.{◌≡◌, true};
ghost use Rattle.irig_port.specs.Told.{told_of_widths};

use irig_port::{FlowPort, Port, Told, WholePort};
use irig_time::Rules;

/// What a port of this kind tells of some pulses.
pub fn told_by<P: Port>(rules: Rules, widths: &[u32]) -> Told
    ensures { result ≡ told_of_widths rules widths.now }
{
    let mut port = P::fresh(rules);
    for width in widths {
        port.pulse(*width);
    }
    port.edge()
}

/// The two kinds of port tell the same of the same pulses.
pub fn tell_the_same(rules: Rules, widths: &[u32]) -> bool
    ensures { result ≡ true }
{
    told_by::<FlowPort>(rules, widths) == told_by::<WholePort>(rules, widths)
}

/// A port forgets what it heard when it is cleared.
pub fn told_after_clear<P: Port>(rules: Rules, width_us: u32) -> Told
    ensures { result ≡ Told.Silence }
{
    let mut port = P::fresh(rules);
    port.pulse(width_us);
    port.clear();
    port.edge()
}
