//! The time quality that a device may send on.

ghost use Rattle.std.specs.Prelude.{◌≡◌, ◌<◌, ◌≤◌, ◌-◌, ◌^◌};
ghost use Rattle.irig_timekeeper.specs.Quality.{quality_of};

use irig_timekeeper::quality_of;

/// The time quality of a second or a stamp that lies so far off at most, as IEEE 1344 codes it: 4
/// within 1 us, each code more within ten times that, up to 10 within 1 s, and 15 beyond.
#[unsafe(no_mangle)]
pub extern "C" fn irig_c_quality_of(bound_us: u32) -> u8
    ensures value { result ≡ quality_of bound_us }
    ensures within { result ≤ 10 → bound_us ≤ 10 ^ (result - 4) }
    ensures exact { 4 < result → result ≤ 10 → 10 ^ (result - 5) < bound_us }
    ensures least { 4 ≤ result }
    ensures failed { 10 < result → 1000000 < bound_us }
{
    quality_of(bound_us)
}
