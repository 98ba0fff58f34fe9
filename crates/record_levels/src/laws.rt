//! A law of times. It has no code.

ghost use Rattle.std.specs.Prelude.{◌≡◌, ◌<◌, ◌≤◌, ℕ, Option, None};
ghost use Rattle.record_levels.specs.Limits.{IsWithinDay, end_ns, time_fault};

/// A time without a fault does not lie before the one to which the recording had come, lies below 1,000
/// hours, and no more than a day after the last levels.
pub fn a_time_without_fault_is_within()
    ensures { (now : ℕ) (levels : Option ℕ) (next : ℕ) → time_fault now levels next ≡ None
        → (now ≤ next) × (next < end_ns) × IsWithinDay levels next }
{}
