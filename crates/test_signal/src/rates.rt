//! How long a second is, as a device measures it whose counter is 37 us a second fast, and wraps in the
//! fourth second. In one second of ten it hears two of three lines, and it holds over in between.

ghost use Rattle.std.specs.Prelude.{◌≡◌};
ghost use Rattle.irig_vote.specs.declared.redundancy.Redundancy.TheVariants.{Three};

use irig_frame::Symbol;
use irig_gen::{Generator, Zone};
use irig_lines::{ClockRules, NO_DELAYS, VoteLimits, nearest_within};
use irig_port::FlowPort;
use irig_reader::ReaderRules;
use irig_time::{LeapTable, Rules, Timeline, UtcSecond};
use irig_timekeeper::Timekeeper;
use irig_vote::Redundancy;
use std::test::Fail;

const BEGIN_US: u32 = 4_291_000_000;

const SECOND_US: u32 = 1_000_037;

const SECOND_NS: u32 = 1_000_037_000;

const START: UtcSecond = UtcSecond {
    day: 6209,
    sod: 43200,
};

/// A whole frame on two lines, one 5 us late and one early.
fn tell_frame(keeper: &mut Timekeeper<FlowPort>, frame: [Symbol; 100], edge_us: u32)
    requires { keeper.old.clock.redundancy ≡ Three }
    ensures { keeper.new.clock ≡ keeper.old.clock }
{
    let mut behind_us = 0u32;
    for symbol in frame {
        let rise_us = edge_us.wrapping_add(behind_us / 100);
        keeper.hear(0, rise_us.wrapping_add(5), symbol.width_us());
        keeper.hear(1, rise_us.wrapping_sub(5), symbol.width_us());
        behind_us = behind_us.wrapping_add(SECOND_US);
    }
}

/// Of how many seconds the mean is measured, and what it is at least and at most.
fn row(keeper: &Timekeeper<FlowPort>) -> (u32, u32, u32) {
    match keeper.rate() {
        Some(rate) => (rate.seconds, rate.least_ns, rate.most_ns),
        None => (0, 0, 0),
    }
}

/// Each vote puts its edge 1 us early, and leaves 15 us on both sides; by the setup's 50 us a second
/// the interval reaches 87 us further before the true edge a second later, and 13 us further behind it. From the edge 1,000 s
/// behind the first vote on that vote serves, and from then on each 1,000 s the one of 1,000 s before.
fn expected(edge: u32) -> Option<(u32, u32, u32)> {
    match edge {
        1 => Some((0, 0, 0)),
        2 => Some((1, 999_920_000, 1_000_080_000)),
        11 => Some((10, 1_000_034_000, 1_000_040_000)),
        991 => Some((990, 1_000_036_969, 1_000_037_031)),
        1_001 => Some((1_000, 1_000_036_970, 1_000_037_030)),
        1_511 => Some((1_510, 1_000_036_980, 1_000_037_020)),
        2_001 => Some((1_000, 1_000_036_970, 1_000_037_030)),
        _ => None,
    }
}

fn is_expected(row: (u32, u32, u32), edge: u32) -> bool {
    match expected(edge) {
        Some(other) => row == other,
        None => row.1 <= SECOND_NS && SECOND_NS <= row.2,
    }
}

/// Whether an edge that is told lies no further from the true one than its bound. By the drift alone the
/// bound would be 465 us 9 s behind a vote; by a counter that is learned to 1,031 ns it is 11 us more than
/// that of the vote, which is 15 us.
fn is_exact(edge_us: u32, bound_us: u32, true_us: u32) -> bool {
    bound_us <= 26 && edge_us.wrapping_sub(true_us).wrapping_add(bound_us) <= 2 * bound_us
}

#[test]
fn a_counter_that_is_37_ppm_fast_is_measured_and_learned(rt: HostRuntime) -> Result<(), Fail> {
    let zone = Zone {
        half_hours: 0,
        dst: false,
    };
    let clock = ClockRules {
        reader_rules: ReaderRules {
            lock_after: 1,
            holdover: 100,
        },
        redundancy: Redundancy::Three,
        within: nearest_within(10),
        limits: VoteLimits::usual(),
        drift_us: 50,
        wander_ppb: 1_000,
        delays: NO_DELAYS,
        prefers_frames: false,
    };
    let (Ok(timeline), Ok(generator)) = (
        Timeline::new(rt.alloc(), START, &[]),
        Generator::new(rt.alloc(), zone, &[], Rules::PLAIN),
    ) else {
        return Err(Fail::from("no plant"));
    };
    let Ok(mut keeper) = Timekeeper::<FlowPort>::new(Rules::PLAIN, clock, LeapTable::empty()) else {
        return Err(Fail::from("no timekeeper"));
    };
    for n in 0u32..2_001 {
        let edge_us = BEGIN_US.wrapping_add(n * SECOND_US);
        if let Some(frame) = generator.frame_at(&timeline, u64::from(n))
            && n % 10 == 0
        {
            tell_frame(&mut keeper, frame, edge_us);
        }
        let next_us = edge_us.wrapping_add(SECOND_US);
        let Some(beat) = keeper.tick(next_us.wrapping_add(20_000)) else {
            return Err(Fail::from("no second"));
        };
        assert!(rt; n < 1_000 || is_exact(beat.edge_us, beat.bound_us, next_us));
        assert!(rt; is_expected(row(&keeper), n + 1) && keeper.strays() == 0);
    }
    keeper.restart();
    assert!(rt; keeper.rate().is_none() && keeper.pace().is_none());
    Ok(())
}
