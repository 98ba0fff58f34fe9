//! How far off the seconds lay that devices announced.

ghost use Rattle.std.specs.Prelude.{◌≡◌, [], ◌∷◌, ℕ, List, IfOk};
ghost use Rattle.irig_station.specs.declared.entry.Entry.{Entry as EntryOf};
ghost use Rattle.irig_station.specs.ValidEntries.{IsOfDevice};
ghost use Rattle.report_blame.specs.Reaches.{AreReaches, greater, lesser, off_of, reach_after, reach_at, reach_begun, reach_more};

use irig_simulated::ToldSecond;
use irig_station::Entry;
use std::alloc::{AllocError, Global};

/// How far the edge that a device told lies from the true one, by its counter: one of both is 0.
#[derive(Clone, Copy)]
pub(crate) struct Off {
    /// How many microseconds it lies before the true edge.
    pub(crate) before_us: u64,
    /// How many microseconds it lies behind that.
    pub(crate) behind_us: u64,
}

impl Off {
    fn of(told: &ToldSecond) -> Off
        ensures { result ≡ off_of told.now }
    {
        Off {
            before_us: told.edge_count.saturating_sub(told.told_count),
            behind_us: told.told_count.saturating_sub(told.edge_count),
        }
    }

    // The one that lies further before, or less behind.
    fn lesser(self, other: Off) -> Off
        ensures { result ≡ lesser self other }
    {
        Off {
            before_us: self.before_us.max(other.before_us),
            behind_us: self.behind_us.min(other.behind_us),
        }
    }

    fn greater(self, other: Off) -> Off
        ensures { result ≡ greater self other }
    {
        Off {
            before_us: self.before_us.min(other.before_us),
            behind_us: self.behind_us.max(other.behind_us),
        }
    }
}

/// How far off the seconds lay that a device announced.
#[derive(Clone, Copy)]
pub(crate) struct Reach {
    /// The least distance.
    pub(crate) least: Off,
    /// The greatest one.
    pub(crate) greatest: Off,
    /// The greatest bound, in microseconds.
    pub(crate) bound_us: u32,
}

impl Reach {
    fn begun(told: &ToldSecond) -> Reach
        ensures { result ≡ reach_begun told.now }
    {
        let off = Off::of(told);
        Reach {
            least: off,
            greatest: off,
            bound_us: told.beat.bound_us,
        }
    }

    fn more(&self, told: &ToldSecond) -> Reach
        ensures { result ≡ reach_more self.now told.now }
    {
        let off = Off::of(told);
        Reach {
            least: self.least.lesser(off),
            greatest: self.greatest.greater(off),
            bound_us: self.bound_us.max(told.beat.bound_us),
        }
    }
}

fn reach_after(reach: Option<Reach>, told: &ToldSecond) -> Option<Reach>
    ensures { result ≡ reach_after reach told.now }
{
    match reach {
        Some(reach) => Some(reach.more(told)),
        None => Some(Reach::begun(told)),
    }
}

/// How far off the seconds of each device lay; none of one that announced nothing.
#[derive(Drop)]
pub(crate) struct Reaches {
    each: Vec<Option<Reach>>,
}

impl Reaches {
    /// That of so many devices that told nothing.
    pub(crate) fn new(alloc: Global, devices: usize) -> Result<Reaches, AllocError>
        ensures { IfOk result (λ reaches. AreReaches reaches devices []) }
    {
        let each = vec![in alloc; None; devices]?;
        Ok(Reaches { each })
    }

    /// Takes what a device told, if it announced it.
    pub(crate) fn take(&mut self, entry: &Entry)
        ensures { (devices : ℕ) (before : List EntryOf) → IsOfDevice devices entry.now
            → AreReaches self.old devices before
            → AreReaches self.new devices (entry.now ∷ before) }
    {
        let Entry::Told { device, told } = entry else {
            return;
        };
        if told.beat.report.announce.is_none() {
            return;
        }
        let device = *device as usize;
        if device < self.each.len() {
            let reach = self.each[device];
            self.each[device] = reach_after(reach, told);
        }
    }

    /// Each, in the order of devices.
    pub(crate) fn all(&self) -> &[Option<Reach>]
        ensures { result.now ≡ self.now.each.items }
    {
        self.each.as_slice()
    }
}

/// That of a device; none if it announced nothing, or is none of them.
pub(crate) fn reach_at(reaches: &[Option<Reach>], device: u8) -> Option<Reach>
    ensures { result ≡ reach_at reaches.now device }
{
    match reaches.get(usize::from(device)) {
        Some(reach) => *reach,
        None => None,
    }
}
