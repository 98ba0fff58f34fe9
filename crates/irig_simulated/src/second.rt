//! A second as generators send it.

ghost use Rattle.std.specs.Prelude.{◌≡◌, ◌<◌, ℕ, slice_get, suc, true, false};
ghost use Rattle.std.specs.Option.{option_map};
ghost use Rattle.irig_simulated.specs.QuietLines.{IsFound, SendsTrueFrame};
ghost use Rattle.irig_sync.specs.Sync.{is_marker_symbol};
ghost use Rattle.irig_timekeeper.specs.Unfinished.{most};
ghost use Rattle.irig_witness.specs.TrueFrames.{blank_at};
ghost use Rattle.irig_simulated.specs.Seconds.{asked_of, sent_in, symbol_at, true_before, true_in};

use irig_frame::{Symbol, is_marker_place};

/// What a generator sends in a second, and what a true line of it has there.
#[derive(Clone, Copy, Drop)]
pub struct LineSecond {
    /// The frame that it sends, if it sends one.
    pub sent: Option<[Symbol; 100]>,
    /// The frame of a true line.
    pub truth: [Symbol; 100],
}

/// A second as generators send it, by the numbers of their lines.
#[derive(Drop)]
pub struct Second {
    /// The number of the edge at which it begins.
    pub number: u64,
    /// What is sent, and what true lines have.
    pub lines: Vec<LineSecond>,
    /// What true lines had in the second before.
    pub before: Vec<[Symbol; 100]>,
}

impl Second {
    // What the generator of a line sends at a place, 0 to 99.
    pub(crate) fn sent(&self, line: u8, place: u8) -> Option<Symbol>
        requires { place < 100 }
        ensures { result ≡ sent_in self.now line place }
    {
        let line = self.lines.get(usize::from(line))?;
        match &line.sent {
            Some(frame) => Some(frame[usize::from(place)]),
            None => None,
        }
    }

    // Whether the generator of a line sends what a true line has, a frame that a reader finds: it begins
    // with a marker, no two in a row are markers, nor is the one before the last.
    pub(crate) fn sends_true_frame(&self, line: u8) -> bool
        ensures { result ≡ true → SendsTrueFrame self.now line }
    {
        match self.lines.get(usize::from(line)) {
            Some(line) => match &line.sent {
                Some(frame) => is_true_frame(frame, &line.truth),
                None => false,
            },
            None => false,
        }
    }

    // The frame of a true line.
    pub(crate) fn true_frame(&self, line: u8) -> Option<[Symbol; 100]>
        ensures { result ≡ option_map (λ l. l.truth) (slice_get self.now.lines.items line) }
    {
        match self.lines.get(usize::from(line)) {
            Some(line) => Some(line.truth),
            None => None,
        }
    }

    // What is said of an element of a line to the audit of its device: what a true line has there, in
    // this second or the one before.
    pub(crate) fn true_symbol(&self, line: u8, element: u64) -> Symbol
        ensures { result ≡ asked_of self.now line element }
    {
        let place = (element % 100) as u8;
        if element / 100 + 1 == self.number {
            self.truth_before(line, place)
        } else {
            self.truth(line, place)
        }
    }

    // What a true line has there.
    fn truth(&self, line: u8, place: u8) -> Symbol
        requires { place < 100 }
        ensures { result ≡ true_in self.now line place }
    {
        match self.lines.get(usize::from(line)) {
            Some(line) => line.truth[usize::from(place)],
            None => blank_at(place),
        }
    }

    // What it had there in the second before.
    fn truth_before(&self, line: u8, place: u8) -> Symbol
        requires { place < 100 }
        ensures { result ≡ true_before self.now line place }
    {
        match self.before.get(usize::from(line)) {
            Some(frame) => frame[usize::from(place)],
            None => blank_at(place),
        }
    }
}

// What a frame that claims nothing has at a place.
fn blank_at(place: u8) -> Symbol
    ensures { result ≡ blank_at place }
{
    if is_marker_place(usize::from(place)) {
        Symbol::Marker
    } else {
        Symbol::Zero
    }
}

// Whether an element is a marker.
fn is_marker(symbol: Symbol) -> bool
    ensures { result ≡ is_marker_symbol symbol }
{
    matches!(symbol, Symbol::Marker)
}

// Whether a frame is that of a true line, and a reader finds it.
fn is_true_frame(frame: &[Symbol; 100], truth: &[Symbol; 100]) -> bool
    ensures { result ≡ true → IsFound frame.now truth.now }
{
    if !are_same(frame, truth) || !is_marker(truth[0]) || is_marker(truth[98]) {
        return false;
    }
    are_apart(truth)
}

// Whether two frames are the same. All elements are looked at, as that takes fewer instructions than to
// stop at the first that differs.
fn are_same(one: &[Symbol; 100], other: &[Symbol; 100]) -> bool
    ensures { result ≡ true → (place : ℕ) → place < 100
        → symbol_at one.now place ≡ symbol_at other.now place }
{
    let mut differ = false;
    for place in 0..100 {
        differ = differ | (one[place] != other[place]);
    }
    !differ
}

// Whether no two markers stand in a row before the last element.
fn are_apart(frame: &[Symbol; 100]) -> bool
    ensures { result ≡ true → (place : ℕ) → suc place < most
        → is_marker_symbol (symbol_at frame.now place) ≡ true
        → is_marker_symbol (symbol_at frame.now (suc place)) ≡ false }
{
    let mut meet = false;
    for place in 0..98usize {
        meet = meet | (is_marker(frame[place]) & is_marker(frame[place + 1]));
    }
    !meet
}
