//! The lines of a recording.

ghost use Rattle.std.specs.Prelude.{◌≡◌, ◌<◌, None, Some, ℕ, List, length};
ghost use Rattle.record_pulses.specs.Looks.{polarity_of};
ghost use Rattle.record_lines.specs.RecordedLines.{pulse_by};

use crate::channel::Channel;
use arrayvec::ArrayVec;
use record_pulses::{Edge, Looks, Pulse};

/// The lines of a recording; those that it has not have no changes.
#[derive(Drop)]
pub(crate) struct Channels {
    pub(crate) all: [Channel; 5],
    ghost five: { length all ≡ 5 },
}

impl Channels {
    ghost use Rattle.record_lines.specs.Channels.{AreAsSteady, AreChannelsOf, AreChannelsTo, LineEnds, LineIsTold, LineRipens, and_played, no_edges};

    /// Lines of which nothing came, where a level lasts for so many nanoseconds or is a glitch.
    pub(crate) fn new(glitch_ns: u64) -> Channels
        ensures { AreChannelsTo result glitch_ns (Some 0) no_edges no_edges no_edges }
    {
        Channels {
            all: [
                Channel::new(glitch_ns),
                Channel::new(glitch_ns),
                Channel::new(glitch_ns),
                Channel::new(glitch_ns),
                Channel::new(glitch_ns),
            ],
        }
    }

    /// The change of a line that waits, if its level has lasted long enough by a time.
    pub(crate) fn ripen(&mut self, line: u8, now_ns: u64) -> Option<Edge>
        requires { line < 5 }
        ensures { LineRipens self.old self.new line now_ns result }
    {
        self.all[line as usize].ripen(now_ns)
    }

    /// The change of a line that waits.
    pub(crate) fn let_out(&mut self, line: u8) -> Option<Edge>
        requires { line < 5 }
        ensures { LineEnds self.old self.new line result }
    {
        self.all[line as usize].let_out()
    }

    /// The next level of a line: the change before it, if its level has lasted long enough.
    pub(crate) fn change(&mut self, line: u8, level: Edge) -> Option<Edge>
        requires { line < 5 }
        ensures { LineIsTold self.old self.new line level result }
    {
        self.all[line as usize].change(level)
    }

    /// The next change of a line is played: the pulse that ends with it by the line's polarity, if that is
    /// known.
    pub(crate) fn play(&mut self, line: u8, edge: Edge) -> Option<Pulse>
        requires { line < 5 }
        ensures pulse { (seen played : ℕ → List Edge) → AreChannelsOf self.old seen played
            → result ≡ pulse_by (polarity_of None (seen line)) edge (played line) }
        ensures new { (seen played : ℕ → List Edge) → AreChannelsOf self.old seen played
            → AreChannelsOf self.new seen (and_played line edge played) }
        ensures steady { AreAsSteady self.old self.new }
    {
        self.all[line as usize].play(edge)
    }

    /// A whole frame of a line ends then.
    pub(crate) fn ends_at(&mut self, line: u8, end_us: u64)
        requires { line < 5 }
        ensures steady { AreAsSteady self.old self.new }
        ensures new { (seen played : ℕ → List Edge) → AreChannelsOf self.old seen played
            → AreChannelsOf self.new seen played }
    {
        self.all[line as usize].ends_at(end_us);
    }

    /// Whether the polarity is not known of one of so many lines.
    pub(crate) fn lack_polarity(&self, lines: u8) -> bool
        requires { lines < 6 }
    {
        for line in 0..lines {
            if self.all[line as usize].line.polarity().is_none() {
                return true;
            }
        }
        false
    }

    /// How long a second of the line in the middle is, in microseconds, of those that have sent a frame;
    /// of an even number of them the shorter one.
    pub(crate) fn second_us(&self) -> Option<u64> {
        let mut seconds: ArrayVec<u64, 5> = ArrayVec::new();
        for channel in &self.all {
            if let Some(second_us) = channel.second_us() {
                let _ = seconds.try_push(second_us);
            }
        }
        seconds.sort_unstable();
        let count = seconds.len();
        seconds.get(count.saturating_sub(1) / 2).copied()
    }

    /// When the last whole frame of each line ended, in microseconds.
    pub(crate) fn ends_us(&self) -> [Option<u64>; 5] {
        [
            self.all[0].end_us,
            self.all[1].end_us,
            self.all[2].end_us,
            self.all[3].end_us,
            self.all[4].end_us,
        ]
    }

    /// What is on a line.
    pub(crate) fn line(&self, line: u8) -> &Looks
        requires { line < 5 }
    {
        &self.all[line as usize].line.looks
    }
}
