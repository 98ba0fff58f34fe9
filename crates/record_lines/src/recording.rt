//! A recording of lines, heard while its time passes.

ghost use Rattle.std.specs.Prelude.{◌≡◌, ◌≤◌, ◌<◌, ◌+◌, ◌/◌, IsTrue, MatchResult, Some, None, true, false, ℕ, max};
ghost use Rattle.irig_reader.specs.Rules.{IsReaderRules};
ghost use Rattle.record_lines.specs.Channels.{AreAsSteady, level_in};
ghost use Rattle.record_lines.specs.Setups.{IsSetupFault};

use crate::change::{Change, Held};
use crate::channels::Channels;
use crate::pace::LinesTime;
use crate::receiver::Receiver;
use crate::second::RecordedSecond;
use crate::setup::SetupFault;
use crate::told::ToldSecond;
use irig_lines::ClockRules;
use irig_port::Port;
use irig_time::{LeapTable, Rules};
use record_levels::Levels;
use record_pulses::{Edge, Looks, Pulse};
use std::alloc::Global;

/// Nanoseconds after which changes wait no longer: by then a good line has sent a whole frame.
const WAIT_NS: u64 = 2_200_000_000;

/// How long after its end a recording is still ticked, in microseconds.
const BEHIND_US: u64 = 6_000;

/// Microseconds from the rise of a frame's last pulse to its end.
const ELEMENT_US: u64 = 10_000;

/// A recording of up to five lines. It is told levels, and tells the seconds that they show.
///
/// What lines say waits until each line has shown its polarity by a frame, for 2.2 s at most: a frame
/// that was told later than the others would be of another second. The time of the lines is then
/// measured by all their pulses, since a recorder's clock may be off.
#[derive(Drop)]
pub struct Recording<P: Port> {
    pub(crate) receiver: Receiver<P>,
    pub(crate) lines: u8,
    pub(crate) channels: Channels,
    pub(crate) held: Held,
    pub(crate) time: LinesTime,
    pub(crate) first_ns: Option<u64>,
    pub(crate) now_ns: u64,
    pub(crate) end_us: Option<u64>,
    pub(crate) is_played: bool,
    ghost few: { lines ≤ 5 },
}

impl<P: Port> Recording<P> {
    ghost use Rattle.record_lines.specs.Helds.{HoldsMore, has_room, room};
    ghost use Rattle.record_lines.specs.Paces.{lines_at};
    ghost use Rattle.record_lines.specs.Passing.{HearsOn, IsTickedLater, TicksUntil};
    ghost use Rattle.record_lines.specs.Recordings.{IsEndedOn, IsLater, IsNewRecording, IsPlayedOn, IsShownAs, IsToldLevel, IsToldOn, PlaysOn, PlaysUpTo};

    /// A recording of which nothing was told, where a level lasts for so many nanoseconds or is a glitch;
    /// with reader's rules that are [`in_range`](irig_reader::in_range). Or the first fault of its setup,
    /// by [`clock_fault`](irig_lines::clock_fault); or there was no memory for the changes that wait.
    pub fn new(
        alloc: Global,
        rules: Rules,
        clock: ClockRules,
        table: LeapTable,
        glitch_ns: u64,
    ) -> Result<Self, SetupFault>
        requires { IsReaderRules clock.reader_rules }
        ensures { MatchResult result
            (λ recording. IsNewRecording recording (record {
              rules = rules;
              clock = clock;
              table = table;
            }) glitch_ns)
            (λ fault. IsSetupFault clock fault) }
    {
        let receiver = Receiver::new(rules, clock, table, 0)?;
        Ok(Recording {
            receiver,
            lines: clock.redundancy.ports(),
            channels: Channels::new(glitch_ns),
            held: Held::new(alloc)?,
            time: LinesTime::new(),
            first_ns: None,
            now_ns: 0,
            end_us: None,
            is_played: false,
        })
    }

    /// What the recording says from a time on. What lies before the levels told last is left out, and so
    /// is what finds no room, as [`next`](Self::next) was not called until it answered `None`.
    pub fn levels(&mut self, levels: Levels)
        ensures told { IsToldOn self.old self.new levels }
        ensures end { self.new.end_us ≡ self.old.end_us }
        ensures time { self.new.now_ns ≡ max self.old.now_ns levels.time_ns }
    {
        if levels.time_ns < self.now_ns {
            return;
        }
        self.now_ns = levels.time_ns;
        self.first_ns = Some(self.first_ns.unwrap_or(levels.time_ns));
        for line in 0..self.lines {
            self.change(line, level_in(levels, line));
        }
    }

    // A line's next level.
    fn change(&mut self, line: u8, level: Edge)
        requires { line < 5 }
        ensures told { IsToldLevel self.old self.new line level }
        ensures room { room self.old.held ≤ room self.new.held + 2 }
        ensures lines { self.new.lines ≡ self.old.lines }
        ensures time { self.new.now_ns ≡ self.old.now_ns }
        ensures end { self.new.end_us ≡ self.old.end_us }
    {
        let ripe = self.channels.ripen(line, level.time_ns);
        self.hold(line, ripe);
        let lasting = self.channels.change(line, level);
        self.hold(line, lasting);
    }

    fn hold(&mut self, line: u8, edge: Option<Edge>)
        requires { line < 5 }
        ensures holds { HoldsMore self.old.held self.new.held line edge }
        ensures lines { self.new.lines ≡ self.old.lines }
        ensures channels { self.new.channels ≡ self.old.channels }
        ensures receiver { self.new.receiver ≡ self.old.receiver }
        ensures time { self.new.now_ns ≡ self.old.now_ns }
        ensures end { self.new.end_us ≡ self.old.end_us }
    {
        if let Some(edge) = edge {
            self.held.push(Change::of(line, edge));
        }
    }

    /// The recording ends at a time.
    pub fn end(&mut self, time_ns: u64)
        ensures ended { IsEndedOn self.old self.new }
        ensures end { self.new.end_us ≡ Some (time_ns / 1000) }
    {
        for line in 0..self.lines {
            let last = self.channels.let_out(line);
            self.hold(line, last);
        }
        self.end_us = Some(time_ns / 1_000);
    }

    /// The next second that the recording shows by what was told of it; `None` until more is told. It is
    /// to be called until then, after each levels and after the end.
    pub fn next(&mut self) -> Option<RecordedSecond>
        ensures played { IsPlayedOn self.old self.new result }
        ensures later { IsLater self.old self.new result }
        ensures time { self.new.now_ns ≡ self.old.now_ns }
        ensures end { self.new.end_us ≡ self.old.end_us }
        ensures lines { self.new.lines ≡ self.old.lines }
        ensures room { result ≡ None → IsTrue (has_room self.new.held) }
    {
        match self.next_told() {
            Some(told) => Some(self.second(&told)),
            None => None,
        }
    }

    fn next_told(&mut self) -> Option<ToldSecond>
        ensures later { IsTickedLater self.old.receiver self.new.receiver result }
        ensures steady { AreAsSteady self.old.channels self.new.channels }
        ensures time { self.new.now_ns ≡ self.old.now_ns }
        ensures end { self.new.end_us ≡ self.old.end_us }
        ensures lines { self.new.lines ≡ self.old.lines }
        ensures plays { PlaysUpTo self.old self.new result }
        ensures room { result ≡ None → IsTrue (has_room self.new.held) }
    {
        if !self.is_begun() {
            return None;
        }
        let told = self.play_held();
        if told.is_some() {
            return told;
        }
        self.pass_to_end()
    }

    // Plays the changes that wait, up to one before which a tick tells a second.
    fn play_held(&mut self) -> Option<ToldSecond>
        ensures later { IsTickedLater self.old.receiver self.new.receiver result }
        ensures steady { AreAsSteady self.old.channels self.new.channels }
        ensures time { self.new.now_ns ≡ self.old.now_ns }
        ensures end { self.new.end_us ≡ self.old.end_us }
        ensures lines { self.new.lines ≡ self.old.lines }
        ensures plays { PlaysUpTo self.old self.new result }
        ensures room { result ≡ None → IsTrue (has_room self.new.held) }
    {
        for at in self.held.played..self.held.changes.len() {
            let change = self.held.changes[at];
            let told = self.receiver.pass_to(self.time.at(change.time_ns / 1_000));
            if told.is_some() {
                self.held.played = at;
                return told;
            }
            self.play(change);
        }
        self.held.clear();
        None
    }

    // Time passes to the end, if that was told.
    fn pass_to_end(&mut self) -> Option<ToldSecond>
        ensures later { IsTickedLater self.old.receiver self.new.receiver result }
        ensures time { self.new.now_ns ≡ self.old.now_ns }
        ensures end { self.new.end_us ≡ self.old.end_us }
        ensures lines { self.new.lines ≡ self.old.lines }
        ensures ticks { TicksUntil self.old.receiver self.new.receiver result }
        ensures channels { self.new.channels ≡ self.old.channels }
        ensures held { self.new.held ≡ self.old.held }
    {
        let end_us = self.time.at(self.end_us?) + BEHIND_US;
        self.receiver.pass_to(end_us)
    }

    // Whether changes are played: from here on, if they wait no longer.
    fn is_begun(&mut self) -> bool
        ensures time { self.new.now_ns ≡ self.old.now_ns }
        ensures end { self.new.end_us ≡ self.old.end_us }
        ensures lines { self.new.lines ≡ self.old.lines }
        ensures receiver { self.new.receiver ≡ self.old.receiver }
        ensures channels { self.new.channels ≡ self.old.channels }
        ensures held { self.new.held ≡ self.old.held }
        ensures waits { result ≡ false → IsTrue (has_room self.new.held) }
    {
        if self.is_played {
            return true;
        }
        if self.waits() {
            return false;
        }
        self.is_played = true;
        self.follow(0);
        true
    }

    // Whether it may still be shown which polarity a line has.
    fn waits(&self) -> bool
        ensures { result ≡ true → IsTrue (has_room self.now.held) }
    {
        self.end_us.is_none()
            && self.held.has_room()
            && self.passed_ns() < WAIT_NS
            && self.channels.lack_polarity(self.lines)
    }

    // Since the first levels.
    fn passed_ns(&self) -> u64 {
        self.now_ns
            .saturating_sub(self.first_ns.unwrap_or(self.now_ns))
    }

    // A change is played: the pulse that ends with it is told.
    fn play(&mut self, change: Change)
        ensures ticked { self.new.receiver.ticked_us ≡ self.old.receiver.ticked_us }
        ensures steady { AreAsSteady self.old.channels self.new.channels }
        ensures time { self.new.now_ns ≡ self.old.now_ns }
        ensures end { self.new.end_us ≡ self.old.end_us }
        ensures lines { self.new.lines ≡ self.old.lines }
        ensures held { self.new.held ≡ self.old.held }
        ensures played { (place : ℕ) → PlaysOn self.old self.new change place }
    {
        let Some(pulse) = self.channels.play(change.line, change.edge()) else {
            return;
        };
        if self.tell(change.line, pulse) == 100 {
            let end_us = pulse.rise_us.saturating_add(ELEMENT_US);
            self.channels.ends_at(change.line, end_us);
            self.follow(pulse.rise_us);
        }
    }

    // A pulse of a line is told: its place in its frame.
    fn tell(&mut self, line: u8, pulse: Pulse) -> u8
        ensures ticked { self.new.receiver.ticked_us ≡ self.old.receiver.ticked_us }
        ensures time { self.new.now_ns ≡ self.old.now_ns }
        ensures end { self.new.end_us ≡ self.old.end_us }
        ensures lines { self.new.lines ≡ self.old.lines }
        ensures hears { HearsOn self.old.receiver self.new.receiver line
            (lines_at self.old.time pulse.rise_us) pulse.width_us result }
        ensures channels { self.new.channels ≡ self.old.channels }
        ensures held { self.new.held ≡ self.old.held }
    {
        let rise_us = self.time.at(pulse.rise_us);
        self.receiver.hear(line, rise_us, pulse.width_us)
    }

    // From a time on a second is as long as that of the line in the middle.
    fn follow(&mut self, time_us: u64)
        ensures time { self.new.now_ns ≡ self.old.now_ns }
        ensures end { self.new.end_us ≡ self.old.end_us }
        ensures lines { self.new.lines ≡ self.old.lines }
        ensures receiver { self.new.receiver ≡ self.old.receiver }
        ensures channels { self.new.channels ≡ self.old.channels }
        ensures held { self.new.held ≡ self.old.held }
    {
        if let Some(second_us) = self.channels.second_us() {
            self.time.follow(time_us, second_us);
        }
    }

    fn second(&self, told: &ToldSecond) -> RecordedSecond
        ensures { IsShownAs result told.now }
    {
        RecordedSecond {
            edge_us: self.time.back(told.edge_us),
            lines_us: told.edge_us,
            beat: told.beat,
            vote: told.vote,
            ends_us: self.channels.ends_us(),
        }
    }

    /// What is on a line, 0 to 4, as far as it was told.
    pub fn line(&self, line: u8) -> &Looks
        requires { line < 5 }
    {
        self.channels.line(line)
    }
}

// What levels say of a line.
fn level_in(levels: Levels, line: u8) -> Edge
    requires { line < 5 }
    ensures { result ≡ level_in levels line }
{
    Edge {
        time_ns: levels.time_ns,
        is_high: (levels.high >> line) % 2 == 1,
    }
}
