//! The lines of a recording as they are heard, and what is said of them.

ghost use Rattle.std.specs.Prelude.{◌≡◌};
ghost use Rattle.irig_reader.specs.Rules.{IsReaderRules};

use crate::asked::Asked;
use crate::channels::redundancy_of;
use irig_lines::{ClockRules, NO_DELAYS, nearest_limits, nearest_within};
use irig_port::{FlowPort, Limits};
use irig_reader::ReaderRules;
use irig_time::LeapTable;
use irig_vote::Redundancy;
use record_levels::Levels;
use record_lines::Recording;
use record_verdict::{Verdict, Zero, zero_by};
use report_verdict::{LineSeen, push_json, push_verdict};
use std::alloc::{AllocError, Global};

/// What a recording comes to.
#[derive(Drop)]
pub struct Judged {
    /// The verdict, in lines.
    pub text: String,
    /// Whether most lines agree on any second.
    pub is_decided: bool,
}

/// Lines that are heard.
#[derive(Drop)]
pub(crate) struct Hearing {
    recording: Recording<FlowPort>,
    verdict: Verdict,
    as_json: bool,
}

impl Hearing {
    ghost use Rattle.std.specs.Prelude.{[], IfOk, IsTrue, List, None, Some, is_some, string_bytes, ℕ};
    ghost use Rattle.record_levels.specs.declared.levels.Levels.{Levels as LevelsOf};
    ghost use Rattle.record_lines.specs.declared.second.RecordedSecond.{RecordedSecond as SecondOf};
    ghost use Rattle.record_lines.specs.Helds.{has_room};
    ghost use Rattle.record_verdict.specs.Verdicts.{IsVerdictOf, first_agreed};
    ghost use Rattle.record_verdict.specs.Zeros.{zero_of};
    ghost use Rattle.report_verdict.specs.declared.line_seen.LineSeen.{LineSeen as LineSeenOf};
    ghost use Rattle.report_judge.specs.Hearings.{EndsOn, HasHeard, HearsOn, IsVerdictText, TakesOn};

    /// So many lines, of which nothing was heard. It fails only if there is no memory: one, three or five
    /// lines have such a timekeeper.
    #[inline(never)]
    pub(crate) fn new(alloc: Global, lines: usize, asked: &Asked<'_>) -> Result<Hearing, AllocError>
        ensures { IfOk result (HasHeard asked.now lines []) }
    {
        let Some(redundancy) = redundancy_of(lines) else {
            return Err(AllocError);
        };
        let glitch_ns = u64::from(asked.glitch_us) * 1_000;
        let rules = clock_rules(redundancy);
        match Recording::new(alloc, asked.rules, rules, LeapTable::empty(), glitch_ns) {
            Ok(recording) => Ok(Hearing {
                recording,
                verdict: Verdict::new(redundancy.ports()),
                as_json: asked.as_json,
            }),
            Err(_) => Err(AllocError),
        }
    }

    /// Levels are heard, if there are some, and judged up to where they come.
    pub(crate) fn hear(&mut self, levels: Option<Levels>)
        ensures some { (heard : LevelsOf) → levels ≡ Some heard → HearsOn self.old self.new heard }
        ensures none { levels ≡ None → self.new ≡ self.old }
        ensures form { self.new.as_json ≡ self.old.as_json }
    {
        if let Some(levels) = levels {
            self.recording.levels(levels);
            self.take_seconds();
        }
    }

    /// The recording ends.
    pub(crate) fn end(&mut self, time_ns: u64)
        ensures ends { EndsOn self.old self.new }
        ensures form { self.new.as_json ≡ self.old.as_json }
    {
        self.recording.end(time_ns);
        self.take_seconds();
    }

    // What the recording shows now.
    fn take_seconds(&mut self)
        ensures takes { TakesOn self.old self.new }
        ensures time { self.new.recording.now_ns ≡ self.old.recording.now_ns }
        ensures end { self.new.recording.end_us ≡ self.old.recording.end_us }
        ensures room { IsTrue (has_room self.new.recording.held) }
        ensures form { self.new.as_json ≡ self.old.as_json }
    {
        while let Some(second) = self.recording.next() {
            self.verdict.take(&second);
        }
    }

    /// When 0.000 s was, if most lines agree on any second.
    pub(crate) fn zero(&self) -> Option<Zero>
        ensures { result ≡ zero_of self.now.verdict.first }
    {
        zero_by(&self.verdict.first)
    }

    /// The verdict on lines of these names, of which there are five at most. What else is said
    /// stands in front of its lines, or as further keys of its object.
    pub(crate) fn judged(
        &self,
        alloc: Global,
        names: &[Vec<u8>],
        said: &str,
    ) -> Result<Judged, AllocError>
        ensures text { IfOk result (λ judged. (lines : List LineSeenOf)
            × IsVerdictText said.now self.now.as_json self.now.verdict lines
            (string_bytes judged.text)) }
        ensures decided { IfOk result (λ judged. (n : ℕ) (seconds : List SecondOf)
            → IsVerdictOf self.now.verdict n seconds
            → judged.is_decided ≡ is_some (first_agreed seconds)) }
    {
        let lines = self.lines_seen(alloc, names)?;
        let text = self.text(alloc, lines.as_slice(), said)?;
        Ok(Judged {
            text,
            is_decided: self.verdict.is_decided(),
        })
    }

    // What was seen of lines of these names.
    fn lines_seen<'a>(
        &'a self,
        alloc: Global,
        names: &'a [Vec<u8>],
    ) -> Result<Vec<LineSeen<'a>>, AllocError> {
        let mut lines = Vec::new(alloc);
        for line in 0..5u8 {
            let Some(name) = names.get(usize::from(line)) else {
                break;
            };
            let looks = self.recording.line(line);
            lines.push(LineSeen {
                name: name.as_slice(),
                is_inverted: !looks.is_shown_high(),
                seen: looks.view().seen(),
            })?;
        }
        Ok(lines)
    }

    fn text(&self, alloc: Global, lines: &[LineSeen<'_>], said: &str) -> Result<String, AllocError>
        ensures { IfOk result (λ text. IsVerdictText said.now self.now.as_json self.now.verdict
            lines.now (string_bytes text)) }
    {
        let mut text = String::new(alloc);
        if self.as_json {
            push_json(&mut text, &self.verdict, lines, said)?;
        } else {
            text.push_str(said)?;
            push_verdict(&mut text, &self.verdict, lines)?;
        }
        Ok(text)
    }
}

// A device that hears lines as far off as one may have them, and holds over for as long as a month's end
// may be hidden. What frames say of a leap second is all that it knows of one.
fn clock_rules(redundancy: Redundancy) -> ClockRules
    ensures rules { IsReaderRules result.reader_rules }
    ensures redundancy { result.redundancy ≡ redundancy }
{
    ClockRules {
        reader_rules: ReaderRules {
            lock_after: 1,
            holdover: 60,
        },
        redundancy,
        within: nearest_within(450),
        limits: nearest_limits(Limits {
            not_before: 0,
            poor_from: 8,
        }),
        drift_us: 100,
        wander_ppb: 0,
        delays: NO_DELAYS,
        prefers_frames: true,
    }
}
