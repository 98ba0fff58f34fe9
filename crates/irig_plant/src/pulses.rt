//! Pulses on their way to a port.

ghost use Rattle.std.specs.Prelude.{◌≡◌, ◌<◌, [], length, map, unwrap_or, vec_len, IfSome, None, Some, true, false};
ghost use Rattle.irig_frame.specs.Symbols.{width_of};
ghost use Rattle.irig_time.specs.declared.rules.Rules.{Rules};
ghost use Rattle.irig_port.specs.Heard.{symbols_heard};
ghost use Rattle.irig_plant.specs.Widths.{with_damage};

use crate::event::Event;
use crate::plant::Plant;
use irig_frame::Symbol;
use irig_port::Port;

impl<P: Port> Plant<P> {
    ghost use Rattle.irig_plant.specs.Refusals.{refusal};
    ghost use Rattle.irig_plant.specs.Schedule.{delivery, delivery_of, frame_brought, pulses_sent, pulses_sent_at};
    ghost use Rattle.irig_plant.specs.History.{PlantHistory, with_event, HasPlantHistory, ForHistory, Follows, Keeps};

    /// The widths in microseconds of the pulses of the frame that a carry, a damage or a replay
    /// brings if it comes now. `None` if no pulse comes, if there is no such generator, and for any
    /// other event.
    pub fn frame_brought(&self, event: &Event) -> Option<[u32; 100]>
        ensures { ForHistory self.now (λ h. refusal h.setup event.now h.events ≡ None
            → unwrap_or result [] ≡ frame_brought h.setup event.now h.events) }
    {
        match event {
            Event::Carry { g, .. } => self.sent_by(*g),
            Event::Damage { g, at, width, .. } => with_damage(self.sent_by(*g), *at, *width),
            Event::Replay { g, edge, .. } => self.sent_by_at(*g, *edge),
            _ => None,
        }
    }

    fn sent_by(&self, g: u8) -> Option<[u32; 100]>
        ensures { ForHistory self.now (λ h. g < length h.setup.generators
            → unwrap_or result [] ≡ pulses_sent h.setup g h.events) }
    {
        if usize::from(g) < self.generators.len() {
            self.sent(g)
        } else {
            None
        }
    }

    fn sent_by_at(&self, g: u8, edge: u64) -> Option<[u32; 100]>
        ensures { ForHistory self.now (λ h. g < length h.setup.generators
            → unwrap_or result [] ≡ pulses_sent_at h.setup g edge h.events) }
    {
        if usize::from(g) < self.generators.len() {
            self.sent_at(g, edge)
        } else {
            None
        }
    }

    pub(crate) fn sent(&self, g: u8) -> Option<[u32; 100]>
        requires { g < vec_len self.now.generators }
        ensures { ForHistory self.now (λ h.
            unwrap_or result [] ≡ pulses_sent h.setup g h.events) }
    {
        let frame = self.generators[g as usize].frame(&self.timeline)?;
        Some(widths_of(&frame))
    }

    pub(crate) fn sent_at(&self, g: u8, edge: u64) -> Option<[u32; 100]>
        requires { g < vec_len self.now.generators }
        ensures { ForHistory self.now (λ h.
            unwrap_or result [] ≡ pulses_sent_at h.setup g edge h.events) }
    {
        let frame = self.generators[g as usize].frame_at(&self.timeline, edge)?;
        Some(widths_of(&frame))
    }

    pub(crate) fn deliver(&mut self, g: u8, r: u8, widths: &[u32])
        requires generator { g < vec_len self.old.generators }
        requires reader { r < vec_len self.old.readers }
        ensures { (h : PlantHistory) (e : Event) → HasPlantHistory self.old h
            → delivery_of h.setup e h.events ≡ Some (delivery g r widths.now)
            → HasPlantHistory self.new (with_event e h) }
    {
        let ticked_reader = &mut self.readers[r as usize];
        ticked_reader.reader.pulses(g, widths);
    }

    // What a generator sends comes to a port at once, if that is empty, from a port that heard it.
    // The pulses are so taken once, and not by each reader. Answers whether the port was empty.
    #[inline(always)]
    pub(crate) fn carry_cached_port(&mut self, g: u8, r: u8) -> bool
        requires generator { g < vec_len self.old.generators }
        requires reader { r < vec_len self.old.readers }
        ensures carried { result ≡ true → Follows self.old (Event.Carry g r) self.new }
        ensures unchanged { result ≡ false → Keeps self.old self.new }
        ensures generators { vec_len self.new.generators ≡ vec_len self.old.generators }
        ensures readers { vec_len self.new.readers ≡ vec_len self.old.readers }
    {
        self.cache_port(g);
        let Some(cached_port) = &mut self.cached_ports[g as usize] else {
            return false;
        };
        let ticked_reader = &mut self.readers[r as usize];
        ticked_reader.reader.take_over(g, cached_port)
    }

    fn cache_port(&mut self, g: u8)
        requires { g < vec_len self.old.generators }
        ensures same { Keeps self.old self.new }
        ensures generators { vec_len self.new.generators ≡ vec_len self.old.generators }
        ensures readers { vec_len self.new.readers ≡ vec_len self.old.readers }
    {
        if self.cached_ports[g as usize].is_none() {
            let cached_port = match self.first_cached_port(g) {
                Some(cached_port) => cached_port,
                None => self.new_cached_port(g),
            };
            self.cached_ports[g as usize] = Some(cached_port);
        }
    }

    // A copy of the first generator's cached port, if this one sends the same.
    #[inline(never)]
    fn first_cached_port(&mut self, g: u8) -> Option<P>
        requires { g < vec_len self.old.generators }
        ensures same { Keeps self.old self.new }
        ensures cached_port { IfSome result (λ cached_port. ForHistory self.old (λ h.
            P.stands_for cached_port h.setup.rules
            (symbols_heard (pulses_sent h.setup g h.events)))) }
        ensures generators { vec_len self.new.generators ≡ vec_len self.old.generators }
        ensures readers { vec_len self.new.readers ≡ vec_len self.old.readers }
    {
        let generator = &self.generators[g as usize];
        if !self.generators[0].sends_as(generator, &self.timeline) {
            return None;
        }
        let first = self.cached_ports[0].as_mut()?;
        let mut cached_port = P::fresh(self.rules);
        cached_port.take_over(first);
        Some(cached_port)
    }

    // A port that heard what a generator now sends.
    #[inline(never)]
    fn new_cached_port(&self, g: u8) -> P
        requires { g < vec_len self.now.generators }
        ensures { ForHistory self.now (λ h.
            P.stands_for result h.setup.rules (symbols_heard (pulses_sent h.setup g h.events))) }
    {
        let generator = &self.generators[g as usize];
        match generator.value(&self.timeline) {
            Some(coded) => P::with_frame(self.rules, &coded, generator.rules().parity),
            None => P::fresh(self.rules),
        }
    }
}

/// The widths of the pulses of a frame, in microseconds. A port reads the symbols back from them.
pub fn widths_of(frame: &[Symbol; 100]) -> [u32; 100]
    ensures { result ≡ map width_of frame.now }
{
    let mut widths = [0; 100];
    for element in 0..widths.len() {
        widths[element] = frame[element].width_us();
    }
    widths
}

pub(crate) fn with_damage(sent: Option<[u32; 100]>, at: u8, width: u32) -> Option<[u32; 100]>
    ensures { unwrap_or result [] ≡ with_damage at width (unwrap_or sent []) }
{
    let mut widths = sent?;
    let at = usize::from(at);
    if at < widths.len() {
        widths[at] = width;
    }
    Some(widths)
}

pub(crate) fn pulses(sent: &Option<[u32; 100]>) -> &[u32]
    ensures { result.now ≡ unwrap_or sent.now [] }
{
    match sent {
        Some(widths) => widths,
        None => &[],
    }
}
