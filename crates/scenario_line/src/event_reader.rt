//! What reads the lines of events of a plant, one after another.

ghost use Rattle.std.specs.Prelude.{◌≡◌, ◌<◌, ◌≤◌, ℕ, List, All, IfOk, IfSome, Ok, length};
ghost use Rattle.std.specs.Option.{ForSome};
ghost use Rattle.scenario_json.specs.Keys.{texts_of};
ghost use Rattle.text_faults.specs.Refusals.{IsUnlessMemory};
ghost use Rattle.scenario_line.specs.EventLine.{command_in_line};
ghost use Rattle.scenario_line.specs.KnownLines.{IsKnown};

use crate::event_line::{Command, event_of_line};
use crate::plain_line::PlainReader;
use arrayvec::ArrayVec;
use indexmap::IndexSet;
use irig_plant::Event;
use std::alloc::{AllocError, Global};
use text_faults::LineFault;

// How many lines are known at a time, and the longest of them in bytes.
const PLACES: usize = 512;

const LONGEST: usize = 64;

// Odd, so that no line is lost in the product, whose upper bits depend on all bytes of a line.
const MIXER: u64 = 0x9E37_79B9_7F4A_7C15;

const SHIFT: u32 = 55;

/// A line that was read, and what it asks for.
#[derive(Drop)]
pub struct KnownLine {
    line: ArrayVec<u8, LONGEST>,
    command: Command,
}

/// Reads lines after the plant line. It knows some short ones that came before, as those of steps
/// and ticks come again and again, and reads these no second time. Others that are written plainly
/// it reads without a tree of their values.
#[derive(Drop)]
pub struct EventReader {
    names: IndexSet<String>,
    known: Vec<Option<KnownLine>>,
    plain: Box<PlainReader>,
    ghost few: { length names.keys ≤ 16 },
    ghost right: { All (λ line. ForSome line (IsKnown (texts_of names.keys))) known.items },
}

impl EventReader {
    /// A reader of lines for a plant whose readers have these names, in order. `Err` if there is no
    /// memory.
    pub fn new(alloc: Global, names: IndexSet<String>) -> Result<EventReader, AllocError>
        requires { length names.keys ≤ 16 }
        ensures { IfOk result (λ reader. reader.names ≡ names) }
    {
        let known = no_lines(alloc)?;
        let plain = PlainReader::new(alloc)?;
        Ok(EventReader {
            names,
            known,
            plain,
        })
    }

    /// The names of the plant's readers, in order.
    pub fn names(&self) -> &IndexSet<String>
        ensures names { result.now ≡ self.now.names }
        ensures few { length result.now.keys ≤ 16 }
    {
        &self.names
    }

    /// These names, by themselves.
    pub fn into_names(self) -> IndexSet<String>
        ensures { result ≡ self.names }
    {
        self.names
    }

    /// What a line asks for, as [`event_of_line`] says it.
    pub fn event_of_line(&mut self, alloc: Global, line: &[u8]) -> Result<Command, LineFault>
        ensures said { IsUnlessMemory (λ x. x)
            (command_in_line (texts_of self.old.names.keys) line.now) result }
        ensures names { self.new.names ≡ self.old.names }
    {
        if let Some(command) = self.known(line) {
            return Ok(command);
        }
        let command = match self.plain.command_of_line(alloc, &self.names, line) {
            Some(command) => command,
            None => event_of_line(alloc, &self.names, line)?,
        };
        self.keep(line, &command);
        Ok(command)
    }

    fn known(&self, line: &[u8]) -> Option<Command>
        ensures { IfSome result (λ command.
            command_in_line (texts_of self.now.names.keys) line.now ≡ Ok command) }
    {
        if line.len() > LONGEST {
            return None;
        }
        match self.known.get(place_of(line)) {
            Some(Some(known)) if known.line.as_slice() == line => copy_of(&known.command),
            _ => None,
        }
    }

    fn keep(&mut self, line: &[u8], command: &Command)
        requires { command_in_line (texts_of self.old.names.keys) line.now ≡ Ok command.now }
        ensures { self.new.names ≡ self.old.names }
    {
        let Some(command) = copy_of(command) else {
            return;
        };
        let mut text = ArrayVec::new();
        if text.try_extend_from_slice(line).is_err() {
            return;
        }
        let place = place_of(line);
        if place < self.known.len() {
            self.known[place] = Some(KnownLine {
                line: text,
                command,
            });
        }
    }
}

fn no_lines(alloc: Global) -> Result<Vec<Option<KnownLine>>, AllocError>
    ensures { (names : List (List ℕ)) → IfOk result
        (λ known. All (λ line. ForSome line (IsKnown names)) known.items) }
{
    let mut known = Vec::with_capacity(alloc, PLACES)?;
    for _ in 0..PLACES {
        known.push(None)?;
    }
    Ok(known)
}

// Where a line is kept if it is known: of lines that differ mostly another place.
fn place_of(line: &[u8]) -> usize
    ensures { result < 512 }
{
    let mut mix = 0;
    for part in line.chunks_exact(8) {
        mix = mixed(mix, part);
    }
    let last = &line[line.len().saturating_sub(8)..];
    (mixed(mix, last) >> SHIFT) as usize % PLACES
}

fn mixed(mix: u64, part: &[u8]) -> u64 {
    match part {
        [a, b, c, d, e, f, g, h] => {
            let word = u64::from_le_bytes([*a, *b, *c, *d, *e, *f, *g, *h]);
            (mix ^ word).wrapping_mul(MIXER)
        }
        _ => mix,
    }
}

// Of a command that comes often and takes no memory.
fn copy_of(command: &Command) -> Option<Command>
    ensures { IfSome result (λ copy. copy ≡ command.now) }
{
    match command {
        Command::Seconds(count) => Some(Command::Seconds(*count)),
        Command::Event(Event::GenEdge(g)) => Some(Command::Event(Event::GenEdge(*g))),
        Command::Event(Event::Tick(r)) => Some(Command::Event(Event::Tick(*r))),
        Command::Event(Event::Repair(g)) => Some(Command::Event(Event::Repair(*g))),
        Command::Event(Event::Restart(r)) => Some(Command::Event(Event::Restart(*r))),
        Command::Event(Event::Carry { g, r }) => {
            Some(Command::Event(Event::Carry { g: *g, r: *r }))
        }
        _ => None,
    }
}
