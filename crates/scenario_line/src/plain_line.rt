//! A short way for lines that are written plainly: their tokens go straight into a command, and no
//! tree of values is made. Any other line is none of its.

ghost use Rattle.std.specs.Prelude.{◌≡◌, ◌≤◌, ℕ, List, codes, IfSome, IsUtf8, Ok, length};
ghost use Rattle.scenario_json.specs.Keys.{texts_of};
ghost use Rattle.scenario_line.specs.EventLine.{command_in_line};
ghost use Rattle.scenario_line.specs.PlainLine.{Gives, command_of_tokens, do_and};

use crate::event_line::Command;
use crate::plain_tokens::{
    generator_in, is_end, kind_in, natural_in, raw_head_in, reader_in, word_in,
};
use crate::widths::{MOST, widths_in};
use indexmap::IndexSet;
use irig_gen::GenFault;
use irig_plant::{Event, Widths};
use json::{Reader, Scratch};
use scenario_values::{AT, EDGE, N, Q, WIDTH};
use std::alloc::{AllocError, Global};

// How many bytes a line has at most that is read here, so that little memory is kept.
const LONGEST: usize = 16_384;

/// Reads plain lines, one after another.
#[derive(Drop)]
pub struct PlainReader {
    scratch: Scratch,
    widths: [u32; MOST],
}

impl PlainReader {
    /// A reader of such lines. `Err` if there is no memory.
    #[inline(never)]
    pub fn new(alloc: Global) -> Result<Box<PlainReader>, AllocError> {
        let reader = PlainReader {
            scratch: Scratch::new(alloc),
            widths: [0; MOST],
        };
        Ok(Box::new(alloc, reader)?)
    }

    /// What a plain line asks for, by the names of the plant's readers in order, at most 16. None
    /// of any other line, whatever it says, and none if there is no memory.
    #[inline(never)]
    pub fn command_of_line(
        &mut self,
        alloc: Global,
        names: &IndexSet<String>,
        line: &[u8],
    ) -> Option<Command>
        requires { length names.now.keys ≤ 16 }
        ensures { IfSome result (λ command.
            command_in_line (texts_of names.now.keys) line.now ≡ Ok command) }
    {
        if line.len() > LONGEST {
            return None;
        }
        let text = text_in(line)?;
        let mut reader = Reader::new(text, &mut self.scratch).ok()?;
        let word = word_in(&mut reader)?;
        if word == "raw" {
            return Some(raw_in(alloc, names, reader, &mut self.widths)?);
        }
        let command = command_in(&mut reader, names, word)?;
        if is_end(reader) { Some(command) } else { None }
    }
}

fn text_in(line: &[u8]) -> Option<&str>
    ensures { IfSome result (λ text. (text.now ≡ line.now) × IsUtf8 line.now) }
{
    simdutf8::compat::from_utf8(line).ok()
}

// What a line of this word asks for, if it ends there.
fn command_in(reader: &mut Reader<'_>, names: &IndexSet<String>, word: &str) -> Option<Command>
    requires { length names.now.keys ≤ 16 }
    ensures { IfSome result (λ command.
        Gives (texts_of names.now.keys) word.now reader.old reader.new command) }
{
    match word {
        "carry" => carry_in(reader, names),
        "damage" => damage_in(reader, names),
        "replay" => replay_in(reader, names),
        "fault" => fault_in(reader),
        "tick" => Some(Command::Event(Event::Tick(reader_in(reader, names)?))),
        "step" => Some(Command::Event(Event::GenEdge(generator_in(reader)?))),
        "repair" => Some(Command::Event(Event::Repair(generator_in(reader)?))),
        "restart" => Some(Command::Event(Event::Restart(reader_in(reader, names)?))),
        "seconds" => Some(Command::Seconds(natural_in(reader, N)?)),
        _ => None,
    }
}

#[tactic(auto, using(crate::proofs::PlainLaws::carry_is))]
fn carry_in(reader: &mut Reader<'_>, names: &IndexSet<String>) -> Option<Command>
    requires { length names.now.keys ≤ 16 }
    ensures { IfSome result (λ command.
        Gives (texts_of names.now.keys) (codes "carry") reader.old reader.new command) }
{
    let g = generator_in(reader)?;
    let r = reader_in(reader, names)?;
    Some(Command::Event(Event::Carry { g, r }))
}

#[tactic(auto, using(crate::proofs::PlainLaws::damage_is))]
fn damage_in(reader: &mut Reader<'_>, names: &IndexSet<String>) -> Option<Command>
    requires { length names.now.keys ≤ 16 }
    ensures { IfSome result (λ command.
        Gives (texts_of names.now.keys) (codes "damage") reader.old reader.new command) }
{
    let g = generator_in(reader)?;
    let r = reader_in(reader, names)?;
    let at = natural_in(reader, AT)? as u8;
    let width = natural_in(reader, WIDTH)?;
    Some(Command::Event(Event::Damage { g, r, at, width }))
}

#[tactic(auto, using(crate::proofs::PlainLaws::replay_is))]
fn replay_in(reader: &mut Reader<'_>, names: &IndexSet<String>) -> Option<Command>
    requires { length names.now.keys ≤ 16 }
    ensures { IfSome result (λ command.
        Gives (texts_of names.now.keys) (codes "replay") reader.old reader.new command) }
{
    let g = generator_in(reader)?;
    let r = reader_in(reader, names)?;
    let edge = u64::from(natural_in(reader, EDGE)?);
    Some(Command::Event(Event::Replay { g, r, edge }))
}

// Of a fault that takes nothing more, or a natural number.
fn fault_in(reader: &mut Reader<'_>) -> Option<Command>
    ensures { (names : List (List ℕ)) → IfSome result (λ command.
        Gives names (codes "fault") reader.old reader.new command) }
{
    let g = generator_in(reader)?;
    let kind = match kind_in(reader)? {
        "silent" => GenFault::Silent,
        "stuck" => GenFault::Stuck,
        "no_pending" => GenFault::NoPending,
        "quality" => GenFault::Quality(natural_in(reader, Q)? as u8),
        _ => return None,
    };
    Some(Command::Event(Event::Fault { g, kind }))
}

// What a line of raw widths asks for.
#[inline(never)]
fn raw_in(
    alloc: Global,
    names: &IndexSet<String>,
    reader: Reader<'_>,
    widths: &mut [u32; MOST],
) -> Option<Command>
    requires { length names.now.keys ≤ 16 }
    ensures { IfSome result (λ command. command_of_tokens
        (texts_of names.now.keys) (do_and (codes "raw") reader.entry) ≡ Ok command) }
{
    let (g, r, list) = raw_head_in(names, reader)?;
    let (count, rest) = widths_in(list, widths)?;
    if !is_end(rest) {
        return None;
    }
    let widths = Widths::of(alloc, &widths[..count]).ok()?;
    Some(Command::Event(Event::Raw { g, r, widths }))
}
