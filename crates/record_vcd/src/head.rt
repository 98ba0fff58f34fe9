//! What stands above the changes.

ghost use Rattle.std.specs.Prelude.{◌≡◌, ℕ, List, [], ◌∷◌, ◌++◌, option_map, take, length, IfOk, IsFalse, Some, None, ◌≤◌};
ghost use Rattle.record_vcd.specs.Sections.{has_name, is_over, named, texts_of, wire_value, wires_of};
ghost use Rattle.record_vcd.specs.Dumps.{IsAtTop, LeadsOn};
ghost use Rattle.record_vcd.specs.Heads.{closed, head_end, head_end_by, step, top, value_of};

use crate::section::{Section, Text, keeps, section_of, unit_of, wire_of};
use crate::unit::Unit;
use crate::wire::{Wire, copied};
use record_text::Words;
use std::alloc::{AllocError, Global};

/// How many bytes of a head were taken, and whether it is over.
#[derive(Clone, Copy)]
pub struct HeadTaken {
    /// From the front. All of them, unless the head is over.
    pub count: usize,
    /// Whether `$enddefinitions $end` was read. What follows is for [`crate::Changes`].
    pub is_over: bool,
}

/// The head of a dump, as far as it was read.
#[derive(Drop)]
pub struct Head {
    pub(crate) words: Words,
    pub(crate) section: Section,
    texts: Vec<Text>,
    pub(crate) wires: Vec<Wire>,
    pub(crate) unit: Option<Unit>,
}

impl Head {
    /// A head of which nothing was read.
    pub fn new(alloc: Global) -> Head
        ensures { IsAtTop result }
    {
        Head {
            words: Words::new(),
            section: Section::Between,
            texts: Vec::new(alloc),
            wires: Vec::new(alloc),
            unit: None,
        }
    }

    /// The wires of one bit that were named so far, in their order. Of two that have one name only the
    /// first is there.
    pub fn wires(&self) -> &[Wire]
        ensures { result.now ≡ self.now.wires.items }
    {
        self.wires.as_slice()
    }

    /// Reads on to the end of the head, or of these bytes. After a failure nothing is to be read.
    pub fn read(&mut self, alloc: Global, bytes: &[u8]) -> Result<HeadTaken, AllocError>
        ensures within { IfOk result (λ taken. taken.count ≤ length bytes.now) }
        ensures over { IfOk result (λ taken. taken.is_over ≡ is_over self.new.section) }
        ensures all { IfOk result (λ taken. IsFalse taken.is_over
            → taken.count ≡ length bytes.now) }
        ensures says { IfOk result (λ taken.
            LeadsOn self.old (take taken.count bytes.now) self.new) }
    {
        let mut count = 0;
        while count < bytes.len() && !self.is_over() {
            let (_, rest) = bytes.split_at(count);
            let next = self.words.next(rest);
            count += next.count;
            if next.ended.is_some() {
                self.hear(alloc)?;
            }
        }
        Ok(HeadTaken {
            count,
            is_over: self.is_over(),
        })
    }

    fn is_over(&self) -> bool
        ensures { result ≡ is_over self.now.section }
    {
        matches!(self.section, Section::Over)
    }

    // A word has ended.
    fn hear(&mut self, alloc: Global) -> Result<(), AllocError>
        requires { IsFalse (is_over self.old.section) }
        ensures { IfOk result (λ _. (line : ℕ) (more : List ℕ)
            → head_end_by (Some line) self.old more ≡ head_end self.new more) }
    {
        self.take_word(alloc)?;
        self.words.clear();
        Ok(())
    }

    // What a word makes of the head.
    fn take_word(&mut self, alloc: Global) -> Result<(), AllocError>
        ensures value { IfOk result (λ _. value_of self.new
            ≡ step (value_of self.old) self.old.words.word.items) }
        ensures words { self.new.words ≡ self.old.words }
    {
        let word = self.words.word();
        if word == b"$end".as_slice() {
            return self.close(alloc);
        }
        if matches!(self.section, Section::Between) {
            self.section = section_of(word);
            self.texts.clear();
        } else if keeps(self.section) {
            keep(alloc, &mut self.texts, word)?;
        }
        Ok(())
    }

    // A section has ended.
    fn close(&mut self, alloc: Global) -> Result<(), AllocError>
        ensures value { IfOk result (λ _. value_of self.new ≡ closed (value_of self.old)) }
        ensures words { self.new.words ≡ self.old.words }
    {
        match self.section {
            Section::Timescale => {
                if self.unit.is_none() {
                    self.unit = unit_of(self.texts.as_slice());
                }
                self.section = Section::Between;
            }
            Section::Var => {
                let wire = wire_of(alloc, self.texts.as_slice())?;
                add(&mut self.wires, wire)?;
                self.section = Section::Between;
            }
            Section::Definitions => self.section = Section::Over,
            Section::Between | Section::Other => self.section = Section::Between,
            Section::Over => {}
        }
        Ok(())
    }
}

fn keep(alloc: Global, texts: &mut Vec<Text>, word: &[u8]) -> Result<(), AllocError>
    ensures { IfOk result (λ _. texts_of texts.new.items
        ≡ texts_of texts.old.items ++ word.now ∷ []) }
{
    let bytes = copied(alloc, word)?;
    texts.push(Text { bytes })?;
    Ok(())
}

// Adds a wire, unless another has its name.
fn add(wires: &mut Vec<Wire>, wire: Option<Wire>) -> Result<(), AllocError>
    ensures { IfOk result (λ _. wires_of wires.new.items
        ≡ named (wires_of wires.old.items) (option_map wire_value wire)) }
{
    if let Some(wire) = wire {
        if !has_name(wires.as_slice(), wire.name.as_slice()) {
            wires.push(wire)?;
        }
    }
    Ok(())
}

fn has_name(wires: &[Wire], name: &[u8]) -> bool
    ensures { result ≡ has_name (wires_of wires.now) name.now }
{
    for wire in wires {
        if wire.name.as_slice() == name {
            return true;
        }
    }
    false
}
