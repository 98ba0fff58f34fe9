//! What a port keeps of the symbols that it heard: plain numbers, and no symbol.

ghost use Rattle.std.specs.Prelude.{◌≡◌, ◌↔◌, ◌≤◌, ◌<◌, ◌-◌, ◌*◌, ◌^◌, ◌++◌, ℕ, List, [], IsTrue, None, IfOk, length, if◌then◌else◌};
ghost use Rattle.std.specs.Option.{option_or};
ghost use Rattle.irig_frame.specs.declared.symbol.Symbol.{Symbol};
ghost use Rattle.irig_frame.specs.FieldTable.{is_marker_place};
ghost use Rattle.irig_frame.specs.Symbols.{symbol_of};
ghost use Rattle.irig_frame.specs.declared.coded.Coded.{Coded};
ghost use Rattle.irig_frame.specs.Decoder.{least, most, IsCoded, Reads};
ghost use Rattle.irig_frame.specs.Faults.{element_fault, first_wrong};
ghost use Rattle.irig_time.specs.Seconds.{IsValid};
ghost use Rattle.irig_port.specs.Heard.{with_symbol, symbols_of, symbols_heard};
ghost use Rattle.irig_port.specs.Told.{told_of, IfClaim};
ghost use Rattle.irig_port.specs.Bits.{bits_at, bits_from, counted_ones, field_from, values_from, frame_from};
ghost use Rattle.irig_port.specs.Tallies.{control_word_in, fault_in, tally_told, IsTallyOf};

use crate::table::{Widths, widths_of};
use crate::told::{PortFault, Told};
use crate::verdict::tell_values;
use irig_frame::{Coded, Field, FrameFault, Symbol, classify, fault_at, is_one_width};
use irig_time::Rules;

/// What is wrong with the lowest wrong element.
#[repr(C)]
#[derive(Clone, Copy, Drop)]
pub struct FirstFault {
    /// 0 if no element is wrong, 3 for [`FrameFault::Pulse`], any other for
    /// [`FrameFault::Marker`], whose number is 4.
    pub kind: u8,
    /// The element, 0 to 99.
    pub element: u8,
}

pub(crate) const NO_FAULT: FirstFault = FirstFault {
    kind: 0,
    element: 0,
};

/// What a port keeps of the symbols that it heard since it was last empty: their number, the lowest
/// wrong element, and which of them were ones.
///
/// They are plain numbers, so a tally may be kept anywhere. Any numbers may stand in it: each call
/// returns, and what is claimed is a valid second.
#[repr(C)]
#[derive(Clone, Copy, Drop)]
pub struct Tally {
    /// How many symbols there were, 101 at most; past 100 nothing else counts.
    pub count: u32,
    /// The lowest wrong element.
    pub wrong: FirstFault,
    /// Bit i is a one at element i, 0 to 59: the time of day, the day and the year.
    pub time: u64,
    /// Bit i is a one at element 60 + i: the control bits and the straight binary seconds.
    pub control: u64,
}

impl Tally {
    /// The tally of no symbol, as of an empty port.
    pub fn none() -> Tally
        ensures of_none { IsTallyOf result [] }
        ensures empty { result.count ≡ 0 }
    {
        Tally {
            count: 0,
            wrong: NO_FAULT,
            time: 0,
            control: 0,
        }
    }

    /// One pulse more, `width_us` microseconds wide. From the 102nd on a pulse changes nothing that
    /// counts.
    #[inline]
    pub fn add(&mut self, width_us: u32)
        ensures added { (s : List Symbol) → IsTallyOf self.old s
            → IsTallyOf self.new (with_symbol s (symbol_of width_us)) }
        ensures few { self.new.count ≤ 101 }
    {
        if self.count > 100 {
            self.count = 101;
        } else {
            self.add_in_frame(width_us);
        }
    }

    /// Pulses, each of a width in microseconds, in their order.
    pub fn add_all(&mut self, widths_us: &[u32])
        ensures added { (w : List ℕ) → IsTallyOf self.old (symbols_heard w)
            → IsTallyOf self.new (symbols_heard (w ++ widths_us.now)) }
        ensures few { self.old.count ≤ 101 → self.new.count ≤ 101 }
    {
        // what a port hears as a rule: a frame, or all of it but its last pulse; three short loops
        // take less than half the time of the one
        if self.count == 0 && is_right_start(widths_us) {
            *self = Tally::of_start(widths_us);
        } else {
            self.add_each(widths_us);
        }
    }

    fn add_each(&mut self, widths_us: &[u32])
        ensures added { (w : List ℕ) → IsTallyOf self.old (symbols_heard w)
            → IsTallyOf self.new (symbols_heard (w ++ widths_us.now)) }
        ensures few { self.old.count ≤ 101 → self.new.count ≤ 101 }
    {
        // a copy, which registers can hold
        let mut tally = *self;
        for &width_us in widths_us {
            tally.add(width_us);
        }
        *self = tally;
    }

    // Of the first elements of a frame, at least the 60 of the time, none of them wrong.
    fn of_start(widths_us: &[u32]) -> Tally
        requires some { 60 ≤ length widths_us.now }
        requires few { length widths_us.now ≤ 100 }
        requires right { first_wrong 0 (symbols_of widths_us.now) ≡ None }
        ensures of_widths { IsTallyOf result (symbols_of widths_us.now) }
        ensures few { result.count ≤ 100 }
    {
        Tally {
            count: widths_us.len() as u32,
            wrong: NO_FAULT,
            time: bits_of(widths_us, 0, 60),
            control: bits_of(widths_us, 60, widths_us.len()),
        }
    }

    // The same as `add` if there are at most 100 symbols. The innermost loop of a plant: nothing
    // branches on the data but the note of a first fault.
    #[inline]
    fn add_in_frame(&mut self, width_us: u32)
        requires { self.old.count ≤ 100 }
        ensures added { (s : List Symbol) → IsTallyOf self.old s
            → IsTallyOf self.new (with_symbol s (symbol_of width_us)) }
        ensures few { self.new.count ≤ 101 }
    {
        let element = self.count;
        let is_one = is_one_width(width_us);
        if element < 60 {
            self.time = self.time.wrapping_add(bit_if(is_one, element));
        } else {
            self.control = self.control.wrapping_add(bit_if(is_one, element - 60));
        }
        self.count = element + 1;
        note(
            &mut self.wrong,
            element as u8,
            widths_of(element as usize),
            width_us,
        );
    }

    /// What the symbols tell, by the rules. A claim is of a [`valid`](irig_time::valid) second.
    #[tactic(auto, using(crate::proofs::NumberLaws::tally_tells))]
    pub fn tell(&self, rules: &Rules) -> Told
        ensures exact { result ≡ tally_told rules.now self.now }
        ensures told { (s : List Symbol) → IsTallyOf self.now s → result ≡ told_of rules.now s }
        ensures valid { IfClaim result (λ claim. IsValid claim.at) }
    {
        self.tell_exactly(rules)
    }

    /// The number of the control bits, below 2^18, as [`irig_control::unpack`] takes it: of 100
    /// symbols that read as a frame, the frame's.
    pub fn control_word(&self) -> u32
        ensures exact { result ≡ control_word_in self.now }
        ensures frame { (s : List Symbol) (coded : Coded) → IsTallyOf self.now s → Reads s coded
            → result ≡ coded.control }
        ensures few { result < 2 ^ 18 }
    {
        bits_at(self.control, 0, 9) + 512 * bits_at(self.control, 10, 9)
    }

    // Apart from `tell`, whose second clause follows from the first one here.
    fn tell_exactly(&self, rules: &Rules) -> Told
        ensures exact { result ≡ tally_told rules.now self.now }
        ensures valid { IfClaim result (λ claim. IsValid claim.at) }
    {
        if self.count == 0 {
            return Told::Silence;
        }
        if self.count < 100 {
            return Told::Fault(PortFault::Frame(FrameFault::Short(self.count as u8)));
        }
        if self.count > 100 {
            return Told::Fault(PortFault::Frame(FrameFault::Long));
        }
        tell_frame(rules, self)
    }
}

fn fault_of(wrong: FirstFault) -> Option<FrameFault>
    ensures { result ≡ fault_in wrong }
{
    match wrong.kind {
        0 => None,
        3 => Some(FrameFault::Pulse(wrong.element)),
        _ => Some(FrameFault::Marker(wrong.element)),
    }
}

#[inline]
fn bit_if(is_one: bool, bit: u32) -> u64
    requires { bit < 60 }
    ensures { result ≡ (if is_one then 2 ^ bit else 0) }
{
    u64::from(is_one) << bit
}

/// Whether there are 60 to 100 pulses, each of them right at its element.
fn is_right_start(widths_us: &[u32]) -> bool
    ensures { IsTrue result ↔ ((60 ≤ length widths_us.now) × (length widths_us.now ≤ 100)
        × (first_wrong 0 (symbols_of widths_us.now) ≡ None)) }
{
    (60..=100).contains(&widths_us.len()) && are_right(widths_us)
}

// Asks of each of them, as many at once as the machine can.
fn are_right(widths_us: &[u32]) -> bool
    requires { length widths_us.now ≤ 100 }
    ensures { IsTrue result ↔ (first_wrong 0 (symbols_of widths_us.now) ≡ None) }
{
    let mut are_right = true;
    for element in 0..widths_us.len() {
        are_right &= is_right(widths_of(element), widths_us[element]);
    }
    are_right
}

/// The number of the bits that these elements are, the first its lowest.
fn bits_of(widths_us: &[u32], first: usize, end: usize) -> u64
    requires inside { end ≤ length widths_us.now }
    requires some { first ≤ end }
    requires few { end - first ≤ 60 }
    ensures { result ≡ bits_from first (end - first) (symbols_of widths_us.now) }
{
    let mut bits = 0;
    for element in (first..end).rev() {
        bits = 2 * bits + bit_if(is_one_width(widths_us[element]), 0);
    }
    bits
}

#[inline]
fn note(wrong: &mut FirstFault, element: u8, right: &Widths, width_us: u32)
    ensures { right.now.least_us ≡ (if is_marker_place element then 6500 else 500)
        → right.now.count_us ≡ (if is_marker_place element then 3000 else 6000)
        → fault_in wrong.new
        ≡ option_or (fault_in wrong.old) (element_fault element (symbol_of width_us)) }
{
    if !is_right(right, width_us) {
        note_wrong(wrong, element, width_us);
    }
}

fn note_wrong(wrong: &mut FirstFault, element: u8, width_us: u32)
    ensures { fault_in wrong.new
        ≡ option_or (fault_in wrong.old) (element_fault element (symbol_of width_us)) }
{
    if wrong.kind == 0 {
        *wrong = first_fault(element, classify(width_us));
    }
}

#[inline]
fn is_right(right: &Widths, width_us: u32) -> bool
    ensures { (i : ℕ) → right.now.least_us ≡ (if is_marker_place i then 6500 else 500)
        → right.now.count_us ≡ (if is_marker_place i then 3000 else 6000)
        → IsTrue result ↔ (element_fault i (symbol_of width_us) ≡ None) }
{
    width_us.wrapping_sub(right.least_us) < right.count_us
}

fn first_fault(element: u8, symbol: Symbol) -> FirstFault
    ensures { fault_in result ≡ element_fault element symbol }
{
    match fault_at(element, symbol) {
        Some(FrameFault::Pulse(at)) => FirstFault {
            kind: 3,
            element: at,
        },
        Some(FrameFault::Marker(at)) => FirstFault {
            kind: 4,
            element: at,
        },
        _ => NO_FAULT,
    }
}

#[tactic(auto, unfolding(crate::specs::Bits::frame_from))]
fn tell_frame(rules: &Rules, tally: &Tally) -> Told
    ensures told { result ≡ frame_from rules.now (fault_in tally.now.wrong) tally.now.time
        tally.now.control }
    ensures valid { IfClaim result (λ claim. IsValid claim.at) }
{
    if let Some(fault) = fault_of(tally.wrong) {
        return Told::Fault(PortFault::Frame(fault));
    }
    if ones_in(tally) % 2 != u32::from(rules.parity.remainder()) {
        return Told::Fault(PortFault::Parity);
    }
    tell_values(rules, values_of(tally.time, tally.control))
}

/// How many ones the parity counts, which are those at the elements 0 to 75.
pub(crate) fn ones_in(tally: &Tally) -> u32
    ensures exact { result ≡ counted_ones tally.now.time tally.now.control }
    ensures few { result ≤ 128 }
{
    tally.time.count_ones() + (tally.control % 65_536).count_ones()
}

// Where the bits of each digit stand, IRIG Standard 200-16, format B.
#[tactic(auto, unfolding(crate::specs::Bits::values_from))]
fn values_of(time: u64, control: u64) -> Result<Coded, FrameFault>
    ensures value { result ≡ values_from time control }
    ensures in_range { IfOk result IsCoded }
{
    let second = byte_of(Field::Second, bits_at(time, 1, 4), bits_at(time, 6, 3))?;
    let minute = byte_of(Field::Minute, bits_at(time, 10, 4), bits_at(time, 15, 3))?;
    let hour = byte_of(Field::Hour, bits_at(time, 20, 4), bits_at(time, 25, 2))?;
    let day = field_of(
        Field::Day,
        bits_at(time, 30, 4),
        bits_at(time, 35, 4),
        bits_at(time, 40, 2),
    )? as u16;
    let year = byte_of(Field::Year, bits_at(time, 50, 4), bits_at(time, 55, 4))?;
    Ok(Coded {
        second,
        minute,
        hour,
        day,
        year,
        control: bits_at(control, 0, 9) + 512 * bits_at(control, 10, 9),
        sbs: bits_at(control, 20, 9) + 512 * bits_at(control, 30, 8),
    })
}

/// `count` bits of a number, from bit `from` on.
#[inline]
fn bits_at(number: u64, from: u32, count: u32) -> u32
    requires inside { from < 60 }
    requires few { count ≤ 9 }
    ensures exact { result ≡ bits_at number from count }
    ensures few { result < 2 ^ count }
{
    ((number >> from) % (1 << count)) as u32
}

fn byte_of(field: Field, units: u32, tens: u32) -> Result<u8, FrameFault>
    requires byte { most field ≤ 255 }
    requires small { (units < 16) × (tens < 16) }
    ensures value { result ≡ field_from field units (10 * tens) 0 }
    ensures in_range { IfOk result (λ n. (least field ≤ n) × (n ≤ most field)) }
{
    Ok(field_of(field, units, tens, 0)? as u8)
}

fn field_of(field: Field, units: u32, tens: u32, hundreds: u32) -> Result<u32, FrameFault>
    requires { (units < 16) × (tens < 16) × (hundreds < 4) }
    ensures value { result ≡ field_from field units (10 * tens) (100 * hundreds) }
    ensures in_range { IfOk result (λ n. (least field ≤ n) × (n ≤ most field)) }
{
    if units > 9 || tens > 9 {
        return Err(FrameFault::Digit(field));
    }
    let value = units + 10 * tens + 100 * hundreds;
    let (least, most) = field.bounds();
    if value < least || value > most {
        return Err(FrameFault::Range(field));
    }
    Ok(value)
}
