//! Why a line of a scenario is refused.

ghost use Rattle.std.specs.Prelude.{◌≡◌};
ghost use Rattle.text_faults.specs.Refusals.{number_of, name_of};

use irig_gen::GenRefusal;
use irig_time::{TableFault, TimelineFault};
use std::alloc::{AllocError, AllocFailed};

/// Why a line of a scenario is refused.
#[derive(Clone, Copy, Debug, PartialEq, Eq)]
pub enum Refusal {
    /// The start's day is outside 1 to 36523, or its second is none of that day's.
    BadStart,
    /// A leap's day is not a month's last.
    LeapNotMonthEnd,
    /// A leap's day stands earlier in the list.
    LeapTwice,
    /// A leap's day is outside 1 to 36523.
    OutOfYears,
    /// A generator's offset is outside -31 to 31 half hours.
    Offset,
    /// A generator's changes are not in order, or not at the first second of a minute.
    Changes,
    /// No reader has this name.
    NoSuchReader,
    /// No generator has this number.
    NoSuchGenerator,
    /// The edge of a replay is still to come.
    FutureReplay,
    /// There is no second for the edge.
    EndOfYears,
    /// The line is longer than 65,536 bytes.
    TooLong,
    /// The line is no JSON in UTF-8.
    Json,
    /// A key is missing or not named, or a value is of another type.
    Shape,
    /// A value is outside its range, or not one of its words.
    Value,
    /// The version is none that is read.
    Version,
    /// There are no readers or too many, or their names are not of the stated form or not all
    /// different.
    Names,
    /// The input ended before the plant line.
    NoPlant,
    /// The line's number is above 1,000,000.
    TooManyLines,
    /// A table ends after day 36523.
    TableEnd,
    /// A table has more than 64 leaps.
    TableLong,
    /// A leap of a table is not at a month's last day from 1 to the table's end.
    TableDay,
    /// A leap's day stands earlier in the table.
    TableTwice,
    /// A device's holdover is longer than its counter can count by its drift.
    Drift,
    /// The instant of a stamp lies before edge 0.
    BeforeStart,
}

impl Refusal {
    /// The number by which users know a refusal.
    #[tactic(auto, using(crate::proofs::NumberLaws::alone))]
    pub fn number(self) -> u8
        ensures number { result ≡ number_of self }
        ensures alone { (other : Refusal) → number_of other ≡ result → other ≡ self }
    {
        match self {
            Refusal::BadStart => 11,
            Refusal::LeapNotMonthEnd => 12,
            Refusal::LeapTwice => 13,
            Refusal::OutOfYears => 14,
            Refusal::Offset => 15,
            Refusal::Changes => 16,
            Refusal::NoSuchReader => 19,
            Refusal::NoSuchGenerator => 20,
            Refusal::FutureReplay => 21,
            Refusal::EndOfYears => 22,
            Refusal::TooLong => 23,
            Refusal::Json => 24,
            Refusal::Shape => 25,
            Refusal::Value => 26,
            Refusal::Version => 27,
            Refusal::Names => 28,
            Refusal::NoPlant => 29,
            Refusal::TooManyLines => 30,
            Refusal::TableEnd => 31,
            Refusal::TableLong => 32,
            Refusal::TableDay => 33,
            Refusal::TableTwice => 34,
            Refusal::Drift => 35,
            Refusal::BeforeStart => 37,
        }
    }

    /// The name of a refusal.
    pub fn name(self) -> &'static str
        ensures { result.now ≡ name_of self }
    {
        match self {
            Refusal::BadStart => "BadStart",
            Refusal::LeapNotMonthEnd => "LeapNotMonthEnd",
            Refusal::LeapTwice => "LeapTwice",
            Refusal::OutOfYears => "OutOfYears",
            Refusal::Offset => "Offset",
            Refusal::Changes => "Changes",
            Refusal::NoSuchReader => "NoSuchReader",
            Refusal::NoSuchGenerator => "NoSuchGenerator",
            Refusal::FutureReplay => "FutureReplay",
            Refusal::EndOfYears => "EndOfYears",
            Refusal::TooLong => "TooLong",
            Refusal::Json => "Json",
            Refusal::Shape => "Shape",
            Refusal::Value => "Value",
            Refusal::Version => "Version",
            Refusal::Names => "Names",
            Refusal::NoPlant => "NoPlant",
            Refusal::TooManyLines => "TooManyLines",
            Refusal::TableEnd => "TableEnd",
            Refusal::TableLong => "TableLong",
            Refusal::TableDay => "TableDay",
            Refusal::TableTwice => "TableTwice",
            Refusal::Drift => "Drift",
            Refusal::BeforeStart => "BeforeStart",
        }
    }
}

impl From<TableFault> for Refusal {
    ghost use Rattle.std.specs.Prelude.{◌≡◌};
    ghost use Rattle.text_faults.specs.Refusals.{of_table};

    ghost from_gives = { λ fault refusal. refusal ≡ of_table fault };

    fn from(fault: TableFault) -> Refusal {
        match fault {
            TableFault::TableEnd => Refusal::TableEnd,
            TableFault::TableLong => Refusal::TableLong,
            TableFault::TableDay => Refusal::TableDay,
            TableFault::TableTwice => Refusal::TableTwice,
        }
    }
}

/// Why a line gives nothing.
#[derive(Clone, Copy, PartialEq, Eq)]
pub enum LineFault {
    /// It is refused.
    Refused(Refusal),
    /// There was no memory for it.
    Memory,
}

impl From<TimelineFault> for LineFault {
    ghost use Rattle.std.specs.Prelude.{◌≡◌};
    ghost use Rattle.text_faults.specs.Refusals.{of_timeline};

    ghost from_gives = { λ fault line. line ≡ of_timeline fault };

    fn from(fault: TimelineFault) -> LineFault {
        match fault {
            TimelineFault::BadStart => LineFault::Refused(Refusal::BadStart),
            TimelineFault::LeapNotMonthEnd => LineFault::Refused(Refusal::LeapNotMonthEnd),
            TimelineFault::LeapTwice => LineFault::Refused(Refusal::LeapTwice),
            TimelineFault::OutOfYears => LineFault::Refused(Refusal::OutOfYears),
            TimelineFault::Memory => LineFault::Memory,
        }
    }
}

impl From<GenRefusal> for LineFault {
    ghost use Rattle.std.specs.Prelude.{◌≡◌};
    ghost use Rattle.text_faults.specs.Refusals.{of_generator};

    ghost from_gives = { λ refusal line. line ≡ of_generator refusal };

    fn from(refusal: GenRefusal) -> LineFault {
        match refusal {
            GenRefusal::Offset => LineFault::Refused(Refusal::Offset),
            GenRefusal::Changes => LineFault::Refused(Refusal::Changes),
            GenRefusal::Memory => LineFault::Memory,
        }
    }
}

impl From<Refusal> for LineFault {
    ghost use Rattle.std.specs.Prelude.{◌≡◌};
    ghost use Rattle.text_faults.specs.declared.refusal.LineFault.TheVariants.{Refused};

    ghost from_gives = { λ refusal fault. fault ≡ Refused refusal };

    fn from(refusal: Refusal) -> LineFault {
        LineFault::Refused(refusal)
    }
}

impl From<AllocError> for LineFault {
    ghost use Rattle.std.specs.Prelude.{◌≡◌};
    ghost use Rattle.text_faults.specs.declared.refusal.LineFault.TheVariants.{Memory};

    ghost from_gives = { λ _ fault. fault ≡ Memory };

    fn from(_: AllocError) -> LineFault {
        LineFault::Memory
    }
}

impl<T: Drop> From<AllocFailed<T>> for LineFault {
    ghost use Rattle.std.specs.Prelude.{◌≡◌};
    ghost use Rattle.text_faults.specs.declared.refusal.LineFault.TheVariants.{Memory};

    ghost from_gives = { λ _ fault. fault ≡ Memory };

    fn from(_: AllocFailed<T>) -> LineFault {
        LineFault::Memory
    }
}
