//! Why a recording is refused, in words.

use cli_words::Judging;
use record_comtrade::{Field, Reason as SampleReason, RowFault, RowField, SampleFault};
use record_levels::TimeFault;
use record_table::{HeadReason, HeadRefusal, Reason as RowReason};
use record_text::field_of;
use record_vcd::{Fault, HeadFault, Reason};
use report_judge::{ChannelFault, JudgeFault, push_name};
use std::alloc::{AllocError, Global};

/// Why a recording that was to be judged so is refused, in a line.
pub(crate) fn why_refused(
    alloc: Global,
    fault: &JudgeFault,
    judging: Judging<'_>,
) -> Result<String, AllocError> {
    let mut text = String::new(alloc);
    let asked = judging.channels.unwrap_or("").as_bytes();
    match fault {
        JudgeFault::Channels(fault, names) => {
            push_channel_fault(&mut text, *fault, asked, names.as_str(), &WIRES)?;
        }
        JudgeFault::Digitals(fault, names) => {
            push_channel_fault(&mut text, *fault, asked, names.as_str(), &DIGITALS)?;
        }
        JudgeFault::Columns(fault, names) => {
            push_channel_fault(&mut text, *fault, asked, names.as_str(), &COLUMNS)?;
        }
        JudgeFault::Dump(fault) => push_dump_fault(&mut text, *fault)?,
        JudgeFault::Title(record_table::HeadFault::Refused(refusal)) => {
            push_title_fault(&mut text, *refusal)?;
        }
        JudgeFault::Table(fault) => {
            push_table_fault(&mut text, *fault, judging.threshold.is_some())?;
        }
        JudgeFault::Config(fault) => push_config_fault(&mut text, *fault)?,
        JudgeFault::NoThreshold(place, name, unit) => {
            push_no_threshold(&mut text, *place, name.as_str(), unit.as_str())?;
        }
        JudgeFault::Sample(fault) => push_sample_fault(&mut text, *fault)?,
        other => text.push_str(words_of(other))?,
    }
    Ok(text)
}

fn words_of(fault: &JudgeFault) -> &'static str {
    match fault {
        JudgeFault::Empty => "it is empty",
        JudgeFault::Head(HeadFault::Unended) => {
            "it has no $enddefinitions $end, as a value change dump has"
        }
        JudgeFault::Head(_) => "it has no $timescale, as a value change dump has",
        JudgeFault::Title(_) => {
            "it does not begin as a value change dump (.vcd) does, with $, and ends before any row of a table"
        }
        JudgeFault::NoSamples => {
            "no line --- file type: DAT ASCII ---, or BINARY, stands above its samples"
        }
        JudgeFault::LongLine => "a line above its samples is longer than 64 MB",
        JudgeFault::Endless => "it does not end",
        JudgeFault::Read => "it could not be read to its end",
        JudgeFault::ReadSamples => "its samples could not be read to their end",
        _ => "out of memory",
    }
}

fn push_dump_fault(text: &mut String, fault: Fault) -> Result<(), AllocError> {
    let reason = match fault.reason {
        Reason::BadTime => "what stands behind # is no time, or too large",
        Reason::Time(TimeFault::Beyond) => "its time is 1,000 hours or more",
        Reason::Time(TimeFault::Back) => "its time lies before the one above it",
        Reason::Time(TimeFault::Gap) => "its time lies more than a day after the last level",
    };
    write!(text, "line {}: {reason}", fault.line)
}

fn push_title_fault(text: &mut String, refusal: HeadRefusal) -> Result<(), AllocError> {
    let reason = match refusal.reason {
        HeadReason::Rate => "the rate of samples that it says is none",
        HeadReason::Long => "it is longer than 1,023 bytes",
        HeadReason::Unit => "the unit of its times is none of s, ms, us, ns, ps and fs",
        HeadReason::NoTimes => {
            "it begins neither a value change dump (.vcd), as $ does, nor a table of levels: its first column has no times by its name, and no remark above says a rate of samples"
        }
        HeadReason::NoChannel => "it names no channel of a table, as where no comma parts columns",
    };
    write!(text, "line {}: {reason}", refusal.line)
}

fn push_table_fault(
    text: &mut String,
    fault: record_table::Fault,
    by_threshold: bool,
) -> Result<(), AllocError> {
    let line = fault.line;
    let reason = match fault.reason {
        RowReason::Long => "it is longer than 1,023 bytes",
        RowReason::BadTime => "its time is no decimal number",
        RowReason::Columns(_) => "it has fewer columns than the names above",
        RowReason::Level(place) => {
            let number = place.saturating_add(1);
            let reason = if by_threshold {
                "is no decimal number of volts, less than 1,000,000,000 off 0"
            } else {
                "is neither 0 nor 1; in a table of volts --threshold says above how many a line is high"
            };
            return write!(text, "line {line}: its channel {number} {reason}");
        }
        RowReason::NoStep => "its time is 0, where it is to be that of one sample",
        RowReason::Time(TimeFault::Beyond) => "its time is 1,000 hours or more",
        RowReason::Time(TimeFault::Back) => "its time lies before the one above it",
        RowReason::Time(TimeFault::Gap) => "its time lies more than a day after the last level",
        RowReason::NoRow => "no row stands below it",
    };
    write!(text, "line {line}: {reason}")
}

fn push_config_fault(text: &mut String, fault: record_comtrade::Fault) -> Result<(), AllocError> {
    let line = fault.line;
    let reason = match fault.field {
        Field::Missing => return write!(text, "its configuration ends before line {line}"),
        Field::Line => "it is longer than 1,020 bytes",
        Field::Edition => "its edition is no year up to 9,999",
        Field::AnalogCount => "its number of analog channels is none up to 999,999, as 4A",
        Field::DigitalCount => "its number of digital channels is none up to 999,999, as 2D",
        Field::Factor => {
            "its factor is no decimal number other than 0 and less than 1,000,000,000 off it"
        }
        Field::Addend => "its addend is no decimal number less than 1,000,000,000 off 0",
        Field::RateCount => "its number of rates is none up to 999",
        Field::Rate => "its rate is no number",
        Field::LastSample =>
            "its last sample is no number, or does not lie after that of the rate above",
        Field::Samples => "its samples are none of ASCII, BINARY, BINARY32 and FLOAT32",
        Field::Multiple => "its multiple of times is no number",
    };
    write!(text, "line {line} of its configuration: {reason}")
}

// An analog channel without a name has the letter A and its number, and one without a unit is in volts.
fn push_no_threshold(
    text: &mut String,
    place: usize,
    name: &str,
    unit: &str,
) -> Result<(), AllocError> {
    if name.is_empty() {
        let number = place.saturating_add(1);
        write!(text, "A{number}")?;
    } else {
        text.push_str(name)?;
    }
    let unit = if unit.is_empty() { "V" } else { unit };
    write!(
        text,
        " is an analog channel: --threshold says above how many {unit} it is high"
    )
}

fn push_sample_fault(text: &mut String, fault: SampleFault) -> Result<(), AllocError> {
    let sample = fault.sample;
    let reason = match fault.reason {
        SampleReason::Row(row) => return push_row_fault(text, row),
        SampleReason::Last => {
            return write!(
                text,
                "its samples end after {sample}, before the last one that its configuration names: they are cut off"
            );
        }
        SampleReason::NoTime => "it has no time, and a rate of samples is 0",
        SampleReason::Time(TimeFault::Beyond) => "its time is 1,000 hours or more after the first",
        SampleReason::Time(TimeFault::Back) => "its time lies before that of a sample before it",
        SampleReason::Time(TimeFault::Gap) => "its time lies more than a day after the last level",
    };
    write!(text, "sample {sample}: {reason}")
}

fn push_row_fault(text: &mut String, fault: RowFault) -> Result<(), AllocError> {
    let line = fault.line;
    let reason = match fault.field {
        RowField::Line => "it is longer than 64 MB",
        RowField::Number => "its number is none below 2^32",
        RowField::Time => "its time is no whole number below 2^32 - 1",
        RowField::Few => "it has fewer fields than the record channels",
        RowField::Level(place) => {
            let number = place.saturating_add(1);
            return write!(
                text,
                "line {line} of its samples: digital channel {number} is neither 0 nor 1"
            );
        }
        RowField::Value(place) => {
            let number = place.saturating_add(1);
            return write!(
                text,
                "line {line} of its samples: analog channel {number} is no decimal number less than 1,000,000,000 off 0"
            );
        }
    };
    write!(text, "line {line} of its samples: {reason}")
}

// What channels are called.
struct Called {
    one: &'static str,
    none: &'static str,
}

const WIRES: Called = Called {
    one: "wire",
    none: "it has no wire of one bit",
};

const COLUMNS: Called = Called {
    one: "channel",
    none: "it has no channel",
};

const DIGITALS: Called = Called {
    one: "channel",
    none: "it has no digital channel",
};

fn push_channel_fault(
    text: &mut String,
    fault: ChannelFault,
    channels: &[u8],
    names: &str,
    called: &Called,
) -> Result<(), AllocError> {
    match fault {
        ChannelFault::Unknown(at) => {
            text.push_str("it has no ")?;
            text.push_str(called.one)?;
            text.push_str(" ")?;
            push_name(text, field_of(channels, at))?;
            write!(text, "; it has {names}")
        }
        ChannelFault::Twice(at) => {
            text.push_str("--channels names ")?;
            push_name(text, field_of(channels, at))?;
            text.push_str(" twice")
        }
        ChannelFault::Count(0) => text.push_str(called.none),
        ChannelFault::Count(2) => write!(
            text,
            "two lines cannot outvote each other: --channels has to name one, three or five of {names}"
        ),
        ChannelFault::Count(count) => write!(
            text,
            "{count} lines are not judged: --channels has to name one, three or five of {names}"
        ),
    }
}
