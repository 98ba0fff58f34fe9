//! Why a recording is not judged.

ghost use Rattle.std.specs.Prelude.{◌≡◌};
ghost use Rattle.report_judge.specs.declared.fault.JudgeFault.TheVariants.{Dump, Memory, Read, Table};
ghost use Rattle.report_judge.specs.Faults.{of_config, of_head, of_samples, of_single, of_title};

use crate::channels::ChannelFault;
use irig_device::DeviceFault;
use record_comtrade::{ConfigFault, DataFault, SampleFault};
use record_vcd::{Fault, HeadFault};
use std::alloc::AllocError;

/// Why a recording is not judged.
#[derive(Drop)]
pub enum JudgeFault {
    /// Nothing is in it.
    Empty,
    /// It is a value change dump whose head does not end, or names no unit of times.
    Head(HeadFault),
    /// The wires that are asked for can't be judged. The text has the names that are there.
    Channels(ChannelFault, String),
    /// It is a value change dump that can't be read on.
    Dump(Fault),
    /// It does not begin as a value change dump, and what stands above its rows is no head of a
    /// table.
    Title(record_table::HeadFault),
    /// The channels of a table that are asked for can't be judged. The text has the names that are
    /// there.
    Columns(ChannelFault, String),
    /// It is a table that can't be read on.
    Table(record_table::Fault),
    /// A line of the configuration of a disturbance record is at fault.
    Config(record_comtrade::Fault),
    /// The channels of a record that are asked for can't be judged. The text has the names that are
    /// there.
    Digitals(ChannelFault, String),
    /// The analog channel at this place among them, from 0, is asked for, and has no threshold. The
    /// texts are its name and its unit.
    NoThreshold(usize, String, String),
    /// A sample of a record is at fault, or the samples end too early.
    Sample(SampleFault),
    /// It is a single file of a disturbance record, and no section of it has samples.
    NoSamples,
    /// It is a single file, and a line above its samples is longer than 67,108,864 bytes.
    LongLine,
    /// It has 2^64 bytes or more.
    Endless,
    /// It can't be read to its end; of a record its configuration can't.
    Read,
    /// The samples of a record can't be read to their end.
    ReadSamples,
    /// There was no memory.
    Memory,
}

impl From<AllocError> for JudgeFault {
    ghost from_gives = { λ _ fault. fault ≡ Memory };

    fn from(_: AllocError) -> JudgeFault {
        JudgeFault::Memory
    }
}

impl From<DeviceFault> for JudgeFault {
    ghost from_gives = { λ _ fault. fault ≡ Read };

    fn from(_: DeviceFault) -> JudgeFault {
        JudgeFault::Read
    }
}

impl From<HeadFault> for JudgeFault {
    ghost from_gives = { λ head fault. fault ≡ of_head head };

    fn from(fault: HeadFault) -> JudgeFault {
        match fault {
            HeadFault::Memory => JudgeFault::Memory,
            HeadFault::Unended | HeadFault::NoTimescale => JudgeFault::Head(fault),
        }
    }
}

impl From<Fault> for JudgeFault {
    ghost from_gives = { λ dump fault. fault ≡ Dump dump };

    fn from(fault: Fault) -> JudgeFault {
        JudgeFault::Dump(fault)
    }
}

impl From<record_table::HeadFault> for JudgeFault {
    ghost from_gives = { λ title fault. fault ≡ of_title title };

    fn from(fault: record_table::HeadFault) -> JudgeFault {
        match fault {
            record_table::HeadFault::Memory => JudgeFault::Memory,
            _ => JudgeFault::Title(fault),
        }
    }
}

impl From<record_table::Fault> for JudgeFault {
    ghost from_gives = { λ table fault. fault ≡ Table table };

    fn from(fault: record_table::Fault) -> JudgeFault {
        JudgeFault::Table(fault)
    }
}

impl From<ConfigFault> for JudgeFault {
    ghost from_gives = { λ config fault. fault ≡ of_config config };

    fn from(fault: ConfigFault) -> JudgeFault {
        match fault {
            ConfigFault::Memory => JudgeFault::Memory,
            ConfigFault::Refused(fault) => JudgeFault::Config(fault),
        }
    }
}

impl From<record_single::HeadFault> for JudgeFault {
    ghost from_gives = { λ single fault. fault ≡ of_single single };

    fn from(fault: record_single::HeadFault) -> JudgeFault {
        match fault {
            record_single::HeadFault::Memory => JudgeFault::Memory,
            record_single::HeadFault::Long => JudgeFault::LongLine,
        }
    }
}

impl From<DataFault> for JudgeFault {
    ghost from_gives = { λ samples fault. fault ≡ of_samples samples };

    fn from(fault: DataFault) -> JudgeFault {
        match fault {
            DataFault::Memory => JudgeFault::Memory,
            DataFault::Refused(fault) => JudgeFault::Sample(fault),
        }
    }
}
