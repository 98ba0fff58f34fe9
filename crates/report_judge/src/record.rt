//! A disturbance record is read from its two devices, and judged.

ghost use Rattle.std.specs.Prelude.{◌≡◌, ◌≢◌, ◌↔◌, ◌++◌, ◌<◌, ◌≤◌, [], All, List, ℕ, Err, IfErr, IfOk, IfSome, IsTrue, Ok, false, length, true};
ghost use Rattle.std.specs.Io.KnownBytes.{IsAtEnd};
ghost use Rattle.irig_device.specs.Watched.{device_of, has_failed};
ghost use Rattle.record_comtrade.specs.Configs.{ConfigValue};
ghost use Rattle.record_comtrade.specs.Reads.{value_of};
ghost use Rattle.record_stamp.specs.Codes.{IsZoneOf};
ghost use Rattle.report_judge.specs.declared.asked.Asked.{Asked as AskedOf};
ghost use Rattle.record_samples.specs.Records.{Chosen, IsSamplesOf};
ghost use Rattle.report_judge.specs.Channels.{channel_bytes, texts_of};
ghost use Rattle.report_judge.specs.Records.{ConfigRefused, HasReadSamples, IsNoSamples, JudgedRecord, JudgedSamples, OfThreshold, RecordRefused, are_digital, chosen_by, record_names, SamplesRefused, SamplesRefusedFrom, TextRefused, configured};

use crate::asked::Asked;
use crate::channels::places_named;
use crate::fault::JudgeFault;
use crate::hearing::{Hearing, Judged};
use crate::names::{channel_names, digital_names, listed, names_at, push_name};
use crate::stamp::said_of_stamp;
use irig_device::Watched;
use record_cells::Threshold;
use record_comtrade::{Config, ConfigText};
use record_samples::{LineFault, Lines, Samples};
use std::alloc::{AllocError, Global};
use std::io::Read;

// How many bytes of a configuration are read at once at most.
const CONFIG_PIECE: usize = 4_096;

// How many bytes of samples are.
const SAMPLES_PIECE: usize = 16_384;

// A record whose samples are read.
#[derive(Drop)]
pub(crate) struct Record {
    names: Vec<Vec<u8>>,
    config: Config,
    samples: Samples,
    hearing: Hearing,
}

/// Reads a disturbance record, its configuration and its samples, to the end of both, and answers
/// the verdict on the lines that are asked for.
///
/// What is refused is refused by the first line of the configuration that is at fault, and else by
/// the first sample. `Read` if the device of the configuration fails, `ReadSamples` if that of the
/// samples does.
pub fn judge_record<C: Read, D: Read>(
    alloc: Global,
    config: &mut Watched<C>,
    data: &mut Watched<D>,
    asked: &Asked<'_>,
) -> Result<Judged, JudgeFault>
    requires config_whole { has_failed config.old ≡ false }
    requires data_whole { has_failed data.old ≡ false }
    requires zone { IsZoneOf asked.now.zone }
    ensures judged { IfOk result (λ judged. IfSome (C.remaining (device_of config.old))
        (λ text. IfSome (D.remaining (device_of data.old))
        (λ samples. JudgedRecord asked.now text samples judged))) }
    ensures config_end { IfOk result (λ _. IfSome (C.remaining (device_of config.old))
        (λ _. IsAtEnd (C.remaining (device_of config.new)))) }
    ensures data_end { IfOk result (λ _. IfSome (D.remaining (device_of data.old))
        (λ _. IsAtEnd (D.remaining (device_of data.new)))) }
    ensures refused { IfErr result (λ fault. fault ≢ JudgeFault.Read
        → fault ≢ JudgeFault.ReadSamples → RecordRefused asked.now
        (C.remaining (device_of config.old)) (D.remaining (device_of data.old)) fault) }
    ensures read { (result ≡ Err JudgeFault.Read) ↔ (has_failed config.new ≡ true) }
    ensures read_samples { (result ≡ Err JudgeFault.ReadSamples) ↔ (has_failed data.new ≡ true) }
{
    let config = read_config(alloc, config)?;
    let mut record = Record::new(alloc, config, asked)?;
    record.read_all(data)?;
    let judged = record.end(alloc, asked)?;
    Ok(judged)
}

// The configuration, to its end.
#[inline(never)]
fn read_config<I: Read>(alloc: Global, input: &mut Watched<I>) -> Result<Config, JudgeFault>
    requires whole { has_failed input.old ≡ false }
    ensures says { IfOk result (λ config. IfSome (I.remaining (device_of input.old))
        (λ text. configured text ≡ Ok (value_of config))) }
    ensures end { IfOk result (λ _. IfSome (I.remaining (device_of input.old))
        (λ _. IsAtEnd (I.remaining (device_of input.new)))) }
    ensures refused { IfErr result (λ fault. fault ≢ JudgeFault.Read
        → IfSome (I.remaining (device_of input.old)) (λ text. TextRefused text fault)) }
    ensures read { (result ≡ Err JudgeFault.Read) ↔ (has_failed input.new ≡ true) }
    ensures other { result ≢ Err JudgeFault.ReadSamples }
{
    let mut piece = [0; CONFIG_PIECE];
    let mut text = ConfigText::new(alloc);
    for _piece in 0..u64::MAX {
        let count = input.read_some(&mut piece)?;
        if count == 0 {
            let config = text.end(alloc)?;
            return Ok(config);
        }
        text.read(alloc, piece.split_at(count).0)?;
    }
    Err(JudgeFault::Endless)
}

// The names of the channels among which these names choose; of the digital ones without such.
fn record_names(
    alloc: Global,
    config: &Config,
    channels: Option<&str>,
) -> Result<Vec<Vec<u8>>, AllocError>
    ensures { IfOk result (λ names. texts_of names.items
        ≡ record_names (channel_bytes channels.entry) (value_of config.now)) }
{
    match channels {
        Some(_) => channel_names(alloc, config),
        None => digital_names(alloc, config),
    }
}

// The samples of a configuration, of which the channels at these places are read.
#[tactic(auto, using(crate::proofs::RecordLaws::all_digital))]
fn samples_of(
    alloc: Global,
    config: &Config,
    places: &[usize],
    threshold: Option<Threshold>,
) -> Result<Samples, JudgeFault>
    requires { length places.now ≤ 5 }
    ensures reads { IfOk result (λ samples. (chosen : Chosen) × (chosen_by threshold
        (value_of config.now) places.now ≡ Ok chosen) × IsSamplesOf config.now chosen samples) }
    ensures refuses { IfErr result
        (IsNoSamples threshold (value_of config.now) places.now) }
    ensures config_device { result ≢ Err JudgeFault.Read }
    ensures data_device { result ≢ Err JudgeFault.ReadSamples }
{
    if are_digital(config.counts().digitals, places) {
        let samples = Samples::new(alloc, config, places)?;
        return Ok(samples);
    }
    match Lines::of(config, places, threshold) {
        Ok(lines) => {
            let samples = Samples::of_lines(alloc, config, lines)?;
            Ok(samples)
        }
        Err(LineFault::Config(fault)) => Err(JudgeFault::Config(fault)),
        Err(LineFault::NoThreshold(place)) => {
            let fault = no_threshold(alloc, config, place)?;
            Err(fault)
        }
    }
}

// That an analog channel has none.
fn no_threshold(alloc: Global, config: &Config, place: usize) -> Result<JudgeFault, AllocError>
    ensures { IfOk result (OfThreshold place) }
{
    let mut name = String::new(alloc);
    let mut unit = String::new(alloc);
    if place < config.counts().analogs as usize {
        push_name(&mut name, config.analog_field(place, 1))?;
        push_name(&mut unit, config.analog_field(place, 4))?;
    }
    Ok(JudgeFault::NoThreshold(place, name, unit))
}

fn are_digital(digitals: u64, places: &[usize]) -> bool
    ensures { result ≡ are_digital digitals places.now }
{
    for &place in places {
        if place as u64 >= digitals {
            return false;
        }
    }
    true
}

impl Record {
    // Of a configuration, before its samples.
    pub(crate) fn new(
        alloc: Global,
        config: Config,
        asked: &Asked<'_>,
    ) -> Result<Record, JudgeFault>
        ensures reads { IfOk result
            (HasReadSamples asked.now (value_of config) []) }
        ensures refuses { IfErr result
            (ConfigRefused asked.now (value_of config)) }
        ensures config_device { result ≢ Err JudgeFault.Read }
        ensures data_device { result ≢ Err JudgeFault.ReadSamples }
    {
        let all = record_names(alloc, &config, asked.channels)?;
        let places = match places_named(all.as_slice(), asked.channels) {
            Ok(places) => places,
            Err(fault) => {
                let there = listed(alloc, all.as_slice())?;
                return Err(JudgeFault::Digitals(fault, there));
            }
        };
        let names = names_at(alloc, all.as_slice(), places.as_slice())?;
        let samples = samples_of(alloc, &config, places.as_slice(), asked.threshold)?;
        let hearing = Hearing::new(alloc, places.len(), asked)?;
        Ok(Record {
            names,
            config,
            samples,
            hearing,
        })
    }

    // The samples, to their end.
    fn read_all<I: Read>(&mut self, input: &mut Watched<I>) -> Result<(), JudgeFault>
        requires whole { has_failed input.old ≡ false }
        ensures reads { IfOk result (λ _. (asked : AskedOf) (config : ConfigValue)
            → HasReadSamples asked config [] self.old → IfSome (I.remaining (device_of input.old))
            (λ samples. HasReadSamples asked config samples self.new)) }
        ensures end { IfOk result (λ _. IfSome (I.remaining (device_of input.old))
            (λ _. IsAtEnd (I.remaining (device_of input.new)))) }
        ensures refuses { IfErr result (λ fault. fault ≢ JudgeFault.ReadSamples
            → (asked : AskedOf) (config : ConfigValue) → HasReadSamples asked config [] self.old
            → IfSome (I.remaining (device_of input.old))
            (λ samples. SamplesRefused asked config samples fault)) }
        ensures read { (result ≡ Err JudgeFault.ReadSamples) ↔ (has_failed input.new ≡ true) }
        ensures other { result ≢ Err JudgeFault.Read }
    {
        let mut piece = [0; SAMPLES_PIECE];
        for _piece in 0..u64::MAX {
            let count = match input.read_some(&mut piece) {
                Ok(count) => count,
                Err(_) => return Err(JudgeFault::ReadSamples),
            };
            if count == 0 {
                return Ok(());
            }
            self.read(piece.split_at(count).0)?;
        }
        Err(JudgeFault::Endless)
    }

    // Some bytes of samples.
    pub(crate) fn read(&mut self, bytes: &[u8]) -> Result<(), JudgeFault>
        ensures reads { IfOk result (λ _. (asked : AskedOf) (config : ConfigValue)
            (samples : List ℕ) → HasReadSamples asked config samples self.old
            → HasReadSamples asked config (samples ++ bytes.now) self.new) }
        ensures refuses { IfErr result (λ fault. (asked : AskedOf) (config : ConfigValue)
            (samples : List ℕ) → HasReadSamples asked config samples self.old
            → SamplesRefusedFrom asked config
            (samples ++ bytes.now) fault) }
        ensures config_device { result ≢ Err JudgeFault.Read }
        ensures data_device { result ≢ Err JudgeFault.ReadSamples }
    {
        let mut rest = bytes;
        while !rest.is_empty() {
            let taken = self.samples.read(rest)?;
            self.hearing.hear(taken.levels);
            rest = rest.split_at(taken.count).1;
        }
        Ok(())
    }

    // The samples have ended: the verdict.
    pub(crate) fn end(self, alloc: Global, asked: &Asked<'_>) -> Result<Judged, JudgeFault>
        requires { IsZoneOf asked.now.zone }
        ensures judged { IfOk result (λ judged. (config : ConfigValue) (samples : List ℕ)
            → HasReadSamples asked.now config samples self
            → JudgedSamples asked.now config samples judged) }
        ensures refuses { IfErr result (λ fault. (config : ConfigValue) (samples : List ℕ)
            → HasReadSamples asked.now config samples self
            → SamplesRefused asked.now config samples fault) }
        ensures config_device { result ≢ Err JudgeFault.Read }
        ensures data_device { result ≢ Err JudgeFault.ReadSamples }
    {
        let Record {
            names,
            config,
            samples,
            mut hearing,
        } = self;
        let end = samples.end()?;
        hearing.hear(end.levels);
        hearing.end(end.time_ns);
        let said = said_of_stamp(alloc, &config, asked, hearing.zero())?;
        let judged = hearing.judged(alloc, names.as_slice(), said.as_str())?;
        Ok(judged)
    }
}
