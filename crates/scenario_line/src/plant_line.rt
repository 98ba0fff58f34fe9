//! A plant line: from its bytes to what a plant is made of.

ghost use Rattle.std.specs.Prelude.{◌≡◌, ◌⊎◌, ◌≤◌, All, IfOk, length, vec_len, map, Ok};
ghost use Rattle.serde_json.specs.View.{view};
ghost use Rattle.irig_time.specs.Timelines.{times};
ghost use Rattle.irig_reader.specs.Rules.{IsReaderRules};
ghost use Rattle.irig_plant.specs.History.{AreGenerators, AreReaders};
ghost use Rattle.scenario_json.specs.Keys.{texts_of};
ghost use Rattle.text_faults.specs.Refusals.{IsUnlessMemory};
ghost use Rattle.scenario_line.specs.PlantLine.{IsMadeUnlessMemory, first_of, timeline_refusal, generator_refusal, reader_refusal, generator_with, reader_with, values_refusal, setup_with, setup_of, plan_in_object, plan_in_line, plan_of};

use indexmap::IndexSet;
use irig_gen::Generator;
use irig_plant::ReaderSetup;
use irig_time::{LeapTable, Rules, Timeline};
use scenario_json::whole_at;
use scenario_values::{
    GeneratorValues, PlantValues, ReaderValues, VERSION, is_plant, names_of, value_of, values_of,
    version_of,
};
use serde_json::Value;
use std::alloc::Global;
use text_faults::{LineFault, Refusal};

/// What a plant is made of, none of it refused, and the names of its readers.
#[derive(Drop)]
pub struct BuiltPlant {
    /// The true seconds, from that of edge 0 on.
    pub timeline: Timeline,
    /// The generators, at edge 0 and without fault.
    pub generators: Vec<Generator>,
    /// How all frames are written and read.
    pub rules: Rules,
    /// The readers, with their tables.
    pub readers: Vec<ReaderSetup>,
    /// The readers' names, in the same order, none twice.
    pub names: IndexSet<String>,
}

/// The plant of a plant line: three or five generators, 1 to 16 readers, and as many names.
///
/// `Refused` with the first reason in the order of docs/FAULTS.md, `Memory` if there was
/// none.
#[tactic(auto, unfolding(crate::specs::PlantLine::plan_in_line))]
pub fn plant_of_line(alloc: Global, line: &[u8]) -> Result<BuiltPlant, LineFault>
    ensures plan { IsUnlessMemory plan_of (plan_in_line line.now) result }
    ensures generators { IfOk result (λ plant. AreGenerators plant.rules plant.generators.items) }
    ensures readers { IfOk result (λ plant. AreReaders plant.readers.items) }
    ensures names { IfOk result (λ plant. length plant.names.keys ≡ vec_len plant.readers) }
{
    let value = value_of(alloc, line)?;
    plant_of_value(alloc, &value)
}

#[tactic(auto, unfolding(crate::specs::PlantLine::plan_in_object))]
fn plant_of_value(alloc: Global, value: &Value) -> Result<BuiltPlant, LineFault>
    ensures plan { IsUnlessMemory plan_of (plan_in_object (view value.now)) result }
    ensures generators { IfOk result (λ plant. AreGenerators plant.rules plant.generators.items) }
    ensures readers { IfOk result (λ plant. AreReaders plant.readers.items) }
    ensures names { IfOk result (λ plant. length plant.names.keys ≡ vec_len plant.readers) }
{
    value.as_object().ok_or(Refusal::Shape)?;
    let number = whole_at(value, VERSION.name).ok_or(Refusal::Shape)?;
    let version = version_of(number).ok_or(Refusal::Version)?;
    if !is_plant(version, value) {
        return Err(LineFault::Refused(Refusal::Shape));
    }
    let values = values_of(alloc, version, value)?;
    let names = names_of(alloc, value)?;
    plant_with(alloc, &values, names)
}

fn plant_with(
    alloc: Global,
    values: &PlantValues,
    names: IndexSet<String>,
) -> Result<BuiltPlant, LineFault>
    requires count { (length values.now.generators ≡ 3) ⊎ (length values.now.generators ≡ 5) }
    requires range { All (λ x. IsReaderRules x.rules) values.now.readers }
    requires least { 1 ≤ length values.now.readers }
    requires most { length values.now.readers ≤ 16 }
    ensures made { IsMadeUnlessMemory setup_of
        (values_refusal values.now) (setup_with values.now) result }
    ensures generators { IfOk result (λ plant. AreGenerators plant.rules plant.generators.items) }
    ensures readers { IfOk result (λ plant. AreReaders plant.readers.items) }
    ensures count { IfOk result (λ plant. vec_len plant.readers ≡ length values.now.readers) }
    ensures names { IfOk result (λ plant. plant.names ≡ names) }
{
    let timeline = make_timeline(alloc, values)?;
    let generators = make_generators(alloc, values.rules, &values.generators)?;
    let readers = make_readers(alloc, &values.readers)?;
    Ok(BuiltPlant {
        timeline,
        generators,
        rules: values.rules,
        readers,
        names,
    })
}

/// The timeline of a plant line's values.
///
/// `Refused` with the first reason of docs/FAULTS.md from 11 to 14, `Memory` if there was none.
pub fn make_timeline(alloc: Global, values: &PlantValues) -> Result<Timeline, LineFault>
    ensures { IsMadeUnlessMemory (λ t. t)
        (timeline_refusal values.now) (times values.now.start values.now.leaps) result }
{
    Ok(Timeline::new(alloc, values.start, &values.leaps)?)
}

/// The generators of a plant line's values, at edge 0 and without fault.
///
/// `Refused` with the first reason, 15 or 16, `Memory` if there was none.
pub fn make_generators(
    alloc: Global,
    rules: Rules,
    values: &[GeneratorValues],
) -> Result<Vec<Generator>, LineFault>
    ensures { IsMadeUnlessMemory (λ v. v.items)
        (first_of (map generator_refusal values.now))
        (map (generator_with rules) values.now) result }
{
    let mut generators = Vec::new(alloc);
    for value in values {
        generators.push(make_generator(alloc, rules, value)?)?;
    }
    Ok(generators)
}

fn make_generator(
    alloc: Global,
    rules: Rules,
    value: &GeneratorValues,
) -> Result<Generator, LineFault>
    ensures { IsMadeUnlessMemory (λ g. g)
        (generator_refusal value.now) (generator_with rules value.now) result }
{
    Ok(Generator::new(alloc, value.zone, &value.changes, rules)?)
}

fn make_readers(alloc: Global, values: &[ReaderValues]) -> Result<Vec<ReaderSetup>, LineFault>
    ensures { IsMadeUnlessMemory (λ v. v.items)
        (first_of (map reader_refusal values.now)) (map reader_with values.now) result }
{
    let mut readers = Vec::new(alloc);
    for value in values {
        readers.push(make_reader(value)?)?;
    }
    Ok(readers)
}

/// What a reader of these values is made of.
///
/// `Refused` with the first reason of docs/FAULTS.md from 31 to 34.
pub fn make_reader(value: &ReaderValues) -> Result<ReaderSetup, LineFault>
    ensures { IsMadeUnlessMemory (λ r. r)
        (reader_refusal value.now) (reader_with value.now) result }
{
    let table = LeapTable::new(value.until, &value.leaps).map_err(Refusal::from)?;
    Ok(ReaderSetup {
        rules: value.rules,
        table,
    })
}
