//! Lines after the plant line.

ghost use Rattle.std.specs.Prelude.{◌≡◌, ◌≤◌, IfOk, length};
ghost use Rattle.serde_json.specs.View.{view};
ghost use Rattle.scenario_json.specs.Fields.{natural_most};
ghost use Rattle.scenario_json.specs.Keys.{key_value, texts_of};
ghost use Rattle.text_faults.specs.Refusals.{IsUnlessMemory};
ghost use Rattle.scenario_values.specs.Forms.{g};
ghost use Rattle.scenario_line.specs.EventLine.{natural_or_refusal, reader_in, fault_of_form, command_of_form, command_in_object, command_in_line};

use indexmap::IndexSet;
use irig_gen::GenFault;
use irig_plant::{Event, Widths};
use scenario_json::{Key, has_form, integer_at, leap_at, natural_at, reader_at};
use scenario_values::{
    AT, Action, EDGE, EDGES_BY, FaultKind, G, HALF_HOURS_BY, LEAP, N, Q, R, WIDTH, WIDTHS,
    action_of, keys_of, naturals_at, value_of,
};
use serde_json::Value;
use std::alloc::Global;
use text_faults::{LineFault, Refusal};

/// What a line after the plant line asks for.
#[derive(Drop)]
pub enum Command {
    /// One event.
    Event(Event),
    /// So many whole seconds, 0 to 100,000, each with the events of
    /// [`second_of`](crate::second_of).
    Seconds(u32),
}

/// The number at a key of kind `Natural`; `Value` if there is none in its range.
pub fn number_at(key: Key, value: &Value) -> Result<u64, Refusal>
    ensures value { result ≡ natural_or_refusal (key_value key) (view value.now) }
    ensures most { IfOk result (λ n. n ≤ natural_most key.kind) }
{
    natural_at(key, value).ok_or(Refusal::Value)
}

/// The number of the generator at `g`; `Value` if it is not from 0 to 255.
pub fn generator_at(value: &Value) -> Result<u8, Refusal>
    ensures { result ≡ natural_or_refusal g (view value.now) }
{
    Ok(number_at(G, value)? as u8)
}

/// The place of the reader whose name stands at `r`, from 0 on among at most 16 `names`;
/// `NoSuchReader` if none has it.
pub fn reader_in(names: &IndexSet<String>, value: &Value) -> Result<u8, Refusal>
    requires { length names.now.keys ≤ 16 }
    ensures { result ≡ reader_in (texts_of names.now.keys) (view value.now) }
{
    reader_at(names, R, value).ok_or(Refusal::NoSuchReader)
}

/// The fault of this kind that a line sets; `Value` if what stands in the line is out of its range.
pub fn fault_of_form(kind: FaultKind, value: &Value) -> Result<GenFault, Refusal>
    ensures { result ≡ fault_of_form kind (view value.now) }
{
    let fault = match kind {
        FaultKind::Silent => GenFault::Silent,
        FaultKind::Stuck => GenFault::Stuck,
        FaultKind::Skew => GenFault::Skew(integer_at(EDGES_BY, value).ok_or(Refusal::Value)?),
        FaultKind::NoPending => GenFault::NoPending,
        FaultKind::FalsePending => {
            GenFault::FalsePending(leap_at(LEAP, value).ok_or(Refusal::Value)?)
        }
        FaultKind::Quality => GenFault::Quality(number_at(Q, value)? as u8),
        FaultKind::WrongOffset => {
            GenFault::WrongOffset(integer_at(HALF_HOURS_BY, value).ok_or(Refusal::Value)? as i8)
        }
    };
    Ok(fault)
}

fn raw_of_form(alloc: Global, names: &IndexSet<String>, value: &Value) -> Result<Command, LineFault>
    requires { length names.now.keys ≤ 16 }
    ensures { IsUnlessMemory (λ c. c)
        (command_of_form (texts_of names.now.keys) Action.Raw (view value.now)) result }
{
    Ok(Command::Event(Event::Raw {
        g: generator_at(value)?,
        widths: Widths::from_vec(naturals_at(alloc, WIDTHS, value)?),
        r: reader_in(names, value)?,
    }))
}

fn command_of_form(
    alloc: Global,
    names: &IndexSet<String>,
    action: Action,
    value: &Value,
) -> Result<Command, LineFault>
    requires { length names.now.keys ≤ 16 }
    ensures { IsUnlessMemory (λ c. c)
        (command_of_form (texts_of names.now.keys) action (view value.now)) result }
{
    let event = match action {
        Action::Raw => return raw_of_form(alloc, names, value),
        Action::Seconds => return Ok(Command::Seconds(number_at(N, value)? as u32)),
        Action::Carry => Event::Carry {
            g: generator_at(value)?,
            r: reader_in(names, value)?,
        },
        Action::Damage => Event::Damage {
            g: generator_at(value)?,
            at: number_at(AT, value)? as u8,
            width: number_at(WIDTH, value)? as u32,
            r: reader_in(names, value)?,
        },
        Action::Replay => Event::Replay {
            g: generator_at(value)?,
            edge: number_at(EDGE, value)?,
            r: reader_in(names, value)?,
        },
        Action::Fault(kind) => Event::Fault {
            g: generator_at(value)?,
            kind: fault_of_form(kind, value)?,
        },
        Action::Tick => Event::Tick(reader_in(names, value)?),
        Action::Step => Event::GenEdge(generator_at(value)?),
        Action::Repair => Event::Repair(generator_at(value)?),
        Action::Restart => Event::Restart(reader_in(names, value)?),
    };
    Ok(Command::Event(event))
}

#[tactic(auto, unfolding(crate::specs::EventLine::command_in_object))]
fn command_in_object(
    alloc: Global,
    names: &IndexSet<String>,
    value: &Value,
) -> Result<Command, LineFault>
    requires { length names.now.keys ≤ 16 }
    ensures { IsUnlessMemory (λ c. c)
        (command_in_object (texts_of names.now.keys) (view value.now)) result }
{
    let action = action_of(value).ok_or(Refusal::Shape)?;
    if !has_form(keys_of(action), value) {
        return Err(LineFault::Refused(Refusal::Shape));
    }
    command_of_form(alloc, names, action, value)
}

/// What a line after the plant line asks for, by the names of the plant's readers in order, at most
/// 16.
///
/// `Refused` with the first reason in the order of docs/FAULTS.md, `Memory` if there was
/// none.
#[tactic(auto, unfolding(crate::specs::EventLine::command_in_line))]
pub fn event_of_line(
    alloc: Global,
    names: &IndexSet<String>,
    line: &[u8],
) -> Result<Command, LineFault>
    requires { length names.now.keys ≤ 16 }
    ensures { IsUnlessMemory (λ x. x) (command_in_line (texts_of names.now.keys) line.now) result }
{
    let value = value_of(alloc, line)?;
    command_in_object(alloc, names, &value)
}
