//! The events of a whole second.

ghost use Rattle.std.specs.Prelude.{◌≡◌, ◌++◌, OnOk, IfOk};
ghost use Rattle.irig_plant.specs.WholeSecond.{carries_to, carries, ticks, steps, second_of};

use irig_plant::Event;
use std::alloc::{AllocError, Global};

/// The events of one second of so many generators and readers: each frame comes to each reader,
/// each reader ticks, each generator goes to its next edge. Fails only if there is no memory.
pub fn second_of(alloc: Global, generators: u8, readers: u8) -> Result<Vec<Event>, AllocError>
    ensures { IfOk result (λ events. events.items ≡ second_of generators readers) }
{
    let mut events = Vec::new(alloc);
    push_carries(&mut events, generators, readers)?;
    push_ticks(&mut events, readers)?;
    push_steps(&mut events, generators)?;
    Ok(events)
}

#[tactic(auto, using(crate::proofs::SecondLaws::one_reader_more, std::proofs::lemmas::List::append_assoc))]
fn push_carries(events: &mut Vec<Event>, generators: u8, readers: u8) -> Result<(), AllocError>
    ensures { OnOk result (events.new.items ≡ events.old.items ++ carries generators readers) }
{
    for r in 0..readers {
        push_carries_to(events, generators, r)?;
    }
    Ok(())
}

#[tactic(auto, using(crate::proofs::SecondLaws::one_carry_more, std::proofs::lemmas::List::append_assoc))]
fn push_carries_to(events: &mut Vec<Event>, generators: u8, r: u8) -> Result<(), AllocError>
    ensures { OnOk result (events.new.items ≡ events.old.items ++ carries_to generators r) }
{
    for g in 0..generators {
        events.push(Event::Carry { g, r })?;
    }
    Ok(())
}

#[tactic(auto, using(crate::proofs::SecondLaws::one_tick_more, std::proofs::lemmas::List::append_assoc))]
fn push_ticks(events: &mut Vec<Event>, readers: u8) -> Result<(), AllocError>
    ensures { OnOk result (events.new.items ≡ events.old.items ++ ticks readers) }
{
    for r in 0..readers {
        events.push(Event::Tick(r))?;
    }
    Ok(())
}

#[tactic(auto, using(crate::proofs::SecondLaws::one_step_more, std::proofs::lemmas::List::append_assoc))]
fn push_steps(events: &mut Vec<Event>, generators: u8) -> Result<(), AllocError>
    ensures { OnOk result (events.new.items ≡ events.old.items ++ steps generators) }
{
    for g in 0..generators {
        events.push(Event::GenEdge(g))?;
    }
    Ok(())
}
