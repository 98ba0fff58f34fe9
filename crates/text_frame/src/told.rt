//! What a port tells of symbols, and its line.

ghost use Rattle.std.specs.Prelude.{◌≡◌, ◌≤◌, ◌++◌, length, string_bytes, OnOk};
ghost use Rattle.irig_time.specs.Seconds.{IsValid};
ghost use Rattle.irig_port.specs.Told.{IfClaim, told_of};
ghost use Rattle.text_frame.specs.Reading.{told_line};

use irig_frame::Symbol;
use irig_port::{FlowPort, Port, Told};
use irig_time::{Rules, push_text};
use std::alloc::AllocError;
use text_faults::push_fault;

/// What a port of these rules tells of these symbols, 101 of them at most.
pub(crate) fn told_by(rules: Rules, symbols: &[Symbol]) -> Told
    requires few { length symbols.now ≤ 101 }
    ensures told { result ≡ told_of rules symbols.now }
    ensures valid { IfClaim result (λ claim. IsValid claim.at) }
{
    let mut port = FlowPort::fresh(rules);
    for symbol in symbols {
        port.pulse(symbol.width_us());
    }
    port.edge()
}

/// Adds the line of what a port tells.
#[tactic(auto, unfolding(crate::specs::Reading::told_line))]
pub(crate) fn push_told(text: &mut String, told: Told) -> Result<(), AllocError>
    requires { IfClaim told (λ claim. IsValid claim.at) }
    ensures { OnOk result (string_bytes text.new ≡ string_bytes text.old ++ told_line told) }
{
    match told {
        Told::Silence => text.push_str("silence\n"),
        Told::Fault(fault) => {
            text.push_str("fault ")?;
            push_fault(text, " ", fault)?;
            text.push_str("\n")
        }
        Told::Poor(quality) => write!(text, "poor {quality}\n"),
        Told::Claim(claim) => {
            text.push_str("claim ")?;
            push_text(text, &claim.at)?;
            text.push_str(" ")?;
            text.push_str(claim.mark.word())?;
            text.push_str("\n")
        }
    }
}
