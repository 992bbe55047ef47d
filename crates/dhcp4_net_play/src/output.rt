//! The text of what is reported of a network.

ghost use Rattle.std.specs.Prelude.{◌≡◌, ◌∷◌, ◌++◌, OnOk, string_bytes};
ghost use Rattle.std.specs.Fmt.{decimal};
ghost use Rattle.std.specs.List.{flat_map};
ghost use Rattle.dhcp_wire.specs.Outcome.{Makes};
ghost use Rattle.dhcp_stream.specs.Line.{line};
ghost use Rattle.dhcp4_net_play.specs.Output.{output_line, outputs_text};

use dhcp_script::field::FieldText;
use dhcp_wire::{Bytes, DhcpError};
use dhcp4_net::{NetOutput, NetWhat};
use std::alloc::{AllocError, Global};

/// The text of what is reported of a network: a line for each output, and `ok`. Out of memory is
/// the only error.
#[tactic(auto, unfolding(crate::specs::Output::outputs_text))]
pub fn print_net_outputs(alloc: Global, outputs: &[NetOutput]) -> Result<Bytes, DhcpError>
    ensures { Makes (λ text. text) result (outputs_text outputs.now) }
{
    let mut text = String::new(alloc);
    push_outputs(&mut text, outputs)?;
    text.push_str("ok\n")?;
    Ok(Bytes::from(text.into_bytes()))
}

// Puts the lines of outputs at the end of a text.
fn push_outputs(text: &mut String, outputs: &[NetOutput]) -> Result<(), AllocError>
    ensures { OnOk result (string_bytes text.new
        ≡ string_bytes text.old ++ flat_map output_line outputs.now) }
{
    for output in outputs {
        push_output(text, output)?;
    }
    Ok(())
}

// Puts the line of an output at the end of a text.
fn push_output(text: &mut String, output: &NetOutput) -> Result<(), AllocError>
    ensures { OnOk result (string_bytes text.new
        ≡ string_bytes text.old ++ output_line output.now) }
{
    let event = output.event;
    match output.what {
        NetWhat::Sent(packet) => write!(text, "{event} sent {packet}\n"),
        NetWhat::Hold(client, address, from, until) => {
            write!(text, "{event} hold {client} ")?;
            address.push_to(text)?;
            push_span(text, from, until)
        }
        NetWhat::Failed(client) => write!(text, "{event} failed {client} io_error\n"),
    }
}

// Puts the two moments of a hold at the end of a text, and ends its line.
fn push_span(text: &mut String, from: u64, until: u64) -> Result<(), AllocError>
    ensures { OnOk result (string_bytes text.new ≡ string_bytes text.old
        ++ line (32 ∷ (decimal from ++ 32 ∷ decimal until))) }
{
    write!(text, " {from} {until}\n")
}
