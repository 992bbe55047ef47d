//! The printer of what is reported of a client.

ghost use Rattle.std.specs.Prelude.{◌≡◌, ◌++◌, All, OnOk, map, string_bytes};
ghost use Rattle.std.specs.List.{flat_map};
ghost use Rattle.dhcp_wire.specs.Outcome.{Makes};
ghost use Rattle.dhcp4_client.specs.State.{plain_state};
ghost use Rattle.dhcp6_client.specs.State as v6;
ghost use Rattle.dhcp_output.specs.Output.{
  HasText,
  failure_text,
  message_text,
  output_line,
  outputs_text,
  plain_output,
  plain_report,
  report_text,
  state4_text,
  state6_text,
};

use crate::info::push_info_state;
use crate::{Output, OutputWhat, Reported};
use dhcp_clock::Handed;
use dhcp_script::field::FieldText;
use dhcp_script::{push_hex, push_lease4, push_lease6};
use dhcp_wire::{Bytes, DhcpError, ErrorKind};
use dhcp4_client::DhcpV4State;
use dhcp6_client::DhcpV6State;
use std::alloc::{AllocError, Global};

/// The text of these outputs: a line for each, and a last line `ok`. Each failure among them must
/// be `Timeout` or `IoError`, and the lease of each IPv6 state `Done` must have its `ia_type`; in
/// what a replay reports both are so. Out of memory is the only error.
#[tactic(auto, unfolding(crate::specs::Output::outputs_text))]
pub fn print_outputs(alloc: Global, outputs: &[Output]) -> Result<Bytes, DhcpError>
    requires { All HasText outputs.now }
    ensures { Makes (λ text. text) result (outputs_text (map plain_output outputs.now)) }
{
    let mut text = String::new(alloc);
    push_outputs(alloc, &mut text, outputs)?;
    text.push_str("ok\n")?;
    Ok(Bytes::from(text.into_bytes()))
}

/// Puts a line for each output at the end of a text. After an error, which is out of memory, a part
/// of them may be there. A failure of a kind other than `Timeout` is printed as `io_error`, and the
/// type of an IPv6 lease without its `ia_type` as `na`.
pub fn push_outputs(alloc: Global, text: &mut String, outputs: &[Output]) -> Result<(), AllocError>
    ensures { OnOk result (string_bytes text.new
        ≡ string_bytes text.old ++ flat_map output_line (map plain_output outputs.now)) }
{
    push_each(alloc, text, outputs)
}

// The same, output by output.
fn push_each(alloc: Global, text: &mut String, outputs: &[Output]) -> Result<(), AllocError>
    ensures { OnOk result (string_bytes text.new
        ≡ string_bytes text.old
        ++ flat_map (λ output. output_line (plain_output output)) outputs.now) }
{
    for output in outputs {
        push_output(alloc, text, output)?;
    }
    Ok(())
}

/// Puts the line of an output at the end of a text: the number of its event, and what is reported.
/// After an error, which is out of memory, a part of it may be there. A failure of a kind other
/// than `Timeout` is printed as `io_error`, and the type of an IPv6 lease without its `ia_type` as
/// `na`.
pub fn push_output(alloc: Global, text: &mut String, output: &Output) -> Result<(), AllocError>
    ensures { OnOk result (string_bytes text.new
        ≡ string_bytes text.old ++ output_line (plain_output output.now)) }
{
    output.event.push_to(text)?;
    text.push(' ')?;
    push_report(alloc, text, &output.what)?;
    text.push('\n')
}

// Puts what is reported at an event at the end of a text.
fn push_report(alloc: Global, text: &mut String, what: &OutputWhat) -> Result<(), AllocError>
    ensures { OnOk result (string_bytes text.new
        ≡ string_bytes text.old ++ report_text (plain_report what.now)) }
{
    match what {
        OutputWhat::Handed(message) => {
            text.push_str("handed ")?;
            push_message(text, message)
        }
        OutputWhat::Refused(message) => {
            text.push_str("refused ")?;
            push_message(text, message)
        }
        OutputWhat::Changed(Reported::V4(state)) => {
            text.push_str("state ")?;
            push_state(text, state)
        }
        OutputWhat::Changed(Reported::V6(state)) => {
            text.push_str("state ")?;
            push_state6(alloc, text, state)
        }
        OutputWhat::Changed(Reported::Info(state)) => {
            text.push_str("state ")?;
            push_info_state(alloc, text, state)
        }
        OutputWhat::Failed(kind) => {
            text.push_str("failed ")?;
            push_failure(text, *kind)
        }
    }
}

// Puts a message that was handed to the link at the end of a text, its bytes in hex. Of a message
// over UDP and IPv6 the address and the interface are left out.
fn push_message(text: &mut String, message: &Handed) -> Result<(), AllocError>
    ensures { OnOk result (string_bytes text.new
        ≡ string_bytes text.old ++ message_text message.now) }
{
    match message {
        Handed::Frame(bytes) => {
            text.push_str("frame ")?;
            push_hex(text, bytes.as_slice())
        }
        Handed::Udp4(from, to, bytes) => {
            text.push_str("udp4 ")?;
            from.push_to(text)?;
            text.push(' ')?;
            to.push_to(text)?;
            text.push(' ')?;
            push_hex(text, bytes.as_slice())
        }
        Handed::Udp6(_, _, bytes) => {
            text.push_str("udp6 ")?;
            push_hex(text, bytes.as_slice())
        }
    }
}

// Puts a state of an IPv4 client at the end of a text; `done` has the fields of the lease.
fn push_state(text: &mut String, state: &DhcpV4State) -> Result<(), AllocError>
    ensures { OnOk result (string_bytes text.new
        ≡ string_bytes text.old ++ state4_text (plain_state state.now)) }
{
    match state {
        DhcpV4State::Done(lease) => {
            text.push_str("done ")?;
            push_lease4(text, lease)
        }
        DhcpV4State::InitReboot => text.push_str("init_reboot"),
        DhcpV4State::Selecting => text.push_str("selecting"),
        DhcpV4State::Renewing => text.push_str("renewing"),
        DhcpV4State::Rebinding => text.push_str("rebinding"),
    }
}

// Puts a state of an IPv6 client at the end of a text; `done` has the fields of the lease.
fn push_state6(alloc: Global, text: &mut String, state: &DhcpV6State) -> Result<(), AllocError>
    ensures { OnOk result (string_bytes text.new
        ≡ string_bytes text.old ++ state6_text (v6.plain_state state.now)) }
{
    match state {
        DhcpV6State::Done(lease) => {
            text.push_str("done ")?;
            push_lease6(alloc, text, lease)
        }
        DhcpV6State::Solicit => text.push_str("solicit"),
        DhcpV6State::Request => text.push_str("request"),
        DhcpV6State::Renew => text.push_str("renew"),
        DhcpV6State::Rebind => text.push_str("rebind"),
    }
}

// Puts a failure at the end of a text: `timeout`, and `io_error` for every other kind.
fn push_failure(text: &mut String, kind: ErrorKind) -> Result<(), AllocError>
    ensures { OnOk result (string_bytes text.new
        ≡ string_bytes text.old ++ failure_text kind) }
{
    match kind {
        ErrorKind::Timeout => text.push_str("timeout"),
        _ => text.push_str("io_error"),
    }
}
