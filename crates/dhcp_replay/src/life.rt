//! What the lives of all clients share: the events that come to a client, and the
//! outputs of what it reports.

ghost use Rattle.std.specs.Prelude.{◌≡◌, ◌≤◌, IfErr, IfOk, is_ok, length, map};
ghost use Rattle.dhcp_output.specs.Output.{plain_output, plain_report};
ghost use Rattle.dhcp_script.specs.Event.{are_valid as are_within_limits};
ghost use Rattle.dhcp_replay.specs.Life as lives;

use dhcp_clock::{Handed, Packet, PacketKind};
use dhcp_history::{Failure, Input, NumberedEvent, NumberedReport, Report, StateReport};
use dhcp_output::{Output, OutputWhat, Reported};
use dhcp_script::{Event, EventWhat, are_valid};
use dhcp_wire::{Bytes, DhcpError, ErrorKind, FixedText, Sequence};
use dhcp4_client::DhcpV4State;
use dhcp6_client::DhcpV6State;
use dhcp6_info::DhcpV6InfoState;
use std::alloc::{AllocError, Global};

/// A state as a client of one protocol reports it.
pub trait FamilyState: Drop {
    ghost use Rattle.std.specs.Prelude.{◌≡◌};
    ghost use Rattle.dhcp_output.specs.Output.{PlainReport, plain_report};
    ghost use Rattle.dhcp_output.specs.declared.output.OutputWhat.TheVariants.{Changed};

    /// What is reported of a client that comes to it.
    ghost changed: { Self → PlainReport };

    /// The state, by its protocol.
    fn into_reported(self) -> Reported
        ensures { plain_report (Changed result) ≡ changed self };
}

impl FamilyState for StateReport<DhcpV4State> {
    ghost use Rattle.dhcp_output.specs.Output.{changed_v4};

    ghost changed = { changed_v4 };

    fn into_reported(self) -> Reported {
        Reported::V4(self.into_state())
    }
}

impl FamilyState for StateReport<DhcpV6State> {
    ghost use Rattle.dhcp_output.specs.Output.{changed_v6};

    ghost changed = { changed_v6 };

    fn into_reported(self) -> Reported {
        Reported::V6(self.into_state())
    }
}

impl FamilyState for StateReport<DhcpV6InfoState> {
    ghost use Rattle.dhcp_output.specs.Output.{changed_info};

    ghost changed = { changed_info };

    fn into_reported(self) -> Reported {
        Reported::Info(self.into_state())
    }
}

// Whether a start and events are within the limits of a script; the error says that they are not.
pub(crate) fn check_events(start: u64, events: &[Event]) -> Result<(), DhcpError>
    ensures within { is_ok result ≡ are_within_limits start events.now }
    ensures refused { IfErr result (λ error. error.kind ≡ ErrorKind.InvalidArgument) }
{
    if are_valid(start, events) {
        Ok(())
    } else {
        Err(DhcpError::new_fixed(ErrorKind::InvalidArgument, FixedText::Script))
    }
}

/// The events by their numbers, from 1 on.
pub fn numbered(alloc: Global, events: &[Event]) -> Result<Vec<NumberedEvent<Packet>>, AllocError>
    requires { length events.now ≤ 20000 }
    ensures { IfOk result (λ made. made.items ≡ lives.numbered 1 events.now) }
{
    let mut made = Vec::new(alloc);
    let mut number = 1u32;
    for event in events {
        made.push(numbered_event(alloc, number, event)?)?;
        number += 1;
    }
    Ok(made)
}

/// A copy of an event, by its number. Out of memory is the only error.
pub fn numbered_event(
    alloc: Global,
    number: u32,
    event: &Event,
) -> Result<NumberedEvent<Packet>, AllocError>
    ensures { IfOk result (λ made. made ≡ lives.numbered_event number event.now) }
{
    let copy = Event {
        moment: event.moment,
        refuse: event.refuse,
        what: copy_of(alloc, &event.what)?,
    };
    Ok(into_numbered(number, copy))
}

/// An event by its number.
pub fn into_numbered(number: u32, event: Event) -> NumberedEvent<Packet>
    ensures { result ≡ lives.numbered_event number event }
{
    NumberedEvent {
        number,
        moment: event.moment,
        refuse: event.refuse,
        input: input_of(event.what),
    }
}

// A copy of what happens at an event.
fn copy_of(alloc: Global, what: &EventWhat) -> Result<EventWhat, AllocError>
    ensures { IfOk result (λ copy. copy ≡ what.now) }
{
    match what {
        EventWhat::Nothing => Ok(EventWhat::Nothing),
        EventWhat::Frame(bytes) => Ok(EventWhat::Frame(copied_bytes(alloc, bytes)?)),
        EventWhat::Payload(bytes) => Ok(EventWhat::Payload(copied_bytes(alloc, bytes)?)),
        EventWhat::Release => Ok(EventWhat::Release),
        EventWhat::CleanUp => Ok(EventWhat::CleanUp),
    }
}

// A copy of bytes.
fn copied_bytes(alloc: Global, bytes: &Bytes) -> Result<Bytes, AllocError>
    ensures { IfOk result (λ copy. copy ≡ bytes.now) }
{
    Ok(Bytes::from(bytes.as_slice().to_vec(alloc)?))
}

// What an event brings to the client.
fn input_of(what: EventWhat) -> Input<Packet>
    ensures { result ≡ lives.input_of what }
{
    match what {
        EventWhat::Nothing => Input::Nothing,
        EventWhat::Frame(bytes) => arrival(PacketKind::Frame, bytes),
        EventWhat::Payload(bytes) => arrival(PacketKind::Payload, bytes),
        EventWhat::Release => Input::Release,
        EventWhat::CleanUp => Input::CleanUp,
    }
}

/// A copy of the packet that an event brings to the client, if it brings one. Out of memory is the
/// only error.
pub fn arrival_of(alloc: Global, what: &EventWhat) -> Result<Option<Packet>, AllocError>
    ensures { IfOk result (λ packet. packet ≡ lives.arrival_of what.now) }
{
    match input_of(copy_of(alloc, what)?) {
        Input::Arrival(packet) => Ok(Some(packet)),
        Input::Nothing | Input::Release | Input::CleanUp => Ok(None),
    }
}

// A packet that comes in.
fn arrival(kind: PacketKind, bytes: Bytes) -> Input<Packet>
    ensures { result ≡ Input.Arrival (record { kind = kind; bytes = bytes }) }
{
    Input::Arrival(Packet { kind, bytes })
}

/// What was reported, as outputs of a script.
pub fn outputs_of<S: FamilyState>(
    alloc: Global,
    reported: Vec<NumberedReport<S, Handed>>,
) -> Result<Sequence<Output>, AllocError>
    ensures { IfOk result (λ outputs.
        map plain_output outputs ≡ map (lives.output_of S.changed) reported.items) }
{
    let mut outputs = Vec::new(alloc);
    for report in reported {
        outputs.push(output_of(report))?;
    }
    Ok(Sequence::from(outputs))
}

/// What was reported, as an output of a script.
pub fn output_of<S: FamilyState>(reported: NumberedReport<S, Handed>) -> Output
    ensures { plain_output result ≡ lives.output_of S.changed reported }
{
    Output {
        event: reported.event,
        what: what_of(reported.report),
    }
}

// What is reported.
fn what_of<S: FamilyState>(report: Report<S, Handed>) -> OutputWhat
    ensures { plain_report result ≡ lives.report_of S.changed report }
{
    match report {
        Report::Handed(message) => OutputWhat::Handed(message),
        Report::Refused(message) => OutputWhat::Refused(message),
        Report::Changed(state) => OutputWhat::Changed(state.into_reported()),
        Report::Failed(Failure::TimedOut) => OutputWhat::Failed(ErrorKind::Timeout),
        Report::Failed(Failure::SendRefused) => OutputWhat::Failed(ErrorKind::IoError),
    }
}
