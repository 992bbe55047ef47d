//! A packet as the awaited answer, RFC 2131 sections 3.1 and 4.4. It is tested in the bytes that it
//! was received in: its carrier and its port, its transaction id, its type; only a packet that may
//! answer is copied.

ghost use Rattle.std.specs.Prelude.{◌≡◌, IfErr, IfOk, None, Ok, Some, false, is_some};
ghost use Rattle.dhcp_wire.specs.Error.{no_memory};
ghost use Rattle.dhcp_wire.specs.Outcome.{Finds};
ghost use Rattle.dhcp_clock.specs.Words.{DrawsBy};
ghost use Rattle.dhcp_history.specs.Rules.{GivesDrawn};
ghost use Rattle.dhcp4_lease.specs.Lease.{read_lease};
ghost use Rattle.dhcp4_client.specs.Answer as answers;
ghost use Rattle.dhcp4_client.specs.Message.{renewal_server};

use crate::boxed_lease::BoxedLease;
use crate::client_state::ClientState;
use crate::message::{CLIENT_PORT, renewal_server};
use dhcp_clock::{Packet, PacketKind, Words};
use dhcp_frame::FrameView;
use dhcp_wire::{DhcpError, none_if_refused};
use dhcp4_lease::{DhcpV4Lease, DhcpV4MessageForms};
use dhcp4_msg::{DhcpV4MessageType, DhcpV4View};
use std::alloc::Global;
use std::net::Ipv4Addr;

/// What a packet answers.
#[derive(Drop)]
pub enum Answer {
    /// A server offers or grants this lease.
    Granted(BoxedLease),
    /// A server refuses the request.
    Refused,
}

/// What an open attempt awaits.
#[derive(Clone, Copy, Debug, PartialEq, Eq)]
pub struct Awaited {
    /// Whether the answer comes in a frame or as a payload.
    pub carrier: PacketKind,
    /// The type of the message that offers or grants a lease.
    pub grant: DhcpV4MessageType,
    /// Whose Nack refuses the request.
    pub refuser: Refuser,
}

/// Who may refuse a request, by a Nack.
#[derive(Clone, Copy, Debug, PartialEq, Eq)]
pub enum Refuser {
    /// Nobody: a search is not refused.
    Nobody,
    /// Any server.
    AnyServer,
    /// The server with this identifier, option 54 (RFC 2132, section 9.7).
    Server(Ipv4Addr),
}

impl Refuser {
    // Who may refuse a request of this offer or lease: by RFC 2131 section 3.1 the server that is
    // asked, or that granted the lease; if none is known by name, any server, as by mozim.
    fn of(forms: DhcpV4MessageForms, lease: &DhcpV4Lease) -> Refuser
        ensures { result ≡ answers.refuser_of forms lease.now }
    {
        match forms {
            DhcpV4MessageForms::Mozim => Refuser::AnyServer,
            DhcpV4MessageForms::Rfc2131 if lease.srv_id.is_unspecified() => Refuser::AnyServer,
            DhcpV4MessageForms::Rfc2131 => Refuser::Server(lease.srv_id),
        }
    }

    /// Whether a message is a Nack of one who may refuse.
    pub fn sends(self, message: &DhcpV4View) -> bool
        ensures { result ≡ answers.is_refusal self message.now }
    {
        match self {
            Refuser::Nobody => false,
            Refuser::AnyServer => is_of_type(DhcpV4MessageType::Nack, message),
            Refuser::Server(server) => {
                is_of_type(DhcpV4MessageType::Nack, message) && is_from(server, message)
            }
        }
    }
}

impl Awaited {
    /// What a state awaits. In REBOOTING any server may refuse: none is asked by name (RFC 2131,
    /// section 3.2).
    pub fn in_state(forms: DhcpV4MessageForms, state: &ClientState) -> Option<Awaited>
        ensures { result ≡ answers.awaited forms state.now }
    {
        match state {
            ClientState::InitReboot => Some(Awaited {
                carrier: PacketKind::Frame,
                grant: DhcpV4MessageType::Offer,
                refuser: Refuser::Nobody,
            }),
            ClientState::Selecting(offer) => {
                Some(Awaited::ack_in(PacketKind::Frame, Refuser::of(forms, offer)))
            }
            ClientState::Rebooting(_) => {
                Some(Awaited::ack_in(PacketKind::Frame, Refuser::AnyServer))
            }
            ClientState::Done(_) => None,
            ClientState::Renewing(bound) => Some(Awaited::renewed(forms, bound.lease())),
            ClientState::Rebinding(bound) => {
                Some(Awaited::ack_in(PacketKind::Frame, Refuser::of(forms, bound.lease())))
            }
        }
    }

    // The answer to a renewal of this lease: it is carried as the renewal is.
    fn renewed(forms: DhcpV4MessageForms, lease: &DhcpV4Lease) -> Awaited
        ensures { result ≡ answers.ack_in
            (answers.renewal_carrier (renewal_server forms lease.now))
            (answers.refuser_of forms lease.now) }
    {
        let carrier = match renewal_server(forms, lease) {
            None => PacketKind::Frame,
            Some(_) => PacketKind::Payload,
        };
        Awaited::ack_in(carrier, Refuser::of(forms, lease))
    }

    // An Ack, carried so, or a Nack.
    fn ack_in(carrier: PacketKind, refuser: Refuser) -> Awaited
        ensures { result ≡ answers.ack_in carrier refuser }
    {
        Awaited {
            carrier,
            grant: DhcpV4MessageType::Ack,
            refuser,
        }
    }
}

/// What a packet answers to an attempt with this transaction id, if it answers. Out of memory is
/// the only error, and comes only of a packet that may answer.
pub fn read_answer<W: Words>(
    alloc: Global,
    awaited: Awaited,
    xid: u32,
    packet: &Packet,
    words: &mut W,
) -> Result<Option<Answer>, DhcpError>
    ensures drawn { IfOk result (λ answer. GivesDrawn
        (answers.reading_of (Some awaited) (answers.message_for (Some awaited) xid packet.now))
        (W.left words.old) answer (W.left words.new)) }
    ensures taken { IfOk result (λ answer. DrawsBy W.gives
        (answers.reading_of (Some awaited) (answers.message_for (Some awaited) xid packet.now))
        words.old answer words.new) }
    ensures error { IfErr result (λ error. error ≡ no_memory) }
    ensures free { is_some (answers.message_for (Some awaited) xid packet.now) ≡ false →
        result ≡ Ok None }
{
    let Some(payload) = payload_in(awaited.carrier, packet) else {
        return Ok(None);
    };
    let Some(view) = DhcpV4View::new(payload) else {
        return Ok(None);
    };
    if !concerns(awaited, xid, &view) {
        return Ok(None);
    }
    answer_of(alloc, awaited, &view, words)
}

/// The payload of a packet that is carried so, to the port of a client.
pub fn payload_in(carrier: PacketKind, packet: &Packet) -> Option<&[u8]>
    ensures { Finds (λ bytes. bytes.now) result (answers.payload_in carrier packet.now) }
{
    if packet.kind != carrier {
        return None;
    }
    let bytes = packet.bytes.as_slice();
    match carrier {
        PacketKind::Frame => payload_of_frame(bytes),
        PacketKind::Payload => Some(bytes),
    }
}

// The payload of a frame to the port of a client.
fn payload_of_frame(bytes: &[u8]) -> Option<&[u8]>
    ensures { Finds (λ bytes. bytes.now) result (answers.framed_payload bytes.now) }
{
    let frame = FrameView::new(bytes)?;
    if frame.dst_port() == CLIENT_PORT {
        Some(frame.payload())
    } else {
        None
    }
}

// Whether a message has the transaction id, and the type that is awaited or that of a refusal.
fn concerns(awaited: Awaited, xid: u32, message: &DhcpV4View) -> bool
    ensures { result ≡ answers.concerns awaited xid message.now }
{
    message.xid() == xid && (is_of_type(awaited.grant, message) || awaited.refuser.sends(message))
}

// Whether a message is from the server with this identifier.
fn is_from(server: Ipv4Addr, message: &DhcpV4View) -> bool
    ensures { result ≡ answers.is_from server message.now }
{
    message.server_identifier() == Some(server)
}

/// Whether a message is of this type.
#[tactic(auto, unfolding(dhcp4_msg::specs::MessageType::type_number))]
pub fn is_of_type(kind: DhcpV4MessageType, message: &DhcpV4View) -> bool
    ensures { result ≡ answers.is_of_type kind message.now }
{
    message.message_type() == Some(kind)
}

// What a message answers that may answer: a refusal, or the lease that it grants.
fn answer_of<W: Words>(
    alloc: Global,
    awaited: Awaited,
    message: &DhcpV4View,
    words: &mut W,
) -> Result<Option<Answer>, DhcpError>
    ensures drawn { IfOk result (λ answer. GivesDrawn (answers.answer_of awaited message.now)
        (W.left words.old) answer (W.left words.new)) }
    ensures taken { IfOk result (λ answer. DrawsBy W.gives (answers.answer_of awaited message.now)
        words.old answer words.new) }
    ensures error { IfErr result (λ error. error ≡ no_memory) }
{
    if !is_of_type(awaited.grant, message) {
        return Ok(Some(Answer::Refused));
    }
    let lease = lease_of(alloc, message, words)?;
    Ok(lease.map(Answer::Granted))
}

/// The lease that a message grants, if it grants one. Out of memory is the only error.
pub fn lease_of<W: Words>(
    alloc: Global,
    message: &DhcpV4View,
    words: &mut W,
) -> Result<Option<BoxedLease>, DhcpError>
    ensures drawn { IfOk result (λ lease. GivesDrawn (read_lease message.now)
        (W.left words.old) lease (W.left words.new)) }
    ensures taken { IfOk result (λ lease. DrawsBy W.gives (read_lease message.now)
        words.old lease words.new) }
    ensures error { IfErr result (λ error. error ≡ no_memory) }
{
    let message = message.to_message(alloc)?;
    match DhcpV4Lease::from_message(alloc, message, words) {
        Ok(lease) => Ok(Some(BoxedLease::new(alloc, lease)?)),
        Err(error) => none_if_refused(Err(error)),
    }
}
