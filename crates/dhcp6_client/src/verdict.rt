//! What a packet is to a client as it stands, RFC 8415 sections 16.3, 16.10 and 18.2.10. It is
//! tested in the bytes that it was received in; only a message that may answer is copied.

ghost use Rattle.std.specs.Prelude.{◌≡◌, IfErr, IfOk, OnErr, Some, is_some, true};
ghost use Rattle.dhcp_wire.specs.Error.{no_memory};
ghost use Rattle.dhcp_verdict.specs.OpenAttempt.{is_open};
ghost use Rattle.dhcp6_msg.specs.Lease.{read_lease};
ghost use Rattle.dhcp6_client.specs.Answer as answers;
ghost use Rattle.dhcp6_client.specs.Rules.{may_answer, protocol};
ghost use Rattle.dhcp6_client.specs.Verdict as verdicts;

use crate::answer::awaited_type;
use crate::client_state::{ClientState, Exchange};
use crate::rules::ClientRules;
use dhcp_clock::Packet;
use dhcp_history::Client;
use dhcp_verdict::{PacketVerdict, is_open};
use dhcp_wire::{DhcpError, ErrorKind};
use dhcp6_msg::{DhcpV6Lease, DhcpV6Message, DhcpV6MessageType, DhcpV6View, payload_in};
use std::alloc::Global;

/// What a packet is, with the type of its message.
pub type Verdict = PacketVerdict<DhcpV6MessageType>;

/// What a packet is to a client as it stands at a moment, in milliseconds. Out of memory is the
/// only error, and comes only of a packet that may answer.
pub fn packet_verdict(
    rules: &ClientRules,
    client: &Client<ClientState, Exchange>,
    now: u64,
    packet: &Packet,
) -> Result<Verdict, DhcpError>
    ensures found { IfOk result (λ found.
        found ≡ verdicts.packet_verdict rules.now.config client.now now packet.now) }
    ensures error { IfErr result (λ error. error ≡ no_memory) }
    ensures listening { OnErr result (is_open (protocol rules.now.config) now client.now ≡ true) }
    ensures needed { OnErr result (may_answer
        client.now.state client.now.standing.exchange packet.now ≡ true) }
{
    if !is_open(rules, client, now) {
        return Ok(PacketVerdict::NoOpenAttempt);
    }
    let Some(kind) = awaited_type(&client.state) else {
        return Ok(PacketVerdict::NoOpenAttempt);
    };
    verdict_of_packet(rules.alloc, kind, client.standing.exchange.xid, packet)
}

// What a packet is to an attempt with this transaction id, which awaits this type.
fn verdict_of_packet(
    alloc: Global,
    kind: DhcpV6MessageType,
    xid: u32,
    packet: &Packet,
) -> Result<Verdict, DhcpError>
    ensures found { IfOk result (λ found.
        found ≡ verdicts.verdict_of_packet kind xid packet.now) }
    ensures error { IfErr result (λ error. error ≡ no_memory) }
    ensures needed { OnErr result
        (is_some (answers.message_for (Some kind) xid packet.now) ≡ true) }
{
    let Some(payload) = payload_in(packet) else {
        return Ok(PacketVerdict::OtherCarrier);
    };
    let Some(view) = DhcpV6View::new(payload) else {
        return Ok(PacketVerdict::NoMessage);
    };
    if view.xid() != xid {
        return Ok(PacketVerdict::OtherTransactionId);
    }
    verdict_of_reply(alloc, kind, &view)
}

// What a message is that has the transaction id of an attempt which awaits this type.
fn verdict_of_reply(
    alloc: Global,
    kind: DhcpV6MessageType,
    message: &DhcpV6View,
) -> Result<Verdict, DhcpError>
    ensures found { IfOk result (λ found. found ≡ verdicts.verdict_of_reply kind message.now) }
    ensures error { IfErr result (λ error. error ≡ no_memory) }
    ensures needed { OnErr result (verdicts.is_of_type kind message.now ≡ true) }
{
    if is_of_type(kind, message) {
        verdict_of_grant(alloc, message)
    } else {
        Ok(PacketVerdict::OtherType(message.msg_type()))
    }
}

// Whether a message is of this type.
#[tactic(auto, unfolding(dhcp6_msg::specs::MessageType::type_number))]
fn is_of_type(kind: DhcpV6MessageType, message: &DhcpV6View) -> bool
    ensures { result ≡ verdicts.is_of_type kind message.now }
{
    message.msg_type() == kind
}

// What a message of the awaited type is.
fn verdict_of_grant(alloc: Global, message: &DhcpV6View) -> Result<Verdict, DhcpError>
    ensures found { IfOk result (λ found.
        found ≡ verdicts.verdict_of_lease (read_lease message.now)) }
    ensures error { IfErr result (λ error. error ≡ no_memory) }
{
    let message = message.to_message(alloc)?;
    verdict_of_copy(alloc, message)
}

// What such a message is, which is no longer needed.
fn verdict_of_copy(alloc: Global, message: DhcpV6Message) -> Result<Verdict, DhcpError>
    ensures found { IfOk result (λ found.
        found ≡ verdicts.verdict_of_lease (read_lease message)) }
    ensures error { IfErr result (λ error. error ≡ no_memory) }
{
    verdict_if_read(DhcpV6Lease::from_message(alloc, message))
}

// What the reading of a lease says, which is dropped; out of memory says nothing.
fn verdict_if_read<T: Drop>(read: Result<T, DhcpError>) -> Result<Verdict, DhcpError>
    ensures said { result ≡ verdicts.verdict_if_read read }
    ensures error { IfErr result (λ error. error ≡ no_memory) }
{
    match read {
        Ok(_value) => Ok(PacketVerdict::Answer),
        Err(error) if error.kind() == ErrorKind::OutOfMemory => Err(error),
        Err(error) => Ok(PacketVerdict::NoLease(error.kind())),
    }
}
