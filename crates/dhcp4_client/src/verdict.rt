//! What a packet is to a client as it stands, RFC 2131 sections 3.1 and 4.4. It is tested in the
//! bytes that it was received in; only a message of the awaited type is copied.

ghost use Rattle.std.specs.Prelude.{◌≡◌, ◌∷◌, [], IfErr, IfOk, OnErr, Some, is_some, true};
ghost use Rattle.dhcp_wire.specs.Error.{no_memory};
ghost use Rattle.dhcp_verdict.specs.OpenAttempt.{is_open};
ghost use Rattle.dhcp4_client.specs.Answer as answers;
ghost use Rattle.dhcp4_client.specs.Rules.{may_answer, protocol};
ghost use Rattle.dhcp4_client.specs.Verdict as verdicts;

use crate::answer::{Awaited, Refuser, is_of_type, lease_of, payload_in};
use crate::client_state::{ClientState, Exchange};
use crate::rules::ClientRules;
use dhcp_clock::{Packet, WordList};
use dhcp_history::Client;
use dhcp_verdict::{PacketVerdict, is_open};
use dhcp_wire::{DhcpError, ErrorKind};
use dhcp4_msg::{DhcpV4MessageType, DhcpV4View};
use std::alloc::Global;

/// What a packet is, with the type of its message if it says one (RFC 2132, section 9.6).
pub type Verdict = PacketVerdict<Option<DhcpV4MessageType>>;

// The word that moves T1 or T2 earliest if the option of it is absent, and the one that moves it
// latest.
const EARLIEST: u32 = 0;

const LATEST: u32 = 3;

/// What a packet is to a client as it stands at a moment, in milliseconds. Out of memory is the
/// only error, and comes only of a packet that may answer.
pub fn packet_verdict(
    rules: &ClientRules,
    client: &Client<ClientState, Exchange>,
    now: u64,
    packet: &Packet,
) -> Result<Verdict, DhcpError>
    ensures found { IfOk result (λ found.
        found ≡ verdicts.packet_verdict rules.now.config client.now now packet.now) }
    ensures error { IfErr result (λ error. error ≡ no_memory) }
    ensures listening { OnErr result (is_open (protocol rules.now.config) now client.now ≡ true) }
    ensures needed { OnErr result (may_answer rules.now.config.message_forms
        client.now.state client.now.standing.exchange packet.now ≡ true) }
{
    if !is_open(rules, client, now) {
        return Ok(PacketVerdict::NoOpenAttempt);
    }
    let Some(awaited) = Awaited::in_state(rules.config.message_forms(), &client.state) else {
        return Ok(PacketVerdict::NoOpenAttempt);
    };
    verdict_of_packet(rules.alloc, awaited, client.standing.exchange.xid, packet)
}

// What a packet is to an attempt with this transaction id.
fn verdict_of_packet(
    alloc: Global,
    awaited: Awaited,
    xid: u32,
    packet: &Packet,
) -> Result<Verdict, DhcpError>
    ensures found { IfOk result (λ found.
        found ≡ verdicts.verdict_of_packet awaited xid packet.now) }
    ensures error { IfErr result (λ error. error ≡ no_memory) }
    ensures needed { OnErr result
        (is_some (answers.message_for (Some awaited) xid packet.now) ≡ true) }
{
    if packet.kind != awaited.carrier {
        return Ok(PacketVerdict::OtherCarrier);
    }
    let Some(payload) = payload_in(awaited.carrier, packet) else {
        return Ok(PacketVerdict::NoFrame);
    };
    let Some(view) = DhcpV4View::new(payload) else {
        return Ok(PacketVerdict::NoMessage);
    };
    if view.xid() != xid {
        return Ok(PacketVerdict::OtherTransactionId);
    }
    verdict_of_reply(alloc, awaited, &view)
}

// What a message is that has the transaction id of the attempt.
fn verdict_of_reply(
    alloc: Global,
    awaited: Awaited,
    message: &DhcpV4View,
) -> Result<Verdict, DhcpError>
    ensures found { IfOk result (λ found. found ≡ verdicts.verdict_of_reply awaited message.now) }
    ensures error { IfErr result (λ error. error ≡ no_memory) }
    ensures needed { OnErr result (answers.is_of_type awaited.grant message.now ≡ true) }
{
    if is_of_type(awaited.grant, message) {
        return verdict_of_grant(alloc, message);
    }
    if awaited.refuser.sends(message) {
        return Ok(PacketVerdict::Answer);
    }
    Ok(verdict_of_other(awaited.refuser, message))
}

// What a message of the awaited type is.
fn verdict_of_grant(alloc: Global, message: &DhcpV4View) -> Result<Verdict, DhcpError>
    ensures found { IfOk result (λ found. found ≡ verdicts.verdict_of_grant message.now) }
    ensures error { IfErr result (λ error. error ≡ no_memory) }
{
    if always_grants(alloc, message)? {
        Ok(PacketVerdict::Answer)
    } else {
        Ok(PacketVerdict::NoLease(ErrorKind::InvalidDhcpMessage))
    }
}

// What a message is that is neither of the awaited type nor a refusal.
fn verdict_of_other(refuser: Refuser, message: &DhcpV4View) -> Verdict
    ensures { result ≡ verdicts.verdict_of_other refuser message.now }
{
    match refuser {
        Refuser::Nobody | Refuser::AnyServer => PacketVerdict::OtherType(message.message_type()),
        Refuser::Server(_) => {
            if is_of_type(DhcpV4MessageType::Nack, message) {
                PacketVerdict::OtherServer
            } else {
                PacketVerdict::OtherType(message.message_type())
            }
        }
    }
}

// Whether a message grants a lease, whatever random words are the next ones.
fn always_grants(alloc: Global, message: &DhcpV4View) -> Result<bool, DhcpError>
    ensures found { IfOk result (λ found. found ≡ verdicts.always_grants message.now) }
    ensures error { IfErr result (λ error. error ≡ no_memory) }
{
    if grants_with(alloc, EARLIEST, message)? {
        grants_with(alloc, LATEST, message)
    } else {
        Ok(false)
    }
}

// Whether a message grants a lease, if this random word is the next one.
fn grants_with(alloc: Global, word: u32, message: &DhcpV4View) -> Result<bool, DhcpError>
    ensures found { IfOk result (λ found. found ≡ verdicts.grants_with word message.now) }
    ensures error { IfErr result (λ error. error ≡ no_memory) }
{
    let mut words = one_word(alloc, word)?;
    let lease = lease_of(alloc, message, &mut words)?;
    Ok(lease.is_some())
}

// This random word, and then zeros.
fn one_word(alloc: Global, word: u32) -> Result<WordList, DhcpError>
    ensures word { IfOk result (λ words. words ≡ word ∷ []) }
    ensures error { IfErr result (λ error. error ≡ no_memory) }
{
    let mut words = Vec::new(alloc);
    words.push(word)?;
    Ok(WordList::new(words))
}
