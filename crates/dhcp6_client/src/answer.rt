//! A packet as the awaited answer, RFC 8415 sections 16.3, 16.10 and 18.2.10. It is tested in the
//! bytes that it was received in: its carrier, its type, its transaction id; only a packet that may
//! answer is copied.

ghost use Rattle.std.specs.Prelude.{◌≡◌, IfErr, IfOk, None, Ok, Some, false, is_some};
ghost use Rattle.dhcp_wire.specs.Error.{no_memory};
ghost use Rattle.dhcp6_client.specs.Answer as answers;

use crate::client_state::ClientState;
use crate::granted_lease::BoxedLease;
use dhcp_clock::Packet;
use dhcp_wire::{DhcpError, none_if_refused};
use dhcp6_msg::{DhcpV6Lease, DhcpV6MessageType, DhcpV6View, concerns, payload_in};
use std::alloc::Global;

/// The type that a state awaits.
pub fn awaited_type(state: &ClientState) -> Option<DhcpV6MessageType>
    ensures { result ≡ answers.awaited_type state.now }
{
    match state {
        ClientState::Solicit => Some(DhcpV6MessageType::Advertise),
        ClientState::Request(_) => Some(DhcpV6MessageType::Reply),
        ClientState::Done(_) => None,
        ClientState::Temporary(_) => None,
        ClientState::Renew(_) => Some(DhcpV6MessageType::Reply),
        ClientState::Rebind(_) => Some(DhcpV6MessageType::Reply),
    }
}

/// The lease that a packet answers to an attempt with this transaction id which awaits this type,
/// if it answers. Out of memory is the only error, and comes only of a packet that may answer.
pub fn read_answer(
    alloc: Global,
    kind: DhcpV6MessageType,
    xid: u32,
    packet: &Packet,
) -> Result<Option<BoxedLease>, DhcpError>
    ensures answer { IfOk result (λ answer.
        answer ≡ answers.answer_of (answers.message_for (Some kind) xid packet.now)) }
    ensures error { IfErr result (λ error. error ≡ no_memory) }
    ensures free { is_some (answers.message_for (Some kind) xid packet.now) ≡ false →
        result ≡ Ok None }
{
    let Some(payload) = payload_in(packet) else {
        return Ok(None);
    };
    let Some(view) = DhcpV6View::new(payload) else {
        return Ok(None);
    };
    if !concerns(kind, xid, &view) {
        return Ok(None);
    }
    lease_of(alloc, &view)
}

// The lease that a message grants, if it grants one.
fn lease_of(alloc: Global, message: &DhcpV6View) -> Result<Option<BoxedLease>, DhcpError>
    ensures lease { IfOk result (λ lease. lease ≡ answers.granted_by message.now) }
    ensures error { IfErr result (λ error. error ≡ no_memory) }
{
    let message = message.to_message(alloc)?;
    match DhcpV6Lease::from_message(alloc, message) {
        Ok(lease) => Ok(Some(BoxedLease::new(alloc, lease)?)),
        Err(error) => none_if_refused(Err(error)),
    }
}
