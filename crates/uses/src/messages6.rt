//! Messages of a DHCPv6 client: the search for servers, and the lease of an answer.

ghost use Rattle.std.specs.Prelude.{◌≡◌, ◌⊎◌, Err, IfErr, IfOk, IfSome, IsSomeAnd, IsTrue, None, Ok, is_some};
ghost use Rattle.dhcp_wire.specs.Error.{no_memory};
ghost use Rattle.dhcp_wire.specs.Outcome.{Gives};
ghost use Rattle.dhcp6_msg.specs.Config.{is_within_limits};
ghost use Rattle.dhcp6_msg.specs.Lease.{are_times_in_order, read_lease};
ghost use Rattle.dhcp6_msg.specs.Message.{id_number, read_message, written_message};
ghost use Rattle.dhcp6_msg.specs.MessageTable.{solicit, table_message};
ghost use Rattle.dhcp6_msg.specs.declared.message_type.DhcpV6MessageType.{DhcpV6MessageType};
ghost use Rattle.uses.specs.Messages6 as messages;

use dhcp_wire::{Bytes, DhcpError};
use dhcp6_msg::{
    DhcpV6Config, DhcpV6Lease, DhcpV6Message, DhcpV6MessageType, DhcpV6View, new_request_msg,
    new_solicit_msg,
};
use std::alloc::Global;

/// The payload of the Solicit with this transaction id and this identifier of the association that
/// is asked for. None if and only if the configuration is outside its limits.
pub fn solicit_payload(
    alloc: Global,
    xid: u32,
    config: &DhcpV6Config,
    iaid: u32,
) -> Result<Option<Bytes>, DhcpError>
    ensures bytes { IfOk result (λ found. IfSome found (λ payload.
        payload ≡ written_message
        (table_message xid config.now (solicit config.now.mode iaid 0)))) }
    ensures made { IfOk result (λ found. is_some found ≡ is_within_limits config.now) }
    ensures error { IfErr result (λ e. e ≡ no_memory) }
{
    if !config.is_within_limits() {
        return Ok(None);
    }
    let message = new_solicit_msg(alloc, xid, config, 0, iaid)?;
    Ok(Some(message.emit(alloc)?))
}

/// The lease that a Reply with this transaction id grants, or its refusal. None only if the payload
/// is not such a Reply; that is tested before anything is copied.
pub fn lease_of_reply(
    alloc: Global,
    payload: &[u8],
    xid: u32,
) -> Result<Option<DhcpV6Lease>, DhcpError>
    ensures granted { IfOk result (λ found. IfSome found (λ lease.
        IsSomeAnd (read_message payload.now) (λ message. read_lease message ≡ Ok lease))) }
    ensures addressed { IfOk result (λ found. IfSome found (λ lease.
        IsSomeAnd (read_message payload.now) (λ message. (id_number message.xid ≡ xid)
        × (message.msg_type ≡ DhcpV6MessageType.Reply)))) }
    ensures other { result ≡ Ok None → IfSome (read_message payload.now) (λ message.
        id_number message.xid ≡ xid → message.msg_type ≡ DhcpV6MessageType.Reply → ⊥) }
    ensures in_order { IfOk result (λ found. IfSome found (λ lease.
        IsTrue (are_times_in_order lease))) }
    ensures error { IfErr result (λ e. (e ≡ no_memory)
        ⊎ IsSomeAnd (read_message payload.now) (λ message. (id_number message.xid ≡ xid)
        × ((message.msg_type ≡ DhcpV6MessageType.Reply) × (read_lease message ≡ Err e.kind)))) }
{
    let Some(view) = DhcpV6View::new(payload) else {
        return Ok(None);
    };
    if view.xid() != xid || view.msg_type() != DhcpV6MessageType::Reply {
        return Ok(None);
    }
    let message = view.to_message(alloc)?;
    Ok(Some(DhcpV6Lease::from_message(alloc, message)?))
}

/// The Request of the lease that an Advertise offers; its type is not tested. It is refused if and
/// only if the payload is no message or its message grants no lease, as `parse` and `from_message`
/// refuse it. Else out of memory is the only error.
pub fn request_of_offer(
    alloc: Global,
    xid: u32,
    config: &DhcpV6Config,
    offer: &[u8],
) -> Result<DhcpV6Message, DhcpError>
    requires { IsTrue (is_within_limits config.now) }
    ensures { Gives (λ built. built) result
        (messages.request_of_offer xid config.now offer.now) }
{
    let message = DhcpV6Message::parse(alloc, offer)?;
    let lease = DhcpV6Lease::from_message(alloc, message)?;
    new_request_msg(alloc, xid, config, 0, &lease)
}
