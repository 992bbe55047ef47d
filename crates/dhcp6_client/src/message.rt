//! What a client hands to its link, RFC 8415 sections 7.1, 7.2 and 18.2.

ghost use Rattle.std.specs.Prelude.{◌≤◌, IsTrue, length};
ghost use Rattle.dhcp_wire.specs.Outcome.{Makes};
ghost use Rattle.dhcp6_opt.specs.Duid.{written_duid};
ghost use Rattle.dhcp6_msg.specs.Config.{is_within_limits};
ghost use Rattle.dhcp6_msg.specs.Message.{written_message};
ghost use Rattle.dhcp6_msg.specs.MessageTable as table;
ghost use Rattle.dhcp6_client.specs.Message as messages;

use crate::client_state::ClientState;
use dhcp_clock::Handed;
use dhcp_wire::DhcpError;
use dhcp6_msg::{
    DhcpV6Config, DhcpV6Lease, DhcpV6Message, new_rebind_msg, new_release_msg, new_renew_msg,
    new_request_msg, new_solicit_msg,
};
use std::alloc::Global;

/// What is handed to the link at an attempt in a state, by a client that has tried for so many
/// milliseconds; a Solicit has this identifier of its identity association. Out of memory is the
/// only error.
pub fn attempt_message(
    alloc: Global,
    xid: u32,
    config: &DhcpV6Config,
    elapsed_ms: u64,
    iaid: u32,
    state: &ClientState,
) -> Result<Handed, DhcpError>
    requires { IsTrue (is_within_limits config.now) }
    ensures { Makes (λ message. message) result
        (messages.attempt_message xid config.now elapsed_ms iaid state.now) }
{
    let message = message_of(alloc, xid, config, elapsed_ms, iaid, state)?;
    sent_from(alloc, config, &message)
}

/// The release of a lease. Out of memory is the only error.
pub fn release_message(
    alloc: Global,
    xid: u32,
    config: &DhcpV6Config,
    lease: &DhcpV6Lease,
) -> Result<Handed, DhcpError>
    requires limits { IsTrue (is_within_limits config.now) }
    requires server { length (written_duid lease.now.srv_duid) ≤ 65535 }
    ensures { Makes (λ message. message) result
        (messages.release_message xid config.now lease.now) }
{
    let message = new_release_msg(alloc, xid, config, lease)?;
    sent_from(alloc, config, &message)
}

// The message of a state.
fn message_of(
    alloc: Global,
    xid: u32,
    config: &DhcpV6Config,
    elapsed_ms: u64,
    iaid: u32,
    state: &ClientState,
) -> Result<DhcpV6Message, DhcpError>
    requires { IsTrue (is_within_limits config.now) }
    ensures { Makes (λ message. message) result (table.table_message xid config.now
        (messages.row config.now elapsed_ms iaid state.now)) }
{
    match state {
        ClientState::Solicit => new_solicit_msg(alloc, xid, config, elapsed_ms, iaid),
        ClientState::Request(offer) => {
            new_request_msg(alloc, xid, config, elapsed_ms, offer.lease())
        }
        ClientState::Done(bound) => {
            new_renew_msg(alloc, xid, config, elapsed_ms, bound.lease().lease())
        }
        ClientState::Temporary(bound) => {
            new_renew_msg(alloc, xid, config, elapsed_ms, bound.lease().lease())
        }
        ClientState::Renew(bound) => {
            new_renew_msg(alloc, xid, config, elapsed_ms, bound.lease().lease())
        }
        ClientState::Rebind(bound) => {
            new_rebind_msg(alloc, xid, config, elapsed_ms, bound.lease().lease())
        }
    }
}

// A message as a payload from the client's address on its interface.
fn sent_from(
    alloc: Global,
    config: &DhcpV6Config,
    message: &DhcpV6Message,
) -> Result<Handed, DhcpError>
    ensures { Makes (λ handed. handed) result
        (messages.sent_from config.now (written_message message.now)) }
{
    let payload = message.emit(alloc)?;
    Ok(Handed::Udp6(config.src_ip, config.iface_index, payload))
}
