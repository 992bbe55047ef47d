//! What a client hands to its link, RFC 2131 sections 4.1 and 4.3.6, tables 4 and 5: each message
//! with its carrier.

ghost use Rattle.std.specs.Prelude.{◌≡◌, ◌≤◌, IfOk, IsTrue, length, option_copied};
ghost use Rattle.dhcp_wire.specs.Outcome.{Makes};
ghost use Rattle.dhcp_frame.specs.Write.{frame_bytes, most_payload};
ghost use Rattle.dhcp4_lease.specs.Config.{is_within_limits};
ghost use Rattle.dhcp4_lease.specs.Laws.{RowIsShort};
ghost use Rattle.dhcp4_lease.specs.MessageTable as table;
ghost use Rattle.dhcp4_client.specs.Message as messages;

use crate::client_state::ClientState;
use dhcp_clock::Handed;
use dhcp_frame::{Frame, write_frame};
use dhcp_wire::{BROADCAST_MAC_ADDRESS, Bytes, DhcpError};
use dhcp4_lease::{
    DhcpV4Config, DhcpV4Lease, DhcpV4MessageForms, discovery_is_short, new_discovery, new_rebind,
    new_reboot_request, new_release, new_renew, new_request, requests_are_short, server_of,
};
use dhcp4_msg::DhcpV4Message;
use std::alloc::Global;
use std::net::Ipv4Addr;

/// The UDP port of a client, RFC 2131 section 4.1.
pub const CLIENT_PORT: u16 = 68;

// The UDP port of a server.
const SERVER_PORT: u16 = 67;

/// What is handed to the link at an attempt in a state. Out of memory is the only error.
pub fn attempt_message(
    alloc: Global,
    xid: u32,
    config: &DhcpV4Config,
    state: &ClientState,
) -> Result<Handed, DhcpError>
    requires { IsTrue (is_within_limits config.now) }
    ensures { Makes (λ message. message) result
        (messages.attempt_message xid config.now state.now) }
{
    let payload = payload_of(alloc, xid, config, state)?;
    with_carrier(alloc, config, state, payload)
}

/// The release of `lease` by a client that holds the lease `held`, or none. As a proxy, or without
/// a held lease, it goes in a frame; else as a payload from the address of `held`. Out of memory is
/// the only error.
pub fn release_message(
    alloc: Global,
    xid: u32,
    config: &DhcpV4Config,
    held: Option<&DhcpV4Lease>,
    lease: &DhcpV4Lease,
) -> Result<Handed, DhcpError>
    requires { IsTrue (is_within_limits config.now) }
    ensures { Makes (λ message. message) result
        (messages.release_message xid config.now (option_copied held.entry) lease.now) }
{
    let payload = release_bytes(alloc, xid, config, lease)?;
    match held {
        Some(held) if !config.is_proxy => Ok(payload_release(config, held, lease, payload)),
        Some(_) | None => framed_release(alloc, config, lease, payload),
    }
}

// The server to which the release of a lease goes: by RFC 2131 section 4.4.6 the server of that
// lease; by mozim's form this next server.
fn release_server(forms: DhcpV4MessageForms, next_server: Ipv4Addr, lease: &DhcpV4Lease) -> Ipv4Addr
    ensures { result ≡ messages.release_server forms next_server lease.now }
{
    match forms {
        DhcpV4MessageForms::Mozim => next_server,
        DhcpV4MessageForms::Rfc2131 => server_of(lease),
    }
}

// The release of a lease in a payload, from the address of the lease that is held.
fn payload_release(
    config: &DhcpV4Config,
    held: &DhcpV4Lease,
    lease: &DhcpV4Lease,
    payload: Bytes,
) -> Handed
    ensures { result ≡ Handed.Udp4 held.now.yiaddr (messages.release_server
        config.now.message_forms held.now.siaddr lease.now) payload }
{
    let server = release_server(config.message_forms(), held.siaddr, lease);
    Handed::Udp4(held.yiaddr, server, payload)
}

// The release of a lease in a frame, from its address to its server, with this payload.
fn framed_release(
    alloc: Global,
    config: &DhcpV4Config,
    lease: &DhcpV4Lease,
    payload: Bytes,
) -> Result<Handed, DhcpError>
    requires { length payload ≤ most_payload }
    ensures { Makes (λ message. message) result
        (Handed.Frame (frame_bytes (messages.release_frame config.now lease.now payload))) }
{
    let server = release_server(config.message_forms(), lease.siaddr, lease);
    frame_to(alloc, config, lease.srv_mac, lease.yiaddr, server, payload)
}

// The bytes of the release of a lease.
fn release_bytes(
    alloc: Global,
    xid: u32,
    config: &DhcpV4Config,
    lease: &DhcpV4Lease,
) -> Result<Bytes, DhcpError>
    requires { IsTrue (is_within_limits config.now) }
    ensures bytes { Makes (λ bytes. bytes) result
        (messages.release_bytes xid config.now lease.now) }
    ensures short { IfOk result (λ bytes. length bytes ≤ most_payload) }
{
    requests_are_short(config, lease);
    let message = new_release(alloc, xid, config, lease)?;
    message.to_bytes(alloc)
}

// The bytes of the message of a state.
fn payload_of(
    alloc: Global,
    xid: u32,
    config: &DhcpV4Config,
    state: &ClientState,
) -> Result<Bytes, DhcpError>
    requires { IsTrue (is_within_limits config.now) }
    ensures bytes { Makes (λ bytes. bytes) result
        (messages.message_bytes xid config.now
        (messages.row config.now.message_forms state.now)) }
    ensures short { IfOk result (λ bytes. length bytes ≤ most_payload) }
{
    has_short_message(config, state);
    let message = message_of(alloc, xid, config, state)?;
    message.to_bytes(alloc)
}

// The message of a state. That of RENEWING and REBINDING has, by mozim's form, options 50 and 54,
// which RFC 2131 section 4.3.2 forbids there.
fn message_of(
    alloc: Global,
    xid: u32,
    config: &DhcpV4Config,
    state: &ClientState,
) -> Result<DhcpV4Message, DhcpError>
    requires { IsTrue (is_within_limits config.now) }
    ensures { Makes (λ message. message) result
        (table.table_message xid config.now
        (messages.row config.now.message_forms state.now)) }
{
    match state {
        ClientState::InitReboot => new_discovery(alloc, xid, config),
        ClientState::Selecting(offer) => new_request(alloc, xid, config, offer),
        ClientState::Rebooting(held) => new_reboot_request(alloc, xid, config, held),
        ClientState::Done(bound) => new_renew(alloc, xid, config, bound.lease()),
        ClientState::Renewing(bound) => new_renew(alloc, xid, config, bound.lease()),
        ClientState::Rebinding(bound) => new_rebind(alloc, xid, config, bound.lease()),
    }
}

// The message of each state is short.
fn has_short_message(config: &DhcpV4Config, state: &ClientState)
    requires { IsTrue (is_within_limits config.now) }
    ensures { RowIsShort config.now (messages.row config.now.message_forms state.now) }
{
    match state {
        ClientState::InitReboot => discovery_is_short(config),
        ClientState::Selecting(offer) => requests_are_short(config, offer),
        ClientState::Rebooting(held) => requests_are_short(config, held),
        ClientState::Done(bound) => requests_are_short(config, bound.lease()),
        ClientState::Renewing(bound) => requests_are_short(config, bound.lease()),
        ClientState::Rebinding(bound) => requests_are_short(config, bound.lease()),
    }
}

/// The server that renews a lease, to which its renewals go: by RFC 2131 section 4.4.5 the one that
/// granted it, by its identifier, if it has one; by mozim its next server, `siaddr`.
pub fn renewal_server(forms: DhcpV4MessageForms, lease: &DhcpV4Lease) -> Option<Ipv4Addr>
    ensures { result ≡ messages.renewal_server forms lease.now }
{
    match forms {
        DhcpV4MessageForms::Mozim => Some(lease.siaddr),
        DhcpV4MessageForms::Rfc2131 if lease.srv_id.is_unspecified() => None,
        DhcpV4MessageForms::Rfc2131 => Some(lease.srv_id),
    }
}

// A payload from the address of a lease to the server that renews it, or else, to any server, in
// the frame of REBINDING.
fn renewal(
    alloc: Global,
    config: &DhcpV4Config,
    lease: &DhcpV4Lease,
    payload: Bytes,
) -> Result<Handed, DhcpError>
    requires { length payload ≤ most_payload }
    ensures { Makes (λ message. message) result
        (messages.renewal_of config.now lease.now payload) }
{
    match renewal_server(config.message_forms(), lease) {
        None => broadcast(alloc, config, payload),
        Some(server) => Ok(Handed::Udp4(lease.yiaddr, server, payload)),
    }
}

// A payload with the carrier of a state: RENEWING alone sends it to the server of its lease.
fn with_carrier(
    alloc: Global,
    config: &DhcpV4Config,
    state: &ClientState,
    payload: Bytes,
) -> Result<Handed, DhcpError>
    requires { length payload ≤ most_payload }
    ensures { Makes (λ message. message) result
        (messages.with_carrier config.now state.now payload) }
{
    match state {
        ClientState::InitReboot
        | ClientState::Selecting(_)
        | ClientState::Rebooting(_)
        | ClientState::Rebinding(_) => broadcast(alloc, config, payload),
        ClientState::Done(bound) | ClientState::Renewing(bound) => {
            renewal(alloc, config, bound.lease(), payload)
        }
    }
}

// A frame from 0.0.0.0 to 255.255.255.255 and the MAC address ff:ff:ff:ff:ff:ff. The messages of
// each state but RENEWING go this way; in REBINDING the client still has its address, and names it
// in `ciaddr`. The broadcast flag (RFC 2131 section 2) is set in no state.
fn broadcast(alloc: Global, config: &DhcpV4Config, payload: Bytes) -> Result<Handed, DhcpError>
    requires { length payload ≤ most_payload }
    ensures { Makes (λ message. message) result (messages.broadcast config.now payload) }
{
    let everyone = Ipv4Addr::BROADCAST;
    frame_to(
        alloc,
        config,
        BROADCAST_MAC_ADDRESS,
        Ipv4Addr::UNSPECIFIED,
        everyone,
        payload,
    )
}

// A frame from the client's port 68 to a server's port 67.
fn frame_to(
    alloc: Global,
    config: &DhcpV4Config,
    dst_mac: [u8; 6],
    from: Ipv4Addr,
    to: Ipv4Addr,
    payload: Bytes,
) -> Result<Handed, DhcpError>
    requires { length payload ≤ most_payload }
    ensures { Makes (λ message. message) result
        (Handed.Frame (frame_bytes (messages.frame config.now dst_mac from to payload))) }
{
    let frame = Frame {
        src_mac: config.iface_mac(),
        dst_mac,
        src_ip: from,
        dst_ip: to,
        src_port: CLIENT_PORT,
        dst_port: SERVER_PORT,
        payload,
    };
    Ok(Handed::Frame(write_frame(alloc, &frame)?))
}
