//! Scripts of networks.

use dhcp_wire::{DhcpError, Sequence};
use dhcp4_lease::DhcpV4MessageForms;
use dhcp4_net::{NetAct, NetClient, NetEvent, NetScript, NetWho};
use dhcp4_server::ServerConfig;
use std::alloc::Global;
use std::net::Ipv4Addr;

/// The one address of the pool.
pub fn pool_ip() -> Ipv4Addr {
    Ipv4Addr::new(192, 0, 2, 10)
}

/// An event of a client whose link takes what it sends.
pub fn client(moment: u64, number: u32, act: NetAct) -> NetEvent {
    NetEvent {
        moment,
        who: NetWho::Client(number, false, act),
    }
}

/// A packet that is delivered to the server.
pub fn server(moment: u64, packet: u32) -> NetEvent {
    NetEvent {
        moment,
        who: NetWho::Server(packet),
    }
}

// A client, by the last byte of its MAC address and its transaction id.
fn net_client(alloc: Global, last: u8, xid: u32) -> Result<NetClient, DhcpError> {
    Ok(NetClient {
        mac: [2, 0, 0, 0, 0, last],
        message_forms: DhcpV4MessageForms::Mozim,
        words: Sequence::from(vec![in alloc; xid]?),
    })
}

/// Two clients and a server with a pool of so many addresses, leases of 100 seconds and packets
/// that take a second at most.
pub fn script(alloc: Global, count: u32, events: &[NetEvent]) -> Result<NetScript, DhcpError> {
    let mut clients = Vec::new(alloc);
    clients.push(net_client(alloc, 1, 0x12345678)?)?;
    clients.push(net_client(alloc, 3, 0x12345679)?)?;
    let events = Sequence::from(events.to_vec(alloc)?);
    Ok(NetScript {
        server: ServerConfig {
            ip: Ipv4Addr::new(192, 0, 2, 1),
            mac: [2, 0, 0, 0, 0, 2],
            mask: Ipv4Addr::new(255, 255, 255, 0),
            first: pool_ip(),
            count,
            lease_sec: 100,
            bound_ms: 1_000,
        },
        clients: Sequence::from(clients),
        start: 0,
        events,
    })
}
