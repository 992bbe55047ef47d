//! The IPv6 client, as it is measured.

use crate::exchange::{Answer, Answers, Client};
use crate::wire::counted;
use dhcp_clock::{MemLink, PacketKind, WordList};
use dhcp_wire::{DhcpError, beside};
use dhcp6_client::DhcpV6Client;
use dhcp6_msg::{DhcpV6Config, DhcpV6IaType, DhcpV6Lease, DhcpV6Mode};
use dhcp6_opt::DhcpV6Duid;
use std::alloc::Global;
use std::mem;
use std::net::Ipv6Addr;

// The bytes of the client's identifier and of the server's.
const CLIENT: [u8; 10] = [0, 3, 0, 1, 2, 0, 0, 0, 0, 1];

const SERVER: [u8; 10] = [0, 3, 0, 1, 2, 0, 0, 0, 0, 2];

impl Client for DhcpV6Client {
    // Its first transaction id is this word, and each later one 0.
    const FIRST_WORD: u32 = 0x00abcdef;

    fn begin(alloc: Global, words: &mut WordList) -> Result<Self, DhcpError> {
        DhcpV6Client::init(alloc, config(alloc)?, None, 0, words)
    }

    fn hold_long_lease(&mut self, alloc: Global) -> Result<(), DhcpError> {
        self.done(long_lease(alloc)?, 0)
    }

    // The payload of a UDP datagram.
    fn packet(bytes: &[u8]) -> Answer {
        let kind = PacketKind::Payload;
        Answer { kind, bytes }
    }

    // An Advertise of the transaction id abcdef, and a Reply of the transaction id 000000, which
    // renews the lease too.
    fn answers<'a>(offer: &'a [u8], lease: &'a [u8]) -> Answers<'a> {
        Answers {
            offer: Self::packet(offer),
            lease: Self::packet(lease),
            renewal: Self::packet(lease),
        }
    }

    fn poll(
        &mut self,
        now: u32,
        words: &mut WordList,
        link: &mut MemLink,
    ) -> Result<(), DhcpError> {
        counted(self.run(u64::from(now), words, link), ())
    }

    fn renewal_time_sec(&self) -> Option<u32> {
        Some(self.lease()?.t1_sec)
    }

    fn release(&mut self, now: u32, link: &mut MemLink) -> Result<bool, DhcpError> {
        self.release_held(u64::from(now), link)
    }
}

// Its configuration, for an address.
fn config(alloc: Global) -> Result<DhcpV6Config, DhcpError> {
    let duid = DhcpV6Duid::parse(alloc, &CLIENT)?;
    let made = DhcpV6Config::new(alloc, "eth0", DhcpV6Mode::NonTemporaryAddresses);
    let (duid, mut config) = beside(duid, made)?;
    config
        .set_duid(duid)
        .set_iface_index(1)
        .set_link_local_ip(Ipv6Addr::new(0xfe80, 0, 0, 0, 0, 0, 0, 1));
    Ok(config)
}

// The longest lease, of 4,294,967,295 seconds, of 2001:db8::10.
fn long_lease(alloc: Global) -> Result<DhcpV6Lease, DhcpError> {
    let duid = DhcpV6Duid::parse(alloc, &SERVER)?;
    let mut lease = DhcpV6Lease::empty(alloc);
    drop(mem::replace(&mut lease.srv_duid, duid));
    lease.t1_sec = u32::MAX;
    lease.t2_sec = u32::MAX;
    lease.preferred_time_sec = u32::MAX;
    lease.valid_time_sec = u32::MAX;
    lease.ia_type = Some(DhcpV6IaType::NonTemporaryAddresses);
    lease.address = Ipv6Addr::new(0x2001, 0xdb8, 0, 0, 0, 0, 0, 0x10);
    Ok(lease)
}
