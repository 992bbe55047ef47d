//! The IPv4 client, as it is measured.

use crate::exchange::{Answer, Answers, Client};
use crate::wire::counted;
use dhcp_clock::{MemLink, PacketKind, WordList};
use dhcp_wire::DhcpError;
use dhcp4_client::DhcpV4Client;
use dhcp4_lease::{DhcpV4Config, DhcpV4Lease};
use std::alloc::Global;

// A frame starts with 42 bytes of headers.
const HEADERS: usize = 42;

impl Client for DhcpV4Client {
    // Its transaction id is this word.
    const FIRST_WORD: u32 = 0x12345678;

    fn begin(alloc: Global, words: &mut WordList) -> Result<Self, DhcpError> {
        DhcpV4Client::init(alloc, config(alloc)?, None, words)
    }

    fn hold_long_lease(&mut self, alloc: Global) -> Result<(), DhcpError> {
        self.done(long_lease(alloc), 0)
    }

    // A frame, from its Ethernet header on.
    fn packet(bytes: &[u8]) -> Answer {
        let kind = PacketKind::Frame;
        Answer { kind, bytes }
    }

    // The renewal is answered by the payload of the Ack, which the client hears on its socket.
    fn answers<'a>(offer: &'a [u8], lease: &'a [u8]) -> Answers<'a> {
        Answers {
            offer: Self::packet(offer),
            lease: Self::packet(lease),
            renewal: Answer {
                kind: PacketKind::Payload,
                bytes: lease.get(HEADERS..).unwrap_or(&[]),
            },
        }
    }

    fn poll(
        &mut self,
        now: u32,
        words: &mut WordList,
        link: &mut MemLink,
    ) -> Result<(), DhcpError> {
        counted(self.run(u64::from(now), words, link), ())
    }

    fn renewal_time_sec(&self) -> Option<u32> {
        Some(self.lease()?.t1_sec)
    }

    fn release(&mut self, now: u32, link: &mut MemLink) -> Result<bool, DhcpError> {
        self.release_held(u64::from(now), link)
    }
}

// Its configuration.
fn config(alloc: Global) -> Result<DhcpV4Config, DhcpError> {
    let mut config = DhcpV4Config::new(alloc, "eth0")?;
    config.iface_index = 1;
    Ok(config)
}

// The longest lease, of 4,294,967,295 seconds.
fn long_lease(alloc: Global) -> DhcpV4Lease {
    let mut lease = DhcpV4Lease::empty(alloc);
    lease.t1_sec = u32::MAX;
    lease.t2_sec = u32::MAX;
    lease.lease_time_sec = u32::MAX;
    lease
}
