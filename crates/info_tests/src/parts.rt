//! What the tests share: the options of messages, and a client with its words and its link.

ghost use Rattle.std.specs.Prelude.{◌<◌, ◌^◌};

use dhcp_clock::{Handed, MemLink, Packet, PacketKind, WordList};
use dhcp_history::{Input, NumberedEvent, NumberedReport, StateReport};
use dhcp_wire::{BufferMut, Bytes, DhcpError};
use dhcp6_info::{DhcpV6InfoClient, DhcpV6InfoState};
use dhcp6_msg::{DhcpV6Config, DhcpV6Mode};
use std::alloc::Global;
use std::net::Ipv6Addr;

// The identifier of the client, option 1.
pub(crate) const CLIENT: [u8; 14] = [0, 1, 0, 10, 0, 3, 0, 1, 2, 0, 0, 0, 0, 1];

// The identifier of the server, option 2.
pub(crate) const SERVER: [u8; 14] = [0, 2, 0, 10, 0, 3, 0, 1, 2, 0, 0, 0, 0, 2];

// A name server, option 23: 2001:db8::53.
pub(crate) const NAME_SERVER: [u8; 20] = [
    0, 23, 0, 16, 0x20, 1, 0x0d, 0xb8, 0, 0, 0, 0, 0, 0, 0, 0, 0, 0, 0, 0x53,
];

// The head of the Reply to the first message.
pub(crate) const REPLY: [u8; 4] = [7, 0xab, 0xcd, 0xef];

// What is drawn at first: a pause of 0, the transaction id abcdef, and a wait of 0.9 seconds.
pub(crate) const WORDS: [u32; 3] = [0, 0xabcdef, 0];

// Some bytes one after the other.
pub(crate) fn joined(alloc: Global, parts: &[&[u8]]) -> Result<Bytes, DhcpError> {
    let mut buf = BufferMut::new(alloc);
    for part in parts {
        buf.write_bytes(part)?;
    }
    Ok(buf.into_bytes())
}

// A configuration that asks for the options of these codes, with a time limit in seconds.
pub(crate) fn config(
    alloc: Global,
    codes: &[u16],
    timeout_sec: u32,
) -> Result<DhcpV6Config, DhcpError> {
    let mut config = DhcpV6Config::new(alloc, "eth1", DhcpV6Mode::NonTemporaryAddresses)?;
    config
        .set_iface_index(1)
        .set_link_local_ip(Ipv6Addr::new(0xfe80, 0, 0, 0, 0, 0, 0, 1))
        .set_timeout_sec(timeout_sec);
    config.set_duid_by_iface_mac(alloc, &[2, 0, 0, 0, 0, 1])?;
    config.override_request_dhcp_opts(alloc, codes)?;
    Ok(config)
}

// A client, with its words and its link.
#[derive(Drop)]
pub(crate) struct Host {
    pub(crate) client: Box<DhcpV6InfoClient>,
    words: WordList,
    link: MemLink,
}

impl Host {
    // A host of this configuration, whose client was not polled yet, in a box: what a test owns
    // itself is dropped field by field in its proof.
    pub(crate) fn new(alloc: Global, config: DhcpV6Config) -> Result<Box<Self>, DhcpError> {
        let mut words = WordList::new(Vec::from_slice(alloc, &WORDS)?);
        let client = DhcpV6InfoClient::init(alloc, config, &mut words)?;
        let host = Host {
            client: Box::new(alloc, client)?,
            words,
            link: MemLink::new(alloc),
        };
        Ok(Box::new(alloc, host)?)
    }

    // One that has sent its first message at 0, and asks for name servers.
    pub(crate) fn asking(alloc: Global) -> Result<Box<Self>, DhcpError> {
        let mut host = Host::new(alloc, config(alloc, &[23], 0)?)?;
        host.poll(0)?;
        host.link.take_handed();
        Ok(host)
    }

    // One poll at this moment.
    pub(crate) fn poll(&mut self, now: u64) -> Result<Option<DhcpV6InfoState>, DhcpError>
        requires { now < 2 ^ 60 }
    {
        self.client.run(now, &mut self.words, &mut self.link)
    }

    // One poll at this moment, at which a payload of these parts waits.
    pub(crate) fn hear(
        &mut self,
        alloc: Global,
        now: u64,
        parts: &[&[u8]],
    ) -> Result<Option<DhcpV6InfoState>, DhcpError>
        requires { now < 2 ^ 60 }
    {
        self.link.load(Some(Packet {
            kind: PacketKind::Payload,
            bytes: joined(alloc, parts)?,
        }));
        self.poll(now)
    }

    // What an event in which nothing comes in reports, behind these reports.
    pub(crate) fn play(
        &mut self,
        number: u32,
        moment: u64,
        reports: &mut Vec<NumberedReport<StateReport<DhcpV6InfoState>, Handed>>,
    ) -> Result<(), DhcpError>
        requires { moment < 2 ^ 60 }
    {
        let event = NumberedEvent {
            number,
            moment,
            refuse: false,
            input: Input::Nothing,
        };
        self.client.play_event(&mut self.words, event, reports)
    }

    // The oldest payload that it has sent.
    pub(crate) fn sent(&mut self) -> Option<Bytes> {
        match self.link.take_handed() {
            Some((Handed::Udp6(_, _, payload), _)) => Some(payload),
            _ => None,
        }
    }

    // Whether the oldest payload that it has sent is of these parts.
    pub(crate) fn has_sent(&mut self, alloc: Global, parts: &[&[u8]]) -> Result<bool, DhcpError> {
        let wanted = joined(alloc, parts)?;
        Ok(self.sent() == Some(wanted))
    }
}
