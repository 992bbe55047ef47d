//! What a packet is to a client.

ghost use Rattle.std.specs.Prelude.{◌<◌, ◌^◌};

use dhcp_clock::{MemLink, Packet, PacketKind, WordList};
use dhcp_wire::{BufferMut, Bytes, DhcpError, ErrorKind, boxed};
use dhcp4_client::{DhcpV4Client, PacketVerdict};
use dhcp4_lease::{DhcpV4Config, DhcpV4MessageForms};
use dhcp4_msg::DhcpV4MessageType;
use std::alloc::Global;

type Verdict = PacketVerdict<Option<DhcpV4MessageType>>;

/// The port of the client, the first byte of the cookie, and the last byte of the transaction id.
pub const PLAIN: [u8; 3] = [68, 0x63, 0];

/// An offer of 192.0.2.10 by 192.0.2.1 for 100 seconds: options 53, 54 and 51.
pub const OFFER: [u8; 15] = [53, 1, 2, 54, 4, 192, 0, 2, 1, 51, 4, 0, 0, 0, 100];

// The same, as an Ack.
const ACK: [u8; 15] = [53, 1, 5, 54, 4, 192, 0, 2, 1, 51, 4, 0, 0, 0, 100];

// A frame of a message with these options, and 60 pads behind them (RFC 894; RFC 791, section 3.1;
// RFC 768): to this port, with this first byte of the cookie and last byte of the transaction id.
// Its datagram has 300 bytes; what is past them is no part of it.
fn frame(alloc: Global, head: [u8; 3], options: &[u8]) -> Result<Bytes, DhcpError> {
    let [port, cookie, xid] = head;
    let mut bytes = BufferMut::new(alloc);
    bytes.write_bytes(&[0; 12])?;
    bytes.write_bytes(&[8, 0, 0x45, 0, 1, 72, 0, 0, 0, 0, 64, 17, 0, 0])?;
    bytes.write_bytes(&[192, 0, 2, 1, 255, 255, 255, 255])?;
    bytes.write_bytes(&[0, 67, 0, port, 1, 52, 0, 0])?;
    bytes.write_bytes(&[2, 1, 6, 0, 0, 0, 0, xid, 0, 0, 0, 0, 0, 0, 0, 0])?;
    bytes.write_bytes(&[192, 0, 2, 10, 192, 0, 2, 1])?;
    bytes.write_bytes(&[0; 212])?;
    bytes.write_bytes(&[cookie, 0x82, 0x53, 0x63])?;
    bytes.write_bytes(options)?;
    bytes.write_bytes(&[0; 60])?;
    Ok(bytes.into_bytes())
}

/// A packet of this kind, with the bytes of such a frame.
pub fn packet(
    alloc: Global,
    kind: PacketKind,
    head: [u8; 3],
    options: &[u8],
) -> Result<Packet, DhcpError> {
    let bytes = frame(alloc, head, options)?;
    Ok(Packet { kind, bytes })
}

/// A client that names the server that it asks, with a time limit of 100 seconds. It draws zeros,
/// so its transaction id is 0.
pub fn client(alloc: Global) -> Result<Box<DhcpV4Client>, DhcpError> {
    let mut config = DhcpV4Config::new(alloc, "eth0")?;
    config
        .set_iface_index(1)
        .set_timeout_sec(100)
        .set_message_forms(DhcpV4MessageForms::Rfc2131);
    let mut zeros = WordList::new(Vec::new(alloc));
    let client = DhcpV4Client::init(alloc, config, None, &mut zeros);
    boxed(alloc, client)
}

/// A poll at this moment, in milliseconds, where this packet waits.
pub fn poll(
    alloc: Global,
    client: &mut DhcpV4Client,
    now: u64,
    waiting: Option<Packet>,
) -> Result<(), DhcpError>
    requires { now < 2 ^ 60 }
{
    let mut zeros = WordList::new(Vec::new(alloc));
    let mut link = MemLink::new(alloc);
    link.load(waiting);
    client.run(now, &mut zeros, &mut link)?;
    Ok(())
}

/// Brings a client that began into REQUESTING, and has it request this offer.
pub fn request(alloc: Global, client: &mut DhcpV4Client, offer: &[u8]) -> Result<(), DhcpError> {
    let offer = packet(alloc, PacketKind::Frame, PLAIN, offer)?;
    poll(alloc, client, 0, None)?;
    poll(alloc, client, 1, Some(offer))?;
    poll(alloc, client, 1, None)
}

// Whether each packet is this to a client at a moment.
fn are(
    alloc: Global,
    client: &DhcpV4Client,
    now: u64,
    cases: &[(PacketKind, [u8; 3], &[u8], Verdict)],
) -> Result<bool, DhcpError> {
    for (kind, head, options, wanted) in cases {
        let packet = packet(alloc, *kind, *head, *options)?;
        if client.verdict(now, &packet)? != *wanted {
            return Ok(false);
        }
    }
    Ok(true)
}

// Whether each packet is this to a client that requests an offer.
fn are_when_requesting(
    alloc: Global,
    cases: &[(PacketKind, [u8; 3], &[u8], Verdict)],
) -> Result<bool, DhcpError> {
    match client(alloc) {
        Ok(mut client) => {
            request(alloc, &mut client, &OFFER)?;
            are(alloc, &client, 2, cases)
        }
        Err(error) => Err(error),
    }
}

// What an offer is to a client that was polled at moment 0, or not yet, at this moment.
fn offered(alloc: Global, is_polled: bool, now: u64) -> Result<Verdict, DhcpError> {
    match client(alloc) {
        Ok(mut client) => {
            if is_polled {
                poll(alloc, &mut client, 0, None)?;
            }
            let packet = packet(alloc, PacketKind::Frame, PLAIN, &OFFER)?;
            client.verdict(now, &packet)
        }
        Err(error) => Err(error),
    }
}

#[test]
fn each_packet_is_an_answer_or_says_why_not(rt: HostRuntime) {
    let framed = PacketKind::Frame;
    let offer = PacketVerdict::OtherType(Some(DhcpV4MessageType::Offer));
    let no_lease = PacketVerdict::NoLease(ErrorKind::InvalidDhcpMessage);
    let cases: [(PacketKind, [u8; 3], &[u8], Verdict); 13] = [
        (
            PacketKind::Payload,
            PLAIN,
            &ACK,
            PacketVerdict::OtherCarrier,
        ),
        // A frame to the port of a server.
        (framed, [67, 0x63, 0], &ACK, PacketVerdict::NoFrame),
        (framed, [68, 0x64, 0], &ACK, PacketVerdict::NoMessage),
        (
            framed,
            [68, 0x63, 1],
            &ACK,
            PacketVerdict::OtherTransactionId,
        ),
        (framed, PLAIN, &OFFER, offer),
        (framed, PLAIN, &[], PacketVerdict::OtherType(None)),
        // A Nack of another server than the one of the offer, and one of that.
        (
            framed,
            PLAIN,
            &[53, 1, 6, 54, 4, 192, 0, 2, 9],
            PacketVerdict::OtherServer,
        ),
        (
            framed,
            PLAIN,
            &[53, 1, 6, 54, 4, 192, 0, 2, 1],
            PacketVerdict::Answer,
        ),
        (framed, PLAIN, &[53, 1, 5], no_lease),
        // A lease of 40 seconds. T1 is 34, and T2 33 to 36; T2 is 20, and T1 18 to 21; T1 is 33.
        (
            framed,
            PLAIN,
            &[53, 1, 5, 51, 4, 0, 0, 0, 40, 58, 4, 0, 0, 0, 34],
            no_lease,
        ),
        (
            framed,
            PLAIN,
            &[53, 1, 5, 51, 4, 0, 0, 0, 40, 59, 4, 0, 0, 0, 20],
            no_lease,
        ),
        (
            framed,
            PLAIN,
            &[53, 1, 5, 51, 4, 0, 0, 0, 40, 58, 4, 0, 0, 0, 33],
            PacketVerdict::Answer,
        ),
        (framed, PLAIN, &ACK, PacketVerdict::Answer),
    ];
    assert!(rt; are_when_requesting(rt.alloc(), &cases).expect(&rt, "memory"));
}

#[test]
fn a_packet_answers_between_the_first_message_and_the_time_limit(rt: HostRuntime) {
    const CASES: [(bool, u64, Verdict); 4] = [
        (false, 0, PacketVerdict::NoOpenAttempt),
        (true, 0, PacketVerdict::Answer),
        (true, 99_999, PacketVerdict::Answer),
        (true, 100_000, PacketVerdict::NoOpenAttempt),
    ];
    for &(is_polled, now, wanted) in &CASES {
        let verdict = offered(rt.alloc(), is_polled, now).expect(&rt, "memory");
        assert!(rt; verdict == wanted);
        assert!(rt; verdict.is_answer() == (wanted == PacketVerdict::Answer));
    }
}
