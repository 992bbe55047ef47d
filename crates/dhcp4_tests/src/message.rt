//! Messages and views of their payloads.

use dhcp_wire::{BufferMut, Bytes, DhcpError, ErrorKind, boxed};
use dhcp4_msg::{DhcpV4Message, DhcpV4MessageType, DhcpV4Options, DhcpV4View};
use std::alloc::Global;
use std::net::Ipv4Addr;

// The payload of an offer of 192.0.2.10 by 192.0.2.1.
fn offer(alloc: Global) -> Result<Bytes, DhcpError> {
    let mut payload = BufferMut::new(alloc);
    payload.write_bytes(&[2, 1, 6, 0, 0x12, 0x34, 0x56, 0x78])?;
    payload.write_bytes(&[0; 8])?;
    payload.write_bytes(&[192, 0, 2, 10, 192, 0, 2, 1, 0, 0, 0, 0])?;
    payload.write_bytes(&[2, 0, 0, 0, 0, 1])?;
    payload.write_bytes(&[0; 202])?;
    payload.write_bytes(&[0x63, 0x82, 0x53, 0x63])?;
    payload.write_bytes(&[
        0x35, 1, 2, 0x36, 4, 192, 0, 2, 1, 0x33, 4, 0, 0, 0, 100, 255,
    ])?;
    Ok(payload.into_bytes())
}

// The message of a payload.
fn read(alloc: Global, payload: &[u8]) -> Result<Box<DhcpV4Message>, DhcpError> {
    boxed(alloc, DhcpV4Message::parse(alloc, payload))
}

#[test]
fn a_payload_reads_from_240_bytes_on(rt: HostRuntime) {
    let payload = offer(rt.alloc()).expect(&rt, "memory");
    for len in 0..257 {
        let front = payload.as_slice().get(..len).expect(&rt, "short");
        assert!(rt; DhcpV4View::new(front).is_some() == (len >= 240));
    }
}

#[test]
fn the_first_240_bytes_of_an_offer_have_no_type(rt: HostRuntime) {
    let payload = offer(rt.alloc()).expect(&rt, "memory");
    let view = DhcpV4View::new(payload.as_slice().get(..240).expect(&rt, "short")).expect(
        &rt, "unread",
    );
    assert!(rt; view.xid() == 0x12345678);
    assert!(rt; view.message_type().is_none());
    let message = boxed(rt.alloc(), view.to_message(rt.alloc())).expect(&rt, "answer");
    assert!(rt; message.options == DhcpV4Options::new(rt.alloc()));
}

#[test]
fn an_offer_reads(rt: HostRuntime) {
    let payload = offer(rt.alloc()).expect(&rt, "memory");
    let view = DhcpV4View::new(payload.as_slice()).expect(&rt, "unread");
    assert!(rt; view.message_type() == Some(DhcpV4MessageType::Offer));
    let message = read(rt.alloc(), payload.as_slice()).expect(&rt, "answer");
    assert!(rt; message.message_type() == Some(DhcpV4MessageType::Offer));
    assert!(rt; message.yiaddr == Ipv4Addr::new(192, 0, 2, 10));
}

#[test]
fn a_message_reads_back_as_it_was_read(rt: HostRuntime) {
    let payload = offer(rt.alloc()).expect(&rt, "memory");
    let message = read(rt.alloc(), payload.as_slice()).expect(&rt, "answer");
    let mut written = BufferMut::new(rt.alloc());
    message.emit(&mut written).expect(&rt, "memory");
    // The options are written by rising code.
    assert!(rt; written.bytes().get(..240) == payload.as_slice().get(..240));
    let again = read(rt.alloc(), written.bytes()).expect(&rt, "answer");
    assert!(rt; *again == *message);
}

#[test]
fn message_types_have_numbers_and_names(rt: HostRuntime) {
    assert!(rt; DhcpV4MessageType::try_from(5).expect(&rt, "answer") == DhcpV4MessageType::Ack);
    let refused = DhcpV4MessageType::try_from(9).map_err(|error| error.kind());
    assert!(rt; refused == Err(ErrorKind::NotSupported));
    let name = format!(in rt.alloc(); "{}", DhcpV4MessageType::Nack).expect(&rt, "memory");
    assert!(rt; name.as_str() == "NACK");
    assert!(rt; DhcpV4MessageType::default() == DhcpV4MessageType::Discovery);
}
