//! Messages and views of their payloads.

use crate::reply::{
    ASSOCIATION, CLIENT, REPLY, SERVER, joined, plain_lease, refusal, reply, reply_message,
};
use dhcp_wire::{Bytes, DhcpError, ErrorKind, FixedText};
use dhcp6_msg::{
    DhcpV6IaType, DhcpV6Lease, DhcpV6Message, DhcpV6MessageType, DhcpV6Mode, DhcpV6View,
};
use dhcp6_opt::{DhcpV6Duid, DhcpV6OptionCode};
use std::alloc::Global;

// A message after so many milliseconds.
fn message_after(alloc: Global, elapsed_ms: u64) -> Result<DhcpV6Message, DhcpError> {
    let duid = DhcpV6Duid::parse(alloc, &[0, 3, 0, 1, 2, 0, 0, 0, 0, 1])?;
    if duid.written_len() > 65535 {
        return Err(DhcpError::new_fixed(ErrorKind::Bug, FixedText::Config));
    }
    let kind = DhcpV6MessageType::Solicit;
    DhcpV6Message::new(alloc, kind, 7, &duid, elapsed_ms)
}

// Whether the time of a message after so many milliseconds is written so.
fn is_time(alloc: Global, elapsed_ms: u64, written: &[u8]) -> Result<bool, DhcpError> {
    let wanted = joined(alloc, &[&[1, 0, 0, 7], &CLIENT, &[0, 8, 0, 2], written])?;
    Ok(message_after(alloc, elapsed_ms)?.emit(alloc)? == wanted)
}

#[test]
fn a_long_time_is_written_as_the_greatest(rt: HostRuntime) {
    const CASES: [(u64, [u8; 2]); 4] = [
        (655_349, [0xff, 0xfe]),
        (655_350, [0xff, 0xff]),
        (655_360, [0xff, 0xff]),
        (u64::MAX, [0xff, 0xff]),
    ];
    for &(elapsed_ms, written) in &CASES {
        assert!(rt; is_time(rt.alloc(), elapsed_ms, &written).expect(&rt, "memory"));
    }
}

// Whether a message has an option of this code.
fn has(message: &DhcpV6Message, code: u16) -> bool {
    message
        .options
        .get_first(DhcpV6OptionCode::from(code))
        .is_some()
}

// Whether a view copies a client, a server, an association, and all bytes of its payload.
fn is_copied(alloc: Global, view: &DhcpV6View, payload: &Bytes) -> Result<bool, DhcpError> {
    let message = view.to_message(alloc)?;
    let has_all = has(&message, 1) && has(&message, 2) && has(&message, 3);
    Ok(has_all && message.emit(alloc)? == *payload)
}

#[test]
fn a_view_shows_type_and_id_and_copies_three_options(rt: HostRuntime) {
    let payload = reply(rt.alloc()).expect(&rt, "memory");
    let view = DhcpV6View::new(payload.as_slice()).expect(&rt, "no message");
    assert!(rt; view.msg_type() == DhcpV6MessageType::Reply && view.xid() == 0);
    assert!(rt; is_copied(rt.alloc(), &view, &payload).expect(&rt, "answer"));
}

// The Reply that grants an address, but its first option says that it is longer than the message.
fn truncated(alloc: Global) -> Result<DhcpV6Message, DhcpError> {
    let identifier = [0, 1, 1, 0, 0, 3, 0, 1, 2, 0, 0, 0, 0, 1];
    let payload = joined(alloc, &[&REPLY, &identifier, &SERVER, &ASSOCIATION])?;
    DhcpV6Message::parse(alloc, payload.as_slice())
}

#[test]
fn a_truncated_option_ends_the_reading(rt: HostRuntime) {
    let written = truncated(rt.alloc())
        .expect(&rt, "memory")
        .emit(rt.alloc())
        .expect(&rt, "memory");
    assert!(rt; written.as_slice() == REPLY.as_slice());
}

#[test]
fn a_payload_is_refused_by_its_length_and_its_type(rt: HostRuntime) {
    const CASES: [(&[u8], Option<ErrorKind>); 7] = [
        (&[], Some(ErrorKind::InvalidDhcpMessage)),
        (&[0], Some(ErrorKind::NotSupported)),
        (&[14, 0, 0, 0], Some(ErrorKind::NotSupported)),
        (&[7], Some(ErrorKind::InvalidDhcpMessage)),
        (&[7, 0, 0], Some(ErrorKind::InvalidDhcpMessage)),
        (&[7, 0, 0, 0], None),
        (&[13, 0, 0, 0], None),
    ];
    for &(payload, wanted) in &CASES {
        assert!(rt;
            refusal(DhcpV6Message::parse(rt.alloc(), payload)).expect(&rt, "answer") == wanted
        );
    }
}

// The bytes of a Request that takes over the server and the association of a lease.
fn loaded(alloc: Global, lease: &DhcpV6Lease) -> Result<Bytes, DhcpError> {
    if lease.srv_duid.written_len() > 65535 {
        return Err(DhcpError::new_fixed(ErrorKind::Bug, FixedText::Config));
    }
    let mut message = DhcpV6Message::parse(alloc, &[3, 0, 0, 9])?;
    message.load_lease(alloc, lease)?;
    message.emit(alloc)
}

// The same of the plain lease.
fn plain_loaded(alloc: Global) -> Result<Bytes, DhcpError> {
    let lease = plain_lease(alloc)?;
    loaded(alloc, &lease)
}

#[test]
fn a_message_takes_over_server_and_association(rt: HostRuntime) {
    let wanted = joined(rt.alloc(), &[&[3, 0, 0, 9], &SERVER, &ASSOCIATION]).expect(&rt, "memory");
    assert!(rt; plain_loaded(rt.alloc()).expect(&rt, "memory") == wanted);
}

#[test]
fn a_copy_of_a_message_is_equal(rt: HostRuntime) {
    let message = reply_message(rt.alloc()).expect(&rt, "memory");
    assert!(rt; message.try_clone(rt.alloc()).expect(&rt, "memory") == message);
}

#[test]
fn types_and_modes_are_printed_by_name(rt: HostRuntime) {
    let alloc = rt.alloc();
    let kind = format!(in alloc; "{}", DhcpV6MessageType::InformationRequest).expect(&rt, "memory");
    assert!(rt; kind.as_str() == "\"Information-request\"");
    let mode = format!(in alloc; "{}", DhcpV6Mode::PrefixDelegation(56)).expect(&rt, "memory");
    assert!(rt; mode.as_str() == "Prefix Delegation(IA_PD)-56");
    assert!(rt; u8::from(DhcpV6MessageType::RelayReply) == 13);
}

#[test]
fn the_defaults_are_a_solicit_and_non_temporary_addresses(rt: HostRuntime) {
    assert!(rt; DhcpV6MessageType::default() == DhcpV6MessageType::Solicit);
    assert!(rt; DhcpV6IaType::default() == DhcpV6IaType::NonTemporaryAddresses);
    assert!(rt; DhcpV6Mode::default() == DhcpV6Mode::NonTemporaryAddresses);
}
