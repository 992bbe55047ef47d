//! What is refused, and why.

use crate::messages::{FORWARD, REPLY, bytes_of, forward_of};
use dhcp_wire::DhcpError;
use dhcp6_relay::{RelayError, parse_relay, reply_along};
use std::alloc::{AllocError, Global};

// Why a call refuses, if it does.
fn refusal<T: Drop>(returned: Result<T, RelayError>) -> Option<RelayError> {
    match returned {
        Ok(_) => None,
        Err(error) => Some(error),
    }
}

// The relayed Solicit with this hop count, or less of it.
fn forward_with(alloc: Global, hops: u8, len: usize) -> Result<Vec<u8>, DhcpError> {
    let mut bytes = bytes_of(alloc, FORWARD)?.into_vec();
    if let Some(count) = bytes.get_mut(1) {
        *count = hops;
    }
    bytes.truncate(len);
    Ok(bytes)
}

#[test]
fn hop_counts_go_up_to_eight(rt: HostRuntime) {
    let seven = forward_with(rt.alloc(), 7, 84).expect(&rt, "memory");
    let outer = forward_of(rt.alloc(), seven.as_slice(), 2, None).expect(&rt, "relayed");
    assert!(rt; outer.as_slice().get(1).copied() == Some(8));
    let eight = forward_with(rt.alloc(), 8, 84).expect(&rt, "memory");
    assert!(rt;
        refusal(forward_of(rt.alloc(), eight.as_slice(), 2, None)) == Some(RelayError::TooManyHops)
    );
}

#[test]
fn a_header_has_34_bytes(rt: HostRuntime) {
    let short = forward_with(rt.alloc(), 0, 33).expect(&rt, "memory");
    assert!(rt;
        refusal(forward_of(rt.alloc(), short.as_slice(), 2, None)) == Some(RelayError::Short)
    );
    assert!(rt; refusal(reply_along(rt.alloc(), short.as_slice(), &[])) == Some(RelayError::Short));
    assert!(rt; refusal(parse_relay(rt.alloc(), short.as_slice())) == Some(RelayError::Short));
    let whole = forward_with(rt.alloc(), 0, 34).expect(&rt, "memory");
    assert!(rt; refusal(parse_relay(rt.alloc(), whole.as_slice())) == Some(RelayError::NoMessage));
}

#[test]
fn a_truncated_option_is_no_message(rt: HostRuntime) {
    let cut = forward_with(rt.alloc(), 0, 83).expect(&rt, "memory");
    assert!(rt; refusal(parse_relay(rt.alloc(), cut.as_slice())) == Some(RelayError::NoMessage));
    assert!(rt;
        refusal(reply_along(rt.alloc(), cut.as_slice(), &[])) == Some(RelayError::NoMessage)
    );
}

#[test]
fn other_messages_are_no_relay_messages(rt: HostRuntime) {
    let reply = bytes_of(rt.alloc(), REPLY).expect(&rt, "memory");
    for bytes in [reply.as_slice(), &[]] {
        assert!(rt; refusal(parse_relay(rt.alloc(), bytes)) == Some(RelayError::NotRelay));
        assert!(rt; refusal(reply_along(rt.alloc(), bytes, &[])) == Some(RelayError::NotRelay));
    }
}

// Bytes of a message that is no Relay-forward, as many as this.
fn long_message(alloc: Global, len: usize) -> Result<Vec<u8>, AllocError> {
    let mut bytes = Vec::with_capacity(alloc, len)?;
    bytes.resize(len, 1)?;
    Ok(bytes)
}

#[test]
fn a_result_has_at_most_65_535_bytes(rt: HostRuntime) {
    let longest = long_message(rt.alloc(), 65_497).expect(&rt, "memory");
    let forward = forward_of(rt.alloc(), longest.as_slice(), 1, None).expect(&rt, "relayed");
    assert!(rt; forward.len() == 65_535);
    let longer = long_message(rt.alloc(), 65_498).expect(&rt, "memory");
    assert!(rt;
        refusal(forward_of(rt.alloc(), longer.as_slice(), 1, None)) == Some(RelayError::TooLong)
    );
    let solicit = forward_with(rt.alloc(), 0, 84).expect(&rt, "memory");
    assert!(rt;
        refusal(reply_along(rt.alloc(), solicit.as_slice(), longer.as_slice()))
            == Some(RelayError::TooLong)
    );
}

#[test]
fn a_refusal_is_printed_for_people(rt: HostRuntime) {
    let table = [
        (RelayError::NotRelay, "not a relay message"),
        (RelayError::Short, "unexpected end of data"),
        (RelayError::NoMessage, "no relayed message"),
        (RelayError::TooManyHops, "too many hops"),
        (RelayError::TooLong, "the message is too long"),
        (RelayError::OutOfMemory, "out of memory"),
    ];
    for (error, want) in table {
        let text = format!(in rt.alloc(); "{error}").expect(&rt, "memory");
        assert!(rt; text.as_str() == want);
    }
}
