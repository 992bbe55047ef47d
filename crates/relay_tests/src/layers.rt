//! Layers of a relayed message: up to nine, each with its own interface id.

use crate::messages::{forward_of, peer};
use dhcp_wire::Bytes;
use dhcp6_relay::{Relay, RelayError, parse_relay, reply_along};
use std::alloc::Global;

// A message relayed from the peers 1, 2 and so on, as many as there are; the interface id of each
// is its number.
fn chain(alloc: Global, message: &[u8], count: u8) -> Result<Bytes, RelayError> {
    let mut bytes = message.to_vec(alloc)?;
    for number in 1..=count {
        let outer = forward_of(alloc, bytes.as_slice(), u16::from(number), Some(&[number]))?;
        bytes = outer.into_vec();
    }
    Ok(Bytes::from(bytes))
}

// Whether a relay message is the reply to what came from the peer with this number.
fn is_of(relay: &Relay, number: u8) -> bool {
    let interface = match &relay.interface {
        Some(id) => id.as_slice() == [number].as_slice(),
        None => false,
    };
    let hops = u16::from(relay.hops) + 1 == u16::from(number);
    !relay.forward && hops && relay.peer == peer(u16::from(number)) && interface
}

// What is inside a reply after it was unwrapped at the relay agents from this number down to 1;
// none if one of them does not find what it wrote.
fn answer_in(alloc: Global, reply: Bytes, count: u8) -> Result<Option<Bytes>, RelayError> {
    let mut left = reply;
    for number in (1..=count).rev() {
        let relay = parse_relay(alloc, left.as_slice())?;
        if !is_of(&relay, number) {
            return Ok(None);
        }
        left = relay.inner;
    }
    Ok(Some(left))
}

// Whether an answer finds its way back through so many relay agents.
fn comes_back(alloc: Global, count: u8) -> Result<bool, RelayError> {
    let forward = chain(alloc, &[1, 2, 3], count)?;
    let reply = reply_along(alloc, forward.as_slice(), &[7, 8])?;
    match answer_in(alloc, reply, count)? {
        Some(answer) => Ok(answer.as_slice() == [7, 8].as_slice()),
        None => Ok(false),
    }
}

#[test]
fn an_answer_comes_back_through_one_to_nine_relay_agents(rt: HostRuntime) {
    for count in 1..=9u8 {
        assert!(rt;
            comes_back(rt.alloc(), count).expect(&rt, "memory"),
            "{count}"
        );
    }
}

// Whether a result is this refusal.
fn is_refused(returned: Result<Bytes, RelayError>, refusal: RelayError) -> bool {
    match returned {
        Ok(_) => false,
        Err(error) => error == refusal,
    }
}

// The same bytes with another one at this place.
fn with_byte(alloc: Global, bytes: &[u8], place: usize, byte: u8) -> Result<Bytes, RelayError> {
    let mut changed = bytes.to_vec(alloc)?;
    if let Some(old) = changed.get_mut(place) {
        *old = byte;
    }
    Ok(Bytes::from(changed))
}

#[test]
fn a_tenth_relay_agent_is_refused(rt: HostRuntime) {
    let alloc = rt.alloc();
    let nine = chain(alloc, &[1, 2, 3], 9).expect(&rt, "memory");
    let tenth = forward_of(alloc, nine.as_slice(), 10, None);
    assert!(rt; is_refused(tenth, RelayError::TooManyHops));
    let uncounted = with_byte(alloc, nine.as_slice(), 1, 0).expect(&rt, "memory");
    let ten = forward_of(alloc, uncounted.as_slice(), 10, None).expect(&rt, "memory");
    let reply = reply_along(alloc, ten.as_slice(), &[7]);
    assert!(rt; is_refused(reply, RelayError::TooManyHops));
}

// The answer to a message of one byte, 12, which is a layer that is not whole, inside so many
// layers.
fn reply_around_a_short_layer(alloc: Global, count: u8) -> Result<Bytes, RelayError> {
    let mut bytes = Bytes::from([1].to_vec(alloc)?);
    for _ in 0..count {
        bytes = forward_of(alloc, bytes.as_slice(), 1, None)?;
    }
    let end = bytes.len().saturating_sub(1);
    let forward = with_byte(alloc, bytes.as_slice(), end, 12)?;
    reply_along(alloc, forward.as_slice(), &[7])
}

#[test]
fn the_count_comes_before_the_faults_of_a_layer(rt: HostRuntime) {
    let ninth = reply_around_a_short_layer(rt.alloc(), 8);
    assert!(rt; is_refused(ninth, RelayError::Short));
    let tenth = reply_around_a_short_layer(rt.alloc(), 9);
    assert!(rt; is_refused(tenth, RelayError::TooManyHops));
}

#[test]
fn an_empty_interface_id_comes_back(rt: HostRuntime) {
    let alloc = rt.alloc();
    let forward = forward_of(alloc, &[1], 1, Some(&[])).expect(&rt, "memory");
    let reply = reply_along(alloc, forward.as_slice(), &[]).expect(&rt, "memory");
    let relay = parse_relay(alloc, reply.as_slice()).expect(&rt, "memory");
    assert!(rt; relay.inner.is_empty());
    assert!(rt; relay.interface == Some(Bytes::new(alloc)));
}
