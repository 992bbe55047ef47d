//! Two clients and one address.

use crate::scripts::{client, pool_ip, script, server};
use dhcp_wire::{DhcpError, ErrorKind};
use dhcp4_net::{NetAct, NetEvent, NetOutput, NetWhat, run_net};
use std::alloc::Global;

// Both clients send a Discover, both get an Offer of the address, the first gets an Ack of it and
// the second a Nack.
fn first_events() -> [NetEvent; 10] {
    [
        client(0, 0, NetAct::Nothing),
        client(0, 1, NetAct::Nothing),
        server(10, 0),
        server(10, 1),
        client(20, 0, NetAct::Deliver(2)),
        client(20, 1, NetAct::Deliver(3)),
        server(30, 4),
        server(30, 5),
        client(40, 0, NetAct::Deliver(6)),
        client(40, 1, NetAct::Deliver(7)),
    ]
}

// What is reported of the events of one or two lists.
fn outputs(
    alloc: Global,
    count: u32,
    events: &[NetEvent],
    more: &[NetEvent],
) -> Result<Vec<NetOutput>, DhcpError> {
    let mut all = events.to_vec(alloc)?;
    all.extend_from_slice(more)?;
    run_net(alloc, &script(alloc, count, all.as_slice())?)
}

// An output of an event.
fn output(event: u32, what: NetWhat) -> NetOutput {
    NetOutput { event, what }
}

// What the first events report.
fn first_outputs() -> [NetOutput; 10] {
    [
        output(1, NetWhat::Sent(0)),
        output(2, NetWhat::Sent(1)),
        output(3, NetWhat::Sent(2)),
        output(4, NetWhat::Sent(3)),
        output(5, NetWhat::Sent(4)),
        output(6, NetWhat::Sent(5)),
        output(7, NetWhat::Sent(6)),
        output(8, NetWhat::Sent(7)),
        output(9, NetWhat::Hold(0, pool_ip(), 40, 100_040)),
        output(10, NetWhat::Sent(8)),
    ]
}

// Whether the first events and these report what the first events do, and this.
fn reports(alloc: Global, events: &[NetEvent], more: &[NetOutput]) -> Result<bool, DhcpError> {
    let reported = outputs(alloc, 1, &first_events(), events)?;
    let mut expected = first_outputs().to_vec(alloc)?;
    expected.extend_from_slice(more)?;
    Ok(reported.as_slice() == expected.as_slice())
}

#[test]
fn an_address_is_offered_again_after_lease_and_bound(rt: HostRuntime) {
    let events = [
        client(101_000, 1, NetAct::Nothing),
        server(101_029, 9),
        server(101_030, 9),
    ];
    let expected = [output(11, NetWhat::Sent(9)), output(13, NetWhat::Sent(10))];
    let is = reports(rt.alloc(), &events, &expected).expect(&rt, "memory");
    assert!(rt; is);
}

#[test]
fn a_packet_that_comes_again_in_time_changes_nothing(rt: HostRuntime) {
    let events = [client(1_030, 0, NetAct::Deliver(6))];
    let is = reports(rt.alloc(), &events, &[]).expect(&rt, "memory");
    assert!(rt; is);
}

// Whether a script with these events is refused.
fn is_refused(alloc: Global, count: u32, events: &[NetEvent], more: &[NetEvent]) -> bool {
    match outputs(alloc, count, events, more) {
        Ok(_) => false,
        Err(error) => error.kind() == ErrorKind::InvalidArgument,
    }
}

#[test]
fn what_may_not_come_is_refused(rt: HostRuntime) {
    let late = client(1_031, 0, NetAct::Deliver(6));
    let unsent = client(40, 0, NetAct::Deliver(9));
    let stranger = client(40, 2, NetAct::Nothing);
    let earlier = client(39, 0, NetAct::Nothing);
    for event in [late, unsent, stranger, earlier] {
        assert!(rt;
            is_refused(rt.alloc(), 1, &first_events(), &[event]),
            "{event:?}"
        );
    }
}

#[test]
fn a_server_without_addresses_is_refused(rt: HostRuntime) {
    assert!(rt; is_refused(rt.alloc(), 0, &first_events(), &[]));
}
