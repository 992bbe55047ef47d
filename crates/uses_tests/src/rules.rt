//! A client of rules of one's own.

use dhcp_clock::{Handed, MemLink, Packet, PacketKind, WordList};
use dhcp_history::{
    Client, Input, NumberedEvent, NumberedReport, Phase, Report, Standing, clean_up, next_poll,
    release_held, replay, run,
};
use dhcp_wire::Bytes;
use std::alloc::Global;
use std::process::Abort;
use uses::Repeater;

// A client that was not polled yet, with no time limit.
fn client() -> Client<Option<u64>, u32> {
    Client {
        state: None,
        timeout_sec: 0,
        standing: Standing {
            exchange: 0,
            entered: 0,
            phase: Phase::Unpolled,
            deadline: None,
        },
        last_moment: 0,
    }
}

// An empty frame.
fn packet(alloc: Global) -> Packet {
    Packet {
        kind: PacketKind::Frame,
        bytes: Bytes::new(alloc),
    }
}

// What a report is: 1 handed, 2 refused, 3 holding, 4 asking, 5 an error.
fn kind(output: NumberedReport<bool, Handed>) -> u32 {
    match output.report {
        Report::Handed(_) => 1,
        Report::Refused(_) => 2,
        Report::Changed(true) => 3,
        Report::Changed(false) => 4,
        Report::Failed(_) => 5,
    }
}

// The client asks at 10, and a packet that waits at 100 lets it hold.
fn ask_and_hold(
    rt: &impl Abort,
    rules: &Repeater,
    client: &mut Client<Option<u64>, u32>,
    link: &mut MemLink,
) {
    let alloc = rules.alloc;
    let mut words = WordList::new(vec![in alloc; 500, 0].expect(rt, "memory"));
    let first = run(rules, client, 10, &mut words, link);
    assert!(rt; first.expect(rt, "answer").is_none());
    assert!(rt; next_poll(rules, client) == Some(1510));
    link.load(Some(packet(alloc)));
    let second = run(rules, client, 100, &mut words, link);
    assert!(rt; second.expect(rt, "answer") == Some(true));
}

#[test]
fn a_client_asks_holds_and_is_released(rt: HostRuntime) {
    let rules = Repeater { alloc: rt.alloc() };
    let mut client = client();
    let mut link = MemLink::new(rt.alloc());
    assert!(rt; next_poll(&rules, &client) == Some(0));
    ask_and_hold(&rt, &rules, &mut client, &mut link);
    assert!(rt; next_poll(&rules, &client) == Some(5100));
    assert!(rt; release_held(&rules, &mut client, &mut link).expect(&rt, "answer"));
    clean_up(&rules, &mut client);
    assert!(rt; next_poll(&rules, &client) == Some(100));
}

#[test]
fn a_replay_reports_each_event(rt: HostRuntime) {
    let alloc = rt.alloc();
    let rules = Repeater { alloc };
    let mut client = client();
    let mut words = WordList::new(Vec::new(alloc));
    let first = NumberedEvent {
        number: 1,
        moment: 0,
        refuse: true,
        input: Input::Nothing,
    };
    let second = NumberedEvent {
        number: 2,
        moment: 1000,
        refuse: false,
        input: Input::Arrival(packet(alloc)),
    };
    let third = NumberedEvent {
        number: 3,
        moment: 6000,
        refuse: false,
        input: Input::CleanUp,
    };
    let events = vec![in alloc; first, second, third].expect(&rt, "memory");
    let outputs = replay(alloc, &rules, &mut client, &mut words, events).expect(&rt, "memory");
    let mut kinds = Vec::new(alloc);
    for output in outputs {
        kinds.push(kind(output)).expect(&rt, "memory");
    }
    assert!(rt; kinds.as_slice() == [2, 1, 3, 1].as_slice());
}
