//! The script of a demonstration, byte by byte.

ghost use Rattle.std.specs.Prelude.{◌≤◌};

use crate::scripts::{FRONT, is_text};
use dhcp_script::{Script, demo_script, write_script};
use dhcp_wire::DhcpError;
use std::alloc::{AllocError, Global};

const HEADERS: &str = "ffffffffffff0200000000020800450001280000000040110000c0000201ffffffff\
    0043004401140000";

const REPLY: &str = "02010600000000000000000000000000c000020ac000020100000000020000000001";

const COOKIE: &str = "63825363";

const OPTIONS: &str = "3604c00002013304000000643a04000000323b0400000050ff";

// A reply of this type, in hex.
fn reply(alloc: Global, kind: &str) -> Result<String, AllocError> {
    let zeros = "00".repeat(alloc, 202)?;
    format!(in alloc; "{REPLY}{zeros}{COOKIE}3501{kind}{OPTIONS}")
}

// Whether this is the text of a script that was made.
fn is_text_of(
    alloc: Global,
    made: &Result<Script, DhcpError>,
    text: &str,
) -> Result<bool, AllocError> {
    match made {
        Ok(script) => is_text(&write_script(alloc, script), text),
        Err(_) => Err(AllocError),
    }
}

// How many events a script of IPv4 has that was made.
fn count_of(made: &Result<Script, DhcpError>) -> Result<Option<usize>, AllocError> {
    match made {
        Ok(Script::V4(script)) => Ok(Some(script.events.len())),
        Ok(Script::V6(_)) => Ok(None),
        Err(_) => Err(AllocError),
    }
}

// How many events a demonstration of so many rounds has; it is a script of IPv4.
fn event_count(alloc: Global, rounds: u32) -> Result<Option<usize>, AllocError>
    requires some { 1 ≤ rounds }
    requires few { rounds ≤ 2000 }
{
    count_of(&demo_script(alloc, rounds))
}

// Whether this is the text of a demonstration of one round.
fn is_text_of_one_round(alloc: Global, text: &str) -> Result<bool, AllocError> {
    is_text_of(alloc, &demo_script(alloc, 1), text)
}

#[test]
fn a_round_is_an_offer_a_lease_its_renewal_and_its_release(rt: HostRuntime) {
    let offer = reply(rt.alloc(), "02").expect(&rt, "memory");
    let ack = reply(rt.alloc(), "05").expect(&rt, "memory");
    let front = format!(in rt.alloc();
        "dhcp4 2\n{FRONT}lease none\nwords -\nstart 0\nat 0 ok none\n"
    ).expect(&rt, "memory");
    let want = format!(in rt.alloc();
        "{front}at 10 ok frame {HEADERS}{offer}\nat 20 ok frame {HEADERS}{ack}\n\
        at 50020 ok none\nat 50030 ok payload {ack}\nat 50040 ok release\nend\n"
    )
    .expect(&rt, "memory");
    assert!(rt; is_text_of_one_round(rt.alloc(), want.as_str()).expect(&rt, "memory"));
}

#[test]
fn so_many_rounds_have_five_events_each_after_the_first(rt: HostRuntime) {
    assert!(rt; event_count(rt.alloc(), 1).expect(&rt, "memory") == Some(6));
    assert!(rt; event_count(rt.alloc(), 2).expect(&rt, "memory") == Some(11));
    assert!(rt; event_count(rt.alloc(), 2000).expect(&rt, "memory") == Some(10_001));
}
