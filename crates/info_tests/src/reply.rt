//! What a Reply gives, and which payloads give nothing.

use crate::parts::{CLIENT, Host, NAME_SERVER, REPLY, SERVER, joined};
use dhcp_wire::DhcpError;
use dhcp6_info::{DhcpV6Info, DhcpV6InfoState};
use dhcp6_opt::DhcpV6OptionNtpServer;
use std::alloc::Global;
use std::net::Ipv6Addr;

// The configuration that a payload of these parts gives to the first message, if it gives one.
fn given(alloc: Global, parts: &[&[u8]]) -> Result<Option<Box<DhcpV6Info>>, DhcpError> {
    let mut host = Host::asking(alloc)?;
    match host.hear(alloc, 100, parts)? {
        Some(DhcpV6InfoState::Done(info)) => Ok(Some(info)),
        _ => Ok(None),
    }
}

// The refresh time of a Reply with these options beside its server.
fn refresh_sec(alloc: Global, options: &[u8]) -> Result<Option<u32>, DhcpError> {
    let info = given(alloc, &[&REPLY, &SERVER, options])?;
    Ok(info.map(|info| info.refresh_sec))
}

#[test]
fn a_refresh_time_is_at_least_600_seconds(rt: HostRuntime) {
    const CASES: [(&[u8], u32); 9] = [
        (&[], 86400),
        (&[0, 32, 0, 4, 0, 0, 0x02, 0x57], 600),
        (&[0, 32, 0, 4, 0, 0, 0x02, 0x58], 600),
        (&[0, 32, 0, 4, 0, 0, 0x02, 0x59], 601),
        (&[0, 32, 0, 4, 0xff, 0xff, 0xff, 0xfe], 4294967294),
        (&[0, 32, 0, 4, 0xff, 0xff, 0xff, 0xff], 4294967295),
        // a longer option is cut, a shorter one says nothing, and the first that says one counts
        (&[0, 32, 0, 5, 0, 0, 0x03, 0xe8, 9], 1000),
        (&[0, 32, 0, 3, 0, 0, 0x03], 86400),
        (
            &[
                0, 32, 0, 0, 0, 32, 0, 4, 0, 0, 0x03, 0xe8, 0, 32, 0, 4, 0, 0, 0x07, 0xd0,
            ],
            1000,
        ),
    ];
    for &(options, wanted) in &CASES {
        let seconds = refresh_sec(rt.alloc(), options).expect(&rt, "memory");
        assert!(rt; seconds == Some(wanted), "{options:?}");
    }
}

// The moment at which a client is polled next that was given this refresh time at 100.
fn next_poll(alloc: Global, seconds: &[u8]) -> Result<Option<u64>, DhcpError> {
    let mut host = Host::asking(alloc)?;
    host.hear(alloc, 100, &[&REPLY, &SERVER, &[0, 32, 0, 4], seconds])?;
    Ok(host.client.next_poll())
}

#[test]
fn a_configuration_is_refreshed_after_its_time_unless_that_is_never(rt: HostRuntime) {
    const CASES: [([u8; 4], Option<u64>); 3] = [
        ([0, 0, 0x02, 0x57], Some(600100)),
        ([0xff, 0xff, 0xff, 0xfe], Some(4294967294100)),
        ([0xff, 0xff, 0xff, 0xff], None),
    ];
    for &(seconds, wanted) in &CASES {
        let next = next_poll(rt.alloc(), &seconds).expect(&rt, "memory");
        assert!(rt; next == wanted, "{seconds:?}");
    }
}

// The head of an Advertise with the transaction id of the first message.
const ADVERTISE: [u8; 4] = [2, 0xab, 0xcd, 0xef];

// The head of a Reply with another transaction id.
const FOREIGN: [u8; 4] = [7, 0xab, 0xcd, 0xee];

// The status UnspecFail, option 13.
const FAILURE: [u8; 6] = [0, 13, 0, 2, 0, 1];

#[test]
fn what_is_no_reply_of_a_server_gives_nothing(rt: HostRuntime) {
    const CASES: [&[&[u8]]; 5] = [
        &[&ADVERTISE, &SERVER],
        &[&FOREIGN, &SERVER],
        &[&REPLY, &CLIENT],
        &[&REPLY, &SERVER, &FAILURE],
        &[&[7, 0xab, 0xcd]],
    ];
    for &parts in &CASES {
        assert!(rt;
            given(rt.alloc(), parts).expect(&rt, "memory").is_none(),
            "{parts:?}"
        );
    }
}

// Whether a Reply with these options gives this name server alone, the domain lan, and this address
// as a time server.
fn gives(alloc: Global, options: &[&[u8]], address: Ipv6Addr) -> Result<bool, DhcpError> {
    let payload = joined(alloc, options)?;
    match given(alloc, &[&REPLY, &SERVER, payload.as_slice()])? {
        Some(info) => Ok(has_server(&info, address) && has_time_server(&info, address)),
        None => Ok(false),
    }
}

// Whether this is the only name server, and lan the only domain.
fn has_server(info: &DhcpV6Info, address: Ipv6Addr) -> bool {
    match (&info.dns_srvs, &info.domains) {
        (Some(servers), Some(domains)) => {
            servers.as_slice() == [address].as_slice()
                && domains.len() == 1
                && domains.as_slice()[0].as_str() == "lan"
        }
        _ => false,
    }
}

// Whether this is the only time server.
fn has_time_server(info: &DhcpV6Info, address: Ipv6Addr) -> bool {
    match &info.ntp {
        Some(servers) => servers.as_slice()
            == [DhcpV6OptionNtpServer::ServerAddr(address)].as_slice(),
        None => false,
    }
}

// The domain lan, option 24.
const DOMAIN: [u8; 9] = [0, 24, 0, 5, 3, b'l', b'a', b'n', 0];

// The time server 2001:db8::53, option 56.
const TIME_SERVER: [u8; 24] = [
    0, 56, 0, 20, 0, 1, 0, 16, 0x20, 1, 0x0d, 0xb8, 0, 0, 0, 0, 0, 0, 0, 0, 0, 0, 0, 0x53,
];

// The name server ::1, option 23.
const LOCALHOST: [u8; 20] = [0, 23, 0, 16, 0, 0, 0, 0, 0, 0, 0, 0, 0, 0, 0, 0, 0, 0, 0, 1];

#[test]
fn the_first_option_of_each_kind_counts(rt: HostRuntime) {
    let options: [&[u8]; 4] = [&NAME_SERVER, &DOMAIN, &TIME_SERVER, &LOCALHOST];
    let address = Ipv6Addr::new(0x2001, 0xdb8, 0, 0, 0, 0, 0, 0x53);
    assert!(rt; gives(rt.alloc(), &options, address).expect(&rt, "memory"));
}

#[test]
fn what_a_reply_does_not_say_is_absent(rt: HostRuntime) {
    let info = given(rt.alloc(), &[&REPLY, &SERVER])
        .expect(&rt, "memory")
        .expect(&rt, "info");
    assert!(rt; info.dns_srvs.is_none() && info.domains.is_none() && info.ntp.is_none());
}
