//! Configurations.

use crate::reply::{ELAPSED, MAC, joined, plain_config, solicit_of};
use dhcp_clock::{WordList, Words};
use dhcp_wire::{BufferMut, Bytes, DhcpError, boxed};
use dhcp6_msg::DhcpV6Config;
use dhcp6_opt::DhcpV6Duid;
use std::alloc::Global;
use std::net::Ipv6Addr;

// A configuration that asks for these codes alone.
fn asking_alone(alloc: Global, codes: &[u16]) -> Result<DhcpV6Config, DhcpError> {
    let mut config = DhcpV6Config::empty(alloc)?;
    config.override_request_dhcp_opts(alloc, codes)?;
    Ok(config)
}

// A configuration that asks for these codes too.
fn asking_too(alloc: Global, codes: &[u16]) -> Result<DhcpV6Config, DhcpError> {
    let mut config = DhcpV6Config::empty(alloc)?;
    config.request_extra_dhcp_opts(alloc, codes)?;
    Ok(config)
}

// A configuration that asks for these codes, alone or too.
fn asking(alloc: Global, codes: &[u16], alone: bool) -> Result<DhcpV6Config, DhcpError> {
    if alone {
        asking_alone(alloc, codes)
    } else {
        asking_too(alloc, codes)
    }
}

// Whether the option request option of such a configuration is written so.
fn is_asked(alloc: Global, codes: &[u16], alone: bool, requests: &[u8]) -> Result<bool, DhcpError> {
    let config = asking(alloc, codes, alone)?;
    asks_for(alloc, &config, requests)
}

// Whether that of this configuration, which has no identifier, is written so.
fn asks_for(alloc: Global, config: &DhcpV6Config, requests: &[u8]) -> Result<bool, DhcpError> {
    let head = [1, 0xab, 0xcd, 0xef, 0, 1, 0, 0];
    let association = [0, 3, 0, 12, 0, 0, 0, 0, 0, 0, 0, 0, 0, 0, 0, 0];
    let wanted = joined(alloc, &[&head, &association, requests, &ELAPSED])?;
    Ok(solicit_of(alloc, config)? == wanted)
}

#[test]
fn codes_are_asked_for_in_rising_order_each_once(rt: HostRuntime) {
    const CASES: [(&[u16], bool, &[u8]); 3] = [
        (&[], false, &[0, 6, 0, 10, 0, 6, 0, 7, 0, 23, 0, 24, 0, 56]),
        (
            &[82],
            false,
            &[0, 6, 0, 12, 0, 6, 0, 7, 0, 23, 0, 24, 0, 56, 0, 82],
        ),
        (&[24, 23, 24], true, &[0, 6, 0, 4, 0, 23, 0, 24]),
    ];
    for &(codes, alone, requests) in &CASES {
        assert!(rt; is_asked(rt.alloc(), codes, alone, requests).expect(&rt, "memory"));
    }
}

// The bytes of an identifier.
fn bytes_of(alloc: Global, duid: &DhcpV6Duid) -> Result<Bytes, DhcpError> {
    let mut buf = BufferMut::new(alloc);
    duid.emit(&mut buf)?;
    Ok(buf.into_bytes())
}

// A configuration of this MAC address, if there is one.
fn of_mac(alloc: Global, mac: Option<[u8; 6]>) -> Result<DhcpV6Config, DhcpError> {
    let mut config = DhcpV6Config::empty(alloc)?;
    if let Some(mac) = mac {
        config.set_src_mac(mac);
    }
    Ok(config)
}

// The bytes of the identifier of a configuration, which is made if there is none.
fn made(
    alloc: Global,
    config: &mut DhcpV6Config,
    words: &mut WordList,
) -> Result<Bytes, DhcpError> {
    let duid = config.get_duid_or_init(alloc, words)?;
    bytes_of(alloc, duid)
}

// Whether the identifier that is made, of this MAC address if there is one, has these bytes.
fn is_made(
    alloc: Global,
    mac: Option<[u8; 6]>,
    words: &mut WordList,
    wanted: &[u8],
) -> Result<bool, DhcpError> {
    let mut config = of_mac(alloc, mac)?;
    Ok(made(alloc, &mut config, words)?.as_slice() == wanted)
}

// Four random words and one more.
fn words(alloc: Global) -> Result<WordList, DhcpError> {
    Ok(WordList::new(Vec::from_slice(alloc, &[1, 2, 3, 4, 77])?))
}

#[test]
fn an_identifier_is_made_of_the_mac_address(rt: HostRuntime) {
    let mut words = words(rt.alloc()).expect(&rt, "memory");
    let wanted = [0, 3, 0, 1, 2, 0, 0, 0, 0, 1];
    assert!(rt; is_made(rt.alloc(), Some(MAC), &mut words, &wanted).expect(&rt, "memory"));
    assert!(rt; words.next_word() == 1);
}

#[test]
fn an_identifier_is_made_at_random_without_one(rt: HostRuntime) {
    let mut words = words(rt.alloc()).expect(&rt, "memory");
    let wanted = [0, 255, 0, 1, 0, 0, 0, 2, 0, 0, 0, 3, 0, 0, 0, 4];
    assert!(rt; is_made(rt.alloc(), None, &mut words, &wanted).expect(&rt, "memory"));
    assert!(rt; words.next_word() == 77);
}

// Whether two configurations are equal once an identifier is made for one and set in the other, of
// the same words.
fn are_made_equal(
    alloc: Global,
    made: &mut DhcpV6Config,
    set: &mut DhcpV6Config,
) -> Result<bool, DhcpError> {
    made.get_duid_or_init(alloc, &mut words(alloc)?)?;
    set.init_duid(alloc, &mut words(alloc)?)?;
    Ok(*made == *set)
}

#[test]
fn nothing_but_the_identifier_is_made(rt: HostRuntime) {
    for mac in [None, Some(MAC)] {
        let mut made = boxed(rt.alloc(), of_mac(rt.alloc(), mac)).expect(&rt, "memory");
        let mut set = boxed(rt.alloc(), of_mac(rt.alloc(), mac)).expect(&rt, "memory");
        let are_equal = are_made_equal(rt.alloc(), &mut *made, &mut *set);
        assert!(rt; are_equal.expect(&rt, "memory"));
    }
}

// A configuration whose identifier is set to that of the MAC address.
fn identified(alloc: Global) -> Result<DhcpV6Config, DhcpError> {
    let mut config = DhcpV6Config::empty(alloc)?;
    config.set_duid_by_iface_mac(alloc, &MAC)?;
    Ok(config)
}

// Whether the identifier of a configuration has these bytes when one was to be made.
fn stays(
    alloc: Global,
    config: &mut DhcpV6Config,
    words: &mut WordList,
    wanted: &[u8],
) -> Result<bool, DhcpError> {
    config.init_duid(alloc, words)?;
    Ok(bytes_of(alloc, &config.duid)?.as_slice() == wanted)
}

#[test]
fn an_identifier_that_is_set_stays(rt: HostRuntime) {
    let mut words = words(rt.alloc()).expect(&rt, "memory");
    let mut config = boxed(rt.alloc(), identified(rt.alloc())).expect(&rt, "memory");
    let wanted = [0, 3, 0, 1, 2, 0, 0, 0, 0, 1];
    assert!(rt;
        stays(rt.alloc(), &mut *config, &mut words, &wanted).expect(&rt, "memory")
            && words.next_word() == 1
    );
}

#[test]
fn numbers_and_addresses_are_set_in_a_chain(rt: HostRuntime) {
    let empty = DhcpV6Config::empty(rt.alloc());
    let mut config = boxed(rt.alloc(), empty).expect(&rt, "memory");
    let address = Ipv6Addr::new(0xfe80, 0, 0, 0, 0, 0, 0, 1);
    config
        .set_iface_index(3)
        .set_timeout_sec(60)
        .set_link_local_ip(address);
    assert!(rt; config.iface_index == 3 && config.timeout_sec == 60 && config.src_ip == address);
}

#[test]
fn a_copy_of_a_configuration_is_equal(rt: HostRuntime) {
    let config = boxed(rt.alloc(), plain_config(rt.alloc())).expect(&rt, "memory");
    let copy = boxed(rt.alloc(), config.try_clone(rt.alloc())).expect(&rt, "memory");
    assert!(rt; *copy == *config);
}
