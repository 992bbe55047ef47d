//! Codes of options and of statuses.

use dhcp6_opt::{DhcpV6OptionCode, DhcpV6OptionStatusCode};
use std::hash::{DefaultHasher, Hash, Hasher};

#[test]
fn codes_are_compared_by_number(rt: HostRuntime) {
    assert!(rt; DhcpV6OptionCode::Other(3) == DhcpV6OptionCode::IANA);
    assert!(rt; DhcpV6OptionCode::Other(2) < DhcpV6OptionCode::IANA);
    assert!(rt; DhcpV6OptionCode::from(56) == DhcpV6OptionCode::NtpServer);
    assert!(rt; u16::from(DhcpV6OptionCode::Other(7)) == 7);
}

#[test]
fn the_default_code_is_the_first_that_has_a_name(rt: HostRuntime) {
    assert!(rt; matches!(DhcpV6OptionCode::default(), DhcpV6OptionCode::ClientId));
}

// Which bytes a value feeds to a hasher.
fn hash_of(code: DhcpV6OptionCode) -> u64 {
    let mut hasher = DefaultHasher::new();
    code.hash(&mut hasher);
    hasher.finish()
}

#[test]
fn equal_codes_hash_alike(rt: HostRuntime) {
    assert!(rt; hash_of(DhcpV6OptionCode::Other(3)) == hash_of(DhcpV6OptionCode::IANA));
}

#[test]
fn codes_are_printed_by_name(rt: HostRuntime) {
    let alloc = rt.alloc();
    let (named, number) = (DhcpV6OptionCode::IAPD, DhcpV6OptionCode::Other(99));
    assert!(rt; format!(in alloc; "{named}").expect(&rt, "memory").as_str() == "OPTION_IA_PD");
    assert!(rt; format!(in alloc; "{number}").expect(&rt, "memory").as_str() == "Unknown(99)");
}

#[test]
fn status_codes_are_printed_by_name(rt: HostRuntime) {
    let alloc = rt.alloc();
    let (named, number) = (
        DhcpV6OptionStatusCode::from(6),
        DhcpV6OptionStatusCode::from(7),
    );
    assert!(rt; format!(in alloc; "{named}").expect(&rt, "memory").as_str() == "no_prefix_avail");
    assert!(rt; format!(in alloc; "{number}").expect(&rt, "memory").as_str() == "other(7)");
    assert!(rt; u16::from(DhcpV6OptionStatusCode::NotOnLink) == 4);
}
