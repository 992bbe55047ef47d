//! The limits of what `replay6` takes: those of a script.

use dhcp_clock::WordList;
use dhcp_replay::replay6;
use dhcp_wire::{Bytes, DhcpError, ErrorKind, Sequence};
use dhcp6_msg::{DhcpV6Config, DhcpV6IaType, DhcpV6Lease, DhcpV6Mode};
use dhcp6_opt::{DhcpV6Duid, DhcpV6OptionCode};
use std::alloc::Global;
use std::mem;
use std::net::Ipv6Addr;

// An identifier of so many bytes.
fn duid(alloc: Global, len: usize) -> Result<DhcpV6Duid, DhcpError> {
    Ok(DhcpV6Duid::Raw(Bytes::from(vec![in alloc; 0xffu8; len]?)))
}

// A configuration with an identifier of so many bytes, which asks for so many options.
fn config(alloc: Global, duid_len: usize, codes: usize) -> Result<DhcpV6Config, DhcpError> {
    let duid = duid(alloc, duid_len)?;
    let codes = Sequence::from(vec![in alloc; DhcpV6OptionCode::DnsServers; codes]?);
    let mut config = DhcpV6Config::new(alloc, "", DhcpV6Mode::NonTemporaryAddresses)?;
    config.iface_index = 1;
    config.src_ip = Ipv6Addr::new(0xfe80, 0, 0, 0, 0, 0, 0, 1);
    drop(mem::replace(&mut config.duid, duid));
    drop(mem::replace(&mut config.request_opts, codes));
    Ok(config)
}

// A lease whose server has an identifier of so many bytes.
fn lease(alloc: Global, server_len: usize) -> Result<DhcpV6Lease, DhcpError> {
    let server = duid(alloc, server_len)?;
    let mut lease = DhcpV6Lease::empty(alloc);
    lease.ia_type = Some(DhcpV6IaType::NonTemporaryAddresses);
    lease.address = Ipv6Addr::new(0x2001, 0xdb8, 0, 0, 0, 0, 0, 0x10);
    drop(mem::replace(&mut lease.srv_duid, server));
    Ok(lease)
}

// Whether this was refused as an argument. Out of memory is an error.
fn is_refused<T: Drop>(made: Result<T, DhcpError>) -> Result<bool, DhcpError> {
    match made {
        Ok(_) => Ok(false),
        Err(error) => {
            if error.kind() == ErrorKind::InvalidArgument {
                Ok(true)
            } else {
                Err(error)
            }
        }
    }
}

// Whether a replay without events is refused.
fn is_replay_refused(
    alloc: Global,
    config: DhcpV6Config,
    lease: Option<DhcpV6Lease>,
) -> Result<bool, DhcpError> {
    let mut words = WordList::new(Vec::new(alloc));
    is_refused(replay6(alloc, config, lease, &mut words, 0, &[]))
}

// Whether a replay with such a configuration, and without a lease, is refused.
fn is_config_refused(alloc: Global, duid_len: usize, codes: usize) -> Result<bool, DhcpError> {
    is_replay_refused(alloc, config(alloc, duid_len, codes)?, None)
}

// Whether a replay with such a lease is refused.
fn is_lease_refused(alloc: Global, server_len: usize) -> Result<bool, DhcpError> {
    let lease = lease(alloc, server_len)?;
    is_replay_refused(alloc, config(alloc, 0, 0)?, Some(lease))
}

#[test]
fn a_configuration_is_within_the_limits_of_a_script(rt: HostRuntime) {
    const CASES: [(usize, usize, bool); 6] = [
        (0, 0, false),
        (1, 0, true),
        (2, 0, false),
        (130, 1000, false),
        (131, 1000, true),
        (130, 1001, true),
    ];
    for &(duid_len, codes, want) in &CASES {
        let is_refused = is_config_refused(rt.alloc(), duid_len, codes).expect(&rt, "memory");
        assert!(rt; is_refused == want, "{duid_len} {codes}");
    }
}

#[test]
fn a_lease_is_within_the_limits_of_a_script(rt: HostRuntime) {
    for (server_len, want) in [(1, true), (2, false), (130, false), (131, true)] {
        let is_refused = is_lease_refused(rt.alloc(), server_len).expect(&rt, "memory");
        assert!(rt; is_refused == want, "{server_len}");
    }
}
