//! What several tests share: a Reply that grants an address, and configurations.

use dhcp_wire::{BufferMut, Bytes, DhcpError, ErrorKind, FixedText, boxed};
use dhcp6_msg::{DhcpV6Config, DhcpV6Lease, DhcpV6Message, DhcpV6Mode, new_solicit_msg};
use std::alloc::Global;

// The MAC address of every configuration.
pub(crate) const MAC: [u8; 6] = [2, 0, 0, 0, 0, 1];

// The identifier of the client, option 1.
pub(crate) const CLIENT: [u8; 14] = [0, 1, 0, 10, 0, 3, 0, 1, 2, 0, 0, 0, 0, 1];

// The identifier of the server, option 2.
pub(crate) const SERVER: [u8; 14] = [0, 2, 0, 10, 0, 3, 0, 1, 2, 0, 0, 0, 0, 2];

// An identity association with an address, option 3: T1 50, T2 80, 2001:db8::10 for 100 and 200.
pub(crate) const ASSOCIATION: [u8; 44] = [
    0, 3, 0, 40, 0, 0, 0, 0, 0, 0, 0, 50, 0, 0, 0, 80, 0, 5, 0, 24, 0x20, 1, 0x0d, 0xb8, 0, 0, 0,
    0, 0, 0, 0, 0, 0, 0, 0, 0x10, 0, 0, 0, 100, 0, 0, 0, 200,
];

// The codes of the options that are asked for, option 6.
pub(crate) const REQUESTS: [u8; 6] = [0, 6, 0, 2, 0, 23];

// The time since when the client tries, option 8.
pub(crate) const ELAPSED: [u8; 6] = [0, 8, 0, 2, 0, 0];

// The head of a Reply with transaction id 0.
pub(crate) const REPLY: [u8; 4] = [7, 0, 0, 0];

// Some bytes one after the other.
pub(crate) fn joined(alloc: Global, parts: &[&[u8]]) -> Result<Bytes, DhcpError> {
    let mut buf = BufferMut::new(alloc);
    for part in parts {
        buf.write_bytes(part)?;
    }
    Ok(buf.into_bytes())
}

// A Reply that grants an address.
pub(crate) fn reply(alloc: Global) -> Result<Bytes, DhcpError> {
    joined(alloc, &[&REPLY, &CLIENT, &SERVER, &ASSOCIATION])
}

// The same, read.
pub(crate) fn reply_message(alloc: Global) -> Result<DhcpV6Message, DhcpError> {
    let payload = reply(alloc)?;
    DhcpV6Message::parse(alloc, payload.as_slice())
}

// How an answer is refused, if it is; out of memory is an error of the test.
pub(crate) fn refusal<T: Drop>(
    answer: Result<T, DhcpError>,
) -> Result<Option<ErrorKind>, DhcpError> {
    match answer {
        Ok(_answer) => Ok(None),
        Err(error) if error.kind() == ErrorKind::OutOfMemory => Err(error),
        Err(error) => Ok(Some(error.kind())),
    }
}

// The lease of a payload.
pub(crate) fn lease_of(alloc: Global, payload: &[u8]) -> Result<Box<DhcpV6Lease>, DhcpError> {
    let message = DhcpV6Message::parse(alloc, payload)?;
    boxed(alloc, DhcpV6Lease::from_message(alloc, message))
}

// The lease of that Reply.
pub(crate) fn plain_lease(alloc: Global) -> Result<Box<DhcpV6Lease>, DhcpError> {
    let payload = reply(alloc)?;
    lease_of(alloc, payload.as_slice())
}

// The bytes of the Solicit of a configuration.
pub(crate) fn solicit_of(alloc: Global, config: &DhcpV6Config) -> Result<Bytes, DhcpError> {
    if !config.is_within_limits() {
        return Err(DhcpError::new_fixed(ErrorKind::Bug, FixedText::Config));
    }
    new_solicit_msg(alloc, 0xabcdef, config, 0, 0)?.emit(alloc)
}

// A configuration that asks for an address and for name servers.
pub(crate) fn plain_config(alloc: Global) -> Result<DhcpV6Config, DhcpError> {
    let mut config = DhcpV6Config::new(alloc, "eth0", DhcpV6Mode::NonTemporaryAddresses)?;
    config.set_duid_by_iface_mac(alloc, &MAC)?;
    config.override_request_dhcp_opts(alloc, &[23])?;
    Ok(config)
}
