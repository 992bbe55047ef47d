//! The messages that a client sends, byte by byte.

ghost use Rattle.std.specs.Prelude.{IsTrue};
ghost use Rattle.dhcp4_lease.specs.Config.{is_within_limits};

use crate::config::{Step, stepped};
use dhcp_wire::{BufferMut, Bytes, DhcpError, ErrorKind, FixedText};
use dhcp4_lease::{
    DhcpV4Config, DhcpV4Lease, new_discovery, new_rebind, new_reboot_request, new_release,
    new_renew, new_request,
};
use dhcp4_msg::DhcpV4Message;
use std::alloc::Global;
use std::net::Ipv4Addr;

const ID: u32 = 0x12345678;

// A lease of 192.0.2.10 by 192.0.2.1.
fn plain_lease(alloc: Global) -> DhcpV4Lease {
    let mut lease = DhcpV4Lease::empty(alloc);
    lease.yiaddr = Ipv4Addr::new(192, 0, 2, 10);
    lease.siaddr = Ipv4Addr::new(192, 0, 2, 1);
    lease.srv_id = Ipv4Addr::new(192, 0, 2, 1);
    lease
}

// The bytes of a message with this client address and these options.
fn payload(alloc: Global, ciaddr: [u8; 4], options: &[u8]) -> Result<Bytes, DhcpError> {
    let mut bytes = BufferMut::new(alloc);
    bytes.write_bytes(&[1, 1, 6, 0, 0x12, 0x34, 0x56, 0x78, 0, 0, 0, 0])?;
    bytes.write_bytes(&ciaddr)?;
    bytes.write_bytes(&[0; 12])?;
    bytes.write_bytes(&[2, 0, 0, 0, 0, 1])?;
    bytes.write_bytes(&[0; 202])?;
    bytes.write_bytes(&[0x63, 0x82, 0x53, 0x63])?;
    bytes.write_bytes(options)?;
    Ok(bytes.into_bytes())
}

// The six messages.
#[derive(Clone, Copy)]
enum Sent {
    Discover,
    Request,
    Reboot,
    Renew,
    Rebind,
    Release,
}

// One of the six messages.
fn message(
    alloc: Global,
    config: &DhcpV4Config,
    lease: &DhcpV4Lease,
    sent: Sent,
) -> Result<DhcpV4Message, DhcpError>
    requires { IsTrue (is_within_limits config.now) }
{
    match sent {
        Sent::Discover => new_discovery(alloc, ID, config),
        Sent::Request => new_request(alloc, ID, config, lease),
        Sent::Reboot => new_reboot_request(alloc, ID, config, lease),
        Sent::Renew => new_renew(alloc, ID, config, lease),
        Sent::Rebind => new_rebind(alloc, ID, config, lease),
        Sent::Release => new_release(alloc, ID, config, lease),
    }
}

// The bytes of one of the six messages.
fn bytes_of(
    alloc: Global,
    config: &DhcpV4Config,
    lease: &DhcpV4Lease,
    sent: Sent,
) -> Result<Bytes, DhcpError> {
    if !config.is_within_limits() {
        return Err(DhcpError::new_fixed(ErrorKind::Bug, FixedText::Config));
    }
    message(alloc, config, lease, sent)?.to_bytes(alloc)
}

// The bytes of one of the six messages, of a configuration that this step has changed and of this
// lease.
fn bytes_after(
    alloc: Global,
    step: Step,
    lease: &DhcpV4Lease,
    sent: Sent,
) -> Result<Bytes, DhcpError> {
    let config = stepped(alloc, step)?;
    bytes_of(alloc, &config, lease, sent)
}

// Whether a message of the plain lease, and of a configuration that this step has changed, has this
// client address and these options.
fn is_written(
    alloc: Global,
    step: Step,
    sent: Sent,
    ciaddr: [u8; 4],
    options: &[u8],
) -> Result<bool, DhcpError> {
    let wanted = payload(alloc, ciaddr, options)?;
    let lease = plain_lease(alloc);
    let bytes = bytes_after(alloc, step, &lease, sent);
    Ok(bytes? == wanted)
}

#[test]
fn each_message_is_its_row_byte_by_byte(rt: HostRuntime) {
    const DISCOVER: [u8; 11] = [0x35, 1, 1, 0x37, 3, 1, 3, 6, 0x3d, 0, 255];
    const REQUEST: [u8; 23] = [
        0x32, 4, 192, 0, 2, 10, 0x35, 1, 3, 0x36, 4, 192, 0, 2, 1, 0x37, 3, 1, 3, 6, 0x3d, 0, 255,
    ];
    const REBOOT: [u8; 17] = [
        0x32, 4, 192, 0, 2, 10, 0x35, 1, 3, 0x37, 3, 1, 3, 6, 0x3d, 0, 255,
    ];
    const RELEASE: [u8; 23] = [
        0x32, 4, 192, 0, 2, 10, 0x35, 1, 7, 0x36, 4, 192, 0, 2, 1, 0x37, 3, 1, 3, 6, 0x3d, 0, 255,
    ];
    const CASES: [(Sent, [u8; 4], &[u8]); 6] = [
        (Sent::Discover, [0; 4], &DISCOVER),
        (Sent::Request, [0; 4], &REQUEST),
        (Sent::Reboot, [0; 4], &REBOOT),
        (Sent::Renew, [192, 0, 2, 10], &REQUEST),
        (Sent::Rebind, [192, 0, 2, 10], &REQUEST),
        (Sent::Release, [0; 4], &RELEASE),
    ];
    for &(sent, ciaddr, options) in &CASES {
        let is_written = is_written(rt.alloc(), Step::Override, sent, ciaddr, options);
        assert!(rt; is_written.expect(&rt, "answer"));
    }
}

// By tables 4 and 5 of RFC 2131, without a client identifier.
#[test]
fn each_message_by_rfc_2131_is_its_row_byte_by_byte(rt: HostRuntime) {
    const DISCOVER: [u8; 9] = [0x35, 1, 1, 0x37, 3, 1, 3, 6, 255];
    const REQUEST: [u8; 21] = [
        0x32, 4, 192, 0, 2, 10, 0x35, 1, 3, 0x36, 4, 192, 0, 2, 1, 0x37, 3, 1, 3, 6, 255,
    ];
    const REBOOT: [u8; 15] = [0x32, 4, 192, 0, 2, 10, 0x35, 1, 3, 0x37, 3, 1, 3, 6, 255];
    const EXTEND: [u8; 9] = [0x35, 1, 3, 0x37, 3, 1, 3, 6, 255];
    const RELEASE: [u8; 15] = [0x35, 1, 7, 0x36, 4, 192, 0, 2, 1, 0x37, 3, 1, 3, 6, 255];
    const CASES: [(Sent, [u8; 4], &[u8]); 6] = [
        (Sent::Discover, [0; 4], &DISCOVER),
        (Sent::Request, [0; 4], &REQUEST),
        (Sent::Reboot, [0; 4], &REBOOT),
        (Sent::Renew, [192, 0, 2, 10], &EXTEND),
        (Sent::Rebind, [192, 0, 2, 10], &EXTEND),
        (Sent::Release, [192, 0, 2, 10], &RELEASE),
    ];
    for &(sent, ciaddr, options) in &CASES {
        let is_written = is_written(rt.alloc(), Step::Rfc2131, sent, ciaddr, options);
        assert!(rt; is_written.expect(&rt, "answer"));
    }
}

// Whether the Discover of a configuration has this option, as it is written.
fn discovers(alloc: Global, config: &DhcpV4Config, option: &[u8]) -> Result<bool, DhcpError> {
    if !config.is_within_limits() {
        return Err(DhcpError::new_fixed(ErrorKind::Bug, FixedText::Config));
    }
    let message = new_discovery(alloc, ID, config)?;
    has_option(alloc, &message, option)
}

// Whether a message has this option, as it is written.
fn has_option(alloc: Global, message: &DhcpV4Message, option: &[u8]) -> Result<bool, DhcpError> {
    let code = option.first().copied().unwrap_or(0);
    match message.options.get_data_raw(alloc, code)? {
        Some(bytes) => Ok(bytes.as_slice() == option),
        None => Ok(false),
    }
}

// Whether the Discover of a configuration that this step has changed has this option.
fn discovers_after(alloc: Global, step: Step, option: &[u8]) -> Result<bool, DhcpError> {
    let config = stepped(alloc, step)?;
    discovers(alloc, &config, option)
}

#[test]
fn what_is_set_is_sent(rt: HostRuntime) {
    const USUAL: [u8; 11] = [0x37, 9, 0x0c, 1, 3, 6, 0x0f, 0x1a, 0x2a, 0x79, 0xf9];
    const MORE: [u8; 12] = [0x37, 10, 1, 2, 3, 6, 0x0c, 0x0f, 0x1a, 0x2a, 0x79, 0xf9];
    const CASES: [(Step, &[u8]); 9] = [
        (Step::Rfc2131WithClient, &[0x3d, 2, 5, 9]),
        (Step::None, &USUAL),
        (Step::Extra, &MORE),
        (Step::Client, &[0x3d, 2, 5, 9]),
        (Step::MacAsClient, &[0x3d, 7, 1, 2, 0, 0, 0, 0, 1]),
        (Step::Host, &[0x0c, 4, 0x66, 0x6f, 0x6f, 0]),
        (Step::HostAsClient, &[0x3d, 4, 0, 0x66, 0x6f, 0x6f]),
        (Step::NoHostAsClient, &[0x3d, 0]),
        (Step::Override, &[0x37, 3, 1, 3, 6]),
    ];
    for &(step, option) in &CASES {
        assert!(rt; discovers_after(rt.alloc(), step, option).expect(&rt, "answer"));
    }
}

// The lease of an offer without a server identifier, from the next server 192.0.2.7.
fn anonymous_lease(alloc: Global) -> DhcpV4Lease {
    let mut lease = plain_lease(alloc);
    lease.srv_id = Ipv4Addr::UNSPECIFIED;
    lease.siaddr = Ipv4Addr::new(192, 0, 2, 7);
    lease
}

#[test]
fn without_a_server_identifier_the_next_server_is_named(rt: HostRuntime) {
    let alloc = rt.alloc();
    let request = [
        0x32, 4, 192, 0, 2, 10, 0x35, 1, 3, 0x36, 4, 192, 0, 2, 7, 0x37, 3, 1, 3, 6, 0x3d, 0, 255,
    ];
    let lease = anonymous_lease(alloc);
    let bytes = bytes_after(alloc, Step::Override, &lease, Sent::Request).expect(&rt, "answer");
    assert!(rt; bytes == payload(alloc, [0; 4], &request).expect(&rt, "answer"));
}
