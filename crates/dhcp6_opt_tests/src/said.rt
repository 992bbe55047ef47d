//! What options say, asked by kind.

use dhcp_wire::{BufferMut, Bytes, DhcpError};
use dhcp6_opt::{DhcpV6Duid, DhcpV6OptionNtpServer, DhcpV6OptionStatusCode, DhcpV6Options};
use std::alloc::Global;
use std::net::Ipv6Addr;

// A list with a status of Success behind one of UnspecFail, and each other option that can be asked
// for: the identifiers of client and server, IA_NA, IA_TA, Server Unicast, name servers, a domain,
// IA_PD and a time server.
const OPTIONS: &[u8] = b"\x00\x0d\x00\x02\x00\x01\x00\x0d\x00\x02\x00\x00\
\x00\x01\x00\x04\x00\x03\x00\x01\x00\x02\x00\x05\x00\x03\x00\x01\x07\
\x00\x03\x00\x0c\x00\x00\x00\x03\x00\x00\x00\x00\x00\x00\x00\x00\
\x00\x04\x00\x04\x00\x00\x00\x04\
\x00\x0c\x00\x10\x20\x01\x0d\xb8\x00\x00\x00\x00\x00\x00\x00\x00\x00\x00\x00\x0c\
\x00\x17\x00\x10\x20\x01\x0d\xb8\x00\x00\x00\x00\x00\x00\x00\x00\x00\x00\x00\x17\
\x00\x18\x00\x05\x03lan\x00\
\x00\x19\x00\x0c\x00\x00\x00\x19\x00\x00\x00\x00\x00\x00\x00\x00\
\x00\x38\x00\x14\x00\x01\x00\x10\x20\x01\x0d\xb8\x00\x00\x00\x00\x00\x00\x00\x00\x00\x00\x00\x38";

// 2001:db8:: with this last segment.
fn address(last: u16) -> Ipv6Addr {
    Ipv6Addr::new(0x2001, 0xdb8, 0, 0, 0, 0, 0, last)
}

// The bytes of an identifier; none of an absent one, as of one without bytes.
fn bytes_of(alloc: Global, duid: Option<&DhcpV6Duid>) -> Result<Bytes, DhcpError> {
    let mut buf = BufferMut::new(alloc);
    DhcpV6Duid::copied_or_empty(alloc, duid)?.emit(&mut buf)?;
    Ok(buf.into_bytes())
}

#[test]
fn identifiers_and_associations_are_said(rt: HostRuntime) {
    let options = DhcpV6Options::parse(rt.alloc(), OPTIONS).expect(&rt, "memory");
    let client = bytes_of(rt.alloc(), options.client_id()).expect(&rt, "memory");
    let server = bytes_of(rt.alloc(), options.server_id()).expect(&rt, "memory");
    assert!(rt; client.as_slice() == [0, 3, 0, 1].as_slice());
    assert!(rt; server.as_slice() == [0, 3, 0, 1, 7].as_slice());
    assert!(rt; options.ia_na().expect(&rt, "IA_NA").iaid == 3);
    assert!(rt; options.ia_ta().expect(&rt, "IA_TA").iaid == 4);
    assert!(rt; options.ia_pd().expect(&rt, "IA_PD").iaid == 25);
}

#[test]
fn servers_domains_and_the_first_status_are_said(rt: HostRuntime) {
    let options = DhcpV6Options::parse(rt.alloc(), OPTIONS).expect(&rt, "memory");
    let status = options.status().expect(&rt, "status");
    let names = options.dns_servers().expect(&rt, "name servers");
    let domains = options.domain_list().expect(&rt, "domains");
    let times = options.ntp_servers().expect(&rt, "time servers");
    assert!(rt; status.status == DhcpV6OptionStatusCode::UnspecFail && options.has_failed());
    assert!(rt; options.server_unicast() == Some(address(12)));
    assert!(rt; names.as_slice() == [address(23)].as_slice());
    assert!(rt; domains.len() == 1 && domains.as_slice()[0].as_str() == "lan");
    assert!(rt; times.as_slice() == [DhcpV6OptionNtpServer::ServerAddr(address(56))].as_slice());
}

#[test]
fn no_options_say_nothing(rt: HostRuntime) {
    let options = DhcpV6Options::new(rt.alloc());
    let client = bytes_of(rt.alloc(), options.client_id()).expect(&rt, "memory");
    assert!(rt; client.as_slice().is_empty() && options.server_id().is_none());
    assert!(rt; options.ia_na().is_none() && options.ia_ta().is_none());
    assert!(rt; options.ia_pd().is_none() && options.server_unicast().is_none());
    assert!(rt; options.status().is_none() && !options.has_failed());
    assert!(rt; options.dns_servers().is_none() && options.domain_list().is_none());
    assert!(rt; options.ntp_servers().is_none());
}
