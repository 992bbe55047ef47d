//! The reader of the fields of a lease of an IPv4 script.

ghost use Rattle.std.specs.Prelude.{◌≡◌};
ghost use Rattle.dhcp_stream.specs.TextReader.{Takes};
ghost use Rattle.dhcp_script.specs.Lease4Reader.{
  lease4_at,
  no_later_fields,
  later_fields_at,
};

use crate::Lease4;
use crate::field::read_three;
use crate::version::Version;
use dhcp_stream::{ReadError, TextReader};
use dhcp_wire::{Sequence, Text};
use dhcp4_msg::DhcpV4ClasslessRoute;
use std::alloc::Global;
use std::net::Ipv4Addr;

// The fields of a lease that the later versions alone have; the MTU is in bytes.
#[derive(Drop)]
struct LaterFields {
    subnet_mask: Ipv4Addr,
    broadcast_addr: Option<Ipv4Addr>,
    mtu: Option<u16>,
    dns_srvs: Option<Sequence<Ipv4Addr>>,
    gateways: Option<Sequence<Ipv4Addr>>,
    ntp_srvs: Option<Sequence<Ipv4Addr>>,
    host_name: Option<Text>,
    domain_name: Option<Text>,
    classless_routes: Option<Sequence<DhcpV4ClasslessRoute>>,
}

impl LaterFields {
    // Those of the empty lease.
    fn none() -> Self
        ensures { result ≡ no_later_fields }
    {
        LaterFields {
            subnet_mask: Ipv4Addr::UNSPECIFIED,
            broadcast_addr: None,
            mtu: None,
            dns_srvs: None,
            gateways: None,
            ntp_srvs: None,
            host_name: None,
            domain_name: None,
            classless_routes: None,
        }
    }

    // Reads them in a version; in version 1 they are those of the empty lease.
    #[tactic(auto, unfolding(crate::specs::Lease4Reader::later_fields_at))]
    fn read(alloc: Global, version: Version, text: &mut TextReader) -> Result<Self, ReadError>
        ensures { Takes result text.new (later_fields_at version text.old) }
    {
        if version == Version::One {
            return Ok(LaterFields::none());
        }
        let (subnet_mask, broadcast_addr, mtu) = read_three(alloc, text, b' ')?;
        let (dns_srvs, gateways, ntp_srvs) = read_three(alloc, text, b' ')?;
        let (host_name, domain_name, classless_routes) = read_three(alloc, text, b'\n')?;
        Ok(LaterFields {
            subnet_mask,
            broadcast_addr,
            mtu,
            dns_srvs,
            gateways,
            ntp_srvs,
            host_name,
            domain_name,
            classless_routes,
        })
    }
}

/// Reads the fields of a lease in a version, to the end of the line. `Malformed` only if the text
/// does not go on with them; out of memory is the only other error.
#[tactic(auto, unfolding(crate::specs::Lease4Reader::lease4_at))]
pub fn read_lease(
    alloc: Global,
    version: Version,
    text: &mut TextReader,
) -> Result<Lease4, ReadError>
    ensures { Takes result text.new (lease4_at version text.old) }
{
    let (yiaddr, siaddr, srv_id) = read_three(alloc, text, b' ')?;
    let (t1_sec, t2_sec, lease_time_sec) = read_three(alloc, text, version.end_of_times())?;
    let later = LaterFields::read(alloc, version, text)?;
    Ok(Lease4 {
        yiaddr,
        siaddr,
        srv_id,
        t1_sec,
        t2_sec,
        lease_time_sec,
        subnet_mask: later.subnet_mask,
        broadcast_addr: later.broadcast_addr,
        mtu: later.mtu,
        dns_srvs: later.dns_srvs,
        gateways: later.gateways,
        ntp_srvs: later.ntp_srvs,
        host_name: later.host_name,
        domain_name: later.domain_name,
        classless_routes: later.classless_routes,
    })
}
