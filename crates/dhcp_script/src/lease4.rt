//! The lease that an IPv4 script begins with.

pub mod printer;
pub mod reader;

ghost use Rattle.std.specs.Prelude.{◌≡◌};
ghost use Rattle.dhcp_wire.specs.Outcome.{Makes};
ghost use Rattle.dhcp_script.specs.Lease4 as leases;
ghost use Rattle.dhcp_script.specs.Puts.{Puts};

use self::printer::push_fields;
use self::reader::read_lease;
use crate::held::HeldLease;
use crate::version::Version;
use dhcp_stream::{ReadError, TextReader};
use dhcp_wire::{DhcpError, Sequence, Text, beside, copied, copied_list};
use dhcp4_lease::DhcpV4Lease;
use dhcp4_msg::DhcpV4ClasslessRoute;
use std::alloc::{AllocError, Global};
use std::net::Ipv4Addr;

/// The fields of an IPv4 lease that its text has: all public ones but the MAC address of the
/// server. Times are in seconds from the acknowledgement of the lease.
#[derive(Debug, PartialEq, Drop)]
pub struct Lease4 {
    /// The address that is leased, yiaddr (RFC 2131, section 2).
    pub yiaddr: Ipv4Addr,
    /// The next server, siaddr (RFC 2131, section 2).
    pub siaddr: Ipv4Addr,
    /// The server identifier, option 54; 0.0.0.0 is none (RFC 2132, section 9.7).
    pub srv_id: Ipv4Addr,
    /// T1: when it is renewed, in seconds (RFC 2132, section 9.11).
    pub t1_sec: u32,
    /// T2: when it is rebound, in seconds (RFC 2132, section 9.12).
    pub t2_sec: u32,
    /// When it ends, in seconds (RFC 2132, section 9.2).
    pub lease_time_sec: u32,
    /// The subnet mask, option 1; 0.0.0.0 is none (RFC 2132, section 3.3).
    pub subnet_mask: Ipv4Addr,
    /// The broadcast address, option 28 (RFC 2132, section 5.3).
    pub broadcast_addr: Option<Ipv4Addr>,
    /// The MTU of the interface, option 26, in bytes (RFC 2132, section 5.1).
    pub mtu: Option<u16>,
    /// The domain name servers, option 6 (RFC 2132, section 3.8).
    pub dns_srvs: Option<Sequence<Ipv4Addr>>,
    /// The routers, option 3 (RFC 2132, section 3.5).
    pub gateways: Option<Sequence<Ipv4Addr>>,
    /// The NTP servers, option 42 (RFC 2132, section 8.3).
    pub ntp_srvs: Option<Sequence<Ipv4Addr>>,
    /// The host name, option 12 (RFC 2132, section 3.14).
    pub host_name: Option<Text>,
    /// The domain name, option 15 (RFC 2132, section 3.17).
    pub domain_name: Option<Text>,
    /// The classless static routes, of option 121 or 249 (RFC 3442).
    pub classless_routes: Option<Sequence<DhcpV4ClasslessRoute>>,
}

impl Lease4 {
    /// Whether its times are in order: T1 <= T2 <= the end of the lease.
    pub fn are_times_in_order(&self) -> bool
        ensures { result ≡ leases.are_times_in_order self.now }
    {
        self.t1_sec <= self.t2_sec && self.t2_sec <= self.lease_time_sec
    }

    /// The lease with these fields; its other fields are those of the empty lease. Out of memory is
    /// the only error.
    #[tactic(auto, unfolding(crate::specs::Lease4::lease_with))]
    pub fn to_lease(&self, alloc: Global) -> Result<DhcpV4Lease, DhcpError>
        ensures { Makes (λ lease. lease) result (leases.lease_with self.now) }
    {
        let mut lease = DhcpV4Lease::empty(alloc);
        self.put_numbers(&mut lease);
        let put = self.put_lists(alloc, &mut lease);
        let (lease, ()) = beside(lease, put)?;
        Ok(lease)
    }

    // Puts its lists, its names and its routes into a lease.
    fn put_lists(&self, alloc: Global, lease: &mut DhcpV4Lease) -> Result<(), DhcpError>
        ensures { Puts result lease.new
            (leases.with_names self.now (leases.with_servers self.now lease.old)) }
    {
        self.put_servers(alloc, lease)?;
        self.put_names(alloc, lease)
    }

    // Puts its single addresses, its times and its MTU into a lease.
    fn put_numbers(&self, lease: &mut DhcpV4Lease)
        ensures { lease.new ≡ leases.with_numbers self.now lease.old }
    {
        lease.yiaddr = self.yiaddr;
        lease.siaddr = self.siaddr;
        lease.srv_id = self.srv_id;
        lease.t1_sec = self.t1_sec;
        lease.t2_sec = self.t2_sec;
        lease.lease_time_sec = self.lease_time_sec;
        lease.subnet_mask = self.subnet_mask;
        lease.broadcast_addr = self.broadcast_addr;
        lease.mtu = self.mtu;
    }

    // Puts its lists of addresses into a lease.
    fn put_servers(&self, alloc: Global, lease: &mut DhcpV4Lease) -> Result<(), DhcpError>
        ensures { Puts result lease.new (leases.with_servers self.now lease.old) }
    {
        lease.dns_srvs = copied_list(alloc, self.dns_srvs.as_ref())?;
        lease.gateways = copied_list(alloc, self.gateways.as_ref())?;
        lease.ntp_srvs = copied_list(alloc, self.ntp_srvs.as_ref())?;
        Ok(())
    }

    // Puts its names and its routes into a lease.
    fn put_names(&self, alloc: Global, lease: &mut DhcpV4Lease) -> Result<(), DhcpError>
        ensures { Puts result lease.new (leases.with_names self.now lease.old) }
    {
        lease.host_name = copied(alloc, self.host_name.as_ref())?;
        lease.domain_name = copied(alloc, self.domain_name.as_ref())?;
        lease.classless_routes = copied_list(alloc, self.classless_routes.as_ref())?;
        Ok(())
    }
}

impl HeldLease for Lease4 {
    ghost use Rattle.dhcp_script.specs.Lease4.{lease_text};
    ghost use Rattle.dhcp_script.specs.Lease4Reader.{lease4_at};

    ghost lease_at = { lease4_at };

    ghost lease_text = { lease_text };

    fn read(alloc: Global, version: Version, text: &mut TextReader) -> Result<Self, ReadError> {
        read_lease(alloc, version, text)
    }

    fn push_to(&self, text: &mut String) -> Result<(), AllocError> {
        push_fields(text, self)
    }
}
