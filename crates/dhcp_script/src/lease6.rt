//! The lease that an IPv6 script begins with.

pub mod printer;
pub mod reader;

ghost use Rattle.std.specs.Prelude.{◌≡◌, Some, unwrap_or};
ghost use Rattle.dhcp_wire.specs.Outcome.{Makes};
ghost use Rattle.dhcp_script.specs.Lease6 as leases;
ghost use Rattle.dhcp_script.specs.Puts.{Puts};

use self::printer::push_fields;
use self::reader::read_lease;
use crate::duid::{bytes_of, duid_of, is_script_duid};
use crate::held::HeldLease;
use crate::version::Version;
use dhcp_stream::{ReadError, TextReader};
use dhcp_wire::{Bytes, DhcpError, beside};
use dhcp6_msg::{DhcpV6IaType, DhcpV6Lease};
use std::alloc::{AllocError, Global};
use std::mem;
use std::net::Ipv6Addr;

/// The fields of an IPv6 lease that its text has: all public ones but the names of its time
/// servers, which are always empty. The times of a lease that a script begins with count from the
/// start of the script, those of any other from the moment at which it was granted.
#[derive(Debug, PartialEq, Drop)]
pub struct Lease6 {
    /// The type of its identity association: IA_NA, IA_TA or IA_PD (RFC 8415, section 4.2).
    pub ia_type: DhcpV6IaType,
    /// The identifier of its identity association, IAID (RFC 8415, section 12).
    pub iaid: u32,
    /// The address or the prefix that is leased.
    pub address: Ipv6Addr,
    /// The length of the prefix in bits; 128 for an address.
    pub prefix_len: u8,
    /// The identifier of the server, option 2, as its bytes (RFC 8415, section 21.3).
    pub srv_duid: Bytes,
    /// T1: when it is renewed, in seconds (RFC 8415, section 14.2).
    pub t1_sec: u32,
    /// T2: when it is rebound, in seconds (RFC 8415, section 14.2).
    pub t2_sec: u32,
    /// For how many seconds the address or prefix is preferred.
    pub preferred_time_sec: u32,
    /// For how many seconds it is valid: when the lease ends.
    pub valid_time_sec: u32,
    /// The transaction id of the reply (RFC 8415, section 8); the client does not send it.
    pub xid: u32,
    /// The identifier of the client, option 1, as its bytes; empty is none (RFC 8415, section
    /// 21.2).
    pub cli_duid: Bytes,
    /// The address to which the client may send, option 12; :: is none (RFC 8415, section 21.12).
    pub srv_ip: Ipv6Addr,
}

impl Lease6 {
    /// Whether its times are in order: T1 <= T2 <= the end of the lease, and it is not preferred
    /// after its end.
    pub fn are_times_in_order(&self) -> bool
        ensures { result ≡ leases.are_times_in_order self.now }
    {
        self.t1_sec <= self.t2_sec
            && self.t2_sec <= self.valid_time_sec
            && self.preferred_time_sec <= self.valid_time_sec
    }

    /// Whether it is within its limits: its times are in order, its address is not ::, and the
    /// identifier of its server has 2 to 130 bytes.
    pub fn is_within_limits(&self) -> bool
        ensures { result ≡ leases.is_within_limits self.now }
    {
        self.are_times_in_order()
            && !self.address.is_unspecified()
            && is_script_duid(self.srv_duid.as_slice())
    }

    /// The lease with these fields; its other fields are those of the empty lease. Out of memory is
    /// the only error.
    #[tactic(auto, unfolding(crate::specs::Lease6::lease_with))]
    pub fn to_lease(&self, alloc: Global) -> Result<DhcpV6Lease, DhcpError>
        ensures { Makes (λ lease. lease) result (leases.lease_with self.now) }
    {
        let mut lease = DhcpV6Lease::empty(alloc);
        self.put_numbers(&mut lease);
        let put = self.put_duids(alloc, &mut lease);
        let (lease, ()) = beside(lease, put)?;
        Ok(lease)
    }

    /// The fields of a lease that its text has; that of a lease without an `ia_type` has the type
    /// IA_NA. Out of memory is the only error.
    pub fn of_lease(alloc: Global, lease: &DhcpV6Lease) -> Result<Self, DhcpError>
        ensures { Makes (λ fields. fields) result (leases.fields_of
            (unwrap_or lease.now.ia_type DhcpV6IaType.NonTemporaryAddresses) lease.now) }
    {
        Ok(Lease6 {
            ia_type: lease.ia_type.unwrap_or(DhcpV6IaType::NonTemporaryAddresses),
            iaid: lease.iaid,
            address: lease.address,
            prefix_len: lease.prefix_len,
            srv_duid: bytes_of(alloc, &lease.srv_duid)?,
            t1_sec: lease.t1_sec,
            t2_sec: lease.t2_sec,
            preferred_time_sec: lease.preferred_time_sec,
            valid_time_sec: lease.valid_time_sec,
            xid: lease.xid,
            cli_duid: bytes_of(alloc, &lease.cli_duid)?,
            srv_ip: lease.srv_ip,
        })
    }

    // Puts the identifiers of server and client into a lease.
    fn put_duids(&self, alloc: Global, lease: &mut DhcpV6Lease) -> Result<(), DhcpError>
        ensures { Puts result lease.new (leases.with_duids self.now lease.old) }
    {
        let server = duid_of(alloc, self.srv_duid.as_slice())?;
        let client = duid_of(alloc, self.cli_duid.as_slice())?;
        drop(mem::replace(&mut lease.srv_duid, server));
        drop(mem::replace(&mut lease.cli_duid, client));
        Ok(())
    }

    // Puts all its fields but the two identifiers of client and server into a lease.
    fn put_numbers(&self, lease: &mut DhcpV6Lease)
        ensures { lease.new ≡ leases.with_numbers self.now lease.old }
    {
        lease.ia_type = Some(self.ia_type);
        lease.iaid = self.iaid;
        lease.address = self.address;
        lease.prefix_len = self.prefix_len;
        lease.t1_sec = self.t1_sec;
        lease.t2_sec = self.t2_sec;
        lease.preferred_time_sec = self.preferred_time_sec;
        lease.valid_time_sec = self.valid_time_sec;
        lease.xid = self.xid;
        lease.srv_ip = self.srv_ip;
    }
}

impl HeldLease for Lease6 {
    ghost use Rattle.dhcp_script.specs.Lease6.{lease_text};
    ghost use Rattle.dhcp_script.specs.Lease6Reader.{lease6_at};

    ghost lease_at = { lease6_at };

    ghost lease_text = { lease_text };

    fn read(alloc: Global, version: Version, text: &mut TextReader) -> Result<Self, ReadError> {
        read_lease(alloc, version, text)
    }

    fn push_to(&self, text: &mut String) -> Result<(), AllocError> {
        push_fields(text, self)
    }
}
