//! A lease, and how it is read from a message: RFC 8415 sections 18.2.10.1 and 21.4 to 21.22.

mod terms;

ghost use Rattle.std.specs.Prelude.{◌≡◌, ◌≤◌, IfOk, IsTrue, length, map, option_map, vec_items};
ghost use Rattle.std.specs.FinMap as maps;
ghost use Rattle.dhcp_wire.specs.Outcome.{Answers, Gives, Makes};
ghost use Rattle.dhcp6_opt.specs.Duid.{written_duid};
ghost use Rattle.dhcp6_opt.specs.Value.{written_option};
ghost use Rattle.dhcp6_msg.specs.Lease as Lease;
ghost use Rattle.dhcp6_msg.specs.Lease.{are_times_in_order, empty_lease, is_within_limits, read_lease};

use self::terms::terms_of;
use crate::{DhcpV6IaType, DhcpV6Message};
use dhcp_wire::{Bytes, DhcpError, ErrorKind, FixedText, Sequence, Text, TryClone, both};
use dhcp6_opt::{DhcpV6Duid, DhcpV6Options};
use std::alloc::Global;
use std::marker::Model;
use std::net::Ipv6Addr;

/// A lease, RFC 8415 section 18.2.10.1. Contracts see it as the record of its fields.
#[derive(Debug, PartialEq, Eq, Drop)]
pub struct DhcpV6Lease {
    /// T1: when it is renewed, in seconds (RFC 8415, sections 21.4 and 21.21).
    pub t1_sec: u32,
    /// T2: when it is rebound, in seconds; not before T1 where a message granted it (RFC 8415,
    /// sections 21.4 and 21.21).
    pub t2_sec: u32,
    /// For how many seconds the address is preferred; not longer than it is valid where a message
    /// granted it. Of a temporary address always 86,400, whatever the server gives.
    pub preferred_time_sec: u32,
    /// For how many seconds it is valid; not before T2 where a message granted it. Of a temporary
    /// address always 604,800, whatever the server gives.
    pub valid_time_sec: u32,
    /// The transaction id of the message that granted it.
    pub xid: u32,
    /// The identifier of its identity association.
    pub iaid: u32,
    /// The type of its identity association, if it is known: of IA_NA, IA_TA and IA_PD, in this
    /// order, the last of which the message has a readable one, wherever it stands, also one that
    /// grants nothing.
    pub ia_type: Option<DhcpV6IaType>,
    /// The address or the prefix that is leased.
    pub address: Ipv6Addr,
    /// The length of the prefix in bits; 128 for an address.
    pub prefix_len: u8,
    /// The client's identifier; `Raw` without bytes if it is absent.
    pub cli_duid: DhcpV6Duid,
    /// The server's identifier; `Raw` without bytes if it is absent.
    pub srv_duid: DhcpV6Duid,
    /// The address to which a client may send, option 12; :: if it is absent.
    pub srv_ip: Ipv6Addr,
    /// Always empty: the time servers are in option 56, which `get_option_raw` gives.
    pub ntp_srvs: Sequence<Text>,
    options: DhcpV6Options,
}

impl Model for DhcpV6Lease {
    ghost use Rattle.dhcp6_msg.specs.Lease.{Lease};
    ghost use Rattle.dhcp6_opt.specs.contracts.options.DhcpV6Options as option_lists;
    ghost use Rattle.dhcp6_opt.specs.contracts.duid.DhcpV6Duid as duid;
    ghost use Rattle.std.specs.Coded.{codes};

    ghost Value = { Lease };

    ghost coded = { Prim.hlevel (codes, option_lists.the_row.coded, duid.the_row.coded) };

    ghost view = { λ lease. record {
      t1_sec = lease.t1_sec;
      t2_sec = lease.t2_sec;
      preferred_time_sec = lease.preferred_time_sec;
      valid_time_sec = lease.valid_time_sec;
      xid = lease.xid;
      iaid = lease.iaid;
      ia_type = lease.ia_type;
      address = lease.address;
      prefix_len = lease.prefix_len;
      cli_duid = lease.cli_duid;
      srv_duid = lease.srv_duid;
      srv_ip = lease.srv_ip;
      ntp_srvs = lease.ntp_srvs;
      options = lease.options;
    } };

    ghost inverse = { λ seen. record {
      t1_sec = seen.t1_sec;
      t2_sec = seen.t2_sec;
      preferred_time_sec = seen.preferred_time_sec;
      valid_time_sec = seen.valid_time_sec;
      xid = seen.xid;
      iaid = seen.iaid;
      ia_type = seen.ia_type;
      address = seen.address;
      prefix_len = seen.prefix_len;
      cli_duid = seen.cli_duid;
      srv_duid = seen.srv_duid;
      srv_ip = seen.srv_ip;
      ntp_srvs = seen.ntp_srvs;
      options = seen.options;
    } };
}

impl DhcpV6Lease {
    /// A lease with every time and number zero, the address ::, a prefix length of 128, identifiers
    /// without bytes, and no option. Does not allocate.
    #[tactic(auto, unfolding(crate::specs::Lease::empty_lease))]
    pub fn empty(alloc: Global) -> Self
        ensures { result ≡ empty_lease }
    {
        DhcpV6Lease {
            t1_sec: 0,
            t2_sec: 0,
            preferred_time_sec: 0,
            valid_time_sec: 0,
            xid: 0,
            iaid: 0,
            ia_type: None,
            address: Ipv6Addr::UNSPECIFIED,
            prefix_len: 128,
            cli_duid: DhcpV6Duid::Raw(Bytes::new(alloc)),
            srv_duid: DhcpV6Duid::Raw(Bytes::new(alloc)),
            srv_ip: Ipv6Addr::UNSPECIFIED,
            ntp_srvs: Sequence::new(alloc),
            options: DhcpV6Options::new(alloc),
        }
    }

    /// The lease of a message (RFC 8415, section 18.2.10.1): what its first readable IA_NA grants,
    /// then the address of its first IA_TA with lifetimes of this library's own, then what its
    /// first IA_PD grants, each over those before. `NoLease` if and only if the first readable
    /// status is not `Success`. Else `InvalidDhcpMessage` if and only if T1 is after T2, T2 or the
    /// preferred lifetime after the valid one, there is no server identifier, or the address is ::,
    /// as it is if nothing is granted.
    pub fn new_from_msg(alloc: Global, msg: &DhcpV6Message) -> Result<Self, DhcpError>
        ensures reads { Gives (λ lease. lease) result (read_lease msg.now) }
        ensures in_order { IfOk result (λ lease. IsTrue (are_times_in_order lease)) }
        ensures server { IfOk result (λ lease. length (written_duid lease.srv_duid) ≤ 65535) }
    {
        if msg.options.has_failed() {
            return Err(no_lease());
        }
        let options = msg.options.try_clone(alloc)?;
        granted_lease(alloc, msg.xid(), options)
    }

    /// The same as `new_from_msg`, of a message that is no longer needed: its options are moved
    /// into the lease, and not copied.
    pub fn from_message(alloc: Global, msg: DhcpV6Message) -> Result<Self, DhcpError>
        ensures reads { Gives (λ lease. lease) result (read_lease msg) }
        ensures in_order { IfOk result (λ lease. IsTrue (are_times_in_order lease)) }
        ensures server { IfOk result (λ lease. length (written_duid lease.srv_duid) ≤ 65535) }
    {
        if msg.options.has_failed() {
            return Err(no_lease());
        }
        let xid = msg.xid();
        granted_lease(alloc, xid, msg.options)
    }

    // The lease if it grants something, or the refusal.
    fn if_grant(self) -> Result<Self, DhcpError>
        ensures { Answers (λ lease. lease) result (Lease.granted_lease self) }
    {
        if self.is_grant() {
            Ok(self)
        } else {
            Err(DhcpError::invalid_message(FixedText::NoLease))
        }
    }

    // Whether it grants something.
    fn is_grant(&self) -> bool
        ensures { result ≡ Lease.is_grant self.now }
    {
        self.are_times_in_order() && !self.srv_duid.is_empty() && !self.address.is_unspecified()
    }

    /// Whether its times are in order: T1 <= T2 <= valid, and preferred <= valid.
    pub fn are_times_in_order(&self) -> bool
        ensures { result ≡ are_times_in_order self.now }
    {
        self.t1_sec <= self.t2_sec
            && self.t2_sec <= self.valid_time_sec
            && self.preferred_time_sec <= self.valid_time_sec
    }

    /// Whether a client may hold it: its times are in order, its address is not ::, its `ia_type`
    /// is there, and its server's identifier can be sent.
    #[tactic(auto, unfolding(crate::specs::Lease::is_within_limits))]
    pub fn is_within_limits(&self) -> bool
        ensures { result ≡ is_within_limits self.now }
    {
        self.are_times_in_order()
            && !self.address.is_unspecified()
            && self.ia_type.is_some()
            && is_duid(&self.srv_duid)
    }

    /// The options of this code, written again: of each its code, the length of its value, and the
    /// value, one of fixed size cut to it; none if and only if there is no such option. Out of
    /// memory is the only error.
    pub fn get_option_raw(
        &self,
        alloc: Global,
        code: u16,
    ) -> Result<Option<Vec<Vec<u8>>>, DhcpError>
        ensures { Makes (option_map (λ written. map vec_items written.items)) result
            (option_map (map written_option) (maps.get self.now.options code)) }
    {
        self.options.get_data_raw(alloc, code)
    }

    /// A copy. Out of memory is the only error.
    pub fn try_clone(&self, alloc: Global) -> Result<Self, DhcpError>
        ensures { Makes (λ lease. lease) result self.now }
    {
        let (cli_duid, srv_duid) = both(
            self.cli_duid.try_clone(alloc),
            self.srv_duid.try_clone(alloc),
        )?;
        let (ntp_srvs, options) = both(
            self.ntp_srvs.try_clone(alloc),
            self.options.try_clone(alloc),
        )?;
        Ok(DhcpV6Lease {
            t1_sec: self.t1_sec,
            t2_sec: self.t2_sec,
            preferred_time_sec: self.preferred_time_sec,
            valid_time_sec: self.valid_time_sec,
            xid: self.xid,
            iaid: self.iaid,
            ia_type: self.ia_type,
            address: self.address,
            prefix_len: self.prefix_len,
            cli_duid,
            srv_duid,
            srv_ip: self.srv_ip,
            ntp_srvs,
            options,
        })
    }
}

impl TryClone for DhcpV6Lease {
    fn try_clone(&self, alloc: Global) -> Result<Self, DhcpError> {
        DhcpV6Lease::try_clone(self, alloc)
    }
}

/// Whether an identifier can be sent: it has 2 to 65,535 bytes, its type and as many as an option
/// holds. RFC 8415 section 11.1 asks for 3 to 130.
pub fn is_duid(duid: &DhcpV6Duid) -> bool
    ensures { result ≡ Lease.is_duid duid.now }
{
    let len = duid.written_len();
    2 <= len && len <= 65535
}

// The refusal of a message whose status says that something failed.
fn no_lease() -> DhcpError
    ensures { result.kind ≡ ErrorKind.NoLease }
{
    DhcpError::new_fixed(ErrorKind::NoLease, FixedText::NoLease)
}

// The lease of this transaction id and these options, if it grants something.
fn granted_lease(alloc: Global, xid: u32, options: DhcpV6Options) -> Result<DhcpV6Lease, DhcpError>
    ensures reads { Gives (λ lease. lease) result
        (Lease.granted_lease (Lease.lease_with xid options (Lease.terms_of options))) }
    ensures in_order { IfOk result (λ lease. IsTrue (are_times_in_order lease)) }
    ensures server { IfOk result (λ lease. length (written_duid lease.srv_duid) ≤ 65535) }
{
    lease_with(alloc, xid, options)?.if_grant()
}

// The lease of this transaction id and these options.
fn lease_with(alloc: Global, xid: u32, options: DhcpV6Options) -> Result<DhcpV6Lease, DhcpError>
    ensures made { Makes (λ lease. lease) result
        (Lease.lease_with xid options (Lease.terms_of options)) }
    ensures server { IfOk result (λ lease. length (written_duid lease.srv_duid) ≤ 65535) }
{
    let terms = terms_of(&options);
    Ok(DhcpV6Lease {
        t1_sec: terms.t1_sec,
        t2_sec: terms.t2_sec,
        preferred_time_sec: terms.preferred_time_sec,
        valid_time_sec: terms.valid_time_sec,
        xid,
        iaid: terms.iaid,
        ia_type: terms.ia_type,
        address: terms.address,
        prefix_len: terms.prefix_len,
        cli_duid: DhcpV6Duid::copied_or_empty(alloc, options.client_id())?,
        srv_duid: DhcpV6Duid::copied_or_empty(alloc, options.server_id())?,
        srv_ip: options.server_unicast().unwrap_or(Ipv6Addr::UNSPECIFIED),
        ntp_srvs: Sequence::new(alloc),
        options,
    })
}
