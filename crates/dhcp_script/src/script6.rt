//! Scripts of an IPv6 client: their limits, and the configuration and the lease that they give.

pub mod printer;
pub mod reader;

ghost use Rattle.std.specs.Prelude.{◌≡◌, None, option_map};
ghost use Rattle.dhcp_wire.specs.Outcome.{Makes};
ghost use Rattle.dhcp6_msg.specs.Config.{rising_codes};
ghost use Rattle.dhcp_script.specs.Codes.{request_list};
ghost use Rattle.dhcp_script.specs.Lease6.{lease_with};
ghost use Rattle.dhcp_script.specs.Puts.{Puts};
ghost use Rattle.dhcp_script.specs.Script6 as scripts;
ghost use Rattle.dhcp_script.specs.Script6.{config_of, is_valid};

use crate::codes::are_few;
use crate::duid::{duid_of, is_duid_or_none};
use crate::{Event, Lease6, are_valid};
use dhcp_wire::{Bytes, DhcpError, Sequence, beside};
use dhcp6_msg::{DhcpV6Config, DhcpV6Lease, DhcpV6Mode};
use std::alloc::Global;
use std::mem;
use std::net::Ipv6Addr;

/// A script of an IPv6 client: its configuration, a lease that it held before, the random words
/// that it draws, and its events.
#[derive(Debug, PartialEq, Drop)]
pub struct Script6 {
    /// The index of the network interface; it is not 0 in a valid script.
    pub iface_index: u32,
    /// The link-local address from which the client sends; it is not :: in a valid script.
    pub src_ip: Ipv6Addr,
    /// The MAC address of the client, of which it makes an identifier if it has none.
    pub mac: Option<[u8; 6]>,
    /// What the client asks for.
    pub mode: DhcpV6Mode,
    /// How long the client may be in a state other than done before it gives up, in seconds; it is
    /// counted anew in each state, and 0 is no limit.
    pub timeout_sec: u32,
    /// The identifier of the client, option 1, as its bytes; empty is none, and the client then
    /// makes one (RFC 8415, sections 11 and 21.2).
    pub duid: Bytes,
    /// The codes of the options to ask for, option 6, in any order; none is the default list
    /// (RFC 8415, section 21.7).
    pub codes: Option<Sequence<u16>>,
    /// The lease that the client held before, whose times count from `start`.
    pub lease: Option<Lease6>,
    /// The random words that the client draws, in order; after the last one each is 0.
    pub words: Sequence<u32>,
    /// The moment at which the client begins, in milliseconds.
    pub start: u64,
    /// The events, in the order in which they happen.
    pub events: Sequence<Event>,
}

/// How many option codes, of two bytes each, are listed at most.
pub const MAX_CODES_V6: usize = 1000;

impl Script6 {
    /// Whether it is within its limits: its interface index is not 0 and its address not ::; its
    /// identifier is empty or has 2 to 130 bytes; its list has at most 1,000 option codes; its
    /// lease is within its limits; its start and its events are valid.
    #[tactic(auto, unfolding(crate::specs::Script6::is_valid))]
    pub fn is_valid(&self) -> bool
        ensures { result ≡ is_valid self.now }
    {
        self.iface_index != 0
            && !self.src_ip.is_unspecified()
            && is_duid_or_none(self.duid.as_slice())
            && are_few(&self.codes, MAX_CODES_V6)
            && is_lease_valid(&self.lease)
            && are_valid(self.start, self.events.as_slice())
    }

    /// The configuration of its client, whose interface has no name. Out of memory is the only
    /// error.
    #[tactic(auto, unfolding(crate::specs::config6_of, dhcp6_msg::specs::Config::config_of))]
    pub fn config(&self, alloc: Global) -> Result<DhcpV6Config, DhcpError>
        ensures { Makes (λ config. config) result (config_of self.now) }
    {
        let mut config = DhcpV6Config::new(alloc, "", self.mode)?;
        let put = self.put_fields(alloc, &mut config);
        let (config, ()) = beside(config, put)?;
        Ok(config)
    }

    // Puts what it says into a configuration that has no MAC address.
    fn put_fields(&self, alloc: Global, config: &mut DhcpV6Config) -> Result<(), DhcpError>
        requires { config.old.src_mac ≡ None }
        ensures { Puts result config.new (scripts.with_fields self.now config.old) }
    {
        config.iface_index = self.iface_index;
        config.src_ip = self.src_ip;
        config.timeout_sec = self.timeout_sec;
        put_mac(config, self.mac);
        let duid = duid_of(alloc, self.duid.as_slice())?;
        drop(mem::replace(&mut config.duid, duid));
        put_codes(alloc, config, &self.codes)
    }

    /// The lease that its client held before, if there is one. Out of memory is the only error.
    pub fn held_lease(&self, alloc: Global) -> Result<Option<DhcpV6Lease>, DhcpError>
        ensures { Makes (λ lease. lease) result (option_map lease_with self.now.lease) }
    {
        match &self.lease {
            None => Ok(None),
            Some(lease) => Ok(Some(lease.to_lease(alloc)?)),
        }
    }
}

// Puts the MAC address, if there is one, into a configuration that has none.
fn put_mac(config: &mut DhcpV6Config, mac: Option<[u8; 6]>)
    requires { config.old.src_mac ≡ None }
    ensures { config.new ≡ record config.old { src_mac = mac } }
{
    if let Some(mac) = mac {
        config.set_src_mac(mac);
    }
}

// Puts the option codes that are listed into a configuration, in rising order and each once; if
// none are listed, it keeps its own.
fn put_codes(
    alloc: Global,
    config: &mut DhcpV6Config,
    codes: &Option<Sequence<u16>>,
) -> Result<(), DhcpError>
    ensures { Puts result config.new (record config.old {
      request_opts = request_list rising_codes codes.now config.old.request_opts;
    }) }
{
    if let Some(listed) = codes {
        config.override_request_dhcp_opts(alloc, listed.as_slice())?;
    }
    Ok(())
}

// Whether a lease, if there is one, is within the limits of `Lease6::is_within_limits`.
fn is_lease_valid(lease: &Option<Lease6>) -> bool
    ensures { result ≡ scripts.is_lease_valid lease.now }
{
    match lease {
        None => true,
        Some(lease) => lease.is_within_limits(),
    }
}
