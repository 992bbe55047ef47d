//! Scripts of an IPv4 client: their limits, and the configuration and the lease that they give.

pub mod printer;
pub mod reader;

ghost use Rattle.std.specs.Prelude.{◌≡◌, [], length, option_map};
ghost use Rattle.std.specs.Str as utf8;
ghost use Rattle.std.specs.Str.{IsUtf8};
ghost use Rattle.dhcp_wire.specs.Outcome.{Makes};
ghost use Rattle.dhcp_script.specs.Lease4.{lease_with};
ghost use Rattle.dhcp_script.specs.Puts.{Puts};
ghost use Rattle.dhcp_script.specs.Script4 as scripts;
ghost use Rattle.dhcp_script.specs.Script4.{config_of, is_valid, request_list};

use crate::codes::are_few;
use crate::{Event, Lease4, are_valid};
use dhcp_wire::{Bytes, DhcpError, Sequence, beside};
use dhcp4_lease::{DhcpV4Config, DhcpV4Lease, DhcpV4MessageForms};
use std::alloc::Global;

/// A script of an IPv4 client: its configuration, a lease that it held before, the random words
/// that it draws, and its events.
#[derive(Debug, PartialEq, Drop)]
pub struct Script4 {
    /// The index of the network interface; it is not 0 in a valid script.
    pub iface_index: u32,
    /// The MAC address of the client, which it sends as chaddr (RFC 2131, section 2).
    pub mac: [u8; 6],
    /// Whether the client obtains a lease for another host, from whose MAC address it sends.
    pub is_proxy: bool,
    /// How long the client may be in a state other than done before it gives up, in seconds; it is
    /// counted anew in each state, and 0 is no limit.
    pub timeout_sec: u32,
    /// The forms of the client's messages; none are those of mozim. A script that says them has a
    /// text in version 3, any other in version 2.
    pub forms: Option<DhcpV4MessageForms>,
    /// The host name, option 12; it is UTF-8 in a valid script, and empty is none (RFC 2132,
    /// section 3.14).
    pub host: Bytes,
    /// The client identifier, option 61: the byte of its type, then its bytes; empty is none
    /// (RFC 2132, section 9.14).
    pub client: Bytes,
    /// The codes of the options to ask for, option 55, in any order; none is the default list
    /// (RFC 2132, section 9.8).
    pub codes: Option<Bytes>,
    /// The lease that the client held before.
    pub lease: Option<Lease4>,
    /// The random words that the client draws, in order; after the last one each is 0.
    pub words: Sequence<u32>,
    /// The moment at which the client begins, in milliseconds.
    pub start: u64,
    /// The events, in the order in which they happen.
    pub events: Sequence<Event>,
}

// How many bytes a host name has at most.
const MAX_HOST_LEN: usize = 254;

// How many bytes a client identifier has at most: one option holds no more
// (RFC 2132, section 2).
const MAX_CLIENT_LEN: usize = 255;

// How many option codes, of one byte each, are listed at most: one option holds no more.
const MAX_CODES: usize = 255;

impl Script4 {
    /// Whether it is within its limits: its interface index is not 0; its host name is UTF-8 of at
    /// most 254 bytes without a zero byte; its client identifier has at most 255 bytes, and its
    /// list at most 255 option codes; T1, T2 and the end of its lease are in order; its start and
    /// its events are valid.
    #[tactic(auto, unfolding(crate::specs::Script4::is_valid))]
    pub fn is_valid(&self) -> bool
        ensures { result ≡ is_valid self.now }
    {
        self.iface_index != 0
            && is_host_name(self.host.as_slice())
            && self.client.len() <= MAX_CLIENT_LEN
            && are_few(&self.codes, MAX_CODES)
            && is_in_order(&self.lease)
            && are_valid(self.start, self.events.as_slice())
    }

    /// The configuration of its client, whose interface has no name. The host name must be UTF-8,
    /// as that of a valid script is. Out of memory is the only error.
    #[tactic(auto, unfolding(crate::specs::config_of, dhcp4_lease::specs::Config::config_of))]
    pub fn config(&self, alloc: Global) -> Result<DhcpV4Config, DhcpError>
        requires { IsUtf8 self.now.host }
        ensures { Makes (λ config. config) result (config_of self.now) }
    {
        let mut config = DhcpV4Config::new(alloc, "")?;
        let put = self.put_fields(alloc, &mut config);
        let (config, ()) = beside(config, put)?;
        Ok(config)
    }

    // Puts what it says into a configuration that has no client identifier.
    fn put_fields(&self, alloc: Global, config: &mut DhcpV4Config) -> Result<(), DhcpError>
        requires host { IsUtf8 self.now.host }
        requires client { config.old.client_id ≡ [] }
        ensures { Puts result config.new (scripts.with_fields self.now config.old) }
    {
        config.iface_index = self.iface_index;
        config.is_proxy = self.is_proxy;
        config.timeout_sec = self.timeout_sec;
        config.set_message_forms(self.forms.unwrap_or(DhcpV4MessageForms::Mozim));
        put_mac(config, &self.mac)?;
        put_host(alloc, config, self.host.as_slice())?;
        put_client(alloc, config, self.client.as_slice())?;
        put_codes(alloc, config, &self.codes)
    }

    /// The lease that its client held before, if there is one. Out of memory is the only error.
    pub fn held_lease(&self, alloc: Global) -> Result<Option<DhcpV4Lease>, DhcpError>
        ensures { Makes (λ lease. lease) result (option_map lease_with self.now.lease) }
    {
        match &self.lease {
            None => Ok(None),
            Some(lease) => Ok(Some(lease.to_lease(alloc)?)),
        }
    }
}

// Puts the six bytes of the MAC address into a configuration.
#[tactic(auto, unfolding(dhcp4_lease::specs::Config::with_mac))]
fn put_mac(config: &mut DhcpV4Config, mac: &[u8]) -> Result<(), DhcpError>
    requires { length mac.now ≡ 6 }
    ensures { Puts result config.new (record config.old { src_mac = mac.now }) }
{
    config.set_iface_mac_raw(mac)?;
    Ok(())
}

// Puts the host name, which is UTF-8, into a configuration.
fn put_host(alloc: Global, config: &mut DhcpV4Config, host: &[u8]) -> Result<(), DhcpError>
    requires { IsUtf8 host.now }
    ensures { Puts result config.new (record config.old { host_name = host.now }) }
{
    if let Ok(name) = std::str::from_utf8(host) {
        config.set_host_name(alloc, name)?;
    }
    Ok(())
}

// Puts the client identifier, if there is one, into a configuration that has none.
fn put_client(alloc: Global, config: &mut DhcpV4Config, client: &[u8]) -> Result<(), DhcpError>
    requires { config.old.client_id ≡ [] }
    ensures { Puts result config.new (record config.old { client_id = client.now }) }
{
    if let Some((kind, bytes)) = client.split_first() {
        config.set_client_id(alloc, *kind, bytes)?;
    }
    Ok(())
}

// Puts the option codes that are listed into a configuration, in rising order and each once; if
// none are listed, it keeps its own.
fn put_codes(
    alloc: Global,
    config: &mut DhcpV4Config,
    codes: &Option<Bytes>,
) -> Result<(), DhcpError>
    ensures { Puts result config.new
        (record config.old { request_opts = request_list codes.now config.old.request_opts }) }
{
    if let Some(listed) = codes {
        config.override_request_dhcp_opts(alloc, listed.as_slice())?;
    }
    Ok(())
}

// Whether bytes are a host name: UTF-8 of at most 254 bytes, without a zero byte.
fn is_host_name(host: &[u8]) -> bool
    ensures { result ≡ scripts.is_host_name host.now }
{
    host.len() <= MAX_HOST_LEN && !host.contains(&0) && is_utf8(host)
}

// Whether bytes are UTF-8.
fn is_utf8(bytes: &[u8]) -> bool
    ensures { result ≡ utf8.is_utf8 bytes.now }
{
    std::str::from_utf8(bytes).is_ok()
}

// Whether the times of a lease, if there is one, are in order: T1 <= T2 <= the end of the lease.
fn is_in_order(lease: &Option<Lease4>) -> bool
    ensures { result ≡ scripts.is_in_order lease.now }
{
    match lease {
        None => true,
        Some(lease) => lease.are_times_in_order(),
    }
}
