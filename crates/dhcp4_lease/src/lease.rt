//! A lease, and how it is read from a message: RFC 2131 sections 3.1 and 4.4.5.

mod times;

ghost use Rattle.std.specs.Prelude.{◌≡◌, ◌⊎◌, IfOk, IfErr, IsTrue, None, count_ones, option_copied, option_map};
ghost use Rattle.std.specs.FinMap as map;
ghost use Rattle.std.specs.Net.Addr.{ipv4_bits};
ghost use Rattle.std.specs.Vec.{vec_items};
ghost use Rattle.dhcp_wire.specs.Error.{no_memory};
ghost use Rattle.dhcp_wire.specs.Outcome.{Makes};
ghost use Rattle.dhcp4_msg.specs.Options.{classless_routes, said_by};
ghost use Rattle.dhcp4_msg.specs.Value.{addresses_said, text_said, written_option};
ghost use Rattle.dhcp4_lease.specs.Lease as Lease;
ghost use Rattle.dhcp4_lease.specs.Lease.{HasFieldsOf, ReadsLease, ReadsLeaseBy, are_times_in_order, empty_lease, lease_of, times_in};

use self::times::{LeaseTimes, read_times};
use dhcp_clock::Words;
use dhcp_wire::{
    BROADCAST_MAC_ADDRESS, DhcpError, ErrorKind, FixedText, Sequence, Text, both, copied,
    copied_list,
};
use dhcp4_msg::{DhcpV4ClasslessRoute, DhcpV4Message, DhcpV4OptionCode, DhcpV4Options};
use std::alloc::Global;
use std::marker::Model;
use std::net::Ipv4Addr;

/// A lease, RFC 2131. Contracts see it as the record of its fields.
#[derive(Debug, PartialEq, Drop)]
pub struct DhcpV4Lease {
    /// The next server, siaddr (RFC 2131, section 2); servers often leave it 0.0.0.0.
    pub siaddr: Ipv4Addr,
    /// The address that is leased, yiaddr (RFC 2131, section 2).
    pub yiaddr: Ipv4Addr,
    /// T1: when it is renewed, in seconds (RFC 2132, section 9.11).
    pub t1_sec: u32,
    /// T2: when it is rebound, in seconds; not before T1 where a message granted it (RFC 2132,
    /// section 9.12).
    pub t2_sec: u32,
    /// When it ends, in seconds; not before T2 where a message granted it (RFC 2132, section 9.2).
    pub lease_time_sec: u32,
    /// The server identifier, option 54; 0.0.0.0 if it is absent (RFC 2132, section 9.7).
    pub srv_id: Ipv4Addr,
    /// The subnet mask, option 1; 0.0.0.0 if it is absent (RFC 2132, section 3.3).
    pub subnet_mask: Ipv4Addr,
    /// The broadcast address, option 28 (RFC 2132, section 5.3).
    pub broadcast_addr: Option<Ipv4Addr>,
    /// The domain name servers, option 6 (RFC 2132, section 3.8).
    pub dns_srvs: Option<Sequence<Ipv4Addr>>,
    /// The routers, option 3 (RFC 2132, section 3.5).
    pub gateways: Option<Sequence<Ipv4Addr>>,
    /// The NTP servers, option 42 (RFC 2132, section 8.3).
    pub ntp_srvs: Option<Sequence<Ipv4Addr>>,
    /// The MTU of the interface, option 26, in bytes (RFC 2132, section 5.1).
    pub mtu: Option<u16>,
    /// The host name, option 12 (RFC 2132, section 3.14).
    pub host_name: Option<Text>,
    /// The domain name, option 15 (RFC 2132, section 3.17).
    pub domain_name: Option<Text>,
    /// The routes of option 121, or of option 249 if that is absent (RFC 3442).
    pub classless_routes: Option<Sequence<DhcpV4ClasslessRoute>>,
    /// The MAC address of the server: ff:ff:ff:ff:ff:ff, the broadcast address, where a message
    /// granted it.
    pub srv_mac: [u8; 6],
    options: DhcpV4Options,
}

impl Model for DhcpV4Lease {
    ghost use Rattle.dhcp4_lease.specs.Lease.{Lease};
    ghost use Rattle.dhcp4_msg.specs.contracts.options.DhcpV4Options as option_map;
    ghost use Rattle.std.specs.Coded.{codes};

    ghost Value = { Lease };

    ghost coded = { Prim.hlevel (codes, option_map.the_row.coded) };

    ghost view = { λ lease. record {
      siaddr = lease.siaddr;
      yiaddr = lease.yiaddr;
      t1_sec = lease.t1_sec;
      t2_sec = lease.t2_sec;
      lease_time_sec = lease.lease_time_sec;
      srv_id = lease.srv_id;
      subnet_mask = lease.subnet_mask;
      broadcast_addr = lease.broadcast_addr;
      dns_srvs = lease.dns_srvs;
      gateways = lease.gateways;
      ntp_srvs = lease.ntp_srvs;
      mtu = lease.mtu;
      host_name = lease.host_name;
      domain_name = lease.domain_name;
      classless_routes = lease.classless_routes;
      srv_mac = lease.srv_mac;
      options = lease.options;
    } };

    ghost inverse = { λ seen. record {
      siaddr = seen.siaddr;
      yiaddr = seen.yiaddr;
      t1_sec = seen.t1_sec;
      t2_sec = seen.t2_sec;
      lease_time_sec = seen.lease_time_sec;
      srv_id = seen.srv_id;
      subnet_mask = seen.subnet_mask;
      broadcast_addr = seen.broadcast_addr;
      dns_srvs = seen.dns_srvs;
      gateways = seen.gateways;
      ntp_srvs = seen.ntp_srvs;
      mtu = seen.mtu;
      host_name = seen.host_name;
      domain_name = seen.domain_name;
      classless_routes = seen.classless_routes;
      srv_mac = seen.srv_mac;
      options = seen.options;
    } };
}

impl DhcpV4Lease {
    /// A lease with 0.0.0.0 for each IP address that it must have, ff:ff:ff:ff:ff:ff for the MAC
    /// address of its server, every time zero, and nothing else. Does not allocate.
    #[tactic(auto, unfolding(crate::specs::Lease::empty_lease))]
    pub fn empty(alloc: Global) -> Self
        ensures { result ≡ empty_lease }
    {
        DhcpV4Lease {
            siaddr: Ipv4Addr::UNSPECIFIED,
            yiaddr: Ipv4Addr::UNSPECIFIED,
            t1_sec: 0,
            t2_sec: 0,
            lease_time_sec: 0,
            srv_id: Ipv4Addr::UNSPECIFIED,
            subnet_mask: Ipv4Addr::UNSPECIFIED,
            broadcast_addr: None,
            dns_srvs: None,
            gateways: None,
            ntp_srvs: None,
            mtu: None,
            host_name: None,
            domain_name: None,
            classless_routes: None,
            srv_mac: BROADCAST_MAC_ADDRESS,
            options: DhcpV4Options::new(alloc),
        }
    }

    /// The lease that a message grants (RFC 2131, section 4.4.5). T1 and T2 are options 58 and 59.
    /// If one is absent it is half, or seven eighths, of the lease time, and from 20 seconds on a
    /// word of `words` moves it by 2 seconds less to 1 second more, T1 first. `InvalidDhcpMessage`
    /// if and only if option 51 is absent, or T1 is after T2, or T2 after the end. Words that were
    /// drawn stay drawn, whatever is returned.
    pub fn new_from_msg<W: Words>(
        alloc: Global,
        msg: &DhcpV4Message,
        words: &mut W,
    ) -> Result<Self, DhcpError>
        ensures reads { ReadsLease (W.left words.old) result (W.left words.new) msg.now }
        ensures taken { ReadsLeaseBy W.gives words.old result words.new msg.now }
        // Over every source of words:
        ensures fields { IfOk result (HasFieldsOf msg.now) }
        ensures in_order { IfOk result (λ lease. IsTrue (are_times_in_order lease)) }
        ensures error { IfErr result (λ e.
            (e ≡ no_memory) ⊎ (e.kind ≡ ErrorKind.InvalidDhcpMessage)) }
    {
        match read_times(&msg.options, words) {
            Some(times) => copied_lease(alloc, msg, times),
            None => Err(no_grant()),
        }
    }

    /// The same as `new_from_msg`, of a message that is no longer needed: its options are moved
    /// into the lease, and not shared with it.
    pub fn from_message<W: Words>(
        alloc: Global,
        msg: DhcpV4Message,
        words: &mut W,
    ) -> Result<Self, DhcpError>
        ensures reads { ReadsLease (W.left words.old) result (W.left words.new) msg }
        ensures taken { ReadsLeaseBy W.gives words.old result words.new msg }
        // Over every source of words:
        ensures fields { IfOk result (HasFieldsOf msg) }
        ensures in_order { IfOk result (λ lease. IsTrue (are_times_in_order lease)) }
        ensures error { IfErr result (λ e.
            (e ≡ no_memory) ⊎ (e.kind ≡ ErrorKind.InvalidDhcpMessage)) }
    {
        match read_times(&msg.options, words) {
            Some(times) => lease_with(alloc, msg.siaddr, msg.yiaddr, msg.options, times),
            None => Err(no_grant()),
        }
    }

    /// Whether its times are in order: T1 <= T2 <= the end of the lease.
    pub fn are_times_in_order(&self) -> bool
        ensures { result ≡ are_times_in_order self.now }
    {
        self.times().are_in_order()
    }

    // Its times.
    fn times(&self) -> LeaseTimes
        ensures { result ≡ times_in self.now }
    {
        LeaseTimes {
            t1_sec: self.t1_sec,
            t2_sec: self.t2_sec,
            lease_time_sec: self.lease_time_sec,
        }
    }

    /// The option of this code, if there is one, written again: its code, the length of its value,
    /// and the value; of Pad and End the code alone, of a text at most 254 bytes and a zero byte. A
    /// value of fixed size is cut to it. Out of memory is the only error.
    pub fn get_option_raw(&self, alloc: Global, code: u8) -> Result<Option<Vec<u8>>, DhcpError>
        ensures { Makes (option_map vec_items) result
            (option_map written_option (map.get self.now.options code)) }
    {
        self.options.get_data_raw(alloc, code)
    }

    /// The prefix length of the subnet: how many bits of its mask are one.
    pub fn prefix_length(&self) -> u8
        ensures { result ≡ count_ones (ipv4_bits self.now.subnet_mask) }
    {
        self.subnet_mask.to_bits().count_ones() as u8
    }

    /// A copy. Out of memory is the only error.
    pub fn try_clone(&self, alloc: Global) -> Result<Self, DhcpError>
        ensures { Makes (λ lease. lease) result self.now }
    {
        let options = self.options.try_clone(alloc)?;
        let ((lists, names), routes) = self.copied_values(alloc)?;
        let (dns_srvs, gateways, ntp_srvs) = lists;
        let (host_name, domain_name) = names;
        Ok(DhcpV4Lease {
            siaddr: self.siaddr,
            yiaddr: self.yiaddr,
            t1_sec: self.t1_sec,
            t2_sec: self.t2_sec,
            lease_time_sec: self.lease_time_sec,
            srv_id: self.srv_id,
            subnet_mask: self.subnet_mask,
            broadcast_addr: self.broadcast_addr,
            dns_srvs,
            gateways,
            ntp_srvs,
            mtu: self.mtu,
            host_name,
            domain_name,
            classless_routes: routes,
            srv_mac: self.srv_mac,
            options,
        })
    }

    // Copies of its lists of addresses, its names and its routes.
    fn copied_values(&self, alloc: Global) -> Result<((Lists, Names), Option<Routes>), DhcpError>
        ensures { Makes (λ made. made) result (
          (
            (self.now.dns_srvs, self.now.gateways, self.now.ntp_srvs),
            (self.now.host_name, self.now.domain_name),
          ),
          self.now.classless_routes,
        ) }
    {
        let lists = copied_lists(
            alloc,
            self.dns_srvs.as_ref(),
            self.gateways.as_ref(),
            self.ntp_srvs.as_ref(),
        );
        let names = copied_names(alloc, self.host_name.as_ref(), self.domain_name.as_ref());
        let routes = copied_list(alloc, self.classless_routes.as_ref());
        both(both(lists, names), routes)
    }
}

// The lease of a message with these times, with which it shares the options.
fn copied_lease(
    alloc: Global,
    msg: &DhcpV4Message,
    times: LeaseTimes,
) -> Result<DhcpV4Lease, DhcpError>
    ensures { Makes (λ lease. lease) result (lease_of msg.now times) }
{
    let options = msg.options.try_clone(alloc)?;
    lease_with(alloc, msg.siaddr, msg.yiaddr, options, times)
}

// The lease of this address by this next server, with these options and these times.
#[tactic(auto, unfolding(dhcp4_msg::specs::OptionCode::number_of))]
fn lease_with(
    alloc: Global,
    siaddr: Ipv4Addr,
    yiaddr: Ipv4Addr,
    options: DhcpV4Options,
    times: LeaseTimes,
) -> Result<DhcpV4Lease, DhcpError>
    ensures { Makes (λ lease. lease) result (Lease.lease_with siaddr yiaddr options times) }
{
    let ((lists, names), routes) = values_in(alloc, &options)?;
    let (dns_srvs, gateways, ntp_srvs) = lists;
    let (host_name, domain_name) = names;
    Ok(DhcpV4Lease {
        siaddr,
        yiaddr,
        t1_sec: times.t1_sec,
        t2_sec: times.t2_sec,
        lease_time_sec: times.lease_time_sec,
        srv_id: options
            .address(DhcpV4OptionCode::ServerIdentifier)
            .unwrap_or(Ipv4Addr::UNSPECIFIED),
        subnet_mask: options
            .address(DhcpV4OptionCode::SubnetMask)
            .unwrap_or(Ipv4Addr::UNSPECIFIED),
        broadcast_addr: options.address(DhcpV4OptionCode::BroadcastAddress),
        dns_srvs,
        gateways,
        ntp_srvs,
        mtu: options.size(DhcpV4OptionCode::InterfaceMtu),
        host_name,
        domain_name,
        classless_routes: routes,
        srv_mac: BROADCAST_MAC_ADDRESS,
        options,
    })
}

// The lists of addresses, the names and the routes that these options say, as a lease has them.
#[tactic(auto, unfolding(dhcp4_msg::specs::OptionCode::number_of))]
fn values_in(
    alloc: Global,
    options: &DhcpV4Options,
) -> Result<((Lists, Names), Option<Routes>), DhcpError>
    ensures { Makes (λ made. made) result (
      (
        (
          said_by addresses_said options.now 6,
          said_by addresses_said options.now 3,
          said_by addresses_said options.now 42,
        ),
        (said_by text_said options.now 12, said_by text_said options.now 15),
      ),
      classless_routes options.now,
    ) }
{
    let lists = copied_lists(
        alloc,
        options.addresses(DhcpV4OptionCode::DomainNameServer),
        options.addresses(DhcpV4OptionCode::Router),
        options.addresses(DhcpV4OptionCode::NtpServers),
    );
    let names = copied_names(
        alloc,
        options.text(DhcpV4OptionCode::HostName),
        options.text(DhcpV4OptionCode::DomainName),
    );
    both(both(lists, names), options.classless_routes(alloc))
}

// The refusal of a message that grants no lease.
fn no_grant() -> DhcpError
    ensures { result.kind ≡ ErrorKind.InvalidDhcpMessage }
{
    DhcpError::invalid_message(FixedText::NoLease)
}

// The routes of a lease.
type Routes = Sequence<DhcpV4ClasslessRoute>;

// The lists of addresses of a lease: name servers, routers and NTP servers.
type Lists = (
    Option<Sequence<Ipv4Addr>>,
    Option<Sequence<Ipv4Addr>>,
    Option<Sequence<Ipv4Addr>>,
);

// Copies of these lists.
fn copied_lists(
    alloc: Global,
    dns_srvs: Option<&Sequence<Ipv4Addr>>,
    gateways: Option<&Sequence<Ipv4Addr>>,
    ntp_srvs: Option<&Sequence<Ipv4Addr>>,
) -> Result<Lists, DhcpError>
    ensures { Makes (λ made. made) result
        (option_copied dns_srvs.entry, option_copied gateways.entry, option_copied ntp_srvs.entry) }
{
    let dns_srvs = copied_list(alloc, dns_srvs)?;
    let gateways = copied_list(alloc, gateways)?;
    let ntp_srvs = copied_list(alloc, ntp_srvs)?;
    Ok((dns_srvs, gateways, ntp_srvs))
}

// The host name and the domain name of a lease.
type Names = (Option<Text>, Option<Text>);

// Copies of these names.
fn copied_names(
    alloc: Global,
    host_name: Option<&Text>,
    domain_name: Option<&Text>,
) -> Result<Names, DhcpError>
    ensures { Makes (λ made. made) result
        (option_copied host_name.entry, option_copied domain_name.entry) }
{
    let host_name = copied(alloc, host_name)?;
    let domain_name = copied(alloc, domain_name)?;
    Ok((host_name, domain_name))
}
