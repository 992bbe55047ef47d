//! The configuration of a client: what it sends of itself, what it asks for, and how long it tries.

mod setters;

ghost use Rattle.std.specs.Prelude.{◌≡◌, ◌||◌, [], IfOk, IsTrue, Some};
ghost use Rattle.std.specs.Borrow.{sem};
ghost use Rattle.dhcp_wire.specs.Outcome.{Makes};
ghost use Rattle.dhcp_clock.specs.Words.{Draws};
ghost use Rattle.dhcp6_opt.specs.declared.duid.DhcpV6Duid.{DhcpV6Duid};
ghost use Rattle.dhcp6_opt.specs.DrawnDuid.{DrawsDuid};
ghost use Rattle.dhcp6_msg.specs.declared.mode.DhcpV6Mode.TheVariants as modes;
ghost use Rattle.dhcp6_msg.specs.Setter.{UnchangedIfRefused};
ghost use Rattle.dhcp6_msg.specs.Lease.{is_duid, is_no_duid};
ghost use Rattle.dhcp6_msg.specs.Config as configs;
ghost use Rattle.dhcp6_msg.specs.Config.{
  SetsDuid,
  client_duid,
  config_of,
  ethernet_duid,
  is_within_limits,
  rising_codes,
  with_extra_requests,
};

use crate::DhcpV6Mode;
use dhcp_clock::Words;
use dhcp_wire::laws::has_six_bytes;
use dhcp_wire::{Bytes, DhcpError, Sequence, Text, TryClone, codes_of, setter_answer};
use dhcp6_opt::{DhcpV6Duid, DhcpV6DuidLinkLayerAddr, DhcpV6OptionCode};
use std::alloc::Global;
use std::marker::Model;
use std::net::Ipv6Addr;

// The option codes of the default option request option.
const DEFAULT_REQUESTS: [u16; 5] = [6, 7, 23, 24, 56];

// The hardware type of Ethernet, which IANA assigns.
const ETHERNET: u16 = 1;

/// The configuration of a client. Contracts see it as the record of its fields.
#[derive(Debug, PartialEq, Eq, Drop)]
pub struct DhcpV6Config {
    /// The name of the network interface.
    pub iface_name: Text,
    /// The index of the network interface; 0 is none.
    pub iface_index: u32,
    /// The client's identifier, option 1; `Raw` without bytes until it is set or made.
    pub duid: DhcpV6Duid,
    /// What the client asks for.
    pub mode: DhcpV6Mode,
    /// The link-local address from which the client sends; :: is none.
    pub src_ip: Ipv6Addr,
    /// How long the client stays in a state other than done before it gives up, in seconds, counted
    /// anew in each state; 0 is no limit.
    pub timeout_sec: u32,
    /// The codes of the options that the client asks for, option 6.
    pub request_opts: Sequence<DhcpV6OptionCode>,
    // The MAC address, of which the identifier is made.
    pub(crate) src_mac: Option<[u8; 6]>,
}

impl Model for DhcpV6Config {
    ghost use Rattle.dhcp6_msg.specs.Config.{Config};
    ghost use Rattle.dhcp6_opt.specs.contracts.duid.DhcpV6Duid as identifier;
    ghost use Rattle.std.specs.Coded.{codes};

    ghost Value = { Config };

    ghost coded = { Prim.hlevel (codes, identifier.the_row.coded) };

    ghost view = { λ config. record {
      iface_name = config.iface_name;
      iface_index = config.iface_index;
      duid = config.duid;
      mode = config.mode;
      src_ip = config.src_ip;
      timeout_sec = config.timeout_sec;
      request_opts = config.request_opts;
      src_mac = config.src_mac;
    } };

    ghost inverse = { λ seen. record {
      iface_name = seen.iface_name;
      iface_index = seen.iface_index;
      duid = seen.duid;
      mode = seen.mode;
      src_ip = seen.src_ip;
      timeout_sec = seen.timeout_sec;
      request_opts = seen.request_opts;
      src_mac = seen.src_mac;
    } };
}

impl DhcpV6Config {
    /// A configuration of the default mode with nothing set: no interface, no identifier, the
    /// address ::, and the default option request option. Out of memory is the only error.
    pub fn empty(alloc: Global) -> Result<Self, DhcpError>
        ensures { Makes (λ config. config) result (config_of [] modes.NonTemporaryAddresses) }
    {
        DhcpV6Config::new(alloc, "", DhcpV6Mode::NonTemporaryAddresses)
    }

    /// A configuration of the interface of this name and of this mode, with nothing else set. Out
    /// of memory is the only error.
    #[tactic(auto, unfolding(crate::specs::Config::config_of))]
    pub fn new(alloc: Global, iface_name: &str, mode: DhcpV6Mode) -> Result<Self, DhcpError>
        ensures { Makes (λ config. config) result (config_of iface_name.now mode) }
    {
        let iface_name = Text::from_str(alloc, iface_name)?;
        let request_opts = codes_of(alloc, &DEFAULT_REQUESTS)?;
        Ok(DhcpV6Config {
            iface_name,
            iface_index: 0,
            duid: DhcpV6Duid::Raw(Bytes::new(alloc)),
            mode,
            src_ip: Ipv6Addr::UNSPECIFIED,
            timeout_sec: 0,
            request_opts,
            src_mac: None,
        })
    }

    /// Whether its values fit their options, as each message of a client asks: the identifier has
    /// at most 65,535 bytes, and the option request option has at most 32,767 codes.
    #[tactic(auto, unfolding(crate::specs::Config::is_within_limits))]
    pub fn is_within_limits(&self) -> bool
        ensures { result ≡ is_within_limits self.now }
    {
        self.duid.written_len() <= 65535 && self.request_opts.len() <= 32767
    }

    /// A copy. Out of memory is the only error.
    pub fn try_clone(&self, alloc: Global) -> Result<Self, DhcpError>
        ensures { Makes (λ config. config) result self.now }
    {
        let iface_name = self.iface_name.try_clone(alloc)?;
        let request_opts = self.request_opts.try_clone(alloc)?;
        let duid = self.duid.try_clone(alloc)?;
        Ok(DhcpV6Config {
            iface_name,
            iface_index: self.iface_index,
            duid,
            mode: self.mode,
            src_ip: self.src_ip,
            timeout_sec: self.timeout_sec,
            request_opts,
            src_mac: self.src_mac,
        })
    }

    /// Sets the index of the network interface; 0 is none.
    pub fn set_iface_index(&mut self, iface_index: u32) -> &mut Self
        ensures set { result.now ≡ record self.old { iface_index = iface_index } }
        ensures same { result.ghost_name ≡ self.entry.ghost_name }
    {
        self.iface_index = iface_index;
        self
    }

    /// Sets the link-local address from which the client sends; :: is none.
    pub fn set_link_local_ip(&mut self, addr: Ipv6Addr) -> &mut Self
        ensures set { result.now ≡ record self.old { src_ip = addr } }
        ensures same { result.ghost_name ≡ self.entry.ghost_name }
    {
        self.src_ip = addr;
        self
    }

    /// Sets the client's identifier.
    pub fn set_duid(&mut self, duid: DhcpV6Duid) -> &mut Self
        ensures set { result.now ≡ record self.old { duid = duid } }
        ensures same { result.ghost_name ≡ self.entry.ghost_name }
    {
        self.duid = duid;
        self
    }

    /// Sets how long the client stays in a state other than done, in seconds; 0 is no limit.
    pub fn set_timeout_sec(&mut self, timeout_sec: u32) -> &mut Self
        ensures set { result.now ≡ record self.old { timeout_sec = timeout_sec } }
        ensures same { result.ghost_name ≡ self.entry.ghost_name }
    {
        self.timeout_sec = timeout_sec;
        self
    }

    /// Sets the MAC address, of which `get_duid_or_init` makes the client's identifier.
    pub fn set_src_mac(&mut self, mac: [u8; 6]) -> &mut Self
        ensures set { result.now ≡ record self.old { src_mac = Some mac } }
        ensures same { result.ghost_name ≡ self.entry.ghost_name }
    {
        self.src_mac = Some(mac);
        self
    }

    /// Sets the client's identifier to that of an Ethernet address (RFC 8415, section 11.4). After
    /// an error nothing has changed.
    pub fn set_duid_by_iface_mac(
        &mut self,
        alloc: Global,
        mac: &[u8],
    ) -> Result<&mut Self, DhcpError>
        ensures set { Makes (λ config. config.now) result
            (record self.old { duid = ethernet_duid mac.now }) }
        ensures same { IfOk result (λ config. config.ghost_name ≡ self.entry.ghost_name) }
        ensures* refused { sem 𝓛 (UnchangedIfRefused self.entry result) }
    {
        setter_answer(self.put_duid_of_mac(alloc, mac))
    }

    /// Sets the client's identifier if it has no bytes: to that of the MAC address (RFC 8415,
    /// section 11.4), or if there is none to one of four random words. One that is made has 2 to
    /// 65,535 bytes. Out of memory is the only error: nothing has then changed, but words that were
    /// drawn stay drawn.
    pub fn init_duid<W: Words>(&mut self, alloc: Global, words: &mut W) -> Result<(), DhcpError>
        ensures set { Draws (W.left words.old) (W.left words.new) (client_duid self.old)
            (λ duid. SetsDuid result self.old self.new duid) }
        ensures taken { DrawsDuid W.gives (client_duid self.old) words.old words.new
            (λ duid. SetsDuid result self.old self.new duid) }
        ensures sendable { IsTrue (is_no_duid self.old.duid || is_duid self.old.duid)
            → IfOk result (λ _. IsTrue (is_duid self.new.duid)) }
    {
        if !self.duid.is_empty() {
            return Ok(());
        }
        self.make_duid(alloc, words)
    }

    // Sets the client's identifier to one that is made.
    fn make_duid<W: Words>(&mut self, alloc: Global, words: &mut W) -> Result<(), DhcpError>
        ensures set { Draws (W.left words.old) (W.left words.new)
            (configs.made_duid self.old.src_mac)
            (λ duid. SetsDuid result self.old self.new duid) }
        ensures taken { DrawsDuid W.gives (configs.made_duid self.old.src_mac)
            words.old words.new (λ duid. SetsDuid result self.old self.new duid) }
        ensures sendable { IfOk result (λ _. IsTrue (is_duid self.new.duid)) }
    {
        let made = made_duid(alloc, self.src_mac, words);
        self.keep_duid(made)
    }

    // Sets the client's identifier to one that was made.
    fn keep_duid(&mut self, made: Result<DhcpV6Duid, DhcpError>) -> Result<(), DhcpError>
        ensures set { (duid : DhcpV6Duid) → Makes (λ made. made) made duid
            → SetsDuid result self.old self.new duid }
        ensures sendable { IfOk made (λ duid. IsTrue (is_duid duid))
            → IfOk result (λ _. IsTrue (is_duid self.new.duid)) }
    {
        self.set_duid(made?);
        Ok(())
    }

    /// The client's identifier, after `init_duid`. No clause says what else the configuration has
    /// then.
    pub fn get_duid_or_init<W: Words>(
        &mut self,
        alloc: Global,
        words: &mut W,
    ) -> Result<&DhcpV6Duid, DhcpError>
        ensures drawn { Draws (W.left words.old) (W.left words.new) (client_duid self.old)
            (λ duid. Makes (λ made. made.now) result duid) }
        ensures taken { DrawsDuid W.gives (client_duid self.old) words.old words.new
            (λ duid. Makes (λ made. made.now) result duid) }
    {
        self.init_duid(alloc, words)?;
        Ok(&self.duid)
    }

    /// Asks for the options of these numbers too; the options asked for are then in rising order,
    /// each once. After an error nothing has changed.
    pub fn request_extra_dhcp_opts(
        &mut self,
        alloc: Global,
        opts: &[u16],
    ) -> Result<&mut Self, DhcpError>
        ensures set { Makes (λ config. config.now) result
            (with_extra_requests self.old opts.now) }
        ensures same { IfOk result (λ config. config.ghost_name ≡ self.entry.ghost_name) }
        ensures* refused { sem 𝓛 (UnchangedIfRefused self.entry result) }
    {
        setter_answer(self.put_extra_opts(alloc, opts))
    }

    /// Asks for the options of these numbers alone, in rising order, each once. After an error
    /// nothing has changed.
    pub fn override_request_dhcp_opts(
        &mut self,
        alloc: Global,
        opts: &[u16],
    ) -> Result<&mut Self, DhcpError>
        ensures set { Makes (λ config. config.now) result
            (record self.old { request_opts = rising_codes opts.now }) }
        ensures same { IfOk result (λ config. config.ghost_name ≡ self.entry.ghost_name) }
        ensures* refused { sem 𝓛 (UnchangedIfRefused self.entry result) }
    {
        setter_answer(self.put_opts(alloc, opts))
    }
}

impl TryClone for DhcpV6Config {
    fn try_clone(&self, alloc: Global) -> Result<Self, DhcpError> {
        DhcpV6Config::try_clone(self, alloc)
    }
}

// The identifier of an Ethernet address.
pub(crate) fn ethernet_duid(alloc: Global, mac: &[u8]) -> Result<DhcpV6Duid, DhcpError>
    ensures { Makes (λ duid. duid) result (ethernet_duid mac.now) }
{
    Ok(DhcpV6Duid::LinkLayerAddress(DhcpV6DuidLinkLayerAddr::new(alloc, ETHERNET, mac)?))
}

// The identifier of a MAC address, if there is one, else one of four random words.
fn made_duid<W: Words>(
    alloc: Global,
    src_mac: Option<[u8; 6]>,
    words: &mut W,
) -> Result<DhcpV6Duid, DhcpError>
    ensures drawn { Draws (W.left words.old) (W.left words.new) (configs.made_duid src_mac)
        (λ duid. Makes (λ made. made) result duid) }
    ensures taken { DrawsDuid W.gives (configs.made_duid src_mac) words.old words.new
        (λ duid. Makes (λ made. made) result duid) }
    ensures sendable { IfOk result (λ duid. IsTrue (is_duid duid)) }
{
    match src_mac {
        Some(mac) => {
            has_six_bytes(mac);
            ethernet_duid(alloc, &mac)
        }
        None => DhcpV6Duid::random(alloc, words),
    }
}
