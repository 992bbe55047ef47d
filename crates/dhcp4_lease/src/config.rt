//! The configuration of a client: what it sends of itself, RFC 2131 table 5, and how long it tries.

mod setters;

ghost use Rattle.std.specs.Prelude.{◌≡◌, [], ◌∷◌, IfOk, Ok};
ghost use Rattle.std.specs.Borrow.{sem};
ghost use Rattle.dhcp_wire.specs.Outcome.{Answers, Gives, Makes};
ghost use Rattle.dhcp4_lease.specs.Setter.{UnchangedIfRefused};
ghost use Rattle.dhcp4_lease.specs.Config.{
  config_of,
  is_within_limits,
  mac_of_bytes,
  mac_of_text,
  proxy_config,
  rising_codes,
  with_extra_requests,
  with_host_name_as_client_id,
  with_mac,
};

use crate::DhcpV4MessageForms;
use dhcp_wire::{
    Bytes, DhcpError, ErrorKind, FixedText, Sequence, Text, both, codes_of, parse_mac,
    setter_answer,
};
use dhcp4_msg::DhcpV4OptionCode;
use std::alloc::Global;
use std::marker::Model;

// The option codes of the default parameter request list.
const DEFAULT_REQUESTS: [u8; 9] = [12, 1, 3, 6, 15, 26, 42, 121, 249];

/// The configuration of a client. Contracts see it as the record of its fields.
#[derive(Debug, PartialEq, Eq, Drop)]
pub struct DhcpV4Config {
    /// The name of the network interface.
    pub iface_name: Text,
    /// The index of the network interface; 0 is none.
    pub iface_index: u32,
    /// Whether the client obtains a lease for another host, from whose MAC address it sends. A
    /// renewal is a payload from the lease's address all the same: a link that cannot send from it
    /// refuses it, and the client waits for T2.
    pub is_proxy: bool,
    /// How long the client stays in a state other than done before it gives up, in seconds, counted
    /// anew in each state; 0 is no limit.
    pub timeout_sec: u32,
    // The MAC address, which is sent as chaddr.
    pub(crate) src_mac: [u8; 6],
    // The client identifier, option 61: its type, then its bytes.
    pub(crate) client_id: Bytes,
    // The host name, option 12; empty is none.
    pub(crate) host_name: Text,
    // The parameter request list, option 55.
    pub(crate) request_opts: Sequence<DhcpV4OptionCode>,
    // The forms of its messages.
    pub(crate) message_forms: DhcpV4MessageForms,
}

impl Model for DhcpV4Config {
    ghost use Rattle.dhcp4_lease.specs.Config.{Config};

    ghost Value = { Config };

    ghost view = { λ config. record {
      iface_name = config.iface_name;
      iface_index = config.iface_index;
      is_proxy = config.is_proxy;
      timeout_sec = config.timeout_sec;
      src_mac = config.src_mac;
      client_id = config.client_id;
      host_name = config.host_name;
      request_opts = config.request_opts;
      message_forms = config.message_forms;
    } };

    ghost inverse = { λ seen. record {
      iface_name = seen.iface_name;
      iface_index = seen.iface_index;
      is_proxy = seen.is_proxy;
      timeout_sec = seen.timeout_sec;
      src_mac = seen.src_mac;
      client_id = seen.client_id;
      host_name = seen.host_name;
      request_opts = seen.request_opts;
      message_forms = seen.message_forms;
    } };
}

impl DhcpV4Config {
    /// A configuration with nothing set: no interface, the MAC address 00:00:00:00:00:00, the
    /// default parameter request list, and the message forms of mozim. Out of memory is the only
    /// error.
    pub fn empty(alloc: Global) -> Result<Self, DhcpError>
        ensures { Makes (λ config. config) result (config_of []) }
    {
        DhcpV4Config::new(alloc, "")
    }

    /// A configuration of the interface of this name, with nothing else set. Out of memory is the
    /// only error.
    #[tactic(auto, unfolding(crate::specs::Config::config_of))]
    pub fn new(alloc: Global, iface_name: &str) -> Result<Self, DhcpError>
        ensures { Makes (λ config. config) result (config_of iface_name.now) }
    {
        let iface_name = Text::from_str(alloc, iface_name);
        let (iface_name, request_opts) = both(iface_name, codes_of(alloc, &DEFAULT_REQUESTS))?;
        Ok(DhcpV4Config {
            iface_name,
            iface_index: 0,
            is_proxy: false,
            timeout_sec: 0,
            src_mac: [0; 6],
            client_id: Bytes::new(alloc),
            host_name: Text::new(alloc),
            request_opts,
            message_forms: DhcpV4MessageForms::Mozim,
        })
    }

    /// A configuration that obtains a lease for another host, of this MAC address, on the interface
    /// of this name. `InvalidArgument` if and only if a part of the text between colons is not an
    /// optional `+` and one or more hex digits, of value at most 255; else `NotSupported` if and
    /// only if there are not six parts.
    #[tactic(auto, unfolding(crate::specs::Config::with_mac))]
    pub fn new_proxy(
        alloc: Global,
        out_iface_name: &str,
        proxy_mac: &str,
    ) -> Result<Self, DhcpError>
        ensures { Gives (λ config. config) result (proxy_config out_iface_name.now proxy_mac.now) }
    {
        let src_mac = mac_of_text(alloc, proxy_mac)?;
        let mut config = DhcpV4Config::new(alloc, out_iface_name)?;
        config.is_proxy = true;
        config.src_mac = src_mac;
        Ok(config)
    }

    /// Whether its values fit their options, as each message of a client asks: the host name has at
    /// most 254 bytes and no zero byte, the client identifier has at most 255 bytes, and the
    /// parameter request list has at most 255 option codes.
    #[tactic(auto, unfolding(crate::specs::Config::is_within_limits))]
    pub fn is_within_limits(&self) -> bool
        ensures { result ≡ is_within_limits self.now }
    {
        self.host_name.len() <= 254
            && !self.host_name.as_str().as_bytes().contains(&0)
            && self.client_id.len() <= 255
            && self.request_opts.len() <= 255
    }

    /// The MAC address from which the client sends.
    pub fn iface_mac(&self) -> [u8; 6]
        ensures { result ≡ self.now.src_mac }
    {
        self.src_mac
    }

    /// The forms of the messages that the client sends.
    pub fn message_forms(&self) -> DhcpV4MessageForms
        ensures { result ≡ self.now.message_forms }
    {
        self.message_forms
    }

    /// A copy. Out of memory is the only error.
    pub fn try_clone(&self, alloc: Global) -> Result<Self, DhcpError>
        ensures { Makes (λ config. config) result self.now }
    {
        let texts = both(
            self.iface_name.try_clone(alloc),
            self.host_name.try_clone(alloc),
        );
        let lists = both(
            self.client_id.try_clone(alloc),
            self.request_opts.try_clone(alloc),
        );
        let ((iface_name, host_name), (client_id, request_opts)) = both(texts, lists)?;
        Ok(DhcpV4Config {
            iface_name,
            iface_index: self.iface_index,
            is_proxy: self.is_proxy,
            timeout_sec: self.timeout_sec,
            src_mac: self.src_mac,
            client_id,
            host_name,
            request_opts,
            message_forms: self.message_forms,
        })
    }

    /// Sets the index of the network interface; 0 is none.
    pub fn set_iface_index(&mut self, index: u32) -> &mut Self
        ensures set { result.now ≡ record self.old { iface_index = index } }
        ensures same { result.ghost_name ≡ self.entry.ghost_name }
    {
        self.iface_index = index;
        self
    }

    /// Sets how long the client stays in a state other than done, in seconds; 0 is no limit.
    pub fn set_timeout_sec(&mut self, timeout_sec: u32) -> &mut Self
        ensures set { result.now ≡ record self.old { timeout_sec = timeout_sec } }
        ensures same { result.ghost_name ≡ self.entry.ghost_name }
    {
        self.timeout_sec = timeout_sec;
        self
    }

    /// Sets the forms of the messages that the client sends; `Mozim` if they are not set.
    pub fn set_message_forms(&mut self, forms: DhcpV4MessageForms) -> &mut Self
        ensures set { result.now ≡ record self.old { message_forms = forms } }
        ensures same { result.ghost_name ≡ self.entry.ghost_name }
    {
        self.message_forms = forms;
        self
    }

    /// Sets the MAC address from a text such as `01:02:2a:2c:f7:04`. `InvalidArgument` if and only
    /// if a part of it between colons is not an optional `+` and one or more hex digits, of value
    /// at most 255; else `NotSupported` if and only if there are not six parts. After an error
    /// nothing has changed.
    pub fn set_iface_mac(&mut self, alloc: Global, mac: &str) -> Result<&mut Self, DhcpError>
        ensures set { Gives (λ config. config.now) result
            (with_mac self.old (mac_of_text mac.now)) }
        ensures same { IfOk result (λ config. config.ghost_name ≡ self.entry.ghost_name) }
        ensures* refused { sem 𝓛 (UnchangedIfRefused self.entry result) }
    {
        setter_answer(self.put_mac_text(alloc, mac))
    }

    /// Sets the MAC address. `NotSupported` if and only if it is not six bytes; after an error
    /// nothing has changed.
    pub fn set_iface_mac_raw(&mut self, mac: &[u8]) -> Result<&mut Self, DhcpError>
        ensures set { Answers (λ config. config.now) result
            (with_mac self.old (mac_of_bytes mac.now)) }
        ensures same { IfOk result (λ config. config.ghost_name ≡ self.entry.ghost_name) }
        ensures* refused { sem 𝓛 (UnchangedIfRefused self.entry result) }
    {
        setter_answer(self.put_mac(mac))
    }

    /// Sets the host name, which the client sends as option 12 if it is not empty (RFC 2132,
    /// section 3.14). After an error nothing has changed.
    pub fn set_host_name(&mut self, alloc: Global, host_name: &str) -> Result<&mut Self, DhcpError>
        ensures set { Makes (λ config. config.now) result
            (record self.old { host_name = host_name.now }) }
        ensures same { IfOk result (λ config. config.ghost_name ≡ self.entry.ghost_name) }
        ensures* refused { sem 𝓛 (UnchangedIfRefused self.entry result) }
    {
        setter_answer(self.put_host_name(alloc, host_name))
    }

    /// Sets the client identifier, option 61: its type, then its bytes, RFC 2132 section 9.14.
    /// Until it is set there is none, and `Mozim` sends the option without bytes, `Rfc2131` none.
    /// After an error nothing has changed.
    pub fn set_client_id(
        &mut self,
        alloc: Global,
        client_id_type: u8,
        client_id: &[u8],
    ) -> Result<&mut Self, DhcpError>
        ensures set { Makes (λ config. config.now) result
            (record self.old { client_id = client_id_type ∷ client_id.now }) }
        ensures same { IfOk result (λ config. config.ghost_name ≡ self.entry.ghost_name) }
        ensures* refused { sem 𝓛 (UnchangedIfRefused self.entry result) }
    {
        setter_answer(self.put_client_id(alloc, client_id_type, client_id))
    }

    /// Takes the MAC address for the client identifier, of type 1 (RFC 2132, section 9.14). After
    /// an error nothing has changed.
    pub fn use_mac_as_client_id(&mut self, alloc: Global) -> Result<&mut Self, DhcpError>
        ensures set { Makes (λ config. config.now) result
            (record self.old { client_id = 1 ∷ self.old.src_mac }) }
        ensures same { IfOk result (λ config. config.ghost_name ≡ self.entry.ghost_name) }
        ensures* refused { sem 𝓛 (UnchangedIfRefused self.entry result) }
    {
        setter_answer(self.put_mac_as_client_id(alloc))
    }

    /// Takes the host name for the client identifier, of type 0; if there is none it changes
    /// nothing. Nor does an error.
    pub fn use_host_name_as_client_id(&mut self, alloc: Global) -> Result<&mut Self, DhcpError>
        ensures set { Makes (λ config. config.now) result (with_host_name_as_client_id self.old) }
        ensures same { IfOk result (λ config. config.ghost_name ≡ self.entry.ghost_name) }
        ensures* refused { sem 𝓛 (UnchangedIfRefused self.entry result) }
    {
        setter_answer(self.put_host_name_as_client_id(alloc))
    }

    /// Asks for the options of these numbers too; the options asked for are then in rising order,
    /// each once. After an error nothing has changed.
    pub fn request_extra_dhcp_opts(
        &mut self,
        alloc: Global,
        opts: &[u8],
    ) -> Result<&mut Self, DhcpError>
        ensures set { Makes (λ config. config.now) result
            (with_extra_requests self.old opts.now) }
        ensures same { IfOk result (λ config. config.ghost_name ≡ self.entry.ghost_name) }
        ensures* refused { sem 𝓛 (UnchangedIfRefused self.entry result) }
    {
        setter_answer(self.put_extra_opts(alloc, opts))
    }

    /// Asks for the options of these numbers alone, in rising order, each once. After an error
    /// nothing has changed.
    pub fn override_request_dhcp_opts(
        &mut self,
        alloc: Global,
        opts: &[u8],
    ) -> Result<&mut Self, DhcpError>
        ensures set { Makes (λ config. config.now) result
            (record self.old { request_opts = rising_codes opts.now }) }
        ensures same { IfOk result (λ config. config.ghost_name ≡ self.entry.ghost_name) }
        ensures* refused { sem 𝓛 (UnchangedIfRefused self.entry result) }
    {
        setter_answer(self.put_opts(alloc, opts))
    }
}

// The MAC address that a text writes.
#[tactic(auto, unfolding(crate::specs::Config::mac_of_text))]
pub(crate) fn mac_of_text(alloc: Global, mac: &str) -> Result<[u8; 6], DhcpError>
    ensures { Gives (λ mac. mac) result (mac_of_text mac.now) }
{
    let bytes = parse_mac(alloc, mac)?;
    mac_of_bytes(bytes.as_slice())
}

// The MAC address of these bytes, of which there have to be six.
pub(crate) fn mac_of_bytes(bytes: &[u8]) -> Result<[u8; 6], DhcpError>
    ensures { Answers (λ mac. mac) result (mac_of_bytes bytes.now) }
{
    if bytes.len() != 6 {
        return Err(DhcpError::new_fixed(ErrorKind::NotSupported, FixedText::Mac));
    }
    let mut mac = [0; 6];
    mac.copy_from_slice(bytes);
    Ok(mac)
}

// This byte and then these.
pub(crate) fn joined(alloc: Global, first: u8, bytes: &[u8]) -> Result<Bytes, DhcpError>
    ensures { Makes (λ joined. joined) result (first ∷ bytes.now) }
{
    let mut joined = Vec::new(alloc);
    joined.push(first)?;
    joined.extend_from_slice(bytes)?;
    Ok(Bytes::from(joined))
}
