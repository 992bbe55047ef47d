//! The steps of the setters that may refuse: each changes the configuration and returns its
//! reference, or leaves it as it was.

ghost use Rattle.std.specs.Prelude.{◌≡◌, ◌∷◌, IfOk};
ghost use Rattle.std.specs.Borrow.{sem};
ghost use Rattle.dhcp_wire.specs.Outcome.{Answers, Gives, Makes};
ghost use Rattle.dhcp_wire.specs.Setter.{setter_answer};
ghost use Rattle.dhcp4_lease.specs.Setter.{UnchangedIfRefused};
ghost use Rattle.dhcp4_lease.specs.Config.{
  mac_of_bytes,
  mac_of_text,
  rising_codes,
  with_extra_requests,
  with_host_name_as_client_id,
  with_mac,
};

use crate::config::{DhcpV4Config, joined, mac_of_bytes, mac_of_text};
use dhcp_wire::{DhcpError, SetterStep, Text, rising_codes, rising_codes_with};
use std::alloc::Global;

impl DhcpV4Config {
    // Puts the MAC address that a text writes.
    #[tactic(auto, unfolding(crate::specs::Config::with_mac))]
    pub(crate) fn put_mac_text(
        &mut self,
        alloc: Global,
        mac: &str,
    ) -> Result<SetterStep<'_, DhcpV4Config>, DhcpError>
        ensures set { Gives (λ config. config.now) (setter_answer result)
            (with_mac self.old (mac_of_text mac.now)) }
        ensures same { IfOk (setter_answer result)
            (λ config. config.ghost_name ≡ self.entry.ghost_name) }
        ensures* refused { sem 𝓛 (UnchangedIfRefused self.entry (setter_answer result)) }
    {
        self.src_mac = mac_of_text(alloc, mac)?;
        Ok(SetterStep { value: self })
    }

    // Puts this MAC address.
    #[tactic(auto, unfolding(crate::specs::Config::with_mac))]
    pub(crate) fn put_mac(&mut self, mac: &[u8]) -> Result<SetterStep<'_, DhcpV4Config>, DhcpError>
        ensures set { Answers (λ config. config.now) (setter_answer result)
            (with_mac self.old (mac_of_bytes mac.now)) }
        ensures same { IfOk (setter_answer result)
            (λ config. config.ghost_name ≡ self.entry.ghost_name) }
        ensures* refused { sem 𝓛 (UnchangedIfRefused self.entry (setter_answer result)) }
    {
        self.src_mac = mac_of_bytes(mac)?;
        Ok(SetterStep { value: self })
    }

    // Puts the host name.
    pub(crate) fn put_host_name(
        &mut self,
        alloc: Global,
        host_name: &str,
    ) -> Result<SetterStep<'_, DhcpV4Config>, DhcpError>
        ensures set { Makes (λ config. config.now) (setter_answer result)
            (record self.old { host_name = host_name.now }) }
        ensures same { IfOk (setter_answer result)
            (λ config. config.ghost_name ≡ self.entry.ghost_name) }
        ensures* refused { sem 𝓛 (UnchangedIfRefused self.entry (setter_answer result)) }
    {
        self.host_name = Text::from_str(alloc, host_name)?;
        Ok(SetterStep { value: self })
    }

    // Puts the client identifier of this type and these bytes.
    pub(crate) fn put_client_id(
        &mut self,
        alloc: Global,
        client_id_type: u8,
        client_id: &[u8],
    ) -> Result<SetterStep<'_, DhcpV4Config>, DhcpError>
        ensures set { Makes (λ config. config.now) (setter_answer result)
            (record self.old { client_id = client_id_type ∷ client_id.now }) }
        ensures same { IfOk (setter_answer result)
            (λ config. config.ghost_name ≡ self.entry.ghost_name) }
        ensures* refused { sem 𝓛 (UnchangedIfRefused self.entry (setter_answer result)) }
    {
        self.client_id = joined(alloc, client_id_type, client_id)?;
        Ok(SetterStep { value: self })
    }

    // Puts the MAC address as client identifier, of type 1.
    pub(crate) fn put_mac_as_client_id(
        &mut self,
        alloc: Global,
    ) -> Result<SetterStep<'_, DhcpV4Config>, DhcpError>
        ensures set { Makes (λ config. config.now) (setter_answer result)
            (record self.old { client_id = 1 ∷ self.old.src_mac }) }
        ensures same { IfOk (setter_answer result)
            (λ config. config.ghost_name ≡ self.entry.ghost_name) }
        ensures* refused { sem 𝓛 (UnchangedIfRefused self.entry (setter_answer result)) }
    {
        let src_mac = self.src_mac;
        self.put_client_id(alloc, 1, &src_mac)
    }

    // Puts the host name as client identifier, of type 0, if there is one.
    #[tactic(auto, unfolding(crate::specs::Config::with_host_name_as_client_id))]
    pub(crate) fn put_host_name_as_client_id(
        &mut self,
        alloc: Global,
    ) -> Result<SetterStep<'_, DhcpV4Config>, DhcpError>
        ensures set { Makes (λ config. config.now) (setter_answer result)
            (with_host_name_as_client_id self.old) }
        ensures same { IfOk (setter_answer result)
            (λ config. config.ghost_name ≡ self.entry.ghost_name) }
        ensures* refused { sem 𝓛 (UnchangedIfRefused self.entry (setter_answer result)) }
    {
        if !self.host_name.is_empty() {
            self.client_id = joined(alloc, 0, self.host_name.as_str().as_bytes())?;
        }
        Ok(SetterStep { value: self })
    }

    // Puts the codes that are requested, and these.
    pub(crate) fn put_extra_opts(
        &mut self,
        alloc: Global,
        opts: &[u8],
    ) -> Result<SetterStep<'_, DhcpV4Config>, DhcpError>
        ensures set { Makes (λ config. config.now) (setter_answer result)
            (with_extra_requests self.old opts.now) }
        ensures same { IfOk (setter_answer result)
            (λ config. config.ghost_name ≡ self.entry.ghost_name) }
        ensures* refused { sem 𝓛 (UnchangedIfRefused self.entry (setter_answer result)) }
    {
        self.request_opts = rising_codes_with(alloc, self.request_opts.as_slice(), opts)?;
        Ok(SetterStep { value: self })
    }

    // Puts these codes.
    pub(crate) fn put_opts(
        &mut self,
        alloc: Global,
        opts: &[u8],
    ) -> Result<SetterStep<'_, DhcpV4Config>, DhcpError>
        ensures set { Makes (λ config. config.now) (setter_answer result)
            (record self.old { request_opts = rising_codes opts.now }) }
        ensures same { IfOk (setter_answer result)
            (λ config. config.ghost_name ≡ self.entry.ghost_name) }
        ensures* refused { sem 𝓛 (UnchangedIfRefused self.entry (setter_answer result)) }
    {
        self.request_opts = rising_codes(alloc, opts)?;
        Ok(SetterStep { value: self })
    }
}
