//! The steps of the setters that may refuse: each changes the configuration and returns its
//! reference, or leaves it as it was.

ghost use Rattle.std.specs.Prelude.{◌≡◌, IfOk};
ghost use Rattle.std.specs.Borrow.{sem};
ghost use Rattle.dhcp_wire.specs.Outcome.{Makes};
ghost use Rattle.dhcp_wire.specs.Setter.{setter_answer};
ghost use Rattle.dhcp6_msg.specs.Setter.{UnchangedIfRefused};
ghost use Rattle.dhcp6_msg.specs.Config.{ethernet_duid, rising_codes, with_extra_requests};

use crate::config::{DhcpV6Config, ethernet_duid};
use dhcp_wire::{DhcpError, SetterStep, rising_codes, rising_codes_with};
use std::alloc::Global;

impl DhcpV6Config {
    // Puts the identifier of an Ethernet address.
    pub(crate) fn put_duid_of_mac(
        &mut self,
        alloc: Global,
        mac: &[u8],
    ) -> Result<SetterStep<'_, DhcpV6Config>, DhcpError>
        ensures set { Makes (λ config. config.now) (setter_answer result)
            (record self.old { duid = ethernet_duid mac.now }) }
        ensures same { IfOk (setter_answer result)
            (λ config. config.ghost_name ≡ self.entry.ghost_name) }
        ensures* refused { sem 𝓛 (UnchangedIfRefused self.entry (setter_answer result)) }
    {
        self.duid = ethernet_duid(alloc, mac)?;
        Ok(SetterStep { value: self })
    }

    // Puts the codes that are requested, and these.
    pub(crate) fn put_extra_opts(
        &mut self,
        alloc: Global,
        opts: &[u16],
    ) -> Result<SetterStep<'_, DhcpV6Config>, DhcpError>
        ensures set { Makes (λ config. config.now) (setter_answer result)
            (with_extra_requests self.old opts.now) }
        ensures same { IfOk (setter_answer result)
            (λ config. config.ghost_name ≡ self.entry.ghost_name) }
        ensures* refused { sem 𝓛 (UnchangedIfRefused self.entry (setter_answer result)) }
    {
        self.request_opts = rising_codes_with(alloc, self.request_opts.as_slice(), opts)?;
        Ok(SetterStep { value: self })
    }

    // Puts these codes.
    pub(crate) fn put_opts(
        &mut self,
        alloc: Global,
        opts: &[u16],
    ) -> Result<SetterStep<'_, DhcpV6Config>, DhcpError>
        ensures set { Makes (λ config. config.now) (setter_answer result)
            (record self.old { request_opts = rising_codes opts.now }) }
        ensures same { IfOk (setter_answer result)
            (λ config. config.ghost_name ≡ self.entry.ghost_name) }
        ensures* refused { sem 𝓛 (UnchangedIfRefused self.entry (setter_answer result)) }
    {
        self.request_opts = rising_codes(alloc, opts)?;
        Ok(SetterStep { value: self })
    }
}
