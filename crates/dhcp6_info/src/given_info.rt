//! The configuration that a Reply gives, in the options in which it was received.

ghost use Rattle.std.specs.Prelude.{◌≡◌};
ghost use Rattle.dhcp_wire.specs.Outcome.{Makes};
ghost use Rattle.dhcp6_info.specs.Info as infos;
ghost use Rattle.dhcp6_info.specs.Rules as table;

use crate::DhcpV6Info;
use crate::info::copied_info;
use dhcp_history::BoundLease;
use dhcp_wire::DhcpError;
use dhcp6_opt::DhcpV6Options;
use std::alloc::Global;
use std::marker::Model;

/// The refresh time that never ends, in seconds. RFC 8415 section 21.23.
const NEVER: u32 = 4_294_967_295;

/// The options of a Reply, and its refresh time. Contracts see the configuration that they give.
#[derive(Drop)]
pub struct GivenInfo {
    options: DhcpV6Options,
    refresh_sec: u32,
}

impl Model for GivenInfo {
    ghost use Rattle.dhcp6_info.specs.contracts.info.DhcpV6Info as info_model;
    ghost use Rattle.dhcp6_info.specs.declared.info.DhcpV6Info.{DhcpV6Info};
    ghost use Rattle.dhcp6_info.specs.Info.{info_with};

    ghost Value = { DhcpV6Info };

    ghost coded = { info_model.the_row.coded };

    ghost view = { λ given. info_with given.options given.refresh_sec };
}

impl GivenInfo {
    /// What these options give, with a refresh time in seconds.
    pub fn new(options: DhcpV6Options, refresh_sec: u32) -> Self
        ensures { result ≡ infos.info_with options refresh_sec }
    {
        GivenInfo {
            options,
            refresh_sec,
        }
    }

    /// Its refresh time, in seconds.
    pub fn refresh_sec(&self) -> u32
        ensures { result ≡ self.now.refresh_sec }
    {
        self.refresh_sec
    }

    /// A copy of what it gives; out of memory is the only error.
    pub fn to_info(&self, alloc: Global) -> Result<DhcpV6Info, DhcpError>
        ensures { Makes (λ info. info) result self.now }
    {
        copied_info(
            alloc,
            self.options.server_id(),
            self.options.dns_servers(),
            self.options.domain_list(),
            self.options.ntp_servers(),
            self.refresh_sec,
        )
    }
}

/// The moment at which a configuration is to be refreshed, in milliseconds, if it is ever.
pub fn refresh_moment(bound: &BoundLease<GivenInfo>) -> Option<u64>
    ensures { result ≡ table.refresh_moment bound.now }
{
    match bound.lease().refresh_sec() {
        NEVER => None,
        seconds => Some(bound.after(seconds)),
    }
}
