//! The configuration that a client gets without an address.

ghost use Rattle.std.specs.Prelude.{option_copied};
ghost use Rattle.dhcp_wire.specs.Outcome.{Makes};
ghost use Rattle.dhcp6_info.specs.Info.{info_of};

use dhcp_wire::{DhcpError, Sequence, Text, TryClone, beside, copied, copied_list};
use dhcp6_opt::{DhcpV6Duid, DhcpV6OptionNtpServer};
use std::alloc::Global;
use std::net::Ipv6Addr;

/// The configuration that a Reply gives, RFC 8415 section 18.2.10.4.
#[derive(Debug, PartialEq, Eq, Drop)]
pub struct DhcpV6Info {
    /// The server's identifier, option 2.
    pub srv_duid: DhcpV6Duid,
    /// Name servers, in order of preference, option 23; none if the Reply says nothing of them. RFC
    /// 3646 section 3.
    pub dns_srvs: Option<Sequence<Ipv6Addr>>,
    /// The domains in which host names are looked up, option 24; none if the Reply says nothing of
    /// them. RFC 3646 section 4.
    pub domains: Option<Sequence<Text>>,
    /// Time servers, option 56; none if the Reply says nothing of them. RFC 5908 section 4.
    pub ntp: Option<Sequence<DhcpV6OptionNtpServer>>,
    /// After how many seconds the client asks again: 600 at least; 86,400 if the Reply says
    /// nothing; 4,294,967,295 is never. RFC 8415 section 21.23.
    pub refresh_sec: u32,
}

impl DhcpV6Info {
    /// A copy; out of memory is the only error.
    pub fn try_clone(&self, alloc: Global) -> Result<Self, DhcpError>
        ensures { Makes (λ made. made) result self.now }
    {
        copied_info(
            alloc,
            Some(&self.srv_duid),
            self.dns_srvs.as_ref(),
            self.domains.as_ref(),
            self.ntp.as_ref(),
            self.refresh_sec,
        )
    }
}

impl TryClone for DhcpV6Info {
    fn try_clone(&self, alloc: Global) -> Result<Self, DhcpError> {
        DhcpV6Info::try_clone(self, alloc)
    }
}

/// A configuration with copies of these parts, and the identifier without bytes if there is none.
/// Out of memory is the only error.
pub(crate) fn copied_info(
    alloc: Global,
    srv_duid: Option<&DhcpV6Duid>,
    dns_srvs: Option<&Sequence<Ipv6Addr>>,
    domains: Option<&Sequence<Text>>,
    ntp: Option<&Sequence<DhcpV6OptionNtpServer>>,
    refresh_sec: u32,
) -> Result<DhcpV6Info, DhcpError>
    ensures { Makes (λ made. made) result (info_of (option_copied srv_duid.entry)
        (option_copied dns_srvs.entry) (option_copied domains.entry) (option_copied ntp.entry)
        refresh_sec) }
{
    let made = DhcpV6Duid::copied_or_empty(alloc, srv_duid)?;
    let made = beside(made, copied_list(alloc, dns_srvs))?;
    let made = beside(made, copied(alloc, domains))?;
    let (((srv_duid, dns_srvs), domains), ntp) = beside(made, copied(alloc, ntp))?;
    Ok(DhcpV6Info {
        srv_duid,
        dns_srvs,
        domains,
        ntp,
        refresh_sec,
    })
}
