//! What the options of a message say: RFC 8415 sections 21.2 to 21.5, 21.12, 21.13 and 21.21, RFC
//! 3646, RFC 5908. Of the options of one code the first readable one counts.

ghost use Rattle.std.specs.Prelude.{◌≡◌, ◌≤◌, IfSome, length, not, option_copied};
ghost use Rattle.dhcp6_opt.specs.Duid.{written_duid};
ghost use Rattle.dhcp6_opt.specs.Said.{
  client_id_said,
  dns_servers_said,
  domain_list_said,
  ia_na_said,
  ia_pd_said,
  ia_ta_said,
  ntp_servers_said,
  said_by,
  server_id_said,
  server_unicast_said,
  status_said,
};
ghost use Rattle.dhcp6_opt.specs.Status.{is_no_failure};

use crate::{
    DhcpV6Duid, DhcpV6Option, DhcpV6OptionCode, DhcpV6OptionIaNa, DhcpV6OptionIaPd,
    DhcpV6OptionIaTa, DhcpV6OptionNtpServer, DhcpV6OptionStatus, DhcpV6OptionStatusCode,
    DhcpV6Options,
};
use dhcp_wire::{Sequence, Text};
use std::net::Ipv6Addr;

impl DhcpV6Options {
    /// The client's identifier: that of the first readable Client Identifier option (1), if there
    /// is one. RFC 8415 section 21.2.
    #[tactic(auto, unfolding(crate::specs::OptionCode::number_of))]
    pub fn client_id(&self) -> Option<&DhcpV6Duid>
        ensures { option_copied result ≡ said_by client_id_said self.now 1 }
    {
        match self.get_first(DhcpV6OptionCode::ClientId) {
            Some(DhcpV6Option::ClientId(duid)) => Some(duid),
            _ => None,
        }
    }

    /// The server's identifier: that of the first readable Server Identifier option (2), if there
    /// is one. It has at most 65,535 bytes, so that it can be written again. RFC 8415 section 21.3.
    #[tactic(auto, unfolding(crate::specs::number_of), using(crate::proofs::server_is_short))]
    pub fn server_id(&self) -> Option<&DhcpV6Duid>
        ensures said { option_copied result ≡ said_by server_id_said self.now 2 }
        ensures short { IfSome (option_copied result)
            (λ duid. length (written_duid duid) ≤ 65535) }
    {
        match self.get_first(DhcpV6OptionCode::ServerId) {
            Some(DhcpV6Option::ServerId(duid)) => Some(duid),
            _ => None,
        }
    }

    /// The first readable identity association for non-temporary addresses (option 3), if there is
    /// one. RFC 8415 section 21.4.
    #[tactic(auto, unfolding(crate::specs::OptionCode::number_of))]
    pub fn ia_na(&self) -> Option<&DhcpV6OptionIaNa>
        ensures { option_copied result ≡ said_by ia_na_said self.now 3 }
    {
        match self.get_first(DhcpV6OptionCode::IANA) {
            Some(DhcpV6Option::IANA(ia)) => Some(ia),
            _ => None,
        }
    }

    /// The first readable identity association for temporary addresses (option 4), if there is
    /// one. RFC 8415 section 21.5.
    #[tactic(auto, unfolding(crate::specs::OptionCode::number_of))]
    pub fn ia_ta(&self) -> Option<&DhcpV6OptionIaTa>
        ensures { option_copied result ≡ said_by ia_ta_said self.now 4 }
    {
        match self.get_first(DhcpV6OptionCode::IATA) {
            Some(DhcpV6Option::IATA(ia)) => Some(ia),
            _ => None,
        }
    }

    /// The first readable identity association for prefix delegation (option 25), if there is one.
    /// RFC 8415 section 21.21.
    #[tactic(auto, unfolding(crate::specs::OptionCode::number_of))]
    pub fn ia_pd(&self) -> Option<&DhcpV6OptionIaPd>
        ensures { option_copied result ≡ said_by ia_pd_said self.now 25 }
    {
        match self.get_first(DhcpV6OptionCode::IAPD) {
            Some(DhcpV6Option::IAPD(ia)) => Some(ia),
            _ => None,
        }
    }

    /// The address to which a client may send: that of the first readable Server Unicast option
    /// (12), if there is one. RFC 8415 section 21.12.
    #[tactic(auto, unfolding(crate::specs::OptionCode::number_of))]
    pub fn server_unicast(&self) -> Option<Ipv6Addr>
        ensures { result ≡ said_by server_unicast_said self.now 12 }
    {
        match self.get_first(DhcpV6OptionCode::ServerUnicast) {
            Some(DhcpV6Option::ServerUnicast(address)) => Some(*address),
            _ => None,
        }
    }

    /// The status of the whole message: that of the first readable Status Code option (13), if
    /// there is one. RFC 8415 section 21.13.
    #[tactic(auto, unfolding(crate::specs::OptionCode::number_of))]
    pub fn status(&self) -> Option<&DhcpV6OptionStatus>
        ensures { option_copied result ≡ said_by status_said self.now 13 }
    {
        match self.get_first(DhcpV6OptionCode::StatusCode) {
            Some(DhcpV6Option::StatusCode(status)) => Some(status),
            _ => None,
        }
    }

    /// Whether the status of the whole message is there and is not `Success`. RFC 8415 section
    /// 21.13.
    pub fn has_failed(&self) -> bool
        ensures { result ≡ not (is_no_failure (said_by status_said self.now 13)) }
    {
        match self.status() {
            Some(status) => !matches!(status.status, DhcpV6OptionStatusCode::Success),
            None => false,
        }
    }

    /// The addresses of name servers, in order of preference: those of the first readable DNS
    /// Recursive Name Server option (23), if there is one. RFC 3646 section 3.
    #[tactic(auto, unfolding(crate::specs::OptionCode::number_of))]
    pub fn dns_servers(&self) -> Option<&Sequence<Ipv6Addr>>
        ensures { option_copied result ≡ said_by dns_servers_said self.now 23 }
    {
        match self.get_first(DhcpV6OptionCode::DnsServers) {
            Some(DhcpV6Option::DnsServers(addresses)) => Some(addresses),
            _ => None,
        }
    }

    /// The domains in which host names are looked up: those of the first readable Domain Search
    /// List option (24), if there is one. RFC 3646 section 4.
    #[tactic(auto, unfolding(crate::specs::OptionCode::number_of))]
    pub fn domain_list(&self) -> Option<&Sequence<Text>>
        ensures { option_copied result ≡ said_by domain_list_said self.now 24 }
    {
        match self.get_first(DhcpV6OptionCode::DomainList) {
            Some(DhcpV6Option::DomainList(names)) => Some(names),
            _ => None,
        }
    }

    /// The time servers: those of the first readable NTP Server option (56), if there is one. RFC
    /// 5908 section 4.
    #[tactic(auto, unfolding(crate::specs::OptionCode::number_of))]
    pub fn ntp_servers(&self) -> Option<&Sequence<DhcpV6OptionNtpServer>>
        ensures { option_copied result ≡ said_by ntp_servers_said self.now 56 }
    {
        match self.get_first(DhcpV6OptionCode::NtpServer) {
            Some(DhcpV6Option::NtpServer(servers)) => Some(servers),
            _ => None,
        }
    }
}
