//! What the values of every option have: numbers of their widths, whole addresses, texts of UTF-8.
//! A call does nothing.

ghost use Rattle.std.specs.Prelude.{IfSome};
ghost use Rattle.std.specs.List.{AllByRecursion};
ghost use Rattle.std.specs.Net.Addr.{IsIpv6Addr};
ghost use Rattle.std.specs.Str.{IsUtf8};
ghost use Rattle.dhcp6_opt.specs.Laws as laws;

use crate::{
    DhcpV6Duid, DhcpV6Option, DhcpV6OptionCode, DhcpV6OptionIaAddr, DhcpV6OptionIaNa,
    DhcpV6OptionIaPd, DhcpV6OptionIaPrefix, DhcpV6OptionIaTa, DhcpV6OptionNtpServer,
    DhcpV6OptionStatus,
};
use dhcp_wire::Text;
use dhcp_wire::laws::{
    an_ipv6_address_reads_back, fits_byte, fits_four_bytes, fits_sixteen_bytes, fits_two_bytes,
};
use std::net::Ipv6Addr;

// A type whose values have widths.
pub(crate) trait Widths {
    // What each value has.
    ghost has: { Self → Type 0 };

    // It has it.
    fn widths(&self)
        ensures { has self.now };
}

// Each of some values has what its type says.
pub(crate) fn all_have<T: Widths>(items: &[T])
    ensures { AllByRecursion T.has items.now }
{
    for item in items {
        item.widths();
    }
}

// A value has it, if there is one.
fn has_if_some<T: Widths>(item: &Option<T>)
    ensures { IfSome item.now T.has }
{
    if let Some(item) = item {
        item.widths();
    }
}

// Each number of a list of bytes is a byte.
fn are_bytes(bytes: &[u8])
    ensures { laws.AreBytes bytes.now }
{}

impl Widths for Ipv6Addr {
    ghost has = { IsIpv6Addr };

    fn widths(&self) {
        an_ipv6_address_reads_back(*self);
    }
}

impl Widths for Text {
    ghost has = { IsUtf8 };

    fn widths(&self) {
        let _text = self.as_str();
    }
}

impl Widths for DhcpV6OptionCode {
    ghost has = { laws.CodeHasWidth };

    fn widths(&self) {
        fits_two_bytes(u16::from(*self));
    }
}

impl Widths for DhcpV6Duid {
    ghost has = { laws.DuidHasWidths };

    #[tactic(auto, unfolding(crate::specs::Laws::DuidHasWidths))]
    fn widths(&self) {
        match self {
            DhcpV6Duid::LinkLayerAddressPlusTime(duid) => {
                fits_two_bytes(duid.hardware_type);
                fits_four_bytes(duid.time);
            }
            DhcpV6Duid::EnterpriseNumber(duid) => fits_four_bytes(duid.enterprise_number),
            DhcpV6Duid::LinkLayerAddress(duid) => fits_two_bytes(duid.hardware_type()),
            DhcpV6Duid::UUID(duid) => fits_sixteen_bytes(duid.number()),
            DhcpV6Duid::Raw(bytes) => are_bytes(bytes.as_slice()),
        }
    }
}

impl Widths for DhcpV6OptionStatus {
    ghost has = { laws.StatusHasWidths };

    fn widths(&self) {
        fits_two_bytes(u16::from(self.status));
        self.message.widths();
    }
}

impl Widths for DhcpV6OptionIaAddr {
    ghost has = { laws.AddressHasWidths };

    fn widths(&self) {
        self.address.widths();
        fits_four_bytes(self.preferred_time_sec);
        fits_four_bytes(self.valid_time_sec);
        has_if_some(&self.status);
    }
}

impl Widths for DhcpV6OptionIaPrefix {
    ghost has = { laws.PrefixHasWidths };

    fn widths(&self) {
        fits_four_bytes(self.preferred_time_sec);
        fits_four_bytes(self.valid_time_sec);
        fits_byte(self.prefix_len);
        self.prefix.widths();
        has_if_some(&self.status);
    }
}

impl Widths for DhcpV6OptionIaNa {
    ghost has = { laws.IaNaHasWidths };

    fn widths(&self) {
        fits_four_bytes(self.iaid);
        fits_four_bytes(self.t1_sec);
        fits_four_bytes(self.t2_sec);
        has_if_some(&self.address);
        has_if_some(&self.status);
    }
}

impl Widths for DhcpV6OptionIaTa {
    ghost has = { laws.IaTaHasWidths };

    fn widths(&self) {
        fits_four_bytes(self.iaid);
        has_if_some(&self.address);
        has_if_some(&self.status);
    }
}

impl Widths for DhcpV6OptionIaPd {
    ghost has = { laws.IaPdHasWidths };

    fn widths(&self) {
        fits_four_bytes(self.iaid);
        fits_four_bytes(self.t1_sec);
        fits_four_bytes(self.t2_sec);
        has_if_some(&self.prefix);
        has_if_some(&self.status);
    }
}

impl Widths for DhcpV6OptionNtpServer {
    ghost has = { laws.NtpServerHasWidths };

    #[tactic(auto, unfolding(crate::specs::Laws::NtpServerHasWidths))]
    fn widths(&self) {
        match self {
            DhcpV6OptionNtpServer::ServerAddr(address)
            | DhcpV6OptionNtpServer::MulticastAddr(address) => address.widths(),
            DhcpV6OptionNtpServer::ServerFqdn(name) => name.widths(),
            DhcpV6OptionNtpServer::Other(other) => fits_two_bytes(other.0),
        }
    }
}

impl Widths for DhcpV6Option {
    ghost has = { laws.HasWidths };

    #[tactic(auto, unfolding(crate::specs::Laws::HasWidths))]
    fn widths(&self) {
        match self {
            DhcpV6Option::ClientId(duid) | DhcpV6Option::ServerId(duid) => duid.widths(),
            DhcpV6Option::IANA(ia) => ia.widths(),
            DhcpV6Option::IATA(ia) => ia.widths(),
            DhcpV6Option::IAPD(ia) => ia.widths(),
            DhcpV6Option::OptionRequestOption(codes) => all_have(codes.as_slice()),
            DhcpV6Option::IAAddr(address) => address.widths(),
            DhcpV6Option::IAPrefix(prefix) => prefix.widths(),
            DhcpV6Option::Preference(number) => fits_byte(*number),
            DhcpV6Option::ElapsedTime(hundredths) => fits_two_bytes(*hundredths),
            DhcpV6Option::ServerUnicast(address) => address.widths(),
            DhcpV6Option::StatusCode(status) => status.widths(),
            DhcpV6Option::RapidCommit => {}
            DhcpV6Option::DnsServers(addresses) => all_have(addresses.as_slice()),
            DhcpV6Option::DomainList(names) => all_have(names.as_slice()),
            DhcpV6Option::NtpServer(servers) => all_have(servers.as_slice()),
            DhcpV6Option::Unknown(unknown) => fits_two_bytes(unknown.code),
        }
    }
}
