//! The order of options: by code number, then by variant and fields.

ghost use Rattle.std.specs.Prelude.{◌≡◌};
ghost use Rattle.std.proofs.Common.{refl};
ghost use Rattle.std.specs.Cmp.{nat_cmp_total, on_total, partial_order_from_agreeing_total, then_total};
ghost use Rattle.std.specs.Ordering.{as_partial_cmp, nat_cmp, on, then_cmp};
ghost use Rattle.dhcp6_opt.specs.contracts.option.order.FieldsOrd.TheImpl.{ghosts};
ghost use Rattle.dhcp6_opt.specs.contracts.option.order.FieldsOrd.TheImpl.Laws as fields;
ghost use Rattle.dhcp6_opt.specs.OptionOrder.{fields_of, same_ties};
ghost use Rattle.dhcp6_opt.specs.Value.{option_number};

use super::{DhcpV6Option, DhcpV6OptionUnknown};
use crate::{
    DhcpV6Duid, DhcpV6OptionCode, DhcpV6OptionIaAddr, DhcpV6OptionIaNa, DhcpV6OptionIaPd,
    DhcpV6OptionIaPrefix, DhcpV6OptionIaTa, DhcpV6OptionNtpServer, DhcpV6OptionStatus,
};
use dhcp_wire::{Sequence, Text};
use std::cmp::Ordering;
use std::net::Ipv6Addr;

// The variant and the fields of an option. They are ordered by variant, as it stands here, and then
// by the fields.
#[derive(Clone, Copy, PartialEq, Eq, PartialOrd, Ord)]
pub(crate) enum Fields<'a> {
    ClientId(&'a DhcpV6Duid),
    ServerId(&'a DhcpV6Duid),
    IANA(&'a DhcpV6OptionIaNa),
    IATA(&'a DhcpV6OptionIaTa),
    IAPD(&'a DhcpV6OptionIaPd),
    OptionRequestOption(&'a Sequence<DhcpV6OptionCode>),
    IAAddr(&'a DhcpV6OptionIaAddr),
    IAPrefix(&'a DhcpV6OptionIaPrefix),
    Preference(u8),
    ElapsedTime(u16),
    ServerUnicast(Ipv6Addr),
    StatusCode(&'a DhcpV6OptionStatus),
    RapidCommit,
    DnsServers(&'a Sequence<Ipv6Addr>),
    DomainList(&'a Sequence<Text>),
    NtpServer(&'a Sequence<DhcpV6OptionNtpServer>),
    Unknown(&'a DhcpV6OptionUnknown),
}

impl DhcpV6Option {
    // Its variant and its fields.
    #[tactic(auto, unfolding(crate::specs::OptionOrder::fields_of))]
    fn fields(&self) -> Fields
        ensures before { (other : Fields)
            → ghosts.cmp result other ≡ ghosts.cmp (fields_of self.now) other }
        ensures after { (other : Fields)
            → ghosts.cmp other result ≡ ghosts.cmp other (fields_of self.now) }
    {
        match self {
            DhcpV6Option::ClientId(duid) => Fields::ClientId(duid),
            DhcpV6Option::ServerId(duid) => Fields::ServerId(duid),
            DhcpV6Option::IANA(ia) => Fields::IANA(ia),
            DhcpV6Option::IATA(ia) => Fields::IATA(ia),
            DhcpV6Option::IAPD(ia) => Fields::IAPD(ia),
            DhcpV6Option::OptionRequestOption(codes) => Fields::OptionRequestOption(codes),
            DhcpV6Option::IAAddr(address) => Fields::IAAddr(address),
            DhcpV6Option::IAPrefix(prefix) => Fields::IAPrefix(prefix),
            DhcpV6Option::Preference(value) => Fields::Preference(*value),
            DhcpV6Option::ElapsedTime(value) => Fields::ElapsedTime(*value),
            DhcpV6Option::ServerUnicast(address) => Fields::ServerUnicast(*address),
            DhcpV6Option::StatusCode(status) => Fields::StatusCode(status),
            DhcpV6Option::RapidCommit => Fields::RapidCommit,
            DhcpV6Option::DnsServers(addresses) => Fields::DnsServers(addresses),
            DhcpV6Option::DomainList(names) => Fields::DomainList(names),
            DhcpV6Option::NtpServer(servers) => Fields::NtpServer(servers),
            DhcpV6Option::Unknown(unknown) => Fields::Unknown(unknown),
        }
    }
}

impl PartialOrd for DhcpV6Option {
    ghost partial_cmp = { as_partial_cmp (then_cmp (on option_number nat_cmp)
        (on fields_of ghosts.cmp)) };

    ghost laws = { partial_order_from_agreeing_total
        (then_cmp (on option_number nat_cmp) (on fields_of ghosts.cmp))
        (then_total (on_total option_number nat_cmp_total) (on_total fields_of fields.total-law))
        (λ x y. refl) same_ties };

    fn partial_cmp(&self, other: &Self) -> Option<Ordering> {
        Some(self.cmp(other))
    }
}

impl Ord for DhcpV6Option {
    ghost cmp = { then_cmp (on option_number nat_cmp) (on fields_of ghosts.cmp) };

    ghost total = { then_total (on_total option_number nat_cmp_total)
        (on_total fields_of fields.total-law) };

    ghost matches_partial_cmp = { λ x y. refl };

    ghost matches_eq = { same_ties };

    fn cmp(&self, other: &Self) -> Ordering {
        match self.code().cmp(&other.code()) {
            Ordering::Equal => self.fields().cmp(&other.fields()),
            unequal => unequal,
        }
    }
}
