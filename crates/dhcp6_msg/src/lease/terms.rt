//! What the identity associations of a message grant: RFC 8415 sections 21.4 to 21.6, 21.21 and
//! 21.22.

ghost use Rattle.std.specs.Prelude.{◌≡◌, ◌+◌, ◌/◌, option_copied};
ghost use Rattle.dhcp6_msg.specs.Lease as leases;

use crate::DhcpV6IaType;
use dhcp6_opt::{DhcpV6OptionIaNa, DhcpV6OptionIaPd, DhcpV6OptionIaTa, DhcpV6Options};
use std::net::Ipv6Addr;

// For how long a temporary address is preferred, in seconds: a day. RFC 8415 section 21.6 has the
// server's lifetimes; mozim ignores them, and so does this library.
const TEMPORARY_PREFERRED_SEC: u32 = 86400;

// For how long it is valid, in seconds: a week.
const TEMPORARY_VALID_SEC: u32 = 604800;

/// What identity associations grant; times are in seconds. Of the first readable IA_NA, IA_TA and
/// IA_PD, taken in this order wherever they stand in the message, a later one counts over those
/// before.
#[derive(Clone, Copy)]
pub struct LeaseTerms {
    /// The type of the last of the three that there is, also if it granted nothing.
    pub ia_type: Option<DhcpV6IaType>,
    /// The identifier of the last of them that granted something.
    pub iaid: u32,
    /// Its address or prefix.
    pub address: Ipv6Addr,
    /// The length of the prefix in bits, 128 for an address.
    pub prefix_len: u8,
    /// T1: when it is renewed.
    pub t1_sec: u32,
    /// T2: when it is rebound.
    pub t2_sec: u32,
    /// For how long it is preferred; a temporary address always 86,400, whatever the server gives.
    pub preferred_time_sec: u32,
    /// For how long it is valid; a temporary address always 604,800, whatever the server gives.
    pub valid_time_sec: u32,
}

impl LeaseTerms {
    // Nothing granted.
    fn none() -> Self
        ensures { result ≡ leases.no_terms }
    {
        LeaseTerms {
            ia_type: None,
            iaid: 0,
            address: Ipv6Addr::UNSPECIFIED,
            prefix_len: 128,
            t1_sec: 0,
            t2_sec: 0,
            preferred_time_sec: 0,
            valid_time_sec: 0,
        }
    }

    // These terms, of an association of this type.
    fn of_type(self, ia_type: DhcpV6IaType) -> Self
        ensures { result ≡ record self { ia_type = Some ia_type } }
    {
        LeaseTerms {
            ia_type: Some(ia_type),
            ..self
        }
    }

    // These terms, and over them those of an IA_NA, if there is one.
    #[tactic(auto, unfolding(crate::specs::Lease::with_na))]
    fn with_na(self, ia: Option<&DhcpV6OptionIaNa>) -> Self
        ensures { result ≡ leases.with_na self (option_copied ia.entry) }
    {
        let Some(ia) = ia else {
            return self;
        };
        let typed = self.of_type(DhcpV6IaType::NonTemporaryAddresses);
        match &ia.address {
            Some(address) if ia.is_success() => LeaseTerms {
                iaid: ia.iaid,
                address: address.address,
                t1_sec: renewal_time(ia.t1_sec, address.preferred_time_sec),
                t2_sec: rebinding_time(ia.t2_sec, address.preferred_time_sec),
                preferred_time_sec: address.preferred_time_sec,
                valid_time_sec: address.valid_time_sec,
                ..typed
            },
            _ => typed,
        }
    }

    // These terms, and over them the identifier and the address of an IA_TA, if there is one: its
    // lifetimes are this library's own.
    #[tactic(auto, unfolding(crate::specs::Lease::with_ta))]
    fn with_ta(self, ia: Option<&DhcpV6OptionIaTa>) -> Self
        ensures { result ≡ leases.with_ta self (option_copied ia.entry) }
    {
        let Some(ia) = ia else {
            return self;
        };
        let typed = self.of_type(DhcpV6IaType::TemporaryAddresses);
        match &ia.address {
            Some(temporary) if ia.is_success() => LeaseTerms {
                iaid: ia.iaid,
                address: temporary.address,
                preferred_time_sec: TEMPORARY_PREFERRED_SEC,
                valid_time_sec: TEMPORARY_VALID_SEC,
                ..typed
            },
            _ => typed,
        }
    }

    // These terms, and over them those of an IA_PD, if there is one.
    #[tactic(auto, unfolding(crate::specs::Lease::with_pd))]
    fn with_pd(self, ia: Option<&DhcpV6OptionIaPd>) -> Self
        ensures { result ≡ leases.with_pd self (option_copied ia.entry) }
    {
        let Some(ia) = ia else {
            return self;
        };
        let typed = self.of_type(DhcpV6IaType::PrefixDelegation);
        match &ia.prefix {
            Some(prefix) if ia.is_success() => LeaseTerms {
                iaid: ia.iaid,
                address: prefix.prefix,
                prefix_len: prefix.prefix_len,
                t1_sec: renewal_time(ia.t1_sec, prefix.preferred_time_sec),
                t2_sec: rebinding_time(ia.t2_sec, prefix.preferred_time_sec),
                preferred_time_sec: prefix.preferred_time_sec,
                valid_time_sec: prefix.valid_time_sec,
                ..typed
            },
            _ => typed,
        }
    }
}

/// The terms of a lease of these options: those of the first readable IA_NA, then those of the
/// first IA_TA, then those of the first IA_PD, each over those before.
#[tactic(auto, unfolding(crate::specs::Lease::terms_of))]
pub fn terms_of(options: &DhcpV6Options) -> LeaseTerms
    ensures { result ≡ leases.terms_of options.now }
{
    LeaseTerms::none()
        .with_na(options.ia_na())
        .with_ta(options.ia_ta())
        .with_pd(options.ia_pd())
}

// T1; if it is left to the client, half of the preferred lifetime, rounded down.
fn renewal_time(t1_sec: u32, preferred_time_sec: u32) -> u32
    ensures { result ≡ leases.renewal_time t1_sec preferred_time_sec }
{
    if t1_sec == 0 {
        preferred_time_sec / 2
    } else {
        t1_sec
    }
}

// T2; if it is left to the client, a half and a quarter of the preferred lifetime, each rounded
// down.
fn rebinding_time(t2_sec: u32, preferred_time_sec: u32) -> u32
    ensures { result ≡ leases.rebinding_time t2_sec preferred_time_sec }
{
    if t2_sec == 0 {
        preferred_time_sec / 2 + preferred_time_sec / 4
    } else {
        t2_sec
    }
}
