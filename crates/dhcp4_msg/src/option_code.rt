//! The codes of options, RFC 2132.

ghost use Rattle.std.specs.Prelude.{◌≡◌, ◌==◌};
ghost use Rattle.std.proofs.Common.{rules};
ghost use Rattle.std.specs.Ordering.{nat_cmp, on, as_partial_cmp};
ghost use Rattle.std.specs.Cmp.{partial_order_from_own_ties};
ghost use Rattle.std.specs.Cmp.Rules.{comparing, hashing};
ghost use Rattle.std.specs.Hash as fed;
ghost use Rattle.dhcp4_msg.specs.OptionCode.{code_of, number_of};

use dhcp_wire::OptionCode;
use std::cmp::Ordering;
use std::hash::{Hash, Hasher};

/// The code of an option: a name where this library reads the option's value, else its number.
/// Codes are compared, ordered and hashed by their numbers.
#[derive(Clone, Copy, Debug)]
pub enum DhcpV4OptionCode {
    /// 0: RFC 2132 section 3.1.
    Pad,
    /// 1: RFC 2132 section 3.3.
    SubnetMask,
    /// 3: RFC 2132 section 3.5.
    Router,
    /// 6: RFC 2132 section 3.8.
    DomainNameServer,
    /// 12: RFC 2132 section 3.14.
    HostName,
    /// 15: RFC 2132 section 3.17.
    DomainName,
    /// 26: RFC 2132 section 5.1.
    InterfaceMtu,
    /// 28: RFC 2132 section 5.3.
    BroadcastAddress,
    /// 42: RFC 2132 section 8.3.
    NtpServers,
    /// 50: RFC 2132 section 9.1.
    RequestedIpAddress,
    /// 51: RFC 2132 section 9.2.
    IpAddressLeaseTime,
    /// 53: RFC 2132 section 9.6.
    MessageType,
    /// 54: RFC 2132 section 9.7.
    ServerIdentifier,
    /// 55: RFC 2132 section 9.8.
    ParameterRequestList,
    /// 56: RFC 2132 section 9.9.
    Message,
    /// 58: RFC 2132 section 9.11.
    RenewalTime,
    /// 59: RFC 2132 section 9.12.
    RebindingTime,
    /// 61: RFC 2132 section 9.14.
    ClientIdentifier,
    /// 121: RFC 3442.
    ClasslessStaticRoute,
    /// 255: RFC 2132 section 3.2.
    End,
    /// A number without a name, or any number: it is equal to the name that has it.
    Other(u8),
}

impl From<u8> for DhcpV4OptionCode {
    ghost from_gives = { λ number code. code ≡ code_of number };

    #[inline(always)]
    #[tactic(auto, unfolding(crate::specs::code_of, crate::specs::number_of))]
    fn from(d: u8) -> Self {
        match d {
            0 => DhcpV4OptionCode::Pad,
            1 => DhcpV4OptionCode::SubnetMask,
            3 => DhcpV4OptionCode::Router,
            6 => DhcpV4OptionCode::DomainNameServer,
            12 => DhcpV4OptionCode::HostName,
            15 => DhcpV4OptionCode::DomainName,
            26 => DhcpV4OptionCode::InterfaceMtu,
            28 => DhcpV4OptionCode::BroadcastAddress,
            42 => DhcpV4OptionCode::NtpServers,
            50 => DhcpV4OptionCode::RequestedIpAddress,
            51 => DhcpV4OptionCode::IpAddressLeaseTime,
            53 => DhcpV4OptionCode::MessageType,
            54 => DhcpV4OptionCode::ServerIdentifier,
            55 => DhcpV4OptionCode::ParameterRequestList,
            56 => DhcpV4OptionCode::Message,
            58 => DhcpV4OptionCode::RenewalTime,
            59 => DhcpV4OptionCode::RebindingTime,
            61 => DhcpV4OptionCode::ClientIdentifier,
            121 => DhcpV4OptionCode::ClasslessStaticRoute,
            255 => DhcpV4OptionCode::End,
            _ => DhcpV4OptionCode::Other(d),
        }
    }
}

impl From<DhcpV4OptionCode> for u8 {
    ghost from_gives = { λ code number. number ≡ number_of code };

    #[inline(always)]
    #[tactic(auto, unfolding(crate::specs::OptionCode::number_of))]
    fn from(code: DhcpV4OptionCode) -> u8 {
        match code {
            DhcpV4OptionCode::Pad => 0,
            DhcpV4OptionCode::SubnetMask => 1,
            DhcpV4OptionCode::Router => 3,
            DhcpV4OptionCode::DomainNameServer => 6,
            DhcpV4OptionCode::HostName => 12,
            DhcpV4OptionCode::DomainName => 15,
            DhcpV4OptionCode::InterfaceMtu => 26,
            DhcpV4OptionCode::BroadcastAddress => 28,
            DhcpV4OptionCode::NtpServers => 42,
            DhcpV4OptionCode::RequestedIpAddress => 50,
            DhcpV4OptionCode::IpAddressLeaseTime => 51,
            DhcpV4OptionCode::MessageType => 53,
            DhcpV4OptionCode::ServerIdentifier => 54,
            DhcpV4OptionCode::ParameterRequestList => 55,
            DhcpV4OptionCode::Message => 56,
            DhcpV4OptionCode::RenewalTime => 58,
            DhcpV4OptionCode::RebindingTime => 59,
            DhcpV4OptionCode::ClientIdentifier => 61,
            DhcpV4OptionCode::ClasslessStaticRoute => 121,
            DhcpV4OptionCode::End => 255,
            DhcpV4OptionCode::Other(number) => number,
        }
    }
}

impl OptionCode for DhcpV4OptionCode {
    type Number = u8;

    ghost code_of = { code_of };

    ghost number_of = { number_of };

    fn from_number(number: u8) -> Self {
        DhcpV4OptionCode::from(number)
    }

    fn number(self) -> u8 {
        u8::from(self)
    }
}

// Codes are compared, ordered and hashed by their numbers.

impl PartialEq for DhcpV4OptionCode {
    ghost eq = { on number_of ◌==◌ };

    ghost laws = { Prim.search (comparing, rules) };

    fn eq(&self, other: &Self) -> bool {
        u8::from(*self) == u8::from(*other)
    }
}

impl Eq for DhcpV4OptionCode {
    ghost laws = { Prim.search (comparing, rules) };
}

impl PartialOrd for DhcpV4OptionCode {
    ghost partial_cmp = { as_partial_cmp (on number_of nat_cmp) };

    ghost laws = { partial_order_from_own_ties
        (Prim.search (comparing, rules)) (Prim.search (comparing, rules)) };

    fn partial_cmp(&self, other: &Self) -> Option<Ordering> {
        Some(self.cmp(other))
    }
}

impl Ord for DhcpV4OptionCode {
    ghost cmp = { on number_of nat_cmp };

    ghost total = { Prim.search (comparing, rules) };

    ghost matches_partial_cmp = { Prim.search (comparing, rules) };

    ghost matches_eq = { Prim.search (comparing, rules) };

    fn cmp(&self, other: &Self) -> Ordering {
        u8::from(*self).cmp(&u8::from(*other))
    }
}

impl Hash for DhcpV4OptionCode {
    ghost hash_input = { λ code. fed.u8 (number_of code) };

    ghost respects_eq = { Prim.search (hashing, rules) };

    fn hash<H: Hasher>(&self, state: &mut H) {
        u8::from(*self).hash(state);
    }
}
