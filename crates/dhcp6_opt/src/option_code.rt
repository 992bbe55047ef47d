//! The codes of options, RFC 8415 section 21, RFC 3646 and RFC 5908.

ghost use Rattle.std.specs.Prelude.{◌≡◌, ◌==◌, Some};
ghost use Rattle.std.proofs.Common.{rules};
ghost use Rattle.std.specs.Ordering.{nat_cmp, on, as_partial_cmp};
ghost use Rattle.std.specs.Cmp.{partial_order_from_own_ties};
ghost use Rattle.std.specs.Cmp.Rules.{comparing, hashing};
ghost use Rattle.std.specs.Hash as fed;
ghost use Rattle.dhcp6_opt.specs.OptionCode.{code_of, code_name, number_of};

use dhcp_wire::OptionCode;
use std::cmp::Ordering;
use std::fmt;
use std::hash::{Hash, Hasher};

/// The code of an option: a name where this library reads the option's value, else its number.
/// Codes are compared, ordered and hashed by their numbers. `ClientId` is the default.
#[derive(Clone, Copy, Debug, Default)]
pub enum DhcpV6OptionCode {
    /// 1: RFC 8415 section 21.2.
    #[default]
    ClientId,
    /// 2: RFC 8415 section 21.3.
    ServerId,
    /// 3: RFC 8415 section 21.4.
    IANA,
    /// 4: RFC 8415 section 21.5.
    IATA,
    /// 5: RFC 8415 section 21.6.
    IAAddr,
    /// 6: RFC 8415 section 21.7.
    OptionRequestOption,
    /// 7: RFC 8415 section 21.8.
    Preference,
    /// 8: RFC 8415 section 21.9.
    ElapsedTime,
    /// 12: RFC 8415 section 21.12.
    ServerUnicast,
    /// 13: RFC 8415 section 21.13.
    StatusCode,
    /// 14: RFC 8415 section 21.14.
    RapidCommit,
    /// 23: RFC 3646 section 3.
    DnsServers,
    /// 24: RFC 3646 section 4.
    DomainList,
    /// 25: RFC 8415 section 21.21.
    IAPD,
    /// 26: RFC 8415 section 21.22.
    IAPrefix,
    /// 56: RFC 5908 section 4.
    NtpServer,
    /// A number without a name, or any number: it is equal to the name that has it.
    Other(u16),
}

impl From<u16> for DhcpV6OptionCode {
    ghost from_gives = { λ number code. code ≡ code_of number };

    #[inline(always)]
    #[tactic(auto, unfolding(crate::specs::code_of, crate::specs::number_of))]
    fn from(d: u16) -> Self {
        match d {
            1 => DhcpV6OptionCode::ClientId,
            2 => DhcpV6OptionCode::ServerId,
            3 => DhcpV6OptionCode::IANA,
            4 => DhcpV6OptionCode::IATA,
            5 => DhcpV6OptionCode::IAAddr,
            6 => DhcpV6OptionCode::OptionRequestOption,
            7 => DhcpV6OptionCode::Preference,
            8 => DhcpV6OptionCode::ElapsedTime,
            12 => DhcpV6OptionCode::ServerUnicast,
            13 => DhcpV6OptionCode::StatusCode,
            14 => DhcpV6OptionCode::RapidCommit,
            23 => DhcpV6OptionCode::DnsServers,
            24 => DhcpV6OptionCode::DomainList,
            25 => DhcpV6OptionCode::IAPD,
            26 => DhcpV6OptionCode::IAPrefix,
            56 => DhcpV6OptionCode::NtpServer,
            _ => DhcpV6OptionCode::Other(d),
        }
    }
}

impl From<DhcpV6OptionCode> for u16 {
    ghost from_gives = { λ code number. number ≡ number_of code };

    #[inline(always)]
    #[tactic(auto, unfolding(crate::specs::OptionCode::number_of))]
    fn from(code: DhcpV6OptionCode) -> u16 {
        match code {
            DhcpV6OptionCode::ClientId => 1,
            DhcpV6OptionCode::ServerId => 2,
            DhcpV6OptionCode::IANA => 3,
            DhcpV6OptionCode::IATA => 4,
            DhcpV6OptionCode::IAAddr => 5,
            DhcpV6OptionCode::OptionRequestOption => 6,
            DhcpV6OptionCode::Preference => 7,
            DhcpV6OptionCode::ElapsedTime => 8,
            DhcpV6OptionCode::ServerUnicast => 12,
            DhcpV6OptionCode::StatusCode => 13,
            DhcpV6OptionCode::RapidCommit => 14,
            DhcpV6OptionCode::DnsServers => 23,
            DhcpV6OptionCode::DomainList => 24,
            DhcpV6OptionCode::IAPD => 25,
            DhcpV6OptionCode::IAPrefix => 26,
            DhcpV6OptionCode::NtpServer => 56,
            DhcpV6OptionCode::Other(number) => number,
        }
    }
}

impl fmt::Display for DhcpV6OptionCode {
    ghost output = { λ code. Some (code_name code) };

    #[tactic(auto, unfolding(crate::specs::OptionCode::code_name))]
    fn fmt<W: fmt::Write>(&self, f: &mut fmt::Formatter<W>) -> fmt::Result {
        f.write_str(match self {
            DhcpV6OptionCode::ClientId => "OPTION_CLIENTID",
            DhcpV6OptionCode::ServerId => "OPTION_SERVERID",
            DhcpV6OptionCode::IANA => "OPTION_IA_NA",
            DhcpV6OptionCode::IATA => "OPTION_IA_TA",
            DhcpV6OptionCode::IAAddr => "OPTION_IAADDR",
            DhcpV6OptionCode::OptionRequestOption => "OPTION_ORO",
            DhcpV6OptionCode::Preference => "OPTION_PREFERENCE",
            DhcpV6OptionCode::ElapsedTime => "OPTION_ELAPSED_TIME",
            DhcpV6OptionCode::ServerUnicast => "OPTION_UNICAST",
            DhcpV6OptionCode::StatusCode => "OPTION_STATUS_CODE",
            DhcpV6OptionCode::RapidCommit => "OPTION_RAPID_COMMIT",
            DhcpV6OptionCode::DnsServers => "OPTION_DNS_SERVERS",
            DhcpV6OptionCode::DomainList => "OPTION_DOMAIN_LIST",
            DhcpV6OptionCode::IAPD => "OPTION_IA_PD",
            DhcpV6OptionCode::IAPrefix => "OPTION_IAPREFIX",
            DhcpV6OptionCode::NtpServer => "OPTION_NTP_SERVER",
            DhcpV6OptionCode::Other(number) => return write!(f, "Unknown({number})"),
        })
    }
}

impl OptionCode for DhcpV6OptionCode {
    type Number = u16;

    ghost code_of = { code_of };

    ghost number_of = { number_of };

    fn from_number(number: u16) -> Self {
        DhcpV6OptionCode::from(number)
    }

    fn number(self) -> u16 {
        u16::from(self)
    }
}

// Codes are compared, ordered and hashed by their numbers.

impl PartialEq for DhcpV6OptionCode {
    ghost eq = { on number_of ◌==◌ };

    ghost laws = { Prim.search (comparing, rules) };

    fn eq(&self, other: &Self) -> bool {
        u16::from(*self) == u16::from(*other)
    }
}

impl Eq for DhcpV6OptionCode {
    ghost laws = { Prim.search (comparing, rules) };
}

impl PartialOrd for DhcpV6OptionCode {
    ghost partial_cmp = { as_partial_cmp (on number_of nat_cmp) };

    ghost laws = { partial_order_from_own_ties
        (Prim.search (comparing, rules)) (Prim.search (comparing, rules)) };

    fn partial_cmp(&self, other: &Self) -> Option<Ordering> {
        Some(self.cmp(other))
    }
}

impl Ord for DhcpV6OptionCode {
    ghost cmp = { on number_of nat_cmp };

    ghost total = { Prim.search (comparing, rules) };

    ghost matches_partial_cmp = { Prim.search (comparing, rules) };

    ghost matches_eq = { Prim.search (comparing, rules) };

    fn cmp(&self, other: &Self) -> Ordering {
        u16::from(*self).cmp(&u16::from(*other))
    }
}

impl Hash for DhcpV6OptionCode {
    ghost hash_input = { λ code. fed.u16 (number_of code) };

    ghost respects_eq = { Prim.search (hashing, rules) };

    fn hash<H: Hasher>(&self, state: &mut H) {
        u16::from(*self).hash(state);
    }
}
