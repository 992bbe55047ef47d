//! What a client asks for: RFC 8415 sections 6.2, 6.3 and 6.5.

ghost use Rattle.std.specs.Prelude.{Some};
ghost use Rattle.dhcp6_msg.specs.Mode.{mode_name};

use std::fmt;

/// The type of an identity association, RFC 8415 section 4.2. `NonTemporaryAddresses` is the
/// default.
#[derive(Clone, Copy, Debug, Default, PartialEq, Eq, PartialOrd, Ord, Hash)]
pub enum DhcpV6IaType {
    /// IA_NA, RFC 8415 section 21.4.
    #[default]
    NonTemporaryAddresses,
    /// IA_TA, RFC 8415 section 21.5.
    TemporaryAddresses,
    /// IA_PD, RFC 8415 section 21.21.
    PrefixDelegation,
}

/// What a client asks for. `NonTemporaryAddresses` is the default.
#[derive(Clone, Copy, Debug, Default, PartialEq, Eq, PartialOrd, Ord, Hash)]
pub enum DhcpV6Mode {
    /// An address, by IA_NA (RFC 8415, section 6.2).
    #[default]
    NonTemporaryAddresses,
    /// A temporary address, by IA_TA (RFC 8415, section 6.5).
    TemporaryAddresses,
    /// A prefix of about this length in bits, by IA_PD (RFC 8415, section 6.3).
    PrefixDelegation(u8),
}

impl fmt::Display for DhcpV6Mode {
    ghost output = { λ mode. Some (mode_name mode) };

    #[tactic(auto, unfolding(crate::specs::Mode::mode_name))]
    fn fmt<W: fmt::Write>(&self, f: &mut fmt::Formatter<W>) -> fmt::Result {
        match self {
            DhcpV6Mode::NonTemporaryAddresses => f.write_str("Non-temporary Addresses(IA_NA)"),
            DhcpV6Mode::TemporaryAddresses => f.write_str("Temporary Addresses(IA_TA)"),
            DhcpV6Mode::PrefixDelegation(length) => {
                write!(f, "Prefix Delegation(IA_PD)-{length}")
            }
        }
    }
}
