//! Identifiers that are universally unique, RFC 8415 section 11.5.

ghost use Rattle.std.specs.Prelude.{◌≡◌};

use std::marker::Model;

/// A universally unique identifier, RFC 8415 section 11.5 and RFC 4122. Contracts see its number.
#[derive(Clone, Copy, Debug, PartialEq, Eq, PartialOrd, Ord)]
pub struct DhcpV6DuidUuid {
    uuid: u128,
}

impl Model for DhcpV6DuidUuid {
    ghost use Rattle.std.specs.Prelude.{ℕ};

    ghost Value = { ℕ };

    ghost view = { λ duid. duid.uuid };

    ghost inverse = { λ uuid. record { uuid = uuid } };
}

impl DhcpV6DuidUuid {
    /// The identifier of this number. Does not allocate.
    pub fn new(uuid: u128) -> Self
        ensures { result ≡ uuid }
    {
        DhcpV6DuidUuid { uuid }
    }

    // Its number.
    pub(crate) fn number(&self) -> u128
        ensures { result ≡ self.now }
    {
        self.uuid
    }
}
