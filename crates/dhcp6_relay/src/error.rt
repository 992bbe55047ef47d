//! Why a relay message is not read or made.

ghost use Rattle.std.specs.Prelude.{◌≡◌, Some};
ghost use Rattle.dhcp_wire.specs.Error.{no_memory};
ghost use Rattle.dhcp6_relay.specs.Error.{text_of};
ghost use Rattle.dhcp6_relay.specs.declared.error.RelayError.TheVariants.{OutOfMemory};

use dhcp_wire::DhcpError;
use std::alloc::{AllocError, AllocFailed};
use std::fmt;

/// Why a relay message is not read or made.
#[derive(Clone, Copy, Debug, PartialEq, Eq)]
pub enum RelayError {
    /// The bytes are no relay message, or no Relay-forward where one is wanted.
    NotRelay,
    /// A relay message has fewer than 34 bytes, so that its header is not whole.
    Short,
    /// A relay message has no Relay Message option.
    NoMessage,
    /// A message was relayed too often: the hop count of a Relay-forward that is to be relayed is 8
    /// or more, or one that is to be answered has more than nine layers.
    TooManyHops,
    /// The result would be longer than 65,535 bytes.
    TooLong,
    /// Out of memory.
    OutOfMemory,
}

impl fmt::Display for RelayError {
    ghost output = { λ error. Some (text_of error) };

    #[tactic(auto, unfolding(crate::specs::Error::text_of))]
    fn fmt<W: fmt::Write>(&self, f: &mut fmt::Formatter<W>) -> fmt::Result {
        f.write_str(match self {
            RelayError::NotRelay => "not a relay message",
            RelayError::Short => "unexpected end of data",
            RelayError::NoMessage => "no relayed message",
            RelayError::TooManyHops => "too many hops",
            RelayError::TooLong => "the message is too long",
            RelayError::OutOfMemory => "out of memory",
        })
    }
}

impl From<AllocError> for RelayError {
    ghost use Rattle.dhcp6_relay.specs.declared.error.RelayError.TheVariants.{OutOfMemory};

    ghost from_gives = { λ error seen. seen ≡ OutOfMemory };

    fn from(_error: AllocError) -> Self {
        RelayError::OutOfMemory
    }
}

impl<T: Drop> From<AllocFailed<T>> for RelayError {
    ghost use Rattle.dhcp6_relay.specs.declared.error.RelayError.TheVariants.{OutOfMemory};

    ghost from_gives = { λ error seen. seen ≡ OutOfMemory };

    fn from(_error: AllocFailed<T>) -> Self {
        RelayError::OutOfMemory
    }
}

// The refusal for an error that can only be out of memory.
pub(crate) fn out_of_memory(error: DhcpError) -> RelayError
    requires { error ≡ no_memory }
    ensures { result ≡ OutOfMemory }
{
    drop(error);
    RelayError::OutOfMemory
}
