//! The types of messages, RFC 2132 section 9.6.

ghost use Rattle.std.specs.Prelude.{◌≡◌, Some, ok_or};
ghost use Rattle.dhcp_wire.specs.Outcome.{Answers};
ghost use Rattle.dhcp_wire.specs.declared.error.ErrorKind.TheVariants.{NotSupported};
ghost use Rattle.dhcp4_msg.specs.MessageType.{type_of, type_number, type_name};

use dhcp_wire::{DhcpError, ErrorKind, FixedText};
use std::fmt;

/// The type of a message, with its number, RFC 2131 section 3.1 and RFC 2132 section 9.6.
/// `Discovery` is the default.
#[derive(Clone, Copy, Debug, Default, PartialEq, Eq, PartialOrd, Ord, Hash)]
pub enum DhcpV4MessageType {
    /// A client looks for servers.
    #[default]
    Discovery = 1,
    /// A server offers an address.
    Offer = 2,
    /// A client asks for the address of an offer or of its lease.
    Request = 3,
    /// A client says that the address is in use.
    Decline = 4,
    /// A server grants a lease.
    Ack = 5,
    /// A server refuses a request.
    Nack = 6,
    /// A client gives its address back.
    Release = 7,
    /// A client that has an address asks for parameters.
    Inform = 8,
}

impl TryFrom<u8> for DhcpV4MessageType {
    type Error = DhcpError;

    ghost try_from_gives = { λ number outcome.
        Answers (λ kind. kind) outcome (ok_or (type_of number) NotSupported) };

    #[tactic(auto, unfolding(crate::specs::type_of, crate::specs::type_number))]
    fn try_from(d: u8) -> Result<Self, DhcpError> {
        match d {
            1 => Ok(DhcpV4MessageType::Discovery),
            2 => Ok(DhcpV4MessageType::Offer),
            3 => Ok(DhcpV4MessageType::Request),
            4 => Ok(DhcpV4MessageType::Decline),
            5 => Ok(DhcpV4MessageType::Ack),
            6 => Ok(DhcpV4MessageType::Nack),
            7 => Ok(DhcpV4MessageType::Release),
            8 => Ok(DhcpV4MessageType::Inform),
            _ => Err(DhcpError::new_fixed(ErrorKind::NotSupported, FixedText::WrongType)),
        }
    }
}

impl From<DhcpV4MessageType> for u8 {
    ghost from_gives = { λ kind number. number ≡ type_number kind };

    #[tactic(auto, unfolding(crate::specs::MessageType::type_number))]
    fn from(kind: DhcpV4MessageType) -> u8 {
        kind as u8
    }
}

impl fmt::Display for DhcpV4MessageType {
    ghost output = { λ kind. Some (type_name kind) };

    #[tactic(auto, unfolding(crate::specs::MessageType::type_name))]
    fn fmt<W: fmt::Write>(&self, f: &mut fmt::Formatter<W>) -> fmt::Result {
        f.write_str(match self {
            DhcpV4MessageType::Discovery => "DISCOVERY",
            DhcpV4MessageType::Offer => "OFFER",
            DhcpV4MessageType::Request => "REQUEST",
            DhcpV4MessageType::Decline => "DECLINE",
            DhcpV4MessageType::Ack => "ACK",
            DhcpV4MessageType::Nack => "NACK",
            DhcpV4MessageType::Release => "RELEASE",
            DhcpV4MessageType::Inform => "INFORM",
        })
    }
}
