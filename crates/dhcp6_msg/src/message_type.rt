//! The types of messages, RFC 8415 section 7.3.

ghost use Rattle.std.specs.Prelude.{◌≡◌, Some, ok_or};
ghost use Rattle.dhcp_wire.specs.Outcome.{Answers};
ghost use Rattle.dhcp_wire.specs.declared.error.ErrorKind.TheVariants.{NotSupported};
ghost use Rattle.dhcp6_msg.specs.MessageType.{type_of, type_number, type_name};

use dhcp_wire::{DhcpError, ErrorKind, FixedText};
use std::fmt;

/// The type of a message, with its number, RFC 8415 section 7.3. `Solicit` is the default.
#[derive(Clone, Copy, Debug, Default, PartialEq, Eq, PartialOrd, Ord, Hash)]
pub enum DhcpV6MessageType {
    /// A client looks for servers.
    #[default]
    Solicit = 1,
    /// A server offers itself, in answer to a Solicit.
    Advertise = 2,
    /// A client asks a server for addresses or prefixes.
    Request = 3,
    /// A client asks whether its addresses are right for the link that it is on.
    Confirm = 4,
    /// A client extends its lease with the server that gave it.
    Renew = 5,
    /// A client extends its lease with any server.
    Rebind = 6,
    /// A server answers a client.
    Reply = 7,
    /// A client gives its addresses or prefixes back.
    Release = 8,
    /// A client says that an address is in use.
    Decline = 9,
    /// A server has new parameters, and asks a client to fetch them.
    Reconfigure = 10,
    /// A client asks for parameters alone.
    InformationRequest = 11,
    /// A relay passes a message on to servers.
    RelayForward = 12,
    /// A server passes a message back through a relay.
    RelayReply = 13,
}

impl TryFrom<u8> for DhcpV6MessageType {
    type Error = DhcpError;

    ghost try_from_gives = { λ number outcome.
        Answers (λ kind. kind) outcome (ok_or (type_of number) NotSupported) };

    #[tactic(auto, unfolding(crate::specs::type_of, crate::specs::type_number))]
    fn try_from(d: u8) -> Result<Self, DhcpError> {
        match d {
            1 => Ok(DhcpV6MessageType::Solicit),
            2 => Ok(DhcpV6MessageType::Advertise),
            3 => Ok(DhcpV6MessageType::Request),
            4 => Ok(DhcpV6MessageType::Confirm),
            5 => Ok(DhcpV6MessageType::Renew),
            6 => Ok(DhcpV6MessageType::Rebind),
            7 => Ok(DhcpV6MessageType::Reply),
            8 => Ok(DhcpV6MessageType::Release),
            9 => Ok(DhcpV6MessageType::Decline),
            10 => Ok(DhcpV6MessageType::Reconfigure),
            11 => Ok(DhcpV6MessageType::InformationRequest),
            12 => Ok(DhcpV6MessageType::RelayForward),
            13 => Ok(DhcpV6MessageType::RelayReply),
            _ => Err(DhcpError::new_fixed(ErrorKind::NotSupported, FixedText::WrongType)),
        }
    }
}

impl From<DhcpV6MessageType> for u8 {
    ghost from_gives = { λ kind number. number ≡ type_number kind };

    #[tactic(auto, unfolding(crate::specs::MessageType::type_number))]
    fn from(kind: DhcpV6MessageType) -> u8 {
        kind as u8
    }
}

impl fmt::Display for DhcpV6MessageType {
    ghost output = { λ kind. Some (type_name kind) };

    #[tactic(auto, unfolding(crate::specs::MessageType::type_name))]
    fn fmt<W: fmt::Write>(&self, f: &mut fmt::Formatter<W>) -> fmt::Result {
        f.write_str(match self {
            DhcpV6MessageType::Solicit => "\"Solicit\"",
            DhcpV6MessageType::Advertise => "\"Advertise\"",
            DhcpV6MessageType::Request => "\"Request\"",
            DhcpV6MessageType::Confirm => "\"Confirm\"",
            DhcpV6MessageType::Renew => "\"Renew\"",
            DhcpV6MessageType::Rebind => "\"Rebind\"",
            DhcpV6MessageType::Reply => "\"Reply\"",
            DhcpV6MessageType::Release => "\"Release\"",
            DhcpV6MessageType::Decline => "\"Decline\"",
            DhcpV6MessageType::Reconfigure => "\"Reconfigure\"",
            DhcpV6MessageType::InformationRequest => "\"Information-request\"",
            DhcpV6MessageType::RelayForward => "\"Relay-forward\"",
            DhcpV6MessageType::RelayReply => "\"Relay-reply\"",
        })
    }
}
