//! A DHCPv6 message in the bytes that it was received in, RFC 8415 section 8.

ghost use Rattle.std.specs.Prelude.{◌≡◌};
ghost use Rattle.dhcp_wire.specs.Field.{bytes_at};
ghost use Rattle.dhcp_wire.specs.Outcome.{Answers, Finds, Makes, Reads};
ghost use Rattle.dhcp6_msg.specs.Message.{id_number, parsed_message, read_message};

use crate::message::number_of_id;
use crate::{DhcpV6Message, DhcpV6MessageType};
use dhcp_wire::{Buffer, DhcpError};
use dhcp6_opt::DhcpV6Options;
use std::alloc::Global;
use std::marker::Model;

/// A message in the bytes that it was received in: it can be tested before anything is copied.
/// Contracts see it as the message that the bytes read as.
#[derive(Debug, Drop)]
pub struct DhcpV6View<'a> {
    msg_type: DhcpV6MessageType,
    xid: [u8; 3],
    options: &'a [u8],
}

impl<'a> Model for DhcpV6View<'a> {
    ghost use Rattle.dhcp6_msg.specs.declared.message.DhcpV6Message.{DhcpV6Message};
    ghost use Rattle.dhcp6_msg.specs.contracts.message.DhcpV6Message as message;

    ghost Value = { DhcpV6Message };

    ghost coded = { message.the_row.coded };

    ghost use Rattle.dhcp6_msg.specs.View.{message_of};

    ghost view = { message_of };
}

impl<'a> DhcpV6View<'a> {
    /// The message that the payload reads as: none if and only if it has fewer than 4 bytes, or its
    /// type is not 1 to 13. Does not allocate.
    pub fn new(payload: &'a [u8]) -> Option<Self>
        ensures { Finds (λ view. view) result (read_message payload.now) }
    {
        Self::read(payload).ok()
    }

    // The same, with the error of the field that does not read.
    #[tactic(auto, unfolding(crate::specs::read_message, crate::specs::refusal_of))]
    pub(crate) fn read(payload: &'a [u8]) -> Result<Self, DhcpError>
        ensures { Answers (λ view. view) result (parsed_message payload.now) }
    {
        let mut buf = Buffer::new(payload);
        let number = buf.get_u8()?;
        let msg_type = DhcpV6MessageType::try_from(number)?;
        let xid = transaction_id(&mut buf)?;
        Ok(DhcpV6View {
            msg_type,
            xid,
            options: buf.get_remains(),
        })
    }

    /// Its transaction id.
    pub fn xid(&self) -> u32
        ensures { result ≡ id_number self.now.xid }
    {
        number_of_id(self.xid)
    }

    /// Its type.
    pub fn msg_type(&self) -> DhcpV6MessageType
        ensures { result ≡ self.now.msg_type }
    {
        self.msg_type
    }

    /// A copy of the message, as `DhcpV6Message::parse` of the payload gives it; out of memory is
    /// the only error.
    pub fn to_message(&self, alloc: Global) -> Result<DhcpV6Message, DhcpError>
        ensures { Makes (λ message. message) result self.now }
    {
        Ok(DhcpV6Message {
            msg_type: self.msg_type,
            xid: self.xid,
            options: DhcpV6Options::parse(alloc, self.options)?,
        })
    }
}

// The three bytes of a transaction id.
fn transaction_id(buf: &mut Buffer) -> Result<[u8; 3], DhcpError>
    ensures { Reads (λ xid. xid) result buf.old buf.new (bytes_at 3 buf.old) }
{
    let bytes = buf.get_bytes(3)?;
    let mut xid = [0; 3];
    xid.copy_from_slice(bytes);
    Ok(xid)
}
