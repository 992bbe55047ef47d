//! DHCPv6 messages between a client and a server, RFC 8415 section 8.

ghost use Rattle.std.specs.Prelude.{◌≡◌, ◌≤◌, ◌⊎◌, [], ◌∷◌, length, IfErr, IfOk, OnOk, Some};
ghost use Rattle.dhcp_wire.specs.Error.{no_memory};
ghost use Rattle.dhcp_wire.specs.Outcome.{Gives, Makes};
ghost use Rattle.dhcp6_opt.specs.Duid.{written_duid};
ghost use Rattle.dhcp6_opt.specs.declared.option.DhcpV6Option.TheVariants.{ClientId, ElapsedTime};
ghost use Rattle.dhcp6_msg.specs.MessageTable.{lease_options, server_option};
ghost use Rattle.dhcp6_msg.specs.Message.{
  client_options,
  elapsed_hundredths,
  id_bytes,
  id_number,
  message_with,
  parsed_message,
  with_more,
  written_message,
};

use crate::message_table::{add_association, add_server, lease_association};
use crate::{DhcpV6Lease, DhcpV6MessageType, DhcpV6View};
use dhcp_wire::{BufferMut, Bytes, DhcpError, TryClone};
use dhcp6_opt::{DhcpV6Duid, DhcpV6Option, DhcpV6Options};
use std::alloc::Global;

// How many options a message of a client usually has at most: room for these is made at once.
const USUAL_OPTIONS: usize = 6;

// How many bytes a usual message has at most: room for these is made before it is written.
const USUAL_LEN: usize = 256;

/// A message between a client and a server, RFC 8415 section 8.
#[derive(Debug, PartialEq, Eq, Drop)]
pub struct DhcpV6Message {
    /// Its type.
    pub msg_type: DhcpV6MessageType,
    /// The transaction id, which a client chooses: a number of three bytes, the most significant
    /// first.
    pub xid: [u8; 3],
    /// Its options.
    pub options: DhcpV6Options,
}

impl DhcpV6Message {
    /// A message of a client: with the lower 24 bits of this transaction id, the client's
    /// identifier, which has at most 65,535 bytes, and the time since when it tries, in
    /// milliseconds. It is sent in hundredths of a second, and as 65,535 if it is longer (RFC 8415,
    /// section 21.9). Out of memory is the only error.
    pub fn new(
        alloc: Global,
        msg_type: DhcpV6MessageType,
        xid: u32,
        duid: &DhcpV6Duid,
        elapsed_ms: u64,
    ) -> Result<Self, DhcpError>
        requires { length (written_duid duid.now) ≤ 65535 }
        ensures { Makes (λ message. message) result
            (message_with msg_type xid (client_options duid.now elapsed_ms)) }
    {
        let mut message = DhcpV6Message::of_client(alloc, msg_type, xid, duid)?;
        message.add_elapsed_time(elapsed_ms)?;
        Ok(message)
    }

    // A message of a client with its identifier alone, and with room for a usual message's options.
    pub(crate) fn of_client(
        alloc: Global,
        msg_type: DhcpV6MessageType,
        xid: u32,
        duid: &DhcpV6Duid,
    ) -> Result<Self, DhcpError>
        requires { length (written_duid duid.now) ≤ 65535 }
        ensures { Makes (λ message. message) result
            (message_with msg_type xid (ClientId duid.now ∷ [])) }
    {
        let mut options = DhcpV6Options::with_capacity(alloc, USUAL_OPTIONS)?;
        options.insert(DhcpV6Option::ClientId(duid.try_clone(alloc)?))?;
        Ok(DhcpV6Message {
            msg_type,
            xid: id_of_number(xid),
            options,
        })
    }

    // Adds the time since when a client tries, in milliseconds.
    pub(crate) fn add_elapsed_time(&mut self, elapsed_ms: u64) -> Result<(), DhcpError>
        ensures ok { OnOk result (self.new
            ≡ with_more self.old (ElapsedTime (elapsed_hundredths elapsed_ms) ∷ [])) }
        ensures err { IfErr result (λ e. e ≡ no_memory) }
    {
        self.options
            .insert(DhcpV6Option::ElapsedTime(hundredths(elapsed_ms)))
    }

    /// Its transaction id as a number.
    pub fn xid(&self) -> u32
        ensures { result ≡ id_number self.now.xid }
    {
        number_of_id(self.xid)
    }

    /// Takes over from a lease its server's identifier, which has at most 65,535 bytes, and its
    /// identity association if the type of that is known. Out of memory is the only error: the
    /// options are then as they were, or the server's identifier alone has been added.
    pub fn load_lease(&mut self, alloc: Global, lease: &DhcpV6Lease) -> Result<(), DhcpError>
        requires { length (written_duid lease.now.srv_duid) ≤ 65535 }
        ensures ok { IfOk result (λ _. self.new ≡ with_more self.old (lease_options lease.now)) }
        ensures err { IfErr result (λ e. (e ≡ no_memory) × ((self.new ≡ self.old)
            ⊎ (self.new ≡ with_more self.old (server_option (Some lease.now.srv_duid))))) }
    {
        add_server(&mut self.options, alloc, Some(&lease.srv_duid))?;
        add_association(&mut self.options, lease_association(lease))
    }

    /// Reads a message. In this order: `InvalidDhcpMessage` if there is no byte, `NotSupported` if
    /// its type is not 1 to 13, `InvalidDhcpMessage` if it has fewer than 4 bytes. Else out of
    /// memory is the only error.
    pub fn parse(alloc: Global, payload: &[u8]) -> Result<Self, DhcpError>
        ensures { Gives (λ message. message) result (parsed_message payload.now) }
    {
        DhcpV6View::read(payload)?.to_message(alloc)
    }

    /// The bytes of the message: its type, its transaction id, and its options by rising code. Out
    /// of memory is the only error.
    #[tactic(auto, unfolding(crate::specs::Message::written_message))]
    pub fn emit(&self, alloc: Global) -> Result<Bytes, DhcpError>
        ensures { Makes (λ bytes. bytes) result (written_message self.now) }
    {
        let mut buf = BufferMut::with_capacity(alloc, USUAL_LEN)?;
        buf.write_u8(u8::from(self.msg_type))?;
        buf.write_bytes(&self.xid)?;
        self.options.emit(&mut buf)?;
        Ok(buf.into_bytes())
    }

    /// A copy. Out of memory is the only error.
    pub fn try_clone(&self, alloc: Global) -> Result<Self, DhcpError>
        ensures { Makes (λ message. message) result self.now }
    {
        Ok(DhcpV6Message {
            msg_type: self.msg_type,
            xid: self.xid,
            options: self.options.try_clone(alloc)?,
        })
    }
}

impl TryClone for DhcpV6Message {
    fn try_clone(&self, alloc: Global) -> Result<Self, DhcpError> {
        DhcpV6Message::try_clone(self, alloc)
    }
}

// A time in milliseconds as option 8 has it.
fn hundredths(elapsed_ms: u64) -> u16
    ensures { result ≡ elapsed_hundredths elapsed_ms }
{
    (elapsed_ms / 10).min(65535) as u16
}

// The number of a transaction id.
#[tactic(auto, unfolding(crate::specs::Message::id_number))]
pub(crate) fn number_of_id(xid: [u8; 3]) -> u32
    ensures { result ≡ id_number xid }
{
    let [high, middle, low] = xid;
    u32::from_be_bytes([0, high, middle, low])
}

// The lower 24 bits of a number.
#[tactic(auto, unfolding(crate::specs::Message::id_bytes))]
pub(crate) fn id_of_number(number: u32) -> [u8; 3]
    ensures { result ≡ id_bytes number }
{
    let [_, high, middle, low] = number.to_be_bytes();
    [high, middle, low]
}
