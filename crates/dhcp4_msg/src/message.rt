//! DHCPv4 messages, RFC 2131 section 2.

ghost use Rattle.std.specs.Prelude.{◌≡◌, ◌↔◌, None, ok_or};
ghost use Rattle.std.specs.FinMap as map;
ghost use Rattle.dhcp_wire.specs.Outcome.{Emits, Gives, Makes};
ghost use Rattle.dhcp4_msg.specs.Options as options;
ghost use Rattle.dhcp4_msg.specs.Message.{
  empty_message,
  read_message,
  written_message,
  written_numbers,
  written_address_fields,
  written_texts,
};

use crate::value::emit_addresses;
use crate::{DhcpV4MessageType, DhcpV4OptionCode, DhcpV4Options, DhcpV4View};
use dhcp_wire::{BufferMut, Bytes, DhcpError, ErrorKind, Text};
use std::alloc::Global;
use std::net::Ipv4Addr;

// What stands between the header and the options, RFC 2131 section 3.
pub(crate) const MAGIC_COOKIE: u32 = 0x63825363;

// How many bytes stand before the options: the header and the cookie.
const HEADER_LEN: usize = 240;

/// A message, RFC 2131 section 2.
#[derive(Debug, PartialEq, Eq, Drop)]
pub struct DhcpV4Message {
    /// 1 for a message of a client, 2 for one of a server.
    pub op: u8,
    /// The type of the hardware address: 1 for Ethernet.
    pub htype: u8,
    /// The length of the hardware address, in bytes: 6 for Ethernet.
    pub hlen: u8,
    /// How many relays passed it on.
    pub hops: u8,
    /// The transaction id, which a client chooses.
    pub xid: u32,
    /// Seconds since the client began.
    pub secs: u16,
    /// The highest bit asks for an answer by broadcast; the others are zero.
    pub flags: u16,
    /// The client's address, where it has one.
    pub ciaddr: Ipv4Addr,
    /// The address that the server gives.
    pub yiaddr: Ipv4Addr,
    /// The address of the next server to use.
    pub siaddr: Ipv4Addr,
    /// The address of the relay, where there is one.
    pub giaddr: Ipv4Addr,
    /// The hardware address of the client, filled with zero bytes.
    pub chaddr: [u8; 16],
    /// The server's host name; at most 63 bytes are written.
    pub sname: Text,
    /// The name of a boot file; at most 127 bytes are written.
    pub file: Text,
    /// Its options.
    pub options: DhcpV4Options,
}

impl DhcpV4Message {
    /// A message of a client over Ethernet, with every other field zero or empty. Does not
    /// allocate.
    #[tactic(auto, unfolding(crate::specs::Message::empty_message))]
    pub fn empty(alloc: Global) -> Self
        ensures { result ≡ empty_message }
    {
        DhcpV4Message {
            op: 1,
            htype: 1,
            hlen: 6,
            hops: 0,
            xid: 0,
            secs: 0,
            flags: 0,
            ciaddr: Ipv4Addr::UNSPECIFIED,
            yiaddr: Ipv4Addr::UNSPECIFIED,
            siaddr: Ipv4Addr::UNSPECIFIED,
            giaddr: Ipv4Addr::UNSPECIFIED,
            chaddr: [0; 16],
            sname: Text::new(alloc),
            file: Text::new(alloc),
            options: DhcpV4Options::new(alloc),
        }
    }

    /// The type that option 53 says, RFC 2132 section 9.6: none if and only if there is no option
    /// 53.
    #[tactic(auto, unfolding(crate::specs::message_type, crate::specs::number_of))]
    pub fn message_type(&self) -> Option<DhcpV4MessageType>
        ensures value { result ≡ options.message_type self.now.options }
        ensures none { (result ≡ None) ↔ (map.get self.now.options 53 ≡ None) }
    {
        self.options
            .get(DhcpV4OptionCode::MessageType)?
            .message_type()
    }

    /// Reads a message. `InvalidDhcpMessage` if and only if it has fewer than 240 bytes, the cookie
    /// is not at byte 236, or `sname` or `file` is not UTF-8 before its first zero byte.
    pub fn parse(alloc: Global, raw: &[u8]) -> Result<Self, DhcpError>
        ensures { Gives (λ message. message) result
            (ok_or (read_message raw.now) ErrorKind.InvalidDhcpMessage) }
    {
        DhcpV4View::read(raw)?.to_message(alloc)
    }

    /// Writes the message: the header, with at most 63 bytes of `sname` and 127 of `file`, the
    /// cookie, and the options. Out of memory is the only error; some of the bytes are then
    /// written.
    pub fn emit(&self, buf: &mut BufferMut) -> Result<(), DhcpError>
        ensures { Emits result buf.old buf.new (written_message self.now) }
    {
        buf.reserve(self.options.room().saturating_add(HEADER_LEN))?;
        self.emit_parts(buf)
    }

    /// The bytes that the message is written as. Out of memory is the only error.
    pub fn to_bytes(&self, alloc: Global) -> Result<Bytes, DhcpError>
        ensures { Makes (λ bytes. bytes) result (written_message self.now) }
    {
        let mut buf = BufferMut::new(alloc);
        self.emit(&mut buf)?;
        Ok(buf.into_bytes())
    }

    // Writes the message, part by part.
    #[tactic(auto, unfolding(crate::specs::Message::written_message))]
    fn emit_parts(&self, buf: &mut BufferMut) -> Result<(), DhcpError>
        ensures { Emits result buf.old buf.new (written_message self.now) }
    {
        self.emit_numbers(buf)?;
        self.emit_address_fields(buf)?;
        self.emit_texts(buf)?;
        self.options.emit(buf)
    }

    // Writes the fields before the addresses.
    fn emit_numbers(&self, buf: &mut BufferMut) -> Result<(), DhcpError>
        ensures { Emits result buf.old buf.new (written_numbers self.now) }
    {
        buf.write_bytes(&[self.op, self.htype, self.hlen, self.hops])?;
        buf.write_u32_be(self.xid)?;
        buf.write_u16_be(self.secs)?;
        buf.write_u16_be(self.flags)
    }

    // Writes the addresses, of which chaddr is the last.
    fn emit_address_fields(&self, buf: &mut BufferMut) -> Result<(), DhcpError>
        ensures { Emits result buf.old buf.new (written_address_fields self.now) }
    {
        let addresses = [self.ciaddr, self.yiaddr, self.siaddr, self.giaddr];
        emit_addresses(&addresses, buf)?;
        buf.write_bytes(&self.chaddr)
    }

    // Writes the texts and the cookie.
    fn emit_texts(&self, buf: &mut BufferMut) -> Result<(), DhcpError>
        ensures { Emits result buf.old buf.new (written_texts self.now) }
    {
        buf.write_string_with_null(self.sname.as_str(), 64)?;
        buf.write_string_with_null(self.file.as_str(), 128)?;
        buf.write_u32_be(MAGIC_COOKIE)
    }
}
