//! A DHCPv4 message in the bytes that it was received in, RFC 2131 section 2.

ghost use Rattle.std.specs.Prelude.{◌≡◌, ok_or};
ghost use Rattle.dhcp_wire.specs.RawOption.{raw_options};
ghost use Rattle.dhcp_wire.specs.declared.raw_option.OptionFormat.TheVariants as formats;
ghost use Rattle.dhcp_wire.specs.Outcome.{Answers, Finds, Makes};
ghost use Rattle.dhcp4_msg.specs.Message.{read_message};
ghost use Rattle.dhcp4_msg.specs.Options as maps;
ghost use Rattle.dhcp4_msg.specs.View as views;
ghost use Rattle.dhcp4_msg.specs.View.{ReadsInPart};

use crate::message::MAGIC_COOKIE;
use crate::value::type_in;
use crate::{DhcpV4Message, DhcpV4MessageType, DhcpV4Options};
use dhcp_wire::{
    Buffer, DhcpError, ErrorKind, FixedText, OptionFormat, RawOption, Text, address_in,
};
use std::alloc::Global;
use std::marker::Model;
use std::net::Ipv4Addr;

// The code of the option that says the type of a message, RFC 2132 section 9.6.
const MESSAGE_TYPE: u16 = 53;

// The code of the option that says the server of a message, RFC 2132 section 9.7.
const SERVER_IDENTIFIER: u16 = 54;

/// A message in the bytes that it was received in: it can be tested before anything is copied.
/// Contracts see it as the message that the bytes read as.
#[derive(Debug, Drop)]
pub struct DhcpV4View<'a> {
    op: u8,
    htype: u8,
    hlen: u8,
    hops: u8,
    xid: u32,
    secs: u16,
    flags: u16,
    ciaddr: Ipv4Addr,
    yiaddr: Ipv4Addr,
    siaddr: Ipv4Addr,
    giaddr: Ipv4Addr,
    chaddr: [u8; 16],
    sname: &'a str,
    file: &'a str,
    options: &'a [u8],
}

impl<'a> Model for DhcpV4View<'a> {
    ghost use Rattle.dhcp4_msg.specs.declared.message.DhcpV4Message.{DhcpV4Message};
    ghost use Rattle.dhcp4_msg.specs.contracts.message.DhcpV4Message as message;

    ghost Value = { DhcpV4Message };

    ghost coded = { message.the_row.coded };

    ghost use Rattle.dhcp4_msg.specs.View.{message_of};

    ghost view = { message_of };
}

impl<'a> DhcpV4View<'a> {
    /// The message that the payload reads as: none if and only if it has fewer than 240 bytes, the
    /// cookie is not at byte 236, or `sname` or `file` is not UTF-8 before its first zero byte.
    /// Does not allocate.
    pub fn new(payload: &'a [u8]) -> Option<Self>
        ensures { Finds (λ view. view) result (read_message payload.now) }
    {
        Self::read(payload).ok()
    }

    // The same, with the error of the field that does not read.
    #[tactic(auto, unfolding(crate::specs::Message::read_message))]
    pub(crate) fn read(payload: &'a [u8]) -> Result<Self, DhcpError>
        ensures { Answers (λ view. view) result
            (ok_or (read_message payload.now) ErrorKind.InvalidDhcpMessage) }
    {
        let mut buf = Buffer::new(payload);
        let numbers = read_numbers(&mut buf)?;
        let addresses = read_addresses(&mut buf)?;
        let chaddr = buf.get_array()?;
        let sname = buf.get_str_with_null(64)?;
        let file = buf.get_str_with_null(128)?;
        if buf.get_u32_be()? != MAGIC_COOKIE {
            return Err(DhcpError::invalid_message(FixedText::Unreadable));
        }
        let (op, htype, hlen, hops, xid, secs, flags) = numbers;
        let (ciaddr, yiaddr, siaddr, giaddr) = addresses;
        Ok(DhcpV4View {
            op,
            htype,
            hlen,
            hops,
            xid,
            secs,
            flags,
            ciaddr,
            yiaddr,
            siaddr,
            giaddr,
            chaddr,
            sname,
            file,
            options: buf.get_remains(),
        })
    }

    /// Its transaction id.
    pub fn xid(&self) -> u32
        ensures { result ≡ self.now.xid }
    {
        self.xid
    }

    /// The address that the server gives.
    pub fn yiaddr(&self) -> Ipv4Addr
        ensures { result ≡ self.now.yiaddr }
    {
        self.yiaddr
    }

    /// The type that its last readable option 53 says, if it has one. Does not allocate.
    pub fn message_type(&self) -> Option<DhcpV4MessageType>
        ensures { result ≡ maps.message_type self.now.options }
    {
        last_value(self.options, MESSAGE_TYPE)
    }

    /// The server that its last readable option 54 names, if it has one. Does not allocate.
    pub fn server_identifier(&self) -> Option<Ipv4Addr>
        ensures { result ≡ maps.server_identifier self.now.options }
    {
        last_value(self.options, SERVER_IDENTIFIER)
    }

    /// A copy of the message, as `DhcpV4Message::parse` of the payload gives it; out of memory is
    /// the only error.
    pub fn to_message(&self, alloc: Global) -> Result<DhcpV4Message, DhcpError>
        ensures { Makes (λ message. message) result self.now }
    {
        Ok(DhcpV4Message {
            op: self.op,
            htype: self.htype,
            hlen: self.hlen,
            hops: self.hops,
            xid: self.xid,
            secs: self.secs,
            flags: self.flags,
            ciaddr: self.ciaddr,
            yiaddr: self.yiaddr,
            siaddr: self.siaddr,
            giaddr: self.giaddr,
            chaddr: self.chaddr,
            sname: Text::from_str(alloc, self.sname)?,
            file: Text::from_str(alloc, self.file)?,
            options: DhcpV4Options::parse(alloc, self.options)?,
        })
    }
}

// The numbers before the addresses: op, htype, hlen, hops, xid, secs and flags.
#[inline(always)]
#[tactic(auto, unfolding(dhcp_wire::specs::Field::bytes_at))]
fn read_numbers(buf: &mut Buffer) -> Result<(u8, u8, u8, u8, u32, u16, u16), DhcpError>
    ensures { ReadsInPart (λ numbers. numbers) result buf.new (views.numbers_at buf.old) }
{
    let bytes = buf.get_bytes(4)?;
    let xid = buf.get_u32_be()?;
    let secs = buf.get_u16_be()?;
    let flags = buf.get_u16_be()?;
    Ok((bytes[0], bytes[1], bytes[2], bytes[3], xid, secs, flags))
}

// The four addresses: ciaddr, yiaddr, siaddr and giaddr.
#[inline(always)]
fn read_addresses(buf: &mut Buffer) -> Result<(Ipv4Addr, Ipv4Addr, Ipv4Addr, Ipv4Addr), DhcpError>
    ensures { ReadsInPart (λ addresses. addresses) result buf.new (views.addresses_at buf.old) }
{
    let ciaddr = buf.get_ipv4()?;
    let yiaddr = buf.get_ipv4()?;
    let siaddr = buf.get_ipv4()?;
    let giaddr = buf.get_ipv4()?;
    Ok((ciaddr, yiaddr, siaddr, giaddr))
}

// A value that an option holds, and that is read without a copy.
trait OptionValue: Copy {
    ghost use Rattle.std.specs.Prelude.{ℕ, List, Option};

    // What bytes read as.
    ghost value_in: { List ℕ → Option Self };

    // The value of these bytes, if they read.
    fn read(value: &[u8]) -> Option<Self>
        ensures { result ≡ value_in value.now };
}

impl OptionValue for DhcpV4MessageType {
    ghost use Rattle.dhcp4_msg.specs.Value.{type_in};

    ghost value_in = { type_in };

    fn read(value: &[u8]) -> Option<Self> {
        type_in(value).ok()
    }
}

impl OptionValue for Ipv4Addr {
    ghost use Rattle.dhcp_wire.specs.Value.{address_in};

    ghost value_in = { address_in };

    fn read(value: &[u8]) -> Option<Self> {
        address_in(value).ok()
    }
}

// The value of the last readable option of this code in a list, if there is one.
fn last_value<V: OptionValue>(options: &[u8], code: u16) -> Option<V>
    ensures { result ≡ views.last_value V.value_in code (raw_options formats.DhcpV4 options.now) }
{
    let mut found = None;
    let mut rest = options;
    while let Some((raw, later)) = OptionFormat::DhcpV4.raw_option_at(rest) {
        found = value_under(raw, code).or(found);
        rest = OptionFormat::DhcpV4.counted_after(raw.code, later);
    }
    found
}

// The value of a raw option, if it has this code and reads.
fn value_under<V: OptionValue>(raw: RawOption, code: u16) -> Option<V>
    ensures { result ≡ views.value_under V.value_in code (maps.parts_of raw.entry) }
{
    if raw.code == code {
        V::read(raw.value)
    } else {
        None
    }
}
