//! The DHCP message that a record carries.

ghost use Rattle.std.specs.Prelude.{◌≡◌};
ghost use Rattle.dhcp_inspect.specs.Message as messages;
ghost use Rattle.dhcp_inspect.specs.Message.{message_of};

use crate::record::Record;
use dhcp_frame::{FrameView, FrameView6};
use dhcp4_msg::{DhcpV4MessageType, DhcpV4View};
use dhcp6_msg::{DhcpV6MessageType, DhcpV6View};
use std::net::{Ipv4Addr, Ipv6Addr};

/// A DHCP message of either family, as far as its line shows it.
#[derive(Clone, Copy, Debug, PartialEq, Eq)]
pub enum Message {
    /// A DHCPv4 message.
    V4(Message4),
    /// A DHCPv6 message.
    V6(Message6),
}

/// What a line shows of a DHCPv4 message, RFC 2131 section 2.
#[derive(Clone, Copy, Debug, PartialEq, Eq)]
pub struct Message4 {
    /// The source address of its packet.
    pub source: Ipv4Addr,
    /// The destination address of its packet.
    pub destination: Ipv4Addr,
    /// The type that its last readable option 53 says, if it has one.
    pub message_type: Option<DhcpV4MessageType>,
    /// Its transaction id.
    pub xid: u32,
    /// The address that the server gives.
    pub yiaddr: Ipv4Addr,
}

/// What a line shows of a DHCPv6 message, RFC 8415 section 8.
#[derive(Clone, Copy, Debug, PartialEq, Eq)]
pub struct Message6 {
    /// The source address of its packet.
    pub source: Ipv6Addr,
    /// The destination address of its packet.
    pub destination: Ipv6Addr,
    /// Its type.
    pub message_type: DhcpV6MessageType,
    /// Its transaction id, of 24 bits. A relay's message has none (RFC 8415 section 9).
    pub xid: Option<u32>,
}

impl<'a> Record<'a> {
    /// The DHCP message that the packet carries, in an Ethernet frame over IPv4 (a port is 67 or
    /// 68) or over IPv6 (a port is 546 or 547). None of a packet of which more bytes are kept than
    /// it had on the wire. Does not allocate.
    #[tactic(auto, unfolding(crate::specs::Message::message_of))]
    pub fn message(&self) -> Option<Message>
        ensures { result ≡ message_of self.now }
    {
        if self.bytes().len() > self.wire_length() as usize {
            return None;
        }
        match message4_in(self.bytes()) {
            Some(message) => Some(Message::V4(message)),
            None => message6_in(self.bytes()).map(Message::V6),
        }
    }
}

// The DHCPv4 message of a frame.
#[tactic(auto, unfolding(crate::specs::Message::message4_in))]
fn message4_in(bytes: &[u8]) -> Option<Message4>
    ensures { result ≡ messages.message4_in bytes.now }
{
    let frame = FrameView::new(bytes)?;
    if !is_port4(frame.src_port()) && !is_port4(frame.dst_port()) {
        return None;
    }
    let message = DhcpV4View::new(frame.payload())?;
    Some(Message4 {
        source: frame.src_ip(),
        destination: frame.dst_ip(),
        message_type: message.message_type(),
        xid: message.xid(),
        yiaddr: message.yiaddr(),
    })
}

// The DHCPv6 message of a frame.
#[tactic(auto, unfolding(crate::specs::Message::message6_in))]
fn message6_in(bytes: &[u8]) -> Option<Message6>
    ensures { result ≡ messages.message6_in bytes.now }
{
    let frame = FrameView6::new(bytes)?;
    if !is_port6(frame.src_port()) && !is_port6(frame.dst_port()) {
        return None;
    }
    let message = DhcpV6View::new(frame.payload())?;
    Some(Message6 {
        source: frame.src_ip(),
        destination: frame.dst_ip(),
        message_type: message.msg_type(),
        xid: transaction_id(&message),
    })
}

// The transaction id of a DHCPv6 message; a relay's has none.
fn transaction_id(message: &DhcpV6View) -> Option<u32>
    ensures { result ≡ messages.transaction_id message.now }
{
    match message.msg_type() {
        DhcpV6MessageType::RelayForward | DhcpV6MessageType::RelayReply => None,
        _ => Some(message.xid()),
    }
}

// Whether a port is of DHCPv4: of servers, or of clients.
fn is_port4(port: u16) -> bool
    ensures { result ≡ messages.is_port4 port }
{
    port == 67 || port == 68
}

// Whether a port is of DHCPv6: of clients, or of servers and relays.
fn is_port6(port: u16) -> bool
    ensures { result ≡ messages.is_port6 port }
{
    port == 546 || port == 547
}
