//! What a client tests of a message that may answer it, and the transaction id that it draws: RFC
//! 8415 sections 16.1, 16.3 and 16.10.

ghost use Rattle.std.specs.Prelude.{◌≡◌};
ghost use Rattle.dhcp_wire.specs.Outcome.{Finds};
ghost use Rattle.dhcp6_msg.specs.Exchange as exchanges;

use crate::{DhcpV6MessageType, DhcpV6View};
use dhcp_clock::{Packet, PacketKind};

/// The transaction id of a random word: a number of three bytes, from 0 to 16,777,214 (RFC 8415,
/// section 16.1).
pub fn new_id(word: u32) -> u32
    ensures { result ≡ exchanges.new_id word }
{
    word % 16_777_215
}

/// The payload of a packet; a frame has none here, since an IPv6 client hands and takes payloads
/// alone. Does not allocate.
pub fn payload_in(packet: &Packet) -> Option<&[u8]>
    ensures { Finds (λ bytes. bytes.now) result (exchanges.payload_in packet.now) }
{
    match packet.kind {
        PacketKind::Frame => None,
        PacketKind::Payload => Some(packet.bytes.as_slice()),
    }
}

/// Whether a message is of this type and has this transaction id. Its client identifier, which RFC
/// 8415 sections 16.3 and 16.10 compare too, is not compared.
#[tactic(auto, unfolding(crate::specs::MessageType::type_number))]
pub fn concerns(kind: DhcpV6MessageType, xid: u32, message: &DhcpV6View) -> bool
    ensures { result ≡ exchanges.concerns kind xid message.now }
{
    message.msg_type() == kind && message.xid() == xid
}
