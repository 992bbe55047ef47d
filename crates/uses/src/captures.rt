//! Capture files.

ghost use Rattle.std.specs.Prelude.{◌≡◌, option_map};
ghost use Rattle.std.specs.List.{count_by};
ghost use Rattle.dhcp_inspect.specs.Capture.{read_capture};
ghost use Rattle.uses.specs.Captures as captures;

use dhcp_inspect::{Capture, Message, Record};
use dhcp4_msg::DhcpV4MessageType;

/// How many records of a capture file carry an Ack; none if and only if it is no capture file.
pub fn ack_count(file: &[u8]) -> Option<usize>
    ensures { result ≡ option_map (λ capture. count_by captures.is_ack capture.records)
        (read_capture file.now) }
{
    let capture = Capture::new(file)?;
    Some(capture.filter(|record| is_ack(record)).count())
}

// Whether a record carries an Ack.
fn is_ack(packet_record: &Record) -> bool
    ensures { result ≡ captures.is_ack packet_record.now }
{
    match packet_record.message() {
        Some(Message::V4(message)) => message.message_type == Some(DhcpV4MessageType::Ack),
        _ => false,
    }
}
