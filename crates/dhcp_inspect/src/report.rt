//! The report on a capture file: a line for each DHCP message, and a last line.

ghost use Rattle.std.specs.Prelude.{◌≡◌, ◌<◌, ◌^◌, ◌++◌, ◌↔◌, IfOk, IsSome, OnOk, Some, length, string_bytes};
ghost use Rattle.dhcp_wire.specs.Outcome.{Makes};
ghost use Rattle.dhcp_inspect.specs.Header.{IsCapture};
ghost use Rattle.dhcp_inspect.specs.Report.{
  capture_text,
  content4_text,
  id6_text,
  last_line,
  line_of,
  message4_text,
  message6_text,
  message_text,
  moment_text,
  record_text,
  records_text,
  report_on,
  type4_text,
};

use crate::capture::Capture;
use crate::header::TimeUnit;
use crate::message::{Message, Message4, Message6};
use crate::record::Record;
use dhcp_stream::push_octets;
use dhcp_wire::{Bytes, DhcpError};
use dhcp4_msg::DhcpV4MessageType;
use std::alloc::{AllocError, Global};

/// The report on a capture file: a line for each record that carries a DHCP message, in their
/// order, each once, and a last line, `ok` or `cut` and the number of bytes that remain after the
/// last whole record. None if and only if the file has fewer than 24 bytes, another magic number or
/// another link type than Ethernet's. Out of memory is the only error.
pub fn inspect(alloc: Global, file: &[u8]) -> Result<Option<Bytes>, DhcpError>
    ensures report { Makes (λ report. report) result (report_on file.now) }
    ensures capture { IfOk result (λ report. IsSome report ↔ IsCapture file.now) }
{
    match Capture::new(file) {
        Some(capture) => Ok(Some(print_capture(alloc, capture)?)),
        None => Ok(None),
    }
}

// The report on a capture.
#[tactic(auto, unfolding(crate::specs::Report::capture_text))]
fn print_capture(alloc: Global, mut capture: Capture) -> Result<Bytes, DhcpError>
    requires { length capture.records < 2 ^ 64 }
    ensures { Makes (λ text. text) result (capture_text capture.entry) }
{
    let mut text = String::new(alloc);
    push_records(&mut text, &mut capture)?;
    push_last_line(&mut text, capture.remainder())?;
    Ok(Bytes::from(text.into_bytes()))
}

// Puts the lines of the records that are left at the end of a text. After an error, which is out of
// memory, a part of them may be there.
#[tactic(auto, using(crate::proofs::TextLemmas::lines))]
fn push_records(text: &mut String, capture: &mut Capture) -> Result<(), AllocError>
    requires { length capture.old.records < 2 ^ 64 }
    ensures lines { OnOk result (string_bytes text.new
        ≡ string_bytes text.old ++ records_text capture.old.unit 1 capture.old.records) }
    ensures remainder { capture.new.remainder ≡ capture.old.remainder }
{
    let unit = capture.unit();
    let mut number = 0u64;
    while let Some(packet) = capture.next() {
        number += 1;
        push_record(text, unit, number, &packet)?;
    }
    Ok(())
}

// Puts the line of a record with this number, if it carries a message, at the end of a text.
#[tactic(auto, unfolding(crate::specs::Report::record_text))]
fn push_record(
    text: &mut String,
    unit: TimeUnit,
    number: u64,
    packet: &Record,
) -> Result<(), AllocError>
    ensures { OnOk result (string_bytes text.new
        ≡ string_bytes text.old ++ record_text unit number packet.now) }
{
    match packet.message() {
        Some(message) => push_line(text, unit, number, packet, &message),
        None => Ok(()),
    }
}

// Puts the line of a message at the end of a text.
fn push_line(
    text: &mut String,
    unit: TimeUnit,
    number: u64,
    packet: &Record,
    message: &Message,
) -> Result<(), AllocError>
    ensures { OnOk result (string_bytes text.new
        ≡ string_bytes text.old ++ line_of unit number packet.now (Some message.now)) }
{
    write!(text, "{number} ")?;
    push_moment(text, unit, packet)?;
    text.push(' ')?;
    push_message(text, message)?;
    text.push('\n')
}

// Puts the moment of a record at the end of a text.
#[tactic(auto, using(crate::proofs::TextLemmas::filled))]
fn push_moment(text: &mut String, unit: TimeUnit, packet: &Record) -> Result<(), AllocError>
    ensures { OnOk result (string_bytes text.new
        ≡ string_bytes text.old ++ moment_text unit packet.now) }
{
    let seconds = packet.seconds();
    let fraction = packet.fraction();
    match unit {
        TimeUnit::Microseconds => write!(text, "{seconds}.{fraction:06}"),
        TimeUnit::Nanoseconds => write!(text, "{seconds}.{fraction:09}"),
    }
}

// Puts what a line says of a message at the end of a text.
fn push_message(text: &mut String, message: &Message) -> Result<(), AllocError>
    ensures { OnOk result (string_bytes text.new
        ≡ string_bytes text.old ++ message_text message.now) }
{
    match message {
        Message::V4(message) => push_message4(text, message),
        Message::V6(message) => push_message6(text, message),
    }
}

// The same of a DHCPv4 message.
fn push_message4(text: &mut String, message: &Message4) -> Result<(), AllocError>
    ensures { OnOk result (string_bytes text.new
        ≡ string_bytes text.old ++ message4_text message.now) }
{
    let source = message.source;
    let destination = message.destination;
    write!(text, "v4 {source} {destination} ")?;
    push_content4(text, message)
}

// Puts the type of a DHCPv4 message, its transaction id and the address that the server gives at
// the end of a text.
#[tactic(auto, unfolding(crate::specs::Report::content4_text))]
fn push_content4(text: &mut String, message: &Message4) -> Result<(), AllocError>
    ensures { OnOk result (string_bytes text.new
        ≡ string_bytes text.old ++ content4_text message.now) }
{
    let yiaddr = message.yiaddr;
    push_type4(text, message.message_type)?;
    text.push(' ')?;
    push_octets(text, &message.xid.to_be_bytes())?;
    write!(text, " {yiaddr}")
}

// Puts the type of a DHCPv4 message at the end of a text, or `-`.
fn push_type4(text: &mut String, kind: Option<DhcpV4MessageType>) -> Result<(), AllocError>
    ensures { OnOk result (string_bytes text.new ≡ string_bytes text.old ++ type4_text kind) }
{
    match kind {
        Some(kind) => write!(text, "{kind}"),
        None => text.push('-'),
    }
}

// The same of a DHCPv6 message.
fn push_message6(text: &mut String, message: &Message6) -> Result<(), AllocError>
    ensures { OnOk result (string_bytes text.new
        ≡ string_bytes text.old ++ message6_text message.now) }
{
    let number = u8::from(message.message_type);
    text.push_str("v6 ")?;
    push_octets(text, &message.source.octets())?;
    text.push(' ')?;
    push_octets(text, &message.destination.octets())?;
    write!(text, " {number} ")?;
    push_id6(text, message.xid)
}

// Puts the transaction id of a DHCPv6 message at the end of a text, or `-` where it has none.
#[tactic(auto, unfolding(dhcp6_msg::specs::Message::id_bytes))]
fn push_id6(text: &mut String, xid: Option<u32>) -> Result<(), AllocError>
    ensures { OnOk result (string_bytes text.new
        ≡ string_bytes text.old ++ id6_text xid) }
{
    match xid {
        Some(xid) => push_octets(text, &xid.to_be_bytes()[1..]),
        None => text.push('-'),
    }
}

// Puts the last line of a report at the end of a text.
fn push_last_line(text: &mut String, remainder: usize) -> Result<(), AllocError>
    ensures { OnOk result (string_bytes text.new ≡ string_bytes text.old ++ last_line remainder) }
{
    match remainder {
        0 => text.push_str("ok\n"),
        left => writeln!(text, "cut {left}"),
    }
}
