//! What the packet of an event is to the client.

ghost use Rattle.std.specs.Prelude.{◌≡◌, IfErr, IfOk, map};
ghost use Rattle.std.specs.List.{list_any};
ghost use Rattle.dhcp_wire.specs.Error.{no_memory};
ghost use Rattle.dhcp_output.specs.Output.{is_of, plain_output, plain_report};
ghost use Rattle.dhcp_output.specs.declared.summary.OutputKind.TheVariants.{Changed};
ghost use Rattle.dhcp_live.specs.Dropped as dropped;

use dhcp_clock::Packet;
use dhcp_output::{Output, OutputKind};
use dhcp_replay::{FamilyClient, arrival_of};
use dhcp_script::Event;
use dhcp_verdict::PacketVerdict;
use dhcp_wire::DhcpError;
use dhcp4_client::DhcpV4Client;
use dhcp4_msg::DhcpV4MessageType;
use dhcp6_client::DhcpV6Client;
use dhcp6_msg::DhcpV6MessageType;
use std::alloc::Global;

/// What a packet is to a client of either family, with the number of the type of its message, if
/// that has one.
pub type PlainVerdict = PacketVerdict<Option<u8>>;

/// The packet of an event without a change of state, and what it is to the client; an answer has no
/// line.
#[derive(Clone, Copy, Debug, PartialEq, Eq)]
pub struct Dropped {
    /// The number of its event.
    pub number: u32,
    /// What the packet is to the client as it stands after the event.
    pub verdict: PlainVerdict,
}

/// A client that plays events, and says what a packet is to it.
pub trait VerdictClient: FamilyClient {
    ghost use Rattle.std.specs.Prelude.{◌≡◌, ℕ, IfErr, IfOk};
    ghost use Rattle.dhcp_wire.specs.Error.{no_memory};
    ghost use Rattle.dhcp_clock.specs.declared.link.Packet.{Packet};
    ghost use Rattle.dhcp_live.specs.Dropped.{PlainVerdict};

    /// What a packet is to it at a moment.
    ghost packet_verdict: { Self → ℕ → Packet → PlainVerdict };

    /// What a packet is to it as it stands at a moment, in milliseconds. Out of memory is the only
    /// error.
    fn plain_verdict(&self, now: u64, packet: &Packet) -> Result<PlainVerdict, DhcpError>
        ensures found { IfOk result (λ found. found ≡ packet_verdict self.now now packet.now) }
        ensures error { IfErr result (λ error. error ≡ no_memory) };
}

impl VerdictClient for DhcpV4Client {
    ghost use Rattle.dhcp_live.specs.Dropped.{verdict4};

    ghost packet_verdict = { verdict4 };

    fn plain_verdict(&self, now: u64, packet: &Packet) -> Result<PlainVerdict, DhcpError> {
        let verdict = self.verdict(now, packet)?;
        Ok(plain_verdict(verdict))
    }
}

impl VerdictClient for DhcpV6Client {
    ghost use Rattle.dhcp_live.specs.Dropped.{verdict6};

    ghost packet_verdict = { verdict6 };

    fn plain_verdict(&self, now: u64, packet: &Packet) -> Result<PlainVerdict, DhcpError> {
        let verdict = self.verdict(now, packet)?;
        Ok(plain_verdict(verdict))
    }
}

// The type of a message, as the verdicts of one family have it.
trait TypeNumber: Copy {
    ghost use Rattle.std.specs.Prelude.{◌≡◌, ℕ, Option};

    // Its number, if there is a type.
    ghost number_of: { Self → Option ℕ };

    fn number(self) -> Option<u8>
        ensures { result ≡ number_of self };
}

impl TypeNumber for Option<DhcpV4MessageType> {
    ghost use Rattle.std.specs.Prelude.{option_map};
    ghost use Rattle.dhcp4_msg.specs.MessageType.{type_number};

    ghost number_of = { option_map type_number };

    fn number(self) -> Option<u8> {
        match self {
            Some(kind) => Some(u8::from(kind)),
            None => None,
        }
    }
}

impl TypeNumber for DhcpV6MessageType {
    ghost use Rattle.std.specs.Prelude.{Some};
    ghost use Rattle.dhcp6_msg.specs.MessageType.{type_number};

    ghost number_of = { λ kind. Some (type_number kind) };

    fn number(self) -> Option<u8> {
        Some(u8::from(self))
    }
}

// A verdict of one family, with the number of the type.
fn plain_verdict<T: TypeNumber>(verdict: PacketVerdict<T>) -> PlainVerdict
    ensures { result ≡ dropped.plain_verdict T.number_of verdict }
{
    match verdict {
        PacketVerdict::Answer => PacketVerdict::Answer,
        PacketVerdict::NoOpenAttempt => PacketVerdict::NoOpenAttempt,
        PacketVerdict::OtherCarrier => PacketVerdict::OtherCarrier,
        PacketVerdict::NoFrame => PacketVerdict::NoFrame,
        PacketVerdict::NoMessage => PacketVerdict::NoMessage,
        PacketVerdict::OtherTransactionId => PacketVerdict::OtherTransactionId,
        PacketVerdict::OtherType(kind) => PacketVerdict::OtherType(kind.number()),
        PacketVerdict::OtherServer => PacketVerdict::OtherServer,
        PacketVerdict::NoLease(kind) => PacketVerdict::NoLease(kind),
    }
}

/// What is said of the packet of the event of this number, of which these outputs are reported, by
/// the client as it stands after it: nothing if there is no packet or a change of state is
/// reported. Out of memory is the only error.
pub fn dropped_of<C: VerdictClient>(
    alloc: Global,
    client: &C,
    number: u32,
    event: &Event,
    outputs: &[Output],
) -> Result<Option<Dropped>, DhcpError>
    ensures said { IfOk result (λ said. said ≡ dropped.dropped_of C.packet_verdict client.now
        number event.now (map plain_output outputs.now)) }
    ensures error { IfErr result (λ error. error ≡ no_memory) }
{
    if has_change(outputs) {
        return Ok(None);
    }
    let Some(packet) = arrival_of(alloc, &event.what)? else {
        return Ok(None);
    };
    let verdict = client.plain_verdict(event.moment, &packet)?;
    Ok(Some(Dropped { number, verdict }))
}

// Whether a change of state is among these outputs.
fn has_change(outputs: &[Output]) -> bool
    ensures { result ≡ dropped.has_change (map plain_output outputs.now) }
{
    has_change_each(outputs)
}

// The same, output by output.
fn has_change_each(outputs: &[Output]) -> bool
    ensures { result ≡ list_any (λ output. is_of Changed (plain_report output.what)) outputs.now }
{
    outputs
        .iter()
        .any(|output| output.what.is_of(OutputKind::Changed))
}
