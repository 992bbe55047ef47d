//! What was sent and reported in a network.

ghost use Rattle.std.specs.Prelude.{◌≡◌, ◌<◌, ◌^◌, []};
ghost use Rattle.dhcp4_client.specs.State.{plain_state};
ghost use Rattle.dhcp4_net.specs.Becomes.{Becomes};
ghost use Rattle.dhcp4_net.specs.Grants.{packet_of};
ghost use Rattle.dhcp4_net.specs.Net as nets;

use crate::{NetOutput, NetWhat};
use dhcp_clock::{Handed, Packet, PacketKind};
use dhcp_history::{Failure, NumberedReport, Report, StateReport};
use dhcp_wire::DhcpError;
use dhcp4_client::DhcpV4State;
use std::alloc::Global;
use std::marker::Model;

/// A packet that was sent, and when, in milliseconds.
#[derive(Debug, Drop)]
pub struct SentPacket {
    /// The packet.
    pub packet: Packet,
    /// When it was sent.
    pub moment: u64,
}

/// The packets that were sent, by their numbers, and what was reported, in order.
#[derive(Drop)]
pub(crate) struct NetLog {
    sent: Vec<SentPacket>,
    outputs: Vec<NetOutput>,
}

impl Model for NetLog {
    ghost use Rattle.dhcp4_net.specs.Net.{Log};

    ghost Value = { Log };

    ghost view = { λ log. record { sent = log.sent.items; outputs = log.outputs.items } };
}

/// Where and when something is reported.
#[derive(Clone, Copy)]
pub(crate) struct At {
    /// The number of the event.
    pub event: u32,
    /// Its moment, in milliseconds.
    pub moment: u64,
}

// What a client reports.
type ClientReport = Report<StateReport<DhcpV4State>, Handed>;

/// What a client reports of an event, in order.
pub(crate) type ClientReports = Vec<NumberedReport<StateReport<DhcpV4State>, Handed>>;

impl NetLog {
    /// Nothing was sent or reported.
    pub(crate) fn new(alloc: Global) -> NetLog
        ensures { result ≡ record { sent = []; outputs = [] } }
    {
        NetLog {
            sent: Vec::new(alloc),
            outputs: Vec::new(alloc),
        }
    }

    /// The packets that were sent.
    pub(crate) fn sent(&self) -> &[SentPacket]
        ensures { result.now ≡ self.now.sent }
    {
        self.sent.as_slice()
    }

    /// What was reported.
    pub(crate) fn into_outputs(self) -> Vec<NetOutput>
        ensures { result.items ≡ self.outputs }
    {
        self.outputs
    }

    // Reports this of an event.
    fn output(&mut self, at: At, what: NetWhat) -> Result<(), DhcpError>
        ensures { Becomes result self.new (nets.log_output at.event at.moment 0 what self.old) }
    {
        let event = at.event;
        self.outputs.push(NetOutput { event, what })?;
        Ok(())
    }

    /// Sends a packet: it is the next one. More than 2^32 packets find no memory.
    pub(crate) fn packet(&mut self, at: At, packet: Packet) -> Result<(), DhcpError>
        ensures { Becomes result self.new (nets.log_packet at.event at.moment 0 packet self.old) }
    {
        let Ok(number) = u32::try_from(self.sent.len()) else {
            return Err(DhcpError::out_of_memory());
        };
        let moment = at.moment;
        self.sent.push(SentPacket { packet, moment })?;
        self.output(at, NetWhat::Sent(number))
    }

    // Reports the state to which a client has changed, if it holds a lease by it.
    fn state(&mut self, at: At, client: u32, state: &DhcpV4State) -> Result<(), DhcpError>
        requires { at.moment < 2 ^ 60 }
        ensures { Becomes result self.new
            (nets.log_state at.event at.moment client (plain_state state.now) self.old) }
    {
        match state {
            DhcpV4State::Done(lease) => {
                let until = at.moment + 1000 * u64::from(lease.lease_time_sec);
                self.output(at, NetWhat::Hold(client, lease.yiaddr, at.moment, until))
            }
            DhcpV4State::InitReboot => Ok(()),
            DhcpV4State::Selecting => Ok(()),
            DhcpV4State::Renewing => Ok(()),
            DhcpV4State::Rebinding => Ok(()),
        }
    }

    // Reports what a client reports.
    fn report(&mut self, at: At, client: u32, report: ClientReport) -> Result<(), DhcpError>
        requires { at.moment < 2 ^ 60 }
        ensures { Becomes result self.new
            (nets.log_report at.event at.moment client report self.old) }
    {
        match report {
            Report::Handed(message) => self.packet(at, packet_of(message)),
            Report::Refused(_) => Ok(()),
            Report::Changed(state) => self.state(at, client, &state.into_state()),
            Report::Failed(Failure::SendRefused) => self.output(at, NetWhat::Failed(client)),
            Report::Failed(Failure::TimedOut) => Ok(()),
        }
    }

    /// Reports all that a client reports.
    pub(crate) fn reports(
        &mut self,
        at: At,
        client: u32,
        outputs: ClientReports,
    ) -> Result<(), DhcpError>
        requires { at.moment < 2 ^ 60 }
        ensures { Becomes result self.new
            (nets.log_reports at.event at.moment client outputs.items self.old) }
    {
        for output in outputs {
            self.report(at, client, output.report)?;
        }
        Ok(())
    }
}

// The packet of a message that a client sent.
fn packet_of(message: Handed) -> Packet
    ensures { result ≡ packet_of message }
{
    match message {
        Handed::Frame(bytes) => Packet {
            kind: PacketKind::Frame,
            bytes,
        },
        Handed::Udp4(_, _, bytes) | Handed::Udp6(_, _, bytes) => Packet {
            kind: PacketKind::Payload,
            bytes,
        },
    }
}
