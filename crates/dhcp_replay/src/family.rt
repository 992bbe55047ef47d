//! A client of any protocol, as a replay sees it: it plays events, whatever its protocol is.

ghost use Rattle.std.specs.Prelude.{◌≡◌, IfErr, IfOk, map};
ghost use Rattle.dhcp_wire.specs.Error.{no_memory};
ghost use Rattle.dhcp_output.specs.Output.{plain_output};
ghost use Rattle.dhcp_replay.specs.Life.{CanPlay, IsPlayed};

use crate::life::{FamilyState, numbered, outputs_of};
use dhcp_clock::{Handed, Packet, Words};
use dhcp_history::{NumberedEvent, NumberedReport, StateReport};
use dhcp_output::Output;
use dhcp_script::Event;
use dhcp_wire::{DhcpError, Sequence};
use dhcp4_client::{DhcpV4Client, DhcpV4State};
use dhcp6_client::{DhcpV6Client, DhcpV6State};
use dhcp6_info::{DhcpV6InfoClient, DhcpV6InfoState};
use std::alloc::Global;

/// A client that plays events.
pub trait FamilyClient: Drop {
    ghost use Rattle.std.specs.Prelude.{◌<◌, ◌^◌, All};
    ghost use Rattle.dhcp_clock.specs.declared.link.Handed.{Handed};
    ghost use Rattle.dhcp_clock.specs.declared.link.Packet.{Packet};
    ghost use Rattle.dhcp_history.specs.Calls.{
      ClientParts,
      HasNextPoll,
      IsListening,
      IsPlayedEvent,
      IsReplay,
    };
    ghost use Rattle.dhcp_history.specs.Protocol.{Protocol};

    /// A state as it reports it.
    type Reported: FamilyState;

    /// The types of its configuration and of its protocol.
    ghost Config: { Type 0 };

    ghost State: { Type 0 };

    ghost Exchange: { Type 0 };

    ghost Answer: { Type 0 };

    ghost Lease: { Type 0 };

    /// Its configuration, and the client of its rules.
    ghost parts: { Self → ClientParts Config State Exchange };

    /// The table of states of a configuration.
    ghost protocol: { Config → Protocol Self.Reported Packet Handed State Exchange Answer Lease };

    /// Plays events, by their numbers, and returns what they report.
    fn play<W: Words>(
        &mut self,
        words: &mut W,
        events: Vec<NumberedEvent<Packet>>,
    ) -> Result<Vec<NumberedReport<Self::Reported, Handed>>, DhcpError>
        requires { All (λ event. event.moment < 2 ^ 60) events.items }
        ensures { IsReplay protocol result (λ reported. reported.items) events.items
            (parts self.old) (parts self.new) (W.left words.old) (W.left words.new) };

    /// Plays one event, by its number, and puts what it reports at the end of a list.
    fn play_event<W: Words>(
        &mut self,
        words: &mut W,
        event: NumberedEvent<Packet>,
        reports: &mut Vec<NumberedReport<Self::Reported, Handed>>,
    ) -> Result<(), DhcpError>
        requires { event.moment < 2 ^ 60 }
        ensures { IsPlayedEvent protocol result event reports.old.items reports.new.items
            (parts self.old) (parts self.new) (W.left words.old) (W.left words.new) };

    /// The moment, in milliseconds, at which a poll next does something without a packet; none if
    /// no poll does. Does not allocate.
    fn next_poll(&self) -> Option<u64>
        ensures { HasNextPoll (protocol (parts self.now).config) result (parts self.now).client };

    /// Whether a packet may be asked for at a moment, in milliseconds. Does not allocate.
    fn is_listening(&self, now: u64) -> bool
        ensures { IsListening protocol now result (parts self.now) };
}

impl FamilyClient for DhcpV4Client {
    ghost use Rattle.dhcp4_lease.specs.Config as configs;
    ghost use Rattle.dhcp4_lease.specs.Lease as leases;
    ghost use Rattle.dhcp4_client.specs.Rules as rules;
    ghost use Rattle.dhcp4_client.specs.declared.answer.Answer as answers;
    ghost use Rattle.dhcp4_client.specs.declared.client_state.ClientState as states;
    ghost use Rattle.dhcp4_client.specs.declared.client_state.Exchange as exchanges;

    type Reported = StateReport<DhcpV4State>;

    ghost Config = { configs.Config };

    ghost State = { states.ClientState };

    ghost Exchange = { exchanges.Exchange };

    ghost Answer = { answers.Answer };

    ghost Lease = { leases.Lease };

    ghost parts = { λ client. client };

    ghost protocol = { rules.protocol };

    fn play<W: Words>(
        &mut self,
        words: &mut W,
        events: Vec<NumberedEvent<Packet>>,
    ) -> Result<Vec<NumberedReport<Self::Reported, Handed>>, DhcpError> {
        self.replay(words, events)
    }

    fn play_event<W: Words>(
        &mut self,
        words: &mut W,
        event: NumberedEvent<Packet>,
        reports: &mut Vec<NumberedReport<Self::Reported, Handed>>,
    ) -> Result<(), DhcpError> {
        self.play_event(words, event, reports)
    }

    fn next_poll(&self) -> Option<u64> {
        self.next_poll()
    }

    fn is_listening(&self, now: u64) -> bool {
        self.is_listening(now)
    }
}

impl FamilyClient for DhcpV6Client {
    ghost use Rattle.dhcp6_msg.specs.Config as configs;
    ghost use Rattle.dhcp6_msg.specs.Lease as leases;
    ghost use Rattle.dhcp6_client.specs.Rules as rules;
    ghost use Rattle.dhcp6_client.specs.declared.client_state.ClientState as states;
    ghost use Rattle.dhcp6_client.specs.declared.client_state.Exchange as exchanges;

    type Reported = StateReport<DhcpV6State>;

    ghost Config = { configs.Config };

    ghost State = { states.ClientState };

    ghost Exchange = { exchanges.Exchange };

    ghost Answer = { leases.Lease };

    ghost Lease = { leases.Lease };

    ghost parts = { λ client. client };

    ghost protocol = { rules.protocol };

    fn play<W: Words>(
        &mut self,
        words: &mut W,
        events: Vec<NumberedEvent<Packet>>,
    ) -> Result<Vec<NumberedReport<Self::Reported, Handed>>, DhcpError> {
        self.replay(words, events)
    }

    fn play_event<W: Words>(
        &mut self,
        words: &mut W,
        event: NumberedEvent<Packet>,
        reports: &mut Vec<NumberedReport<Self::Reported, Handed>>,
    ) -> Result<(), DhcpError> {
        self.play_event(words, event, reports)
    }

    fn next_poll(&self) -> Option<u64> {
        self.next_poll()
    }

    fn is_listening(&self, now: u64) -> bool {
        self.is_listening(now)
    }
}

impl FamilyClient for DhcpV6InfoClient {
    ghost use Rattle.dhcp6_msg.specs.Config as configs;
    ghost use Rattle.dhcp6_info.specs.Rules as rules;
    ghost use Rattle.dhcp6_info.specs.declared.client_state.ClientState as states;
    ghost use Rattle.dhcp6_info.specs.declared.client_state.Exchange as exchanges;
    ghost use Rattle.dhcp6_info.specs.declared.client_state.NoLease as leases;
    ghost use Rattle.dhcp6_info.specs.declared.info.DhcpV6Info as infos;

    type Reported = StateReport<DhcpV6InfoState>;

    ghost Config = { configs.Config };

    ghost State = { states.ClientState };

    ghost Exchange = { exchanges.Exchange };

    ghost Answer = { infos.DhcpV6Info };

    ghost Lease = { leases.NoLease };

    ghost parts = { λ client. client };

    ghost protocol = { rules.protocol };

    fn play<W: Words>(
        &mut self,
        words: &mut W,
        events: Vec<NumberedEvent<Packet>>,
    ) -> Result<Vec<NumberedReport<Self::Reported, Handed>>, DhcpError> {
        self.replay(words, events)
    }

    fn play_event<W: Words>(
        &mut self,
        words: &mut W,
        event: NumberedEvent<Packet>,
        reports: &mut Vec<NumberedReport<Self::Reported, Handed>>,
    ) -> Result<(), DhcpError> {
        self.play_event(words, event, reports)
    }

    fn next_poll(&self) -> Option<u64> {
        self.next_poll()
    }

    fn is_listening(&self, now: u64) -> bool {
        self.is_listening(now)
    }
}

/// Plays the events of a script, and returns what is reported of them. Out of memory is the only
/// error.
pub fn play<C: FamilyClient, W: Words>(
    alloc: Global,
    client: &mut C,
    words: &mut W,
    events: &[Event],
) -> Result<Sequence<Output>, DhcpError>
    requires { CanPlay events.now }
    ensures played { IfOk result (λ outputs. IsPlayed C.protocol C.Reported.changed events.now
        (map plain_output outputs) (C.parts client.old) (C.parts client.new)
        (W.left words.old) (W.left words.new)) }
    ensures error { IfErr result (λ error. error ≡ no_memory) }
{
    let reported = client.play(words, numbered(alloc, events)?)?;
    Ok(outputs_of(alloc, reported)?)
}
