//! A client that is told one event at a time.

ghost use Rattle.std.specs.Prelude.{◌≡◌, IfErr, IfOk, OnOk, map, true, zero};
ghost use Rattle.dhcp_wire.specs.Error.{no_memory};
ghost use Rattle.dhcp_output.specs.Output.{plain_output};
ghost use Rattle.dhcp_live.specs.Dropped as dropped;
ghost use Rattle.dhcp_live.specs.Live as live;
ghost use Rattle.dhcp_live.specs.Live.{PlaysNext, Tells, held, with_words};

use crate::dropped::dropped_of;
use crate::{EventReply, VerdictClient, WordQueue};
use dhcp_output::Output;
use dhcp_replay::{FamilyClient, numbered_event, outputs_of};
use dhcp_script::Event;
use dhcp_wire::{DhcpError, Sequence};
use std::alloc::Global;
use std::marker::Model;

/// A client, the random words that it has left, and the number and the moment of its last event.
#[derive(Drop)]
pub struct LiveClient<C: FamilyClient> {
    client: Box<C>,
    words: WordQueue,
    number: u32,
    moment: u64,
}

impl<C: FamilyClient> Model for LiveClient<C> {
    ghost use Rattle.dhcp_live.specs.Live.{Held};

    ghost Value = { Held C };

    ghost view = { λ live. record {
      client = live.client.value;
      words = live.words;
      number = live.number;
      moment = live.moment;
    } };
}

impl<C: VerdictClient> LiveClient<C> {
    /// A client that has begun with these words left, before its first event; no event is before
    /// the start, in milliseconds. Does not allocate.
    pub fn new(client: Box<C>, words: WordQueue, start: u64) -> Self
        ensures { result ≡ record {
          client = client.value;
          words = words;
          number = zero;
          moment = start;
        } }
    {
        LiveClient {
            client,
            words,
            number: 0,
            moment: start,
        }
    }

    /// Whether an event can be next: it is not before the last one, or the start; it is within the
    /// limits of a script; and there is a number left for it, which is at most 4,294,967,295.
    pub fn can_take(&self, event: &Event) -> bool
        ensures { result ≡ live.can_take (held C.parts self.now) event.now }
    {
        self.moment <= event.moment && event.is_within_limits() && self.number < u32::MAX
    }

    /// Plays the next event, and returns what is reported of it, what its packet is to the client,
    /// and how the client stands then. Of a packet something is said if and only if no change of
    /// state is reported: what it is to the client as it stands after the event. Out of memory is
    /// the only error.
    pub fn event(&mut self, alloc: Global, event: &Event) -> Result<EventReply, DhcpError>
        requires { live.can_take (held C.parts self.old) event.now ≡ true }
        ensures played { IfOk result (λ answer. PlaysNext C.protocol C.Reported.changed event.now
            (map plain_output answer.outputs) (held C.parts self.old) (held C.parts self.new)) }
        ensures told { IfOk result (λ answer. Tells C.protocol C.Reported.changed answer.next
            answer.is_listening answer.words_left (held C.parts self.new)) }
        ensures dropped { IfOk result (λ answer. answer.dropped ≡ dropped.dropped_of
            C.packet_verdict self.new.client self.new.number event.now
            (map plain_output answer.outputs)) }
        ensures error { IfErr result (λ error. error ≡ no_memory) }
    {
        let outputs = self.play(alloc, event)?;
        let dropped = dropped_of(alloc, &*self.client, self.number, event, outputs.as_slice())?;
        Ok(EventReply {
            outputs,
            dropped,
            next: self.client.next_poll(),
            is_listening: self.client.is_listening(self.moment),
            words_left: self.words.len(),
        })
    }

    // Plays the next event.
    fn play(&mut self, alloc: Global, event: &Event) -> Result<Sequence<Output>, DhcpError>
        requires { live.can_take (held C.parts self.old) event.now ≡ true }
        ensures played { IfOk result (λ outputs. PlaysNext C.protocol C.Reported.changed event.now
            (map plain_output outputs) (held C.parts self.old) (held C.parts self.new)) }
        ensures error { IfErr result (λ error. error ≡ no_memory) }
    {
        let number = self.number + 1;
        let numbered = numbered_event(alloc, number, event)?;
        let mut reports = Vec::new(alloc);
        self.client
            .play_event(&mut self.words, numbered, &mut reports)?;
        self.number = number;
        self.moment = event.moment;
        Ok(outputs_of(alloc, reports)?)
    }

    /// Adds random words behind those that are left. Out of memory is the only error; a part of
    /// them may then be there.
    pub fn add_words(&mut self, words: &[u32]) -> Result<(), DhcpError>
        ensures added { OnOk result
            (held C.parts self.new ≡ with_words words.now (held C.parts self.old)) }
        ensures error { IfErr result (λ error. error ≡ no_memory) }
    {
        self.words.add(words)
    }
}
