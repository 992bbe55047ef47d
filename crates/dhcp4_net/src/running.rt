//! A network as it runs, event by event.

ghost use Rattle.std.specs.Prelude.{◌≡◌, ◌≤◌, ◌<◌, ◌^◌, ℕ, IfErr, IfOk, OnOk, length, true};
ghost use Rattle.dhcp_wire.specs.Error.{no_memory};
ghost use Rattle.dhcp_wire.specs.Outcome.{Finds, Makes};
ghost use Rattle.dhcp4_lease.specs.Config.{Config};
ghost use Rattle.std.specs.List.{list_all};
ghost use Rattle.dhcp4_server.specs.Answer.{answer_to};
ghost use Rattle.dhcp4_server.specs.Config.{is_lawful};
ghost use Rattle.dhcp4_server.specs.declared.config.ServerConfig.{ServerConfig};
ghost use Rattle.dhcp4_net.specs.Net as nets;
ghost use Rattle.dhcp4_net.specs.Net.{Net};
ghost use Rattle.dhcp4_net.specs.Running.{ArePeers, PlaysAt, StandsForNet, StepsTo};
ghost use Rattle.dhcp4_net.specs.Clients.{net_at, views_of};
ghost use Rattle.dhcp4_net.specs.Script.{configs_of, is_early};

use crate::log::{At, ClientReports, NetLog, SentPacket};
use crate::peer::{Peer, begun};
use crate::{NetAct, NetClient, NetEvent, NetOutput, NetScript, NetWho};
use dhcp_clock::Packet;
use dhcp_history::{Input, NumberedEvent};
use dhcp_wire::{Bytes, DhcpError};
use dhcp4_server::{DhcpV4Server, ServerAnswer};
use std::alloc::Global;

/// A network as it runs.
#[derive(Drop)]
pub struct RunningNet {
    alloc: Global,
    server: DhcpV4Server,
    peers: Vec<Peer>,
    log: NetLog,
    now: u64,
    bound_ms: u64,
}

// The packet of a number, if it was sent at most so long before this moment, in milliseconds.
fn delivered(sent: &[SentPacket], bound: u64, now: u64, number: u32) -> Option<&Packet>
    ensures { Finds (λ packet. packet.now) result (nets.delivered bound sent.now now number) }
{
    let packet = sent.get(number as usize)?;
    if now.saturating_sub(packet.moment) <= bound {
        Some(&packet.packet)
    } else {
        None
    }
}

// What comes to a client, if it may. Out of memory is the only error.
fn input_of(
    alloc: Global,
    sent: &[SentPacket],
    bound: u64,
    now: u64,
    act: NetAct,
) -> Result<Option<Input<Packet>>, DhcpError>
    ensures { Makes (λ input. input) result (nets.input_of bound sent.now now act) }
{
    match act {
        NetAct::Nothing => Ok(Some(Input::Nothing)),
        NetAct::Deliver(number) => match delivered(sent, bound, now, number) {
            None => Ok(None),
            Some(packet) => Ok(Some(Input::Arrival(copy_of(alloc, packet)?))),
        },
        NetAct::Release => Ok(Some(Input::Release)),
        NetAct::CleanUp => Ok(Some(Input::CleanUp)),
    }
}

// A copy of a packet. Out of memory is the only error.
fn copy_of(alloc: Global, packet: &Packet) -> Result<Packet, DhcpError>
    ensures { Makes (λ copy. copy) result packet.now }
{
    let kind = packet.kind;
    let bytes = Bytes::from(packet.bytes.as_slice().to_vec(alloc)?);
    Ok(Packet { kind, bytes })
}

// What the client of a number reports of an event. Out of memory is the only error.
fn play_at(
    alloc: Global,
    peers: &mut [Peer],
    client: usize,
    event: NumberedEvent<Packet>,
) -> Result<ClientReports, DhcpError>
    requires moment { event.moment < 2 ^ 60 }
    requires inside { client < length peers.old }
    ensures plays { IfOk result (λ reported.
        PlaysAt client event reported.items peers.old peers.new) }
    ensures error { IfErr result (λ error. error ≡ no_memory) }
{
    peers[client].play(alloc, event)
}

impl RunningNet {
    /// Lets an event come: false if and only if it may not come. Out of memory is the only error.
    pub(crate) fn step(&mut self, number: u32, event: &NetEvent) -> Result<bool, DhcpError>
        requires moment { event.now.moment < 2 ^ 60 }
        ensures steps { (config : ServerConfig) (configs : ℕ → Config) (count : ℕ) (net : Net) →
            StandsForNet config configs count self.old net →
            StepsTo config configs count result self.new
            (nets.after_event (answer_to config) configs config.bound_ms count net number
            event.now) }
        ensures error { IfErr result (λ error. error ≡ no_memory) }
    {
        if event.moment < self.now {
            return Ok(false);
        }
        let moment = event.moment;
        let at = At {
            event: number,
            moment,
        };
        match event.who {
            NetWho::Client(client, refuse, act) => self.client_event(at, client, refuse, act),
            NetWho::Server(packet) => self.server_event(at, packet),
        }
    }

    // Lets an event of a client come.
    fn client_event(
        &mut self,
        at: At,
        client: u32,
        refuse: bool,
        act: NetAct,
    ) -> Result<bool, DhcpError>
        requires moment { at.moment < 2 ^ 60 }
        ensures steps { (config : ServerConfig) (configs : ℕ → Config) (count : ℕ) (net : Net) →
            StandsForNet config configs count self.old net → net.now ≤ at.moment →
            StepsTo config configs count result self.new
            (nets.after_who (answer_to config) configs config.bound_ms count net at.event at.moment
            (NetWho.Client client refuse act)) }
        ensures error { IfErr result (λ error. error ≡ no_memory) }
    {
        if client as usize >= self.peers.len() {
            return Ok(false);
        }
        let bound = self.bound_ms;
        match input_of(self.alloc, self.log.sent(), bound, at.moment, act)? {
            None => Ok(false),
            Some(input) => {
                self.play(at, client, refuse, input)?;
                Ok(true)
            }
        }
    }

    // Has a client play an event.
    fn play(
        &mut self,
        at: At,
        client: u32,
        refuse: bool,
        input: Input<Packet>,
    ) -> Result<(), DhcpError>
        requires moment { at.moment < 2 ^ 60 }
        requires inside { client < length self.old.peers.items }
        ensures played { OnOk result ((config : ServerConfig) (configs : ℕ → Config) (count : ℕ)
            (net : Net) → StandsForNet config configs count self.old net → net.now ≤ at.moment →
            StandsForNet config configs count self.new
            (nets.after_client (answer_to config) configs config.bound_ms count net at.event
            at.moment client refuse input)) }
        ensures error { IfErr result (λ error. error ≡ no_memory) }
    {
        let event = NumberedEvent {
            number: at.event,
            moment: at.moment,
            refuse,
            input,
        };
        let peers = self.peers.as_mut_slice();
        let outputs = play_at(self.alloc, peers, client as usize, event)?;
        self.log.reports(at, client, outputs)?;
        self.now = at.moment;
        Ok(())
    }

    // Lets an event of the server come.
    fn server_event(&mut self, at: At, number: u32) -> Result<bool, DhcpError>
        requires moment { at.moment < 2 ^ 60 }
        ensures steps { (config : ServerConfig) (configs : ℕ → Config) (count : ℕ) (net : Net) →
            StandsForNet config configs count self.old net → net.now ≤ at.moment →
            StepsTo config configs count result self.new
            (nets.after_who (answer_to config) configs config.bound_ms count net at.event at.moment
            (NetWho.Server number)) }
        ensures error { IfErr result (λ error. error ≡ no_memory) }
    {
        let bound = self.bound_ms;
        let Some(packet) = delivered(self.log.sent(), bound, at.moment, number) else {
            return Ok(false);
        };
        let answer = self.server.handle(at.moment, packet)?;
        if let ServerAnswer::Reply(reply) = answer {
            self.log.packet(at, reply)?;
        }
        self.now = at.moment;
        Ok(true)
    }
}

impl RunningNet {
    /// The network of a script at its start. Out of memory is the only error.
    pub(crate) fn begun(alloc: Global, script: &NetScript) -> Result<RunningNet, DhcpError>
        requires { is_lawful script.now.server ≡ true }
        ensures stands { IfOk result (λ net. StandsForNet script.now.server
            (configs_of script.now.clients) (length script.now.clients) net
            (net_at script.now.start script.now.clients)) }
        ensures error { IfErr result (λ error. error ≡ no_memory) }
    {
        let peers = begun_peers(alloc, script.clients.as_slice())?;
        let config = script.server;
        let server = DhcpV4Server::new(alloc, config)?;
        Ok(RunningNet {
            alloc,
            server,
            peers,
            log: NetLog::new(alloc),
            now: script.start,
            bound_ms: config.bound_ms,
        })
    }

    /// Lets events come: false if and only if one may not come. Out of memory is the only error.
    pub(crate) fn play_all(&mut self, events: &[NetEvent]) -> Result<bool, DhcpError>
        requires early { list_all is_early events.now ≡ true }
        requires few { length events.now ≤ 20000 }
        ensures steps { (config : ServerConfig) (configs : ℕ → Config) (count : ℕ) (net : Net) →
            StandsForNet config configs count self.old net →
            StepsTo config configs count result self.new
            (nets.net_after (answer_to config) configs config.bound_ms count net 1 events.now) }
        ensures error { IfErr result (λ error. error ≡ no_memory) }
    {
        let mut number = 1u32;
        for event in events {
            if !self.step(number, event)? {
                return Ok(false);
            }
            number += 1;
        }
        Ok(true)
    }

    /// What was reported.
    pub(crate) fn into_outputs(self) -> Vec<NetOutput>
        ensures { result.items ≡ self.log.outputs }
    {
        self.log.into_outputs()
    }
}

// The clients of a network at its start. Out of memory is the only error.
fn begun_peers(alloc: Global, clients: &[NetClient]) -> Result<Vec<Peer>, DhcpError>
    ensures peers { IfOk result (λ peers. ArePeers (configs_of clients.now)
        (views_of clients.now) peers.items) }
    ensures count { IfOk result (λ peers. length peers.items ≡ length clients.now) }
    ensures error { IfErr result (λ error. error ≡ no_memory) }
{
    let mut peers = Vec::new(alloc);
    for client in clients {
        peers.push(begun(alloc, client)?)?;
    }
    Ok(peers)
}
