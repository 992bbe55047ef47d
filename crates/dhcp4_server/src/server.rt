//! The server core, RFC 2131 section 4.3.

ghost use Rattle.std.specs.Prelude.{◌≡◌, ◌<◌, ◌+◌, ◌^◌, ℕ, [], false, IfErr, IfOk, OnErr, is_ok, option_map, Some, true};
ghost use Rattle.dhcp_wire.specs.Error.{no_memory};
ghost use Rattle.dhcp_wire.specs.Outcome.{Makes};
ghost use Rattle.dhcp4_server.specs.Answer.{answer_message, answer_query, answer_to};
ghost use Rattle.dhcp4_server.specs.Config.{is_lawful, kept_ms};
ghost use Rattle.dhcp4_server.specs.Reply.{packet_of, reply_by};
ghost use Rattle.dhcp4_server.specs.Server.{AnswersBy, StandsFor, begun, packet_in};

use crate::ServerConfig;
use crate::decision::{Decision, Query};
use crate::laws::replies_read_back;
use crate::reply::{packet_of, reply_to_decision};
use crate::request::{message_of, query_of};
use crate::table::Table;
use dhcp_clock::{Packet, PacketKind};
use dhcp_wire::{DhcpError, ErrorKind, FixedText};
use dhcp4_msg::DhcpV4Message;
use std::alloc::Global;
use std::marker::Model;

/// What a server answers to a packet.
#[derive(Drop)]
pub enum ServerAnswer {
    /// Nothing.
    Silent,
    /// This packet, which has the carrier of the packet that it answers.
    Reply(Packet),
}

/// A server: its configuration, and the binding of each address of its pool. It knows a client by
/// the transaction id of its messages, which a client of this library keeps for its life.
#[derive(Drop)]
pub struct DhcpV4Server {
    alloc: Global,
    config: ServerConfig,
    table: Table,
}

impl Model for DhcpV4Server {
    ghost use Rattle.std.specs.Prelude.{◌≡◌, true, length};
    ghost use Rattle.std.specs.Net.Addr.{ipv4_bits};
    ghost use Rattle.dhcp4_server.specs.Config.{is_lawful};
    ghost use Rattle.dhcp4_server.specs.Server.{Server};

    ghost Value = { Server };

    ghost view = { λ server. record { config = server.config; places = server.table.places } };

    ghost invariant = { λ server. (is_lawful server.config ≡ true)
        × (server.table.first ≡ ipv4_bits server.config.first)
        × (length server.table.places ≡ server.config.count) };
}

// The moment until which an address is kept that is granted now, in milliseconds.
fn kept_until(config: &ServerConfig, now: u64) -> u64
    requires moment { now < 2 ^ 60 }
    requires bound { config.now.bound_ms < 2 ^ 40 }
    ensures { result ≡ now + kept_ms config.now }
{
    now + (1000 * u64::from(config.lease_sec) + config.bound_ms)
}

impl DhcpV4Server {
    /// A server that has granted nothing yet. `InvalidArgument` if and only if it can't have this
    /// configuration: `count` is 0 or above 65,536, the pool goes past 255.255.255.255,
    /// `lease_sec` is 0, or `bound_ms` is 2^40 or more. Out of memory is the only other error.
    pub fn new(alloc: Global, config: ServerConfig) -> Result<DhcpV4Server, DhcpError>
        ensures made { is_lawful config ≡ true → Makes (λ server. server) result (begun config) }
        ensures refused { is_lawful config ≡ false → (is_ok result ≡ false)
            × IfErr result (λ error. error.kind ≡ ErrorKind.InvalidArgument) }
        ensures stands { IfOk result (λ server. (latest : ℕ) → StandsFor server latest []) }
    {
        if !config.is_lawful() {
            return Err(DhcpError::new_fixed(ErrorKind::InvalidArgument, FixedText::Config));
        }
        let table = Table::new(alloc, config.first.to_bits(), config.count)?;
        Ok(DhcpV4Server {
            alloc,
            config,
            table,
        })
    }

    /// What the server answers to a packet at a moment, in milliseconds. For each list of Acks that
    /// the server stands for, it is the answer that those Acks give, and the server stands for the
    /// Acks then. A packet that brings no message to a server, whatever its bytes are, is not
    /// answered and changes nothing. Out of memory is the only error, and changes nothing.
    pub fn handle(&mut self, now: u64, packet: &Packet) -> Result<ServerAnswer, DhcpError>
        requires { now < 2 ^ 60 }
        ensures answered { IfOk result (λ answer. AnswersBy
            (λ acks. answer_to self.old.config acks now packet.now) now answer
            self.old self.new) }
        ensures config { self.new.config ≡ self.old.config }
        ensures memory { IfErr result (λ error. error ≡ no_memory) }
        ensures err { OnErr result (self.new ≡ self.old) }
    {
        match message_of(self.alloc, packet)? {
            None => Ok(ServerAnswer::Silent),
            Some(message) => self.answer(now, packet.kind, &message),
        }
    }

    // The answer to a message that is carried so.
    fn answer(
        &mut self,
        now: u64,
        kind: PacketKind,
        message: &DhcpV4Message,
    ) -> Result<ServerAnswer, DhcpError>
        requires { now < 2 ^ 60 }
        ensures answered { IfOk result (λ answer. AnswersBy
            (λ acks. answer_message self.old.config acks now kind (Some message.now)) now answer
            self.old self.new) }
        ensures config { self.new.config ≡ self.old.config }
        ensures memory { IfErr result (λ error. error ≡ no_memory) }
        ensures err { OnErr result (self.new ≡ self.old) }
    {
        match query_of(&self.config, message) {
            None => Ok(ServerAnswer::Silent),
            Some(query) => self.decide(now, kind, message, query),
        }
    }

    // The answer to what a message asks for.
    fn decide(
        &mut self,
        now: u64,
        kind: PacketKind,
        message: &DhcpV4Message,
        query: Query,
    ) -> Result<ServerAnswer, DhcpError>
        requires { now < 2 ^ 60 }
        ensures answered { IfOk result (λ answer. AnswersBy
            (λ acks. answer_query self.old.config acks now kind message.now (Some query)) now
            answer self.old self.new) }
        ensures config { self.new.config ≡ self.old.config }
        ensures memory { IfErr result (λ error. error ≡ no_memory) }
        ensures err { OnErr result (self.new ≡ self.old) }
    {
        let decision = self.table.decide(message.xid, now, query);
        let end = kept_until(&self.config, now);
        let answer = self.reply(kind, message, decision)?;
        self.table.note(message.xid, end, decision)?;
        Ok(answer)
    }

    // The reply to a message that is carried so, by what was decided.
    fn reply(
        &self,
        kind: PacketKind,
        message: &DhcpV4Message,
        decision: Decision,
    ) -> Result<ServerAnswer, DhcpError>
        ensures { Makes packet_in result
            (option_map (packet_of self.now.config kind)
            (reply_by self.now.config message.now decision)) }
    {
        replies_read_back(&self.config, message, decision);
        match reply_to_decision(self.alloc, &self.config, message, decision)? {
            None => Ok(ServerAnswer::Silent),
            Some(reply) => {
                let packet = packet_of(self.alloc, &self.config, kind, &reply)?;
                Ok(ServerAnswer::Reply(packet))
            }
        }
    }
}
