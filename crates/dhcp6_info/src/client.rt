//! The client as a poll, RFC 8415 section 18.2.6.

mod replay;

ghost use Rattle.std.specs.Prelude.{◌≡◌, ◌<◌, ◌^◌, true, false, IfErr, IfOk, OnOk};
ghost use Rattle.dhcp_wire.specs.Error.{no_memory};
ghost use Rattle.dhcp_clock.specs.Words.{DrawsBy};
ghost use Rattle.dhcp_history.specs.Rules.{GivesDrawn};
ghost use Rattle.dhcp6_msg.specs.Config.{client_duid};
ghost use Rattle.dhcp6_msg.specs.Lease.{is_duid};
ghost use Rattle.dhcp6_info.specs.Client as clients;
ghost use Rattle.dhcp6_info.specs.State.{plain_state};

use crate::DhcpV6InfoState;
use crate::client_state::{ClientState, Exchange};
use crate::rules::ClientRules;
use dhcp_clock::{DhcpLink, Words};
use dhcp_history::{Client, StateReport, clean_up, is_listening, next_poll, run};
use dhcp_wire::{DhcpError, ErrorKind, FixedText, beside};
use dhcp6_msg::{DhcpV6Config, is_duid};
use std::alloc::Global;
use std::marker::Model;

/// A client for configuration alone. It does nothing by itself: `run` polls it. Contracts see its
/// configuration and the client of its rules.
#[derive(Drop)]
pub struct DhcpV6InfoClient {
    pub(crate) rules: ClientRules,
    client: Client<ClientState, Exchange>,
}

impl Model for DhcpV6InfoClient {
    ghost use Rattle.std.specs.Coded.{codes};
    ghost use Rattle.dhcp_history.specs.Schedule.{HasNextAttempt};
    ghost use Rattle.dhcp6_info.specs.contracts.info.DhcpV6Info as info_model;
    ghost use Rattle.dhcp6_info.specs.Client.{ClientParts};
    ghost use Rattle.dhcp6_info.specs.Rules.{has_attempts};

    ghost Value = { ClientParts };

    ghost coded = { Prim.hlevel (codes, info_model.the_row.coded) };

    ghost view = { λ client. record { config = client.rules.config; client = client.client } };

    ghost invariant = { λ client. HasNextAttempt has_attempts client.client };
}

impl DhcpV6InfoClient {
    ghost use Rattle.dhcp_history.specs.Calls.{IsCleanUp, IsListening, IsRun};
    ghost use Rattle.dhcp_history.specs.Errors.{run_answer};
    ghost use Rattle.dhcp_history.specs.Machine.{has_open_attempt};
    ghost use Rattle.dhcp_history.specs.Run.{OnNoMemory, UnlessNoMemory};
    ghost use Rattle.dhcp_history.specs.Seen.{seen};
    ghost use Rattle.dhcp_history.specs.Traced.{Traces};
    ghost use Rattle.dhcp_history.specs.Turns.{PollsUnheard, RunsOut, TakesTurns};
    ghost use Rattle.dhcp6_info.specs.Client.{Begins, IsNextPoll, can_begin};
    ghost use Rattle.dhcp6_info.specs.Rules.{protocol, may_answer};

    /// A client with this configuration, whose mode is not used. An empty identifier becomes that
    /// of the MAC address, or if there is none one at random; any other stays. `InvalidArgument` if
    /// and only if the interface index is 0, the address to send from is ::, the identifier is
    /// neither empty nor 2 to 65,535 bytes, or there are more than 32,766 codes; then no word is
    /// drawn. Else out of memory is the only error.
    pub fn init<W: Words>(
        alloc: Global,
        config: DhcpV6Config,
        words: &mut W,
    ) -> Result<Self, DhcpError>
        ensures begins { OnOk result (can_begin config ≡ true) }
        ensures begun { IfOk result (Begins config) }
        ensures drawn { IfOk result (λ client. GivesDrawn (client_duid config)
            (W.left words.old) client.config.duid (W.left words.new)) }
        ensures given { IfOk result (λ client. DrawsBy W.gives (client_duid config)
            words.old client.config.duid words.new) }
        ensures refused { can_begin config ≡ false → IfErr result
            (λ error. error.kind ≡ ErrorKind.InvalidArgument) }
        ensures errors { can_begin config ≡ true → IfErr result
            (λ error. error ≡ no_memory) }
        ensures undrawn { can_begin config ≡ false → words.new ≡ words.old }
    {
        let mut config = config;
        let filled = fill_duid(alloc, &mut config, words);
        let (config, ()) = beside(config, filled)?;
        Ok(DhcpV6InfoClient {
            client: Client::new(ClientState::Inform, first_exchange(), config.timeout_sec, 0),
            rules: ClientRules { alloc, config },
        })
    }

    /// One poll at a moment, in milliseconds: a kept error, the time limit, the end of the state,
    /// the pause, an attempt, the wait of a refused attempt, the packet. Returns the new state, or
    /// none if it has not changed: then nothing is due until a later moment. `Timeout` if and only
    /// if the time limit of the state is over, and from then on until a clean-up. When out of
    /// memory the client is as it was, or as it was right after its message was sent.
    pub fn run<W: Words, L: DhcpLink>(
        &mut self,
        now: u64,
        words: &mut W,
        link: &mut L,
    ) -> Result<Option<DhcpV6InfoState>, DhcpError>
        requires { now < 2 ^ 60 }
        ensures ran { IsRun protocol plain_state may_answer now result
            (seen self.old (W.left words.old) (L.shown link.old) (L.faults link.old))
            (seen self.new (W.left words.new) (L.shown link.new) (L.faults link.new)) }
        ensures traced { UnlessNoMemory (run_answer plain_state result)
            (Traces (protocol self.old.config) W.gives L.moves now (run_answer plain_state result)
            self.old.client self.new.client words.old words.new link.old link.new) }
        ensures ran_out { OnNoMemory (run_answer plain_state result) (RunsOut L.moves (λ message.
            PollsUnheard (protocol self.old.config) W.gives now message
            self.old.client self.new.client words.old)
            self.old.client self.new.client link.old link.new) }
        ensures used { TakesTurns L.moves (has_open_attempt self.old.client.standing.phase)
            link.old link.new }
    {
        crate::laws::table_is_lawful();
        let reported = run(&self.rules, &mut self.client, now, words, link)?;
        Ok(reported.map(StateReport::into_state))
    }

    /// Drops the configuration that was given, the attempt and a kept error: the client asks anew,
    /// with no previous wait.
    pub fn clean_up(&mut self)
        ensures { IsCleanUp protocol self.old self.new }
    {
        clean_up(&self.rules, &mut self.client);
    }

    /// The moment, in milliseconds, at which a poll next does something without a packet: before
    /// it, but not before the last moment of the client, such a poll does nothing; at or after it a
    /// poll returns a change or `Timeout`, sends, or begins a pause. A client that was not polled
    /// yet has the moment 0. None only if an error is kept, or the configuration is never to be
    /// refreshed. Does not allocate.
    pub fn next_poll(&self) -> Option<u64>
        ensures { IsNextPoll result self.now }
    {
        next_poll(&self.rules, &self.client)
    }

    /// Whether a packet may be asked for at a moment, in milliseconds: an attempt is open then, or
    /// is due and made then. A poll of a client that was polled in its state asks its link for a
    /// packet if and only if this is true, unless the link refuses what the poll sends. If it is
    /// false, no poll at this moment asks: packets that wait can be dropped. Does not allocate.
    pub fn is_listening(&self, now: u64) -> bool
        ensures { IsListening protocol now result self.now }
    {
        is_listening(&self.rules, &self.client, now)
    }
}

// Fills the identifier, if it is empty, once a client can begin with this configuration.
fn fill_duid<W: Words>(
    alloc: Global,
    config: &mut DhcpV6Config,
    words: &mut W,
) -> Result<(), DhcpError>
    ensures begins { OnOk result (clients.can_begin config.old ≡ true) }
    ensures set { OnOk result (config.new ≡ record config.old { duid = config.new.duid }) }
    ensures sendable { OnOk result (is_duid config.new.duid ≡ true) }
    ensures drawn { OnOk result (GivesDrawn (client_duid config.old)
        (W.left words.old) config.new.duid (W.left words.new)) }
    ensures given { OnOk result (DrawsBy W.gives (client_duid config.old)
        words.old config.new.duid words.new) }
    ensures refused { clients.can_begin config.old ≡ false → IfErr result
        (λ error. error.kind ≡ ErrorKind.InvalidArgument) }
    ensures errors { clients.can_begin config.old ≡ true → IfErr result
        (λ error. error ≡ no_memory) }
    ensures undrawn { clients.can_begin config.old ≡ false → words.new ≡ words.old }
{
    if !can_begin(config) {
        return Err(DhcpError::new_fixed(ErrorKind::InvalidArgument, FixedText::Config));
    }
    config.init_duid(alloc, words)
}

// Whether a configuration says where a client sends from, with an identifier that can be sent, or
// with none yet, and with codes that leave room for that of the refresh time.
fn can_begin(config: &DhcpV6Config) -> bool
    ensures { result ≡ clients.can_begin config.now }
{
    config.iface_index != 0
        && !config.src_ip.is_unspecified()
        && (config.duid.is_empty() || is_duid(&config.duid))
        && config.request_opts.len() <= 32766
}

// The exchange in which a client begins.
fn first_exchange() -> Exchange
    ensures { result ≡ clients.first_exchange }
{
    Exchange {
        xid: 0,
        previous_wait: 0,
    }
}
