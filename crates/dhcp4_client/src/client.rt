//! The client as a poll, RFC 2131 section 4.4.

mod release;
mod replay;
mod verdict;

ghost use Rattle.std.specs.Prelude.{◌≡◌, ◌<◌, ◌^◌, true, None, IfErr, IfOk, IfSome, OnErr, OnOk, is_ok};
ghost use Rattle.dhcp_wire.specs.Outcome.{Finds};
ghost use Rattle.dhcp4_client.specs.Client as clients;
ghost use Rattle.dhcp4_client.specs.State.{plain_state};

use crate::DhcpV4State;
use crate::client_state::{ClientState, Exchange};
use crate::rules::{ClientRules, restarted};
use dhcp_clock::{DhcpLink, Words};
use dhcp_history::{BoundLease, Client, StateReport, clean_up, is_listening, next_poll, run};
use dhcp_wire::{DhcpError, ErrorKind, FixedText, beside};
use dhcp4_lease::{DhcpV4Config, DhcpV4Lease};
use std::alloc::Global;
use std::marker::Model;

/// A client. It does nothing by itself: `run` polls it. Contracts see its configuration and the
/// client of its rules. T1, T2 and the end of each lease that it holds are in order.
#[derive(Drop)]
pub struct DhcpV4Client {
    pub(crate) rules: ClientRules,
    client: Client<ClientState, Exchange>,
}

impl Model for DhcpV4Client {
    ghost use Rattle.std.specs.Coded.{codes};
    ghost use Rattle.dhcp_history.specs.Schedule.{HasNextAttempt};
    ghost use Rattle.dhcp4_lease.specs.contracts.lease.DhcpV4Lease as lease_model;
    ghost use Rattle.std.specs.Prelude.{◌≡◌, true};
    ghost use Rattle.dhcp4_client.specs.Client.{ClientParts};
    ghost use Rattle.dhcp4_client.specs.Held.{has_times_in_order};
    ghost use Rattle.dhcp4_client.specs.Rules.{has_attempts};

    ghost Value = { ClientParts };

    ghost coded = { Prim.hlevel (codes, lease_model.the_row.coded) };

    ghost view = { λ client. record { config = client.rules.config; client = client.client } };

    ghost invariant = { λ client. HasNextAttempt has_attempts client.client
        × (has_times_in_order client.client.state ≡ true) };
}

impl DhcpV4Client {
    ghost use Rattle.dhcp_history.specs.Calls.{IsCleanUp, IsListening, IsNextPoll, IsRun};
    ghost use Rattle.dhcp_history.specs.Errors.{run_answer};
    ghost use Rattle.dhcp_history.specs.Machine.{has_open_attempt};
    ghost use Rattle.dhcp_history.specs.Run.{OnNoMemory, UnlessNoMemory};
    ghost use Rattle.dhcp_history.specs.Seen.{seen};
    ghost use Rattle.dhcp_history.specs.Traced.{Traces};
    ghost use Rattle.dhcp_history.specs.Turns.{PollsUnheard, RunsOut, TakesTurns};
    ghost use Rattle.dhcp_clock.specs.Words.{GivesNext};
    ghost use Rattle.dhcp4_client.specs.Client.{Begins, IsDone, can_begin};
    ghost use Rattle.dhcp4_client.specs.Granted.{HeardLease};
    ghost use Rattle.dhcp4_client.specs.Held.{KeepsLease};
    ghost use Rattle.dhcp4_client.specs.declared.state.PlainState.TheVariants as plain;
    ghost use Rattle.dhcp4_lease.specs.Lease.{Lease, are_times_in_order};
    ghost use Rattle.dhcp4_client.specs.Rules.{protocol, held_lease, lease_end, may_answer};

    /// A client with this configuration, and with a lease that it held before, if there is one: it
    /// requests that lease first. It draws its transaction id. `InvalidArgument` if and only if the
    /// interface index is 0, the configuration is not within its limits, or T1, T2 and the end of
    /// the lease are out of order; then no word is drawn. Does not allocate.
    pub fn init<W: Words>(
        alloc: Global,
        config: DhcpV4Config,
        lease: Option<DhcpV4Lease>,
        words: &mut W,
    ) -> Result<Self, DhcpError>
        ensures begins { is_ok result ≡ can_begin config lease }
        ensures begun { IfOk result (Begins config lease) }
        ensures drawn { IfOk result (λ client. GivesNext
            (W.left words.old) client.client.standing.exchange.xid (W.left words.new)) }
        ensures given { IfOk result (λ client.
            W.gives client.client.standing.exchange.xid words.old words.new) }
        ensures refused { IfErr result (λ error. error.kind ≡ ErrorKind.InvalidArgument) }
        ensures undrawn { OnErr result (words.new ≡ words.old) }
    {
        let begins = check_start(&config, &lease);
        let ((config, lease), ()) = beside((config, lease), begins)?;
        let exchange = Exchange {
            xid: words.next_word(),
            retry_count: 0,
        };
        Ok(DhcpV4Client {
            client: Client::new(first_state(lease), exchange, config.timeout_sec, 0),
            rules: ClientRules { alloc, config },
        })
    }

    /// One poll at a moment, in milliseconds: a kept error, the time limit, the end of the state,
    /// the pause, an attempt, the wait of a refused attempt, the packet. Returns the new state, or
    /// none if it has not changed: then nothing is due until a later moment. `Timeout` if and only
    /// if the time limit of the state is over, and from then on until a clean-up, or a release that
    /// the link takes. When out of memory the client is as it was, or as it was right after its
    /// message was sent.
    pub fn run<W: Words, L: DhcpLink>(
        &mut self,
        now: u64,
        words: &mut W,
        link: &mut L,
    ) -> Result<Option<DhcpV4State>, DhcpError>
        requires { now < 2 ^ 60 }
        ensures ran { IsRun protocol plain_state (may_answer self.old.config.message_forms)
            now result
            (seen self.old (W.left words.old) (L.shown link.old) (L.faults link.old))
            (seen self.new (W.left words.new) (L.shown link.new) (L.faults link.new)) }
        ensures traced { UnlessNoMemory (run_answer plain_state result)
            (Traces (protocol self.old.config) W.gives L.moves now (run_answer plain_state result)
            self.old.client self.new.client words.old words.new link.old link.new) }
        ensures ran_out { OnNoMemory (run_answer plain_state result) (RunsOut L.moves (λ message.
            PollsUnheard (protocol self.old.config) W.gives now message
            self.old.client self.new.client words.old)
            self.old.client self.new.client link.old link.new) }
        ensures used { TakesTurns L.moves (has_open_attempt self.old.client.standing.phase)
            link.old link.new }
        ensures leases { KeepsLease now (run_answer plain_state result)
            self.old.client self.new.client }
        // a lease that is reported was read from the packet that the link gave last
        ensures heard { IfOk result (λ change. IfSome change (λ state. (lease : Lease) →
            plain_state state ≡ plain.Done lease → HeardLease W.gives L.moves now lease self.old
            words.old words.new link.old link.new)) }
    {
        crate::laws::table_is_lawful();
        crate::laws::leases_are_granted(self);
        let reported = run(&self.rules, &mut self.client, now, words, link)?;
        Ok(reported.map(StateReport::into_state))
    }

    /// Drops the lease, the offer, the attempt and a kept error: the client searches anew, with its
    /// transaction id and its retry count as they are.
    pub fn clean_up(&mut self)
        ensures cleaned { IsCleanUp protocol self.old self.new }
        ensures dropped { held_lease self.new.client.state ≡ None }
    {
        clean_up(&self.rules, &mut self.client);
    }

    /// The moment, in milliseconds, at which a poll next does something without a packet: before
    /// it, but not before the last moment of the client, such a poll does nothing; at or after it a
    /// poll returns a change or `Timeout`, sends, or begins a pause. None if and only if an error
    /// is kept. Does not allocate.
    pub fn next_poll(&self) -> Option<u64>
        ensures { IsNextPoll protocol result self.now }
    {
        next_poll(&self.rules, &self.client)
    }

    /// Whether a packet may be asked for at a moment, in milliseconds: an attempt is open then, or
    /// is due and made then. A poll of a client that was polled in its state asks its link for a
    /// packet if and only if this is true, unless the link refuses what the poll sends. If it is
    /// false, no poll at this moment asks: packets that wait can be dropped. Does not allocate.
    pub fn is_listening(&self, now: u64) -> bool
        ensures { IsListening protocol now result self.now }
    {
        is_listening(&self.rules, &self.client, now)
    }

    /// Gives the client a lease that is acknowledged at this moment, in milliseconds. It drops what
    /// the client held, its offer and its attempt; an error that is kept stays. `InvalidArgument`
    /// if and only if T1, T2 and the end of the lease are out of order; then the client is
    /// unchanged. Does not allocate.
    pub fn done(&mut self, lease: DhcpV4Lease, now: u64) -> Result<(), DhcpError>
        requires { now < 2 ^ 60 }
        ensures taken { is_ok result ≡ are_times_in_order lease }
        ensures done { OnOk result (IsDone lease now self.old self.new) }
        ensures refused { IfErr result (λ error. error.kind ≡ ErrorKind.InvalidArgument) }
        ensures unchanged { OnErr result (self.new ≡ self.old) }
    {
        if !lease.are_times_in_order() {
            drop(lease);
            return Err(DhcpError::new_fixed(ErrorKind::InvalidArgument, FixedText::Times));
        }
        let exchange = restarted(self.client.standing.exchange);
        let state = ClientState::Done(BoundLease::new(lease, now));
        self.client.enter(state, exchange, now);
        Ok(())
    }

    /// The lease that is held, if one is. In REBOOTING it is the lease that `init` was given, which
    /// no server has confirmed yet. A client that keeps `Timeout` returns its lease past the end of
    /// that too: see `lease_end`.
    pub fn lease(&self) -> Option<&DhcpV4Lease>
        ensures held { Finds (λ lease. lease.now) result (held_lease self.now.client.state) }
        ensures ordered { IfSome result (λ lease. are_times_in_order lease.now ≡ true) }
    {
        self.client.state.held_lease()
    }

    /// The moment, in milliseconds, at which the lease that is held ends; none if no lease is held,
    /// or in REBOOTING, where its time does not count yet. Until then its address may be used; a
    /// client that keeps `Timeout` does not give it up by itself. Does not allocate.
    pub fn lease_end(&self) -> Option<u64>
        ensures { result ≡ lease_end self.now.client.state }
    {
        self.client.state.lease_end()
    }
}

// Whether a client can begin with this lease and this configuration; the error names the first of
// them that it cannot begin with.
fn check_start(config: &DhcpV4Config, lease: &Option<DhcpV4Lease>) -> Result<(), DhcpError>
    ensures begins { is_ok result ≡ clients.can_begin config.now lease.now }
    ensures refused { IfErr result (λ error. error.kind ≡ ErrorKind.InvalidArgument) }
{
    let refused = match lease {
        Some(lease) if !lease.are_times_in_order() => FixedText::Times,
        _ if config.iface_index == 0 || !config.is_within_limits() => FixedText::Config,
        _ => return Ok(()),
    };
    Err(DhcpError::new_fixed(ErrorKind::InvalidArgument, refused))
}

// The state in which it begins.
fn first_state(lease: Option<DhcpV4Lease>) -> ClientState
    ensures { result ≡ clients.first_state lease }
{
    match lease {
        Some(lease) => ClientState::Rebooting(lease),
        None => ClientState::InitReboot,
    }
}
