//! The client as a poll, RFC 8415 section 18.2.

mod release;
mod replay;
mod verdict;

ghost use Rattle.std.specs.Prelude.{◌≡◌, ◌<◌, ◌^◌, true, false, None, IfSome, IfErr, IfOk, OnErr, OnOk, is_ok};
ghost use Rattle.dhcp_wire.specs.Error.{no_memory};
ghost use Rattle.dhcp_wire.specs.Outcome.{Finds};
ghost use Rattle.dhcp_clock.specs.Words.{DrawsBy};
ghost use Rattle.dhcp_history.specs.Rules.{GivesDrawn};
ghost use Rattle.dhcp6_msg.specs.Lease.{is_duid, is_within_limits};
ghost use Rattle.dhcp6_client.specs.Client as clients;
ghost use Rattle.dhcp6_client.specs.State.{plain_state};

use crate::DhcpV6State;
use crate::client_state::{ClientState, Exchange};
use crate::draws::restarted;
use crate::granted_lease::GrantedLease;
use crate::rules::{ClientRules, bound_state};
use dhcp_clock::{DhcpLink, Words};
use dhcp_history::{BoundLease, Client, StateReport, clean_up, is_listening, next_poll, run};
use dhcp_wire::{DhcpError, ErrorKind, FixedText, beside};
use dhcp6_msg::{DhcpV6Config, DhcpV6Lease, DhcpV6Mode, is_duid, new_id};
use std::alloc::Global;
use std::marker::Model;

/// A client. It does nothing by itself: `run` polls it. Contracts see its configuration and the
/// client of its rules. T1, T2 and the lifetimes of each lease that it holds are in order.
#[derive(Drop)]
pub struct DhcpV6Client {
    pub(crate) rules: ClientRules,
    client: Client<ClientState, Exchange>,
}

impl Model for DhcpV6Client {
    ghost use Rattle.std.specs.Coded.{codes};
    ghost use Rattle.dhcp_history.specs.Schedule.{HasNextAttempt};
    ghost use Rattle.dhcp6_msg.specs.contracts.lease.DhcpV6Lease as lease_model;
    ghost use Rattle.std.specs.Prelude.{◌≡◌, true};
    ghost use Rattle.dhcp6_client.specs.Client.{ClientParts};
    ghost use Rattle.dhcp6_client.specs.Held.{has_times_in_order};
    ghost use Rattle.dhcp6_client.specs.Rules.{has_attempts};

    ghost Value = { ClientParts };

    ghost coded = { Prim.hlevel (codes, lease_model.the_row.coded) };

    ghost view = { λ client. record { config = client.rules.config; client = client.client } };

    ghost invariant = { λ client. HasNextAttempt has_attempts client.client
        × (has_times_in_order client.client.state ≡ true) };
}

impl DhcpV6Client {
    ghost use Rattle.dhcp_history.specs.Calls.{IsCleanUp, IsListening, IsNextPoll, IsRun};
    ghost use Rattle.dhcp_history.specs.Errors.{run_answer};
    ghost use Rattle.dhcp_history.specs.Machine.{has_open_attempt};
    ghost use Rattle.dhcp_history.specs.Run.{OnNoMemory, UnlessNoMemory};
    ghost use Rattle.dhcp_history.specs.Seen.{seen};
    ghost use Rattle.dhcp_history.specs.Traced.{Traces};
    ghost use Rattle.dhcp_history.specs.Turns.{PollsUnheard, RunsOut, TakesTurns};
    ghost use Rattle.dhcp6_client.specs.Client.{
      Begins,
      IsDone,
      IsReset,
      can_begin,
      drawn_for,
      first_draws,
      undrawn_duid,
    };
    ghost use Rattle.dhcp6_client.specs.Granted.{HeardLease};
    ghost use Rattle.dhcp6_client.specs.Held.{KeepsLease};
    ghost use Rattle.dhcp6_client.specs.declared.state.PlainState.TheVariants as plain;
    ghost use Rattle.dhcp6_msg.specs.Lease.{Lease, are_times_in_order, is_within_limits};
    ghost use Rattle.dhcp6_client.specs.Rules.{protocol, held_lease, lease_end, may_answer};

    /// A client with this configuration, and with a lease that it held before, if there is one,
    /// whose times count from this moment, in milliseconds: it renews that lease, unless it asks
    /// for temporary addresses. An empty identifier becomes that of the MAC address, or if there is
    /// none one at random; any other stays. Draws the transaction id. `InvalidArgument` if and only
    /// if the interface index is 0, the address to send from is ::, the identifier is neither empty
    /// nor 2 to 65,535 bytes, there are more than 32,767 codes, or the lease is one that `done`
    /// refuses; then no word is drawn. Else out of memory is the only error.
    pub fn init<W: Words>(
        alloc: Global,
        config: DhcpV6Config,
        lease: Option<DhcpV6Lease>,
        now: u64,
        words: &mut W,
    ) -> Result<Self, DhcpError>
        requires { now < 2 ^ 60 }
        ensures begins { OnOk result (can_begin config lease ≡ true) }
        ensures begun { IfOk result (Begins config lease now) }
        ensures drawn { IfOk result (λ client. GivesDrawn (first_draws config)
            (W.left words.old) (drawn_for client) (W.left words.new)) }
        ensures given { IfOk result (λ client. DrawsBy W.gives (first_draws config)
            words.old (drawn_for client) words.new) }
        ensures identifier { IfOk result (λ client. IfSome (undrawn_duid config)
            (λ duid. client.config.duid ≡ duid)) }
        ensures refused { can_begin config lease ≡ false → IfErr result
            (λ error. error.kind ≡ ErrorKind.InvalidArgument) }
        ensures errors { can_begin config lease ≡ true → IfErr result
            (λ error. error ≡ no_memory) }
        ensures undrawn { can_begin config lease ≡ false → words.new ≡ words.old }
    {
        let mut config = config;
        let xid = first_id(alloc, &mut config, &lease, words);
        let ((config, lease), xid) = beside((config, lease), xid)?;
        let state = first_state(config.mode, lease, now);
        Ok(DhcpV6Client {
            client: Client::new(state, first_exchange(xid), config.timeout_sec, now),
            rules: ClientRules { alloc, config },
        })
    }

    /// One poll at a moment, in milliseconds: a kept error, the time limit, the end of the state,
    /// the pause, an attempt, the wait of a refused attempt, the packet. Returns the new state, or
    /// none if it has not changed: then nothing is due until a later moment. `Timeout` if and only
    /// if the time limit of the state is over, and from then on until a clean-up, or a release that
    /// the link takes. When out of memory the client is as it was, or as it was right after its
    /// message was sent.
    pub fn run<W: Words, L: DhcpLink>(
        &mut self,
        now: u64,
        words: &mut W,
        link: &mut L,
    ) -> Result<Option<DhcpV6State>, DhcpError>
        requires { now < 2 ^ 60 }
        ensures ran { IsRun protocol plain_state may_answer now result
            (seen self.old (W.left words.old) (L.shown link.old) (L.faults link.old))
            (seen self.new (W.left words.new) (L.shown link.new) (L.faults link.new)) }
        ensures traced { UnlessNoMemory (run_answer plain_state result)
            (Traces (protocol self.old.config) W.gives L.moves now (run_answer plain_state result)
            self.old.client self.new.client words.old words.new link.old link.new) }
        ensures ran_out { OnNoMemory (run_answer plain_state result) (RunsOut L.moves (λ message.
            PollsUnheard (protocol self.old.config) W.gives now message
            self.old.client self.new.client words.old)
            self.old.client self.new.client link.old link.new) }
        ensures used { TakesTurns L.moves (has_open_attempt self.old.client.standing.phase)
            link.old link.new }
        ensures leases { KeepsLease self.old.config.mode now (run_answer plain_state result)
            self.old.client self.new.client }
        // a lease that is reported was read from the packet that the link gave last
        ensures heard { IfOk result (λ change. IfSome change (λ state. (lease : Lease) →
            plain_state state ≡ plain.Done lease → HeardLease W.gives L.moves now lease self.old
            words.old words.new link.old link.new)) }
    {
        crate::laws::table_is_lawful();
        crate::laws::leases_are_granted(self);
        let reported = run(&self.rules, &mut self.client, now, words, link)?;
        Ok(reported.map(StateReport::into_state))
    }

    /// Drops the lease, the offer, the attempt and a kept error: the client searches anew, with its
    /// transaction id as it is, and no count and no previous wait.
    pub fn clean_up(&mut self)
        ensures cleaned { IsCleanUp protocol self.old self.new }
        ensures dropped { held_lease self.new.client.state ≡ None }
    {
        clean_up(&self.rules, &mut self.client);
    }

    /// Begins the count of attempts and their waits anew within a stay, and counts the elapsed time
    /// from this moment, in milliseconds, or from the first poll of the stay if that comes later.
    /// An attempt that is open stays open, with its transaction id.
    pub fn reset_retransmit_counters(&mut self, now: u64)
        requires { now < 2 ^ 60 }
        ensures { IsReset now self.old self.new }
    {
        let mut exchange = restarted(self.client.standing.exchange);
        exchange.counted_from = now;
        self.client.standing.exchange = exchange;
        self.client.last_moment = now;
    }

    /// The moment, in milliseconds, at which a poll next does something without a packet: before
    /// it, but not before the last moment of the client, such a poll does nothing; at or after it a
    /// poll returns a change or `Timeout`, sends, or begins a pause. None if and only if an error
    /// is kept. Does not allocate.
    pub fn next_poll(&self) -> Option<u64>
        ensures { IsNextPoll protocol result self.now }
    {
        next_poll(&self.rules, &self.client)
    }

    /// Whether a packet may be asked for at a moment, in milliseconds: an attempt is open then, or
    /// is due and made then. A poll of a client that was polled in its state asks its link for a
    /// packet if and only if this is true, unless the link refuses what the poll sends. If it is
    /// false, no poll at this moment asks: packets that wait can be dropped. Does not allocate.
    pub fn is_listening(&self, now: u64) -> bool
        ensures { IsListening protocol now result self.now }
    {
        is_listening(&self.rules, &self.client, now)
    }

    /// Gives the client a lease that is granted at this moment, in milliseconds. It drops what the
    /// client held, its offer and its attempt, and begins its count and its waits anew; an error
    /// that is kept stays. `InvalidArgument` if and only if T1, T2 and the valid lifetime are out
    /// of order, the preferred lifetime is longer than that, the address is ::, the type of the
    /// identity association is not known, or the server's identifier is not 2 to 65,535 bytes; then
    /// the client is unchanged. Does not allocate.
    pub fn done(&mut self, lease: DhcpV6Lease, now: u64) -> Result<(), DhcpError>
        requires { now < 2 ^ 60 }
        ensures taken { is_ok result ≡ is_within_limits lease }
        ensures done { OnOk result (IsDone lease now self.old self.new) }
        ensures refused { IfErr result (λ error. error.kind ≡ ErrorKind.InvalidArgument) }
        ensures unchanged { OnErr result (self.new ≡ self.old) }
    {
        if !lease.is_within_limits() {
            drop(lease);
            return Err(DhcpError::new_fixed(ErrorKind::InvalidArgument, FixedText::Lease));
        }
        let exchange = restarted(self.client.standing.exchange);
        let state = bound_state(self.rules.config.mode, bound(lease, now));
        self.client.enter(state, exchange, now);
        Ok(())
    }

    /// The lease that is held, if one is. A client that keeps `Timeout` returns its lease past the
    /// end of that too: see `lease_end`.
    pub fn lease(&self) -> Option<&DhcpV6Lease>
        ensures held { Finds (λ lease. lease.now) result (held_lease self.now.client.state) }
        ensures ordered { IfSome result (λ lease. are_times_in_order lease.now ≡ true) }
    {
        self.client.state.held_lease()
    }

    /// The moment, in milliseconds, at which the valid lifetime of the lease that is held ends;
    /// none if no lease is held. Until then its address or prefix may be used; a client that keeps
    /// `Timeout` does not give it up by itself. Does not allocate.
    pub fn lease_end(&self) -> Option<u64>
        ensures { result ≡ lease_end self.now.client.state }
    {
        self.client.state.lease_end()
    }
}

// The transaction id with which a client begins. It is drawn once the client can begin with this
// configuration and this lease, and after the identifier, which is filled if it is empty.
fn first_id<W: Words>(
    alloc: Global,
    config: &mut DhcpV6Config,
    lease: &Option<DhcpV6Lease>,
    words: &mut W,
) -> Result<u32, DhcpError>
    ensures begins { OnOk result (clients.can_begin config.old lease.now ≡ true) }
    ensures set { OnOk result (config.new ≡ record config.old { duid = config.new.duid }) }
    ensures sendable { OnOk result (is_duid config.new.duid ≡ true) }
    ensures drawn { IfOk result (λ xid. GivesDrawn (clients.first_draws config.old)
        (W.left words.old) (record { config = config.new; xid = xid }) (W.left words.new)) }
    ensures given { IfOk result (λ xid. DrawsBy W.gives (clients.first_draws config.old)
        words.old (record { config = config.new; xid = xid }) words.new) }
    ensures identifier { OnOk result (IfSome (clients.undrawn_duid config.old)
        (λ duid. config.new.duid ≡ duid)) }
    ensures refused { clients.can_begin config.old lease.now ≡ false → IfErr result
        (λ error. error.kind ≡ ErrorKind.InvalidArgument) }
    ensures errors { clients.can_begin config.old lease.now ≡ true → IfErr result
        (λ error. error ≡ no_memory) }
    ensures undrawn { clients.can_begin config.old lease.now ≡ false → words.new ≡ words.old }
{
    check_start(config, lease)?;
    config.init_duid(alloc, words)?;
    Ok(new_id(words.next_word()))
}

// Whether a client can begin with this lease and this configuration; the error names the first of
// them that it cannot begin with.
fn check_start(config: &DhcpV6Config, lease: &Option<DhcpV6Lease>) -> Result<(), DhcpError>
    ensures begins { is_ok result ≡ clients.can_begin config.now lease.now }
    ensures refused { IfErr result (λ error. error.kind ≡ ErrorKind.InvalidArgument) }
{
    let refused = match lease {
        Some(lease) if !lease.is_within_limits() => FixedText::Lease,
        _ if !has_source(config) || !config.is_within_limits() => FixedText::Config,
        _ => return Ok(()),
    };
    Err(DhcpError::new_fixed(ErrorKind::InvalidArgument, refused))
}

// Whether a configuration says where a client sends from, and with an identifier that can be sent,
// or with none yet.
fn has_source(config: &DhcpV6Config) -> bool
    ensures { result ≡ clients.has_source config.now }
{
    config.iface_index != 0
        && !config.src_ip.is_unspecified()
        && (config.duid.is_empty() || is_duid(&config.duid))
}

// A lease that is within its limits, from this moment on.
fn bound(lease: DhcpV6Lease, now: u64) -> BoundLease<GrantedLease>
    requires limits { is_within_limits lease ≡ true }
    requires moment { now < 2 ^ 60 }
    ensures { result ≡ record { lease = lease; since = now } }
{
    BoundLease::new(GrantedLease::new(lease), now)
}

// The state in which a client begins.
fn first_state(mode: DhcpV6Mode, lease: Option<DhcpV6Lease>, now: u64) -> ClientState
    requires limits { IfSome lease (λ lease. is_within_limits lease ≡ true) }
    requires moment { now < 2 ^ 60 }
    ensures { result ≡ clients.first_state mode lease now }
{
    match lease {
        Some(lease) if mode != DhcpV6Mode::TemporaryAddresses => {
            ClientState::Renew(bound(lease, now))
        }
        unused => {
            drop(unused);
            ClientState::Solicit
        }
    }
}

// The exchange in which it begins, with this transaction id.
fn first_exchange(xid: u32) -> Exchange
    ensures { result ≡ clients.first_exchange xid }
{
    Exchange {
        xid,
        retransmit_count: 0,
        previous_wait: 0,
        counted_from: 0,
    }
}
