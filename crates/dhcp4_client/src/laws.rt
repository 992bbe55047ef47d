//! Laws of the client, over every configuration and every script. Each is the clause of a function
//! that does nothing.

ghost use Rattle.std.specs.Prelude.{◌≡◌, ◌⊎◌, ℕ, All, Bool, List, Ok, Option, Some};
ghost use Rattle.dhcp_clock.specs.Link.{Turn};
ghost use Rattle.dhcp_history.specs.Machine.{View};
ghost use Rattle.dhcp_history.specs.Traced.{IsPollBy};
ghost use Rattle.dhcp4_client.specs.Granted.{LeasesAreGranted};
ghost use Rattle.dhcp4_client.specs.declared.state.PlainState.TheVariants as plain;
ghost use Rattle.dhcp_clock.specs.declared.link.Packet.{Packet};
ghost use Rattle.dhcp_history.specs.Bounds.{KeepsDistance};
ghost use Rattle.dhcp_history.specs.declared.client.Client.{Client};
ghost use Rattle.dhcp_history.specs.Client.{unpolled};
ghost use Rattle.dhcp_history.specs.History.{history};
ghost use Rattle.dhcp_history.specs.Points.{HoldsByPoint, Rises};
ghost use Rattle.dhcp_history.specs.RealCalls.{AreScript, Call, CallsLead, Disciplined};
ghost use Rattle.dhcp_history.specs.Laws.{KeepsLaws};
ghost use Rattle.dhcp_history.specs.Protocol.{Lawful};
ghost use Rattle.dhcp_history.specs.Script.{Script};
ghost use Rattle.dhcp4_lease.specs.Config.{Config};
ghost use Rattle.dhcp4_lease.specs.declared.message_forms.DhcpV4MessageForms.TheVariants.{Rfc2131};
ghost use Rattle.dhcp4_client.specs.declared.client_state.ClientState.{ClientState};
ghost use Rattle.dhcp4_client.specs.declared.client_state.Exchange.{Exchange};
ghost use Rattle.dhcp4_lease.specs.Lease.{Lease};
ghost use Rattle.dhcp4_client.specs.Bounds.{
  GetsRarer,
  HasFourRequests,
  HasFourRequestsOfAnOffer,
  distance,
};
ghost use Rattle.dhcp4_client.specs.Client.{first_state};
ghost use Rattle.dhcp4_client.specs.Rules.{held_lease, protocol, public_state};
ghost use Rattle.dhcp4_client.specs.declared.state.PlainState.{PlainState};

use crate::DhcpV4Client;
use dhcp_clock::{DhcpLink, Words};
use dhcp_history::laws;

/// The table of states is lawful, whatever the configuration: its waits are at least a millisecond
/// and over by the end of the state, and the changes of one event come to an end. So each law of
/// dhcp_history holds of the client.
pub fn table_is_lawful()
    ensures { (config : Config) → Lawful (protocol config) }
{}

/// The laws of dhcp_history on polls hold of the client. What its calls and polls report over a
/// script is what the history of the script reports. At an event it is polled at most seven times,
/// changes its state at most six times, and hands at most two messages to the link; after the polls
/// of an event a client without a kept error is in no state whose end has come.
pub fn polls_keep_laws(client: &DhcpV4Client)
    ensures { KeepsLaws (protocol client.now.config) }
{
    table_is_lawful();
    laws::polls_keep_laws(&client.rules);
}

/// The history of a script whose events rise, point by point. A stay closes with an answer only at
/// an event whose packet is read as one to the attempt that is open then: the last one, which the
/// link took, before its wait, the time limit and the state are over. Where no stay is answered at
/// an event, its packet is read as no answer wherever an attempt is open. Each message is that of
/// the table for an attempt in its state, or for the release of the lease that is held. And each
/// stay begins where the one before it leads to.
pub fn history_by_point(client: &DhcpV4Client)
    ensures { (script : Script Packet ClientState Exchange) → Rises 0 0 script.events →
        HoldsByPoint (protocol client.now.config) script.events
        (history (protocol client.now.config) script) }
{
    table_is_lawful();
    laws::history_by_point(&client.rules);
}

/// Calls of `run` over any link and any source of words, one after the other from a client that was
/// not polled yet, and at once again after each change, are a script: what they report is what the
/// history of that script reports. So what holds of every script holds of a manager's own run.
pub fn calls_are_a_script<W: Words, L: DhcpLink>(client: &DhcpV4Client, words: &W, link: &L)
    ensures { (calls : List (Call PlainState)) (old new : Client ClientState Exchange)
        (first last : W) (here there : L) →
        CallsLead (protocol client.now.config) W.gives L.moves calls old first here new last there →
        Disciplined calls → old.standing ≡ unpolled old.standing.exchange →
        AreScript (protocol client.now.config) W.gives L.moves
        calls old first here new last there }
{
    table_is_lawful();
    laws::calls_are_a_script(&client.rules, words, link);
}

/// In the history of a client that begins with this lease or none, the Requests of a stay in
/// RENEWING, or in REBINDING, that the link took get rarer by half.
pub fn requests_get_rarer(client: &DhcpV4Client)
    ensures { (lease : Option Lease) (script : Script Packet ClientState Exchange) →
        script.state ≡ first_state lease →
        All GetsRarer (history (protocol client.now.config) script) }
{
    laws::entries_hold(&client.rules);
    laws::messages_halve(&client.rules);
}

/// In a history a lease that was held before is requested at most four times in a stay.
pub fn four_requests_of_a_lease(client: &DhcpV4Client)
    ensures { (script : Script Packet ClientState Exchange) →
        All HasFourRequests (history (protocol client.now.config) script) }
{
    laws::attempts_run_out(&client.rules);
}

/// In a history of a client that has the message forms of RFC 2131 an offer is requested at most
/// four times in a stay: after the fourth request without an answer it begins its search anew
/// (section 3.1).
pub fn four_requests_of_an_offer(client: &DhcpV4Client)
    ensures { client.now.config.message_forms ≡ Rfc2131 →
        (script : Script Packet ClientState Exchange) →
        All HasFourRequestsOfAnOffer (history (protocol client.now.config) script) }
{
    laws::attempts_run_out(&client.rules);
}

/// In a history successive messages of a stay that the link took, besides a release, are at least
/// three seconds apart, and those in RENEWING and in REBINDING a minute.
pub fn messages_are_far_apart(client: &DhcpV4Client)
    ensures { (script : Script Packet ClientState Exchange) →
        All (KeepsDistance distance) (history (protocol client.now.config) script) }
{
    laws::messages_are_far_apart(&client.rules);
}

/// Over every link and every source of words: a lease that a poll reports was read from a packet
/// that this very poll was given. It came as the state awaits, to the client's port, with the
/// client's transaction id, and of the awaited type; and each field of the lease but its times is
/// that of its message.
pub fn leases_are_granted(client: &DhcpV4Client)
    ensures { (now : ℕ) → LeasesAreGranted client.now.config now }
{
    laws::changes_are_heard(&client.rules);
}

/// Over every link and every source of words: the lease that is held after a change was held before
/// it, or is the one that the change reports.
pub fn leases_are_reported(client: &DhcpV4Client)
    ensures { (now : ℕ) (refuse : Bool) (packet : Option Packet) (turns : List Turn)
        (reported : PlainState) (lease : Lease) (old new : View ClientState Exchange) →
        IsPollBy (protocol client.now.config) now refuse packet turns
        (Ok (Some reported)) old new →
        held_lease new.state ≡ Some lease →
        (held_lease old.state ≡ Some lease) ⊎ (public_state new.state ≡ plain.Done lease) }
{
    laws::changes_are_heard(&client.rules);
}
