//! Laws of the client, over every configuration and every script. Each is the clause of a function
//! that does nothing.

ghost use Rattle.std.specs.Prelude.{◌≡◌, ℕ, All, Bool, List, Ok, Option, Some};
ghost use Rattle.dhcp_clock.specs.Link.{Turn};
ghost use Rattle.dhcp_clock.specs.declared.link.Packet.{Packet};
ghost use Rattle.dhcp_history.specs.Bounds.{KeepsDistance};
ghost use Rattle.dhcp_history.specs.History.{history};
ghost use Rattle.dhcp_history.specs.Laws.{KeepsLaws};
ghost use Rattle.dhcp_history.specs.Protocol.{Lawful};
ghost use Rattle.dhcp_history.specs.Machine.{View};
ghost use Rattle.dhcp_history.specs.Script.{Script};
ghost use Rattle.dhcp_history.specs.Traced.{IsPollBy};
ghost use Rattle.dhcp6_msg.specs.Config.{Config};
ghost use Rattle.dhcp6_info.specs.declared.client_state.ClientState.{ClientState};
ghost use Rattle.dhcp6_info.specs.declared.client_state.Exchange.{Exchange};
ghost use Rattle.dhcp6_info.specs.Bounds.{distance};
ghost use Rattle.dhcp6_info.specs.Given.{IsGiven};
ghost use Rattle.dhcp6_info.specs.Rules.{protocol, public_state};
ghost use Rattle.dhcp6_info.specs.declared.info.DhcpV6Info.{DhcpV6Info};
ghost use Rattle.dhcp6_info.specs.declared.state.PlainInfoState.TheVariants as plain;

use crate::DhcpV6InfoClient;
use dhcp_history::laws;

/// The table of states is lawful, whatever the configuration: its waits are at least a millisecond
/// and over by the end of the state, and the changes of one event come to an end. So each law of
/// dhcp_history holds of the client.
pub fn table_is_lawful()
    ensures { (config : Config) → Lawful (protocol config) }
{}

/// The laws of dhcp_history on polls hold of the client. What its calls and polls report over a
/// script is what the history of the script reports. At an event it is polled at most seven times,
/// changes its state at most six times, and hands at most two messages to the link; after the polls
/// of an event a client without a kept error is in no state whose end has come.
pub fn polls_keep_laws(client: &DhcpV6InfoClient)
    ensures { KeepsLaws (protocol client.now.config) }
{
    table_is_lawful();
    laws::polls_keep_laws(&client.rules);
}

/// In a history of a client that begins without a previous wait, successive Information-requests
/// of a stay that the link took are at least 0.9 seconds apart.
pub fn messages_are_far_apart(client: &DhcpV6InfoClient)
    ensures { (script : Script Packet ClientState Exchange) →
        script.exchange.previous_wait ≡ 0 →
        All (KeepsDistance distance) (history (protocol client.now.config) script) }
{
    laws::messages_are_far_apart(&client.rules);
}

/// Over every link and every source of words: a configuration that a poll reports was read from a
/// packet that this very poll was given. It came as the payload of a Reply with the transaction id
/// of the attempt that was open at the poll, or that the poll made.
pub fn configurations_are_given(client: &DhcpV6InfoClient)
    ensures { (now : ℕ) (refuse : Bool) (packet : Option Packet) (turns : List Turn)
        (info : DhcpV6Info) (old new : View ClientState Exchange) →
        IsPollBy (protocol client.now.config) now refuse packet turns
        (Ok (Some (plain.Done info))) old new →
        plain.Done info ≡ public_state new.state →
        IsGiven client.now.config now refuse packet info old }
{
    laws::changes_are_heard(&client.rules);
}
