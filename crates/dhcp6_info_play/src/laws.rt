//! What is promised of every client for configuration alone, over every script. A law is the clause
//! of a function that does nothing.

ghost use Rattle.std.specs.Prelude.{ℕ, List};
ghost use Rattle.dhcp6_msg.specs.Config.{Config};
ghost use Rattle.dhcp_script.specs.declared.event.Event.{Event};
ghost use Rattle.dhcp6_info_play.specs.Promises.{KeepsPromisesOver};
ghost use Rattle.dhcp6_info_play.specs.Replayed.{life_of};

use dhcp6_info::{DhcpV6InfoClient, laws};

/// Over all words and events, and with whatever configuration it begins, the Information-requests
/// of a stay that the link took are at least 0.9 seconds apart. An event has at most two messages,
/// and after its polls a client without a kept error is in no state whose end has come.
pub fn promises_are_kept(client: &DhcpV6InfoClient)
    ensures { (given : Config) (words : List ℕ) (events : List Event) →
        KeepsPromisesOver client.now.config (life_of given words events) }
{
    laws::table_is_lawful();
    laws::messages_are_far_apart(client);
    laws::polls_keep_laws(client);
}
