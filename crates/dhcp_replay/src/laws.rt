//! What is promised of every client, over every script. A law is the clause of a function that does
//! nothing.

ghost use Rattle.std.specs.Prelude.{◌≡◌, ℕ, List, None, Option, true};
ghost use Rattle.dhcp_history.specs.Points.{Rises};
ghost use Rattle.dhcp4_lease.specs.Lease.{Lease};
ghost use Rattle.dhcp6_msg.specs.Config as configs6;
ghost use Rattle.dhcp6_msg.specs.Lease as leases6;
ghost use Rattle.dhcp4_lease.specs.declared.message_forms.DhcpV4MessageForms.TheVariants.{Mozim};
ghost use Rattle.dhcp_script.specs.Version3.{saying};
ghost use Rattle.dhcp_script.specs.declared.event.Event.{Event};
ghost use Rattle.dhcp_script.specs.Event.{are_valid};
ghost use Rattle.dhcp_script.specs.declared.script4.Script4.{Script4};
ghost use Rattle.dhcp_replay.specs.Life.{numbered};
ghost use Rattle.dhcp_replay.specs.Promises4.{KeepsPromises};
ghost use Rattle.dhcp_replay.specs.Promises6.{KeepsPromisesOver};
ghost use Rattle.dhcp_replay.specs.Replayed.{outputs_of_v4};
ghost use Rattle.dhcp_replay.specs.Replayed6.{life_of};

use dhcp_script::laws::version_2_has_the_forms_of_mozim;
use dhcp4_client::{DhcpV4Client, laws};
use dhcp6_client::{DhcpV6Client, laws as laws6};

/// Over all words and events, and with whatever lease it begins, counting messages that the link
/// took, besides a release: k Requests (k at least 2) come in one stay in RENEWING only if T2 - T1,
/// and in REBINDING only if the lease time - T2, is above 60 * 2^(k-2) seconds; the messages of a
/// stay are at least three seconds apart, in RENEWING and REBINDING a minute; a lease that was held
/// before is requested at most four times in a stay, and so is an offer by the forms of RFC 2131.
/// An event has at most two messages besides a release; each attempt's message names the offer or
/// the lease of its state; where the events rise, the history holds point by point; and after the
/// polls of an event a client without a kept error is in no state whose end has come.
pub fn promises_are_kept(client: &DhcpV4Client)
    ensures { (lease : Option Lease) (words : List ℕ) (events : List Event) →
        KeepsPromises client.now.config lease words events }
{
    laws::table_is_lawful();
    laws::requests_get_rarer(client);
    laws::messages_are_far_apart(client);
    laws::four_requests_of_a_lease(client);
    laws::four_requests_of_an_offer(client);
    laws::history_by_point(client);
    laws::polls_keep_laws(client);
}

/// Over all words and events, and with whatever configuration and lease it begins, a client of IPv6
/// requests an offer at most eleven times in a stay, and its messages of a stay are at least 0.9
/// seconds apart, in Renew and Rebind nine, counting those that the link took, besides a release.
/// An event has at most two messages besides a release; each attempt's message names the offer or
/// the lease of its state; where the events rise, the history holds point by point; and after the
/// polls of an event a client without a kept error is in no state whose end has come.
pub fn promises6_are_kept(client: &DhcpV6Client)
    ensures { (given : configs6.Config) (lease : Option leases6.Lease) (start : ℕ)
        (words : List ℕ) (events : List Event) →
        KeepsPromisesOver client.now.config lease (life_of given lease start words events) }
{
    laws6::table_is_lawful();
    laws6::eleven_requests_of_an_offer(client);
    laws6::messages_are_far_apart(client);
    laws6::history_by_point(client);
    laws6::polls_keep_laws(client);
}

/// The events of a valid script rise: what `history_by_point` of the clients says of a history
/// holds of that of each valid script.
pub fn valid_events_rise()
    ensures { (start : ℕ) (events : List Event) → are_valid start events ≡ true →
        Rises 0 0 (numbered 1 events) }
{}

/// A script of an IPv4 client in version 2 is played as the same in version 3 with the forms of
/// mozim: what is reported of its client is the same.
pub fn version_2_is_played_with_the_forms_of_mozim()
    ensures { (script : Script4) → script.forms ≡ None →
        outputs_of_v4 (saying Mozim script) ≡ outputs_of_v4 script }
{
    version_2_has_the_forms_of_mozim();
}
