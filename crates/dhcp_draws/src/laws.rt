//! How many words an event draws. Each law is the clause of a function that does nothing.

ghost use Rattle.dhcp_clock.specs.Words.{drawn_word};
ghost use Rattle.dhcp4_client.specs.Rules as rules4;
ghost use Rattle.dhcp4_lease.specs.Config as config4;
ghost use Rattle.dhcp6_client.specs.Client.{first_draws};
ghost use Rattle.dhcp6_client.specs.Rules as rules6;
ghost use Rattle.dhcp6_msg.specs.Config as config6;
ghost use Rattle.dhcp_draws.specs.Draws.{DrawsAtMost, DrawsWithin, Limits};
ghost use Rattle.dhcp_draws.specs.Events.{EventsTakeAtMost, EventsTakeWithin};
ghost use Rattle.dhcp_draws.specs.Tables.{limits4, limits6, most_words};

use dhcp_history::Rules;

/// An event draws at most the words of a pause and an attempt, and one with a packet those of two
/// pauses, two attempts and a reading. It looks at no more: if so many are left, it does the same
/// with further words behind them.
pub fn events_take_few_words<R: Rules>(rules: &R)
    ensures { (limits : Limits) → DrawsWithin limits (R.protocol rules.now) →
        EventsTakeWithin (R.protocol rules.now) limits }
{
    let _rules = rules;
}

/// The table of states of each family draws within its limits, whatever the configuration.
pub fn tables_draw_within_limits()
    ensures ipv4 { (config : config4.Config) → DrawsWithin limits4 (rules4.protocol config) }
    ensures ipv6 { (config : config6.Config) → DrawsWithin limits6 (rules6.protocol config) }
{}

/// A client of either family draws at most eight words as it begins, and at most eight at each
/// event, and looks at no more. If so many are left, it does the same with further words behind
/// them.
pub fn eight_words_are_enough()
    ensures begins4 { DrawsAtMost most_words drawn_word }
    ensures begins6 { (config : config6.Config) → DrawsAtMost most_words (first_draws config) }
    ensures events4 { (config : config4.Config) →
        EventsTakeAtMost (rules4.protocol config) most_words }
    ensures events6 { (config : config6.Config) →
        EventsTakeAtMost (rules6.protocol config) most_words }
{}
