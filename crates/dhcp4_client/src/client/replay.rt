//! The events of a script, played over a link in memory.

ghost use Rattle.std.specs.Prelude.{◌<◌, ◌^◌, All};

use super::DhcpV4Client;
use crate::DhcpV4State;
use dhcp_clock::{Handed, Packet, Words};
use dhcp_history::{NumberedEvent, NumberedReport, StateReport, play_event, replay};
use dhcp_wire::DhcpError;

impl DhcpV4Client {
    ghost use Rattle.dhcp_history.specs.Calls.{IsPlayedEvent, IsReplay};
    ghost use Rattle.dhcp4_client.specs.Rules.{protocol};

    /// Plays the events of a script over a link in memory: at each event what it asks for, a
    /// release or a clean-up, and then polls until nothing changes any more. Returns what the
    /// events report, in order. If the words are known, and the client stands as one does that has
    /// just begun by a script with these events, it is what the history of that script reports. Out
    /// of memory is the only error.
    pub fn replay<W: Words>(
        &mut self,
        words: &mut W,
        events: Vec<NumberedEvent<Packet>>,
    ) -> Result<Vec<NumberedReport<StateReport<DhcpV4State>, Handed>>, DhcpError>
        requires { All (λ event. event.moment < 2 ^ 60) events.items }
        ensures { IsReplay protocol result (λ reported. reported.items) events.items
            self.old self.new (W.left words.old) (W.left words.new) }
    {
        crate::laws::table_is_lawful();
        let alloc = self.rules.alloc;
        replay(alloc, &self.rules, &mut self.client, words, events)
    }

    /// Plays one event, as `replay` plays each of its events, and puts what it reports at the end
    /// of a list. Out of memory is the only error; a part of the reports may then be there.
    pub fn play_event<W: Words>(
        &mut self,
        words: &mut W,
        event: NumberedEvent<Packet>,
        reports: &mut Vec<NumberedReport<StateReport<DhcpV4State>, Handed>>,
    ) -> Result<(), DhcpError>
        requires { event.moment < 2 ^ 60 }
        ensures { IsPlayedEvent protocol result event reports.old.items reports.new.items
            self.old self.new (W.left words.old) (W.left words.new) }
    {
        let alloc = self.rules.alloc;
        play_event(alloc, &self.rules, &mut self.client, words, event, reports)
    }
}
