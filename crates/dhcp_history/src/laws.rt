//! The laws of histories, over all rules and every script; most ask that the rules are lawful. Each
//! is the clause of a function that does nothing.

ghost use Rattle.std.specs.Prelude.{◌≡◌, ◌≤◌, ◌⊎◌, ℕ, All, Bool, true, List, Option, Some, Ok};
ghost use Rattle.dhcp_clock.specs.Link.{Turn};
ghost use Rattle.dhcp_history.specs.declared.client.Client.{Client};
ghost use Rattle.dhcp_history.specs.HeardBy.{IsEnded, IsHeard};
ghost use Rattle.dhcp_history.specs.Machine.{View};
ghost use Rattle.dhcp_history.specs.RealCalls.{AreRun, AreScript, Call, CallsLead, Disciplined};
ghost use Rattle.dhcp_history.specs.Client.{unpolled};
ghost use Rattle.dhcp_history.specs.Traced.{IsPollBy};
ghost use Rattle.dhcp_clock.specs.declared.link.Packet.{Packet};
ghost use Rattle.dhcp_history.specs.Protocol.{Lawful};
ghost use Rattle.dhcp_history.specs.Script.{Script};
ghost use Rattle.dhcp_history.specs.History.{history, outputs};
ghost use Rattle.dhcp_history.specs.Laws.{
  PollsGiveTheHistory,
  RunsAreScripts,
  HasSevenPolls,
  HasTwoMessages,
  IsNeverOverdue,
  KeepsLaws,
};
ghost use Rattle.dhcp_history.specs.Bounds.{
  count_of,
  is_send_at,
  allowed,
  CloseInTurn,
  IsApart,
  HasAtMost,
  IsSparse,
  HoldsAtEntries,
  IsKept,
  IsDistant,
  IsTakenDistant,
  Numbered,
  InOrder,
};
ghost use Rattle.dhcp_history.specs.Points.{HoldsByPoint, Rises};

use crate::Rules;
use dhcp_clock::{DhcpLink, Words};

/// What the calls and polls of a script report, event by event, is what the history of the script
/// reports.
pub fn polls_give_the_history<R: Rules>(rules: &R)
    ensures { Lawful (R.protocol rules.now) → PollsGiveTheHistory (R.protocol rules.now) }
{
    let _rules = rules;
}

/// What a run of polls over any link reports is what the history of a script reports: the run is
/// that script.
pub fn runs_are_scripts<R: Rules>(rules: &R)
    ensures { Lawful (R.protocol rules.now) → RunsAreScripts (R.protocol rules.now) }
{
    let _rules = rules;
}

/// Calls that follow one another, over any link and any source of words, are the polls of a run.
pub fn calls_are_a_run<R: Rules, W: Words, L: DhcpLink>(rules: &R, words: &W, link: &L)
    ensures { (calls : List (Call R.PublicState)) (old new : Client R.State R.Exchange)
        (first last : W) (here there : L) →
        CallsLead (R.protocol rules.now) W.gives L.moves calls old first here new last there →
        AreRun (R.protocol rules.now) W.gives L.moves calls old first here new last there }
{
    let _rules = rules;
    let _words = words;
    let _link = link;
}

/// Calls over any link and any source of words, from a client that was not polled yet, that poll
/// again at once after each change, are a script: what they report is what its history reports.
pub fn calls_are_a_script<R: Rules, W: Words, L: DhcpLink>(rules: &R, words: &W, link: &L)
    ensures { Lawful (R.protocol rules.now) →
        (calls : List (Call R.PublicState)) (old new : Client R.State R.Exchange)
        (first last : W) (here there : L) →
        CallsLead (R.protocol rules.now) W.gives L.moves calls old first here new last there →
        Disciplined calls → old.standing ≡ unpolled old.standing.exchange →
        AreScript (R.protocol rules.now) W.gives L.moves calls old first here new last there }
{
    let _rules = rules;
    let _words = words;
    let _link = link;
}

/// A change that a poll reports, over any link, comes from the end of the state, or from a packet
/// that this very poll was given and that answers the open attempt by the protocol.
pub fn changes_are_heard<R: Rules>(rules: &R)
    ensures { (now : ℕ) (refuse : Bool) (packet : Option Packet) (turns : List Turn)
        (reported : R.PublicState) (old new : View R.State R.Exchange) →
        IsPollBy (R.protocol rules.now) now refuse packet turns (Ok (Some reported)) old new →
        IsEnded (R.protocol rules.now) now old new
        ⊎ IsHeard (R.protocol rules.now) now refuse packet old new }
{
    let _rules = rules;
}

/// At an event a client is polled at most seven times, and changes its state at most six times;
/// more polls than seven would do nothing more.
pub fn seven_polls_an_event<R: Rules>(rules: &R)
    ensures { Lawful (R.protocol rules.now) → HasSevenPolls (R.protocol rules.now) }
{
    let _rules = rules;
}

/// At an event the polls of a client hand at most two messages to the link.
pub fn two_messages_an_event<R: Rules>(rules: &R)
    ensures { Lawful (R.protocol rules.now) → HasTwoMessages (R.protocol rules.now) }
{
    let _rules = rules;
}

/// In what a history reports, an event has at most two messages, and a third where it asks for a
/// release.
pub fn two_messages_a_number<R: Rules>(rules: &R)
    ensures { Lawful (R.protocol rules.now) →
        (script : Script Packet R.State R.Exchange) (number : ℕ) →
        count_of (is_send_at number)
        (outputs (R.protocol rules.now) (history (R.protocol rules.now) script))
        ≤ allowed number script.events }
{
    let _rules = rules;
}

/// What a history reports, stay by stay, is in the order of the numbers of its events, if those
/// never fall.
pub fn reports_are_in_order<R: Rules>(rules: &R)
    ensures { Lawful (R.protocol rules.now) →
        (script : Script Packet R.State R.Exchange) (least : ℕ) →
        Numbered least script.events →
        InOrder least (outputs (R.protocol rules.now) (history (R.protocol rules.now) script)) }
{
    let _rules = rules;
}

/// After the polls of an event a client without a kept error is not past the end of its state.
pub fn no_state_is_overdue<R: Rules>(rules: &R)
    ensures { Lawful (R.protocol rules.now) → IsNeverOverdue (R.protocol rules.now) }
{
    let _rules = rules;
}

/// The four laws of polls in one: what polls report is what the history reports; an event has at
/// most seven polls, six changes and two messages; and no state is overdue after them.
pub fn polls_keep_laws<R: Rules>(rules: &R)
    ensures { Lawful (R.protocol rules.now) → KeepsLaws (R.protocol rules.now) }
{
    polls_give_the_history(rules);
    seven_polls_an_event(rules);
    two_messages_an_event(rules);
    no_state_is_overdue(rules);
}

/// The history of a script whose events rise, point by point. A stay closes with an answer only at
/// an event whose packet is read as one to the attempt that is open then: the last one, which the
/// link took, before its wait, the time limit and the state are over. Where no stay is answered at
/// an event, its packet is read as no answer wherever an attempt is open. Each message is the one
/// that the protocol has for an attempt in its state, or for the release of the lease that is held.
/// And each stay begins where the one before it leads to.
pub fn history_by_point<R: Rules>(rules: &R)
    ensures { Lawful (R.protocol rules.now) →
        (script : Script Packet R.State R.Exchange) → Rises 0 0 script.events →
        HoldsByPoint (R.protocol rules.now) script.events (history (R.protocol rules.now) script) }
{
    let _rules = rules;
}

/// The last stay of a history lasts, and all others close.
pub fn stays_close_in_turn<R: Rules>(rules: &R)
    ensures { Lawful (R.protocol rules.now) → (script : Script Packet R.State R.Exchange) →
        CloseInTurn (history (R.protocol rules.now) script) }
{
    let _rules = rules;
}

/// In a stay each attempt is made when the wait of the one before is over, or later, whether the
/// link took that or refused it.
pub fn attempts_are_apart<R: Rules>(rules: &R)
    ensures { (script : Script Packet R.State R.Exchange) →
        All IsApart (history (R.protocol rules.now) script) }
{
    let _rules = rules;
}

/// A stay in a state that ends after n taken attempts has at most n of them.
pub fn attempts_run_out<R: Rules>(rules: &R)
    ensures { (script : Script Packet R.State R.Exchange) →
        All (HasAtMost (R.protocol rules.now)) (history (R.protocol rules.now) script) }
{
    let _rules = rules;
}

/// In a state whose waits are half of the time to its end (RFC 2131 section 4.4.5), a stay in which
/// the link took n messages besides a release, from 2 on, has more than 60 * 2^(n - 2) seconds from
/// its entry to that end.
pub fn messages_halve<R: Rules>(rules: &R)
    ensures { (script : Script Packet R.State R.Exchange) →
        All (IsSparse (R.protocol rules.now)) (history (R.protocol rules.now) script) }
{
    let _rules = rules;
}

/// Successive attempts of a stay keep the least distance, in milliseconds, that the waits of its
/// state have over the exchanges that pass a test: one that each exchange passes with which a stay
/// begins, and that a wait which is over preserves.
pub fn attempts_are_far_apart<R: Rules>(rules: &R)
    ensures { (good : R.Exchange → Bool) → IsKept (R.protocol rules.now) good →
        (script : Script Packet R.State R.Exchange) → good script.exchange ≡ true →
        All (IsDistant (R.protocol rules.now) good) (history (R.protocol rules.now) script) }
{
    let _rules = rules;
}

/// The messages of a stay that the link took, besides a release, keep the same least distance, by
/// the same test.
pub fn messages_are_far_apart<R: Rules>(rules: &R)
    ensures { (good : R.Exchange → Bool) → IsKept (R.protocol rules.now) good →
        (script : Script Packet R.State R.Exchange) → good script.exchange ≡ true →
        All (IsTakenDistant (R.protocol rules.now) good) (history (R.protocol rules.now) script) }
{
    let _rules = rules;
}

/// What holds of the first state at each moment, and of each state at its entry, holds of all
/// stays.
pub fn entries_hold<R: Rules>(rules: &R)
    ensures { (holds : R.State → ℕ → Bool) → HoldsAtEntries (R.protocol rules.now) holds →
        (script : Script Packet R.State R.Exchange) → ((now : ℕ) → holds script.state now ≡ true) →
        All (λ stay. holds stay.setting.state stay.setting.entered ≡ true)
        (history (R.protocol rules.now) script) }
{
    let _rules = rules;
}
