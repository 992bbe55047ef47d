//! The loop over the events of a script: at each event the call that it asks for, and then its
//! polls, over a link in memory.

ghost use Rattle.std.specs.Prelude.{◌≡◌, ◌<◌, ◌^◌, ℕ, All, List, None, [], ◌∷◌, ◌++◌, Err, true, OnOk, IfOk, IfSome, slice_get, option_map};
ghost use Rattle.dhcp_clock.specs.MemLink.{without_oldest};
ghost use Rattle.dhcp_history.specs.Calls.{PlaysEvent, Replays};
ghost use Rattle.dhcp_history.specs.Script.{Release, input_after_call};
ghost use Rattle.dhcp_history.specs.Machine.{poll, handed_output};
ghost use Rattle.dhcp_history.specs.Client.{view_of};
ghost use Rattle.dhcp_history.specs.Kept.{Keeps};
ghost use Rattle.dhcp_history.specs.Schedule.{HasNextAttempt};
ghost use Rattle.dhcp_history.specs.Run.{input_of};
ghost use Rattle.dhcp_history.specs.EventLoop.{
  release_outputs,
  poll_outputs,
  is_again,
  has_memory,
  event_of,
  HasPolledOnce,
  polls_at,
  call_at,
  event_at,
  events_at,
  HasReported,
  HasCalled,
  last_moment,
};

use crate::{
    Client, Failure, Input, NumberedEvent, NumberedReport, ReleaseError, Report, Rules, RunError,
    clean_up, release_held, run,
};
use dhcp_clock::{Handed, MemLink, Packet, Words};
use dhcp_wire::DhcpError;
use std::alloc::{AllocError, Global};

// An event without its input.
#[derive(Clone, Copy)]
struct EventHead {
    number: u32,
    moment: u64,
    refuse: bool,
}

// The oldest message that the link lists, which is then taken out.
fn take_message(link: &mut MemLink) -> Option<Handed>
    ensures message { result ≡ option_map (λ handed. handed.0) (slice_get link.old.shown.handed 0) }
    ensures rest { link.new ≡ without_oldest link.old }
{
    match link.take_handed() {
        None => None,
        Some((message, _)) => Some(message),
    }
}

// Adds a report of an event.
fn report<S: Drop>(
    number: u32,
    report: Report<S, Handed>,
    outputs: &mut Vec<NumberedReport<S, Handed>>,
) -> Result<(), AllocError>
    ensures { OnOk result (outputs.new.items
        ≡ outputs.old.items ++ record { event = number; report = report } ∷ []) }
{
    outputs.push(NumberedReport {
        event: number,
        report,
    })?;
    Ok(())
}

// Reports the message that was handed to a link, if there is one.
fn report_handed<S: Drop>(
    number: u32,
    refuse: bool,
    handed: Option<Handed>,
    outputs: &mut Vec<NumberedReport<S, Handed>>,
) -> Result<(), AllocError>
    ensures { OnOk result (outputs.new.items
        ≡ outputs.old.items ++ handed_output number refuse handed) }
{
    match handed {
        None => Ok(()),
        Some(message) => {
            if refuse {
                report(number, Report::Refused(message), outputs)
            } else {
                report(number, Report::Handed(message), outputs)
            }
        }
    }
}

// Reports a release, after the message that was handed for it.
fn report_release<S: Drop>(
    number: u32,
    refuse: bool,
    released: Result<bool, ReleaseError>,
    handed: Option<Handed>,
    outputs: &mut Vec<NumberedReport<S, Handed>>,
) -> Result<(), AllocError>
    ensures memory { OnOk result (released ≡ Err ReleaseError.OutOfMemory → ⊥) }
    ensures outputs { OnOk result (outputs.new.items
        ≡ outputs.old.items ++ release_outputs number refuse handed released) }
{
    report_handed(number, refuse, handed, outputs)?;
    match released {
        Err(ReleaseError::OutOfMemory) => Err(AllocError),
        Err(ReleaseError::Refused) => {
            report(number, Report::Failed(Failure::SendRefused), outputs)
        }
        Ok(_) => Ok(()),
    }
}

// Reports a poll, after the message that was handed in it; returns whether the client is polled
// again.
fn report_poll<S: Drop>(
    number: u32,
    refuse: bool,
    polled: Result<Option<S>, RunError>,
    handed: Option<Handed>,
    outputs: &mut Vec<NumberedReport<S, Handed>>,
) -> Result<bool, AllocError>
    ensures memory { OnOk result (has_memory polled ≡ true) }
    ensures again { IfOk result (λ again. again ≡ is_again polled) }
    ensures outputs { OnOk result (outputs.new.items
        ≡ outputs.old.items ++ poll_outputs number refuse handed polled) }
{
    report_handed(number, refuse, handed, outputs)?;
    match polled {
        Err(RunError::OutOfMemory) => Err(AllocError),
        Err(RunError::TimedOut) => {
            report(number, Report::Failed(Failure::TimedOut), outputs)?;
            Ok(false)
        }
        Ok(None) => Ok(false),
        Ok(Some(next)) => {
            report(number, Report::Changed(next), outputs)?;
            Ok(true)
        }
    }
}

// One poll, which is reported; returns whether the client is polled again.
fn poll_once<R: Rules, W: Words>(
    rules: &R,
    client: &mut Client<R::State, R::Exchange>,
    words: &mut W,
    link: &mut MemLink,
    at: EventHead,
    outputs: &mut Vec<NumberedReport<R::PublicState, Handed>>,
) -> Result<bool, AllocError>
    requires moment { at.moment < 2 ^ 60 }
    requires empty { link.old.shown.handed ≡ [] }
    ensures polled { IfOk result (λ again. IfSome (W.left words.old) (λ available.
        HasPolledOnce (R.protocol rules.now) at.number at.refuse
        (poll (R.protocol rules.now) at.moment link.old.shown.refuses
        (input_of link.old.shown.waiting) (view_of client.old available))
        again outputs.old.items outputs.new.items (view_of client.new) (W.left words.new)
        link.new.shown.waiting)) }
    ensures refuses { link.new.shown.refuses ≡ link.old.shown.refuses }
    ensures empty { link.new.shown.handed ≡ [] }
    ensures moment { OnOk result (client.new.last_moment ≡ at.moment) }
    ensures armed { HasNextAttempt (R.protocol rules.now).has_attempts client.old →
        HasNextAttempt (R.protocol rules.now).has_attempts client.new }
    ensures keeps { Keeps (R.protocol rules.now) client.old.state client.new.state }
{
    let polled = run(rules, client, at.moment, words, link);
    let handed = take_message(link);
    report_poll(at.number, at.refuse, polled, handed, outputs)
}

// The polls of an event, until one answers no change.
fn poll_event<R: Rules, W: Words>(
    rules: &R,
    client: &mut Client<R::State, R::Exchange>,
    words: &mut W,
    link: &mut MemLink,
    at: EventHead,
    outputs: &mut Vec<NumberedReport<R::PublicState, Handed>>,
) -> Result<(), AllocError>
    requires moment { at.moment < 2 ^ 60 }
    requires empty { link.old.shown.handed ≡ [] }
    requires refuses { link.old.shown.refuses ≡ at.refuse }
    ensures reported { OnOk result (IfSome (W.left words.old) (λ available.
        HasReported (polls_at (R.protocol rules.now) 7
        (event_of at (input_of link.old.shown.waiting)) (view_of client.old available))
        outputs.old.items outputs.new.items (view_of client.new) (W.left words.new))) }
    ensures moment { OnOk result (client.new.last_moment ≡ at.moment) }
    ensures armed { HasNextAttempt (R.protocol rules.now).has_attempts client.old →
        HasNextAttempt (R.protocol rules.now).has_attempts client.new }
    ensures keeps { Keeps (R.protocol rules.now) client.old.state client.new.state }
{
    for _ in 0..7u32 {
        if !poll_once(rules, client, words, link, at, outputs)? {
            return Ok(());
        }
    }
    Ok(())
}

// A release of the lease that is held, as an event asks for it.
fn release_event<R: Rules>(
    rules: &R,
    client: &mut Client<R::State, R::Exchange>,
    link: &mut MemLink,
    at: EventHead,
    outputs: &mut Vec<NumberedReport<R::PublicState, Handed>>,
) -> Result<(), AllocError>
    requires empty { link.old.shown.handed ≡ [] }
    requires refuses { link.old.shown.refuses ≡ at.refuse }
    ensures called { OnOk result ((available : List ℕ) →
        HasCalled (call_at (R.protocol rules.now) (event_of at Release)
        (view_of client.old available))
        outputs.old.items outputs.new.items (view_of client.new available)) }
    ensures link { OnOk result (link.new.shown ≡ link.old.shown) }
    ensures armed { HasNextAttempt (R.protocol rules.now).has_attempts client.old →
        HasNextAttempt (R.protocol rules.now).has_attempts client.new }
    ensures keeps { Keeps (R.protocol rules.now) client.old.state client.new.state }
{
    let released = release_held(rules, client, link);
    let handed = take_message(link);
    report_release(at.number, at.refuse, released, handed, outputs)
}

// The call that an event asks for; its packet waits at the link then.
fn call_event<R: Rules>(
    rules: &R,
    client: &mut Client<R::State, R::Exchange>,
    link: &mut MemLink,
    at: EventHead,
    input: Input<Packet>,
    outputs: &mut Vec<NumberedReport<R::PublicState, Handed>>,
) -> Result<(), AllocError>
    requires empty { link.old.shown.handed ≡ [] }
    requires refuses { link.old.shown.refuses ≡ at.refuse }
    requires no_packet { link.old.shown.waiting ≡ None }
    ensures called { OnOk result ((available : List ℕ) →
        HasCalled (call_at (R.protocol rules.now) (event_of at input)
        (view_of client.old available))
        outputs.old.items outputs.new.items (view_of client.new available)) }
    ensures empty { OnOk result (link.new.shown.handed ≡ []) }
    ensures refuses { OnOk result (link.new.shown.refuses ≡ at.refuse) }
    ensures packet { OnOk result (input_of link.new.shown.waiting ≡ input_after_call input) }
    ensures armed { HasNextAttempt (R.protocol rules.now).has_attempts client.old →
        HasNextAttempt (R.protocol rules.now).has_attempts client.new }
    ensures keeps { Keeps (R.protocol rules.now) client.old.state client.new.state }
{
    match input {
        Input::Nothing => Ok(()),
        Input::Arrival(packet) => {
            link.load(Some(packet));
            Ok(())
        }
        Input::Release => release_event(rules, client, link, at, outputs),
        Input::CleanUp => {
            clean_up(rules, client);
            Ok(())
        }
    }
}

// One event: the call that it asks for, and then its polls.
fn run_event<R: Rules, W: Words>(
    alloc: Global,
    rules: &R,
    client: &mut Client<R::State, R::Exchange>,
    words: &mut W,
    event: NumberedEvent<Packet>,
    outputs: &mut Vec<NumberedReport<R::PublicState, Handed>>,
) -> Result<(), AllocError>
    requires { event.moment < 2 ^ 60 }
    ensures reported { OnOk result (IfSome (W.left words.old) (λ available.
        HasReported (event_at (R.protocol rules.now) event (view_of client.old available))
        outputs.old.items outputs.new.items (view_of client.new) (W.left words.new))) }
    ensures moment { OnOk result (client.new.last_moment ≡ event.moment) }
    ensures armed { HasNextAttempt (R.protocol rules.now).has_attempts client.old →
        HasNextAttempt (R.protocol rules.now).has_attempts client.new }
    ensures keeps { Keeps (R.protocol rules.now) client.old.state client.new.state }
{
    let at = EventHead {
        number: event.number,
        moment: event.moment,
        refuse: event.refuse,
    };
    let mut link = MemLink::new(alloc);
    link.set_refuse(at.refuse);
    call_event(rules, client, &mut link, at, event.input, outputs)?;
    poll_event(rules, client, words, &mut link, at, outputs)
}

/// Plays one event: the call that it asks for, and then its polls. What it reports is put at the
/// end of a list. Out of memory is the only error; a part of the reports may then be there.
pub fn play_event<R: Rules, W: Words>(
    alloc: Global,
    rules: &R,
    client: &mut Client<R::State, R::Exchange>,
    words: &mut W,
    event: NumberedEvent<Packet>,
    reports: &mut Vec<NumberedReport<R::PublicState, Handed>>,
) -> Result<(), DhcpError>
    requires { event.moment < 2 ^ 60 }
    ensures { PlaysEvent (R.protocol rules.now) result event reports.old.items reports.new.items
        client.old client.new (W.left words.old) (W.left words.new) }
{
    Ok(run_event(alloc, rules, client, words, event, reports)?)
}

// The outputs of the events, and the client after them.
fn run_events<R: Rules, W: Words>(
    alloc: Global,
    rules: &R,
    client: &mut Client<R::State, R::Exchange>,
    words: &mut W,
    events: Vec<NumberedEvent<Packet>>,
) -> Result<Vec<NumberedReport<R::PublicState, Handed>>, AllocError>
    requires { All (λ event. event.moment < 2 ^ 60) events.items }
    ensures reported { IfOk result (λ reported. IfSome (W.left words.old) (λ available.
        HasReported (events_at (R.protocol rules.now) (view_of client.old available) events.items)
        [] reported.items (view_of client.new) (W.left words.new))) }
    ensures moment { OnOk result
        (client.new.last_moment ≡ last_moment client.old.last_moment events.items) }
    ensures armed { HasNextAttempt (R.protocol rules.now).has_attempts client.old →
        HasNextAttempt (R.protocol rules.now).has_attempts client.new }
    ensures keeps { Keeps (R.protocol rules.now) client.old.state client.new.state }
{
    let mut outputs = Vec::new(alloc);
    for event in events {
        run_event(alloc, rules, client, words, event, &mut outputs)?;
    }
    Ok(outputs)
}

/// What the events report. If the words are known, the rules are lawful and the client begins as a
/// script says that has these events, it is what the history of that script reports. Out of memory
/// is the only error.
pub fn replay<R: Rules, W: Words>(
    alloc: Global,
    rules: &R,
    client: &mut Client<R::State, R::Exchange>,
    words: &mut W,
    events: Vec<NumberedEvent<Packet>>,
) -> Result<Vec<NumberedReport<R::PublicState, Handed>>, DhcpError>
    requires { All (λ event. event.moment < 2 ^ 60) events.items }
    ensures { Replays (R.protocol rules.now) result (λ reported. reported.items) events.items
        client.old client.new (W.left words.old) (W.left words.new) }
{
    Ok(run_events(alloc, rules, client, words, events)?)
}
