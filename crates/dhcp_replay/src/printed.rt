//! A script, played and printed event by event: nothing that is reported is kept longer than its
//! lines need.

ghost use Rattle.std.specs.Prelude.{◌≡◌, ◌++◌, ◌<◌, ◌^◌, [], IfErr, OnOk, string_bytes, true};
ghost use Rattle.std.specs.List.{flat_map};
ghost use Rattle.dhcp_wire.specs.Error.{no_memory};
ghost use Rattle.dhcp_history.specs.EventLoop.{event_at};
ghost use Rattle.dhcp_output.specs.Output.{output_line};
ghost use Rattle.dhcp_script.specs.Script as scripts;
ghost use Rattle.dhcp_script.specs.Script4 as v4;
ghost use Rattle.dhcp_script.specs.Script6 as v6;
ghost use Rattle.dhcp_replay.specs.Life.{CanPlay, output_of};
ghost use Rattle.dhcp_replay.specs.Printed.{IsPrinted, lines_of, played_events};
ghost use Rattle.dhcp_replay.specs.Promises.{KeepsPromisesOf};
ghost use Rattle.dhcp_replay.specs.Promises4.{KeepsPromisesOfV4};
ghost use Rattle.dhcp_replay.specs.Promises6.{KeepsPromisesOfV6};
ghost use Rattle.dhcp_replay.specs.Replayed as lives;

use crate::family::FamilyClient;
use crate::life::{FamilyState, into_numbered, output_of};
use crate::{begin_script4, begin_script6, laws};
use dhcp_clock::{Handed, Packet, WordList, Words};
use dhcp_history::{NumberedEvent, NumberedReport};
use dhcp_output::push_output;
use dhcp_script::{Event, Script, Script4, Script6};
use dhcp_wire::{DhcpError, Sequence};
use std::alloc::{AllocError, Global};
use std::mem;

/// Plays a valid script, and puts a line for each thing that is reported at the end of a text. Out
/// of memory is the only error; a part of the lines may then be there.
pub fn print_script(alloc: Global, script: Script, text: &mut String) -> Result<(), DhcpError>
    requires { scripts.is_valid script ≡ true }
    ensures lines { OnOk result (string_bytes text.new
        ≡ string_bytes text.old ++ flat_map output_line (lives.outputs_of script)) }
    ensures promises { OnOk result (KeepsPromisesOf script) }
    ensures error { IfErr result (λ error. error ≡ no_memory) }
{
    match script {
        Script::V4(mut script) => {
            let printed = print_script4(alloc, &mut script, text);
            drop(script);
            printed
        }
        Script::V6(mut script) => {
            let printed = print_script6(alloc, &mut script, text);
            drop(script);
            printed
        }
    }
}

// Plays an IPv4 script, and prints what is reported. It takes the events out of the script.
fn print_script4(alloc: Global, script: &mut Script4, text: &mut String) -> Result<(), DhcpError>
    requires { v4.is_valid script.old ≡ true }
    ensures lines { OnOk result (string_bytes text.new
        ≡ string_bytes text.old ++ flat_map output_line (lives.outputs_of_v4 script.old)) }
    ensures promises { OnOk result (KeepsPromisesOfV4 script.old) }
    ensures error { IfErr result (λ error. error ≡ no_memory) }
{
    let mut words = WordList::new(script.words.as_slice().to_vec(alloc)?);
    let mut client = begin_script4(alloc, script, &mut words)?;
    laws::promises_are_kept(&client);
    dhcp4_client::laws::table_is_lawful();
    let events = mem::replace(&mut script.events, Sequence::new(alloc)).into_vec();
    print_events(alloc, &mut *client, &mut words, events, text)
}

// Plays an IPv6 script, and prints what is reported. It takes the events out of the script.
fn print_script6(alloc: Global, script: &mut Script6, text: &mut String) -> Result<(), DhcpError>
    requires { v6.is_valid script.old ≡ true }
    ensures lines { OnOk result (string_bytes text.new
        ≡ string_bytes text.old ++ flat_map output_line (lives.outputs_of_v6 script.old)) }
    ensures promises { OnOk result (KeepsPromisesOfV6 script.old) }
    ensures error { IfErr result (λ error. error ≡ no_memory) }
{
    let mut words = WordList::new(script.words.as_slice().to_vec(alloc)?);
    let mut client = begin_script6(alloc, script, &mut words)?;
    laws::promises6_are_kept(&client);
    dhcp6_client::laws::table_is_lawful();
    let events = mem::replace(&mut script.events, Sequence::new(alloc)).into_vec();
    print_events(alloc, &mut *client, &mut words, events, text)
}

// Plays events, and prints what is reported of each before the next one.
fn print_events<C: FamilyClient, W: Words>(
    alloc: Global,
    client: &mut C,
    words: &mut W,
    events: Vec<Event>,
    text: &mut String,
) -> Result<(), DhcpError>
    requires { CanPlay events.items }
    ensures printed { OnOk result (IsPrinted C.Reported.changed
        (played_events C.protocol (C.parts client.old) events.items)
        (string_bytes text.old) (string_bytes text.new) (C.parts client.old) (C.parts client.new)
        (W.left words.old) (W.left words.new)) }
    ensures error { IfErr result (λ error. error ≡ no_memory) }
{
    // One list has the reports of each event in turn, so that no event allocates one.
    let mut reports = Vec::new(alloc);
    let mut number = 1u32;
    for event in events {
        let event = into_numbered(number, event);
        print_event(alloc, client, words, event, &mut reports, text)?;
        number += 1;
    }
    Ok(())
}

// Plays an event, and prints what is reported. The list of reports is empty before and after.
fn print_event<C: FamilyClient, W: Words>(
    alloc: Global,
    client: &mut C,
    words: &mut W,
    event: NumberedEvent<Packet>,
    reports: &mut Vec<NumberedReport<C::Reported, Handed>>,
    text: &mut String,
) -> Result<(), DhcpError>
    requires moment { event.moment < 2 ^ 60 }
    requires empty { reports.old.items ≡ [] }
    ensures printed { OnOk result (IsPrinted C.Reported.changed
        (event_at (C.protocol (C.parts client.old).config) event)
        (string_bytes text.old) (string_bytes text.new) (C.parts client.old) (C.parts client.new)
        (W.left words.old) (W.left words.new)) }
    ensures emptied { OnOk result (reports.new.items ≡ []) }
    ensures error { IfErr result (λ error. error ≡ no_memory) }
{
    client.play_event(words, event, reports)?;
    Ok(print_reports(alloc, reports, text)?)
}

// Prints what was reported, and leaves the list empty.
fn print_reports<S: FamilyState>(
    alloc: Global,
    reports: &mut Vec<NumberedReport<S, Handed>>,
    text: &mut String,
) -> Result<(), AllocError>
    ensures printed { OnOk result (string_bytes text.new
        ≡ string_bytes text.old ++ lines_of S.changed reports.old.items) }
    ensures emptied { OnOk result (reports.new.items ≡ []) }
{
    for report in reports.drain(..) {
        print_report(alloc, report, text)?;
    }
    Ok(())
}

// Prints one report.
fn print_report<S: FamilyState>(
    alloc: Global,
    report: NumberedReport<S, Handed>,
    text: &mut String,
) -> Result<(), AllocError>
    ensures { OnOk result (string_bytes text.new
        ≡ string_bytes text.old ++ output_line (output_of S.changed report)) }
{
    let output = output_of(report);
    let printed = push_output(alloc, text, &output);
    drop(output);
    printed
}
