//! A session: one event at a time.

ghost use Rattle.std.specs.Prelude.{◌≡◌, IfErr, IfOk, true};
ghost use Rattle.dhcp_wire.specs.Error.{no_memory};
ghost use Rattle.dhcp_script.specs.LiveLine.{IsLiveLine, live_line_text};
ghost use Rattle.dhcp_script.specs.declared.live_line.LiveLine.TheVariants as lines;
ghost use Rattle.dhcp_live.specs.Live as live;
ghost use Rattle.dhcp_live.specs.Live.{held};
ghost use Rattle.dhcp_live.specs.Session.{AnswersLine, HoldsSession, IsAnswer};

use crate::{LiveClient, VerdictClient, push_answer};
use dhcp_dialogue::Dialogue;
use dhcp_script::{Event, LiveLine, read_live_line};
use dhcp_tool::{Status, out_of_memory};
use dhcp_wire::{Bytes, DhcpError};
use std::alloc::Global;

/// How a session goes on after a line.
#[derive(Clone, Copy)]
pub enum Next {
    /// With the next line.
    Line,
    /// It ends.
    End(Status),
}

/// Plays the events of the lines that are heard, and answers each, to the line `end`.
pub fn play_events<C: VerdictClient, D: Dialogue>(
    alloc: Global,
    client: &mut LiveClient<C>,
    dialogue: &mut D,
) -> Status
    ensures { HoldsSession C.protocol C.Reported.changed C.parts C.packet_verdict D.moves
        (held C.parts client.old) result dialogue.old dialogue.new }
{
    let mut line = Vec::new(alloc);
    'lines: for _ in 0..u64::MAX {
        match dialogue.hear(&mut line) {
            Ok(()) => {}
            Err(why) => return why.into(),
        }
        match answer_line(alloc, client, dialogue, line.as_slice()) {
            Next::Line => {}
            Next::End(status) => return status,
        }
    }
    Status::Invalid
}

// Does what a line says.
fn answer_line<C: VerdictClient, D: Dialogue>(
    alloc: Global,
    client: &mut LiveClient<C>,
    dialogue: &mut D,
    line: &[u8],
) -> Next
    ensures { AnswersLine C.protocol C.Reported.changed C.parts C.packet_verdict D.moves line.now
        result (held C.parts client.old) (held C.parts client.new) dialogue.old dialogue.new }
{
    match read_live_line(alloc, line) {
        Ok(Some(said)) => {
            let next = answer_said(alloc, client, dialogue, &said);
            drop(said);
            next
        }
        Ok(None) => Next::End(Status::NoScript),
        Err(error) => Next::End(out_of_memory(error)),
    }
}

// Does what was said in a line.
fn answer_said<C: VerdictClient, D: Dialogue>(
    alloc: Global,
    client: &mut LiveClient<C>,
    dialogue: &mut D,
    said: &LiveLine,
) -> Next
    requires { IsLiveLine said.now }
    ensures { AnswersLine C.protocol C.Reported.changed C.parts C.packet_verdict D.moves
        (live_line_text said.now) result
        (held C.parts client.old) (held C.parts client.new) dialogue.old dialogue.new }
{
    match said {
        LiveLine::Event(event) => answer_event(alloc, client, dialogue, event),
        LiveLine::Words(words) => add_words(client, dialogue, words.as_slice()),
        LiveLine::End => end(client, dialogue),
    }
}

// Plays an event, and says what the client answers.
fn answer_event<C: VerdictClient, D: Dialogue>(
    alloc: Global,
    client: &mut LiveClient<C>,
    dialogue: &mut D,
    event: &Event,
) -> Next
    requires { IsLiveLine (lines.Event event.now) }
    ensures { AnswersLine C.protocol C.Reported.changed C.parts C.packet_verdict D.moves
        (live_line_text (lines.Event event.now)) result
        (held C.parts client.old) (held C.parts client.new) dialogue.old dialogue.new }
{
    if !client.can_take(event) {
        return Next::End(Status::Invalid);
    }
    let text = match play_and_print(alloc, client, event) {
        Ok(text) => text,
        Err(error) => return Next::End(out_of_memory(error)),
    };
    if dialogue.say(text.as_slice()) {
        Next::Line
    } else {
        Next::End(Status::WriteFault)
    }
}

// Plays an event, and returns the text of what the client says to it.
fn play_and_print<C: VerdictClient>(
    alloc: Global,
    client: &mut LiveClient<C>,
    event: &Event,
) -> Result<Bytes, DhcpError>
    requires { live.can_take (held C.parts client.old) event.now ≡ true }
    ensures text { IfOk result (IsAnswer C.protocol C.Reported.changed C.parts C.packet_verdict
        event.now (held C.parts client.old) (held C.parts client.new)) }
    ensures error { IfErr result (λ error. error ≡ no_memory) }
{
    let reply = client.event(alloc, event)?;
    let mut text = String::new(alloc);
    push_answer(alloc, &mut text, &reply)?;
    Ok(Bytes::from(text.into_bytes()))
}

// Adds words to those of the client.
fn add_words<C: VerdictClient, D: Dialogue>(
    client: &mut LiveClient<C>,
    dialogue: &D,
    words: &[u32],
) -> Next
    requires { IsLiveLine (lines.Words words.now) }
    ensures { AnswersLine C.protocol C.Reported.changed C.parts C.packet_verdict D.moves
        (live_line_text (lines.Words words.now)) result
        (held C.parts client.old) (held C.parts client.new) dialogue.now dialogue.now }
{
    match client.add_words(words) {
        Ok(()) => Next::Line,
        Err(error) => Next::End(out_of_memory(error)),
    }
}

// Says that the session is over.
fn end<C: VerdictClient, D: Dialogue>(client: &LiveClient<C>, dialogue: &mut D) -> Next
    ensures { AnswersLine C.protocol C.Reported.changed C.parts C.packet_verdict D.moves
        (live_line_text lines.End) result
        (held C.parts client.now) (held C.parts client.now) dialogue.old dialogue.new }
{
    if dialogue.say(b"ok\n") {
        Next::End(Status::Done)
    } else {
        Next::End(Status::WriteFault)
    }
}
