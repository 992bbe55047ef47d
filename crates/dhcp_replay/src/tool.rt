//! The program: a script comes in, and what is reported of its client goes out, or its text in the
//! next version; or a demonstration is summed up.

ghost use Rattle.std.specs.Prelude.{◌≡◌, ◌+◌, ◌≢◌, ◌≤◌, ◌⊎◌, ◌↔◌, ℕ, [], Some, OnOk, length, map, string_bytes, true};
ghost use Rattle.std.specs.Io.KnownBytes.{Appends};
ghost use Rattle.dhcp_wire.specs.Outcome.{Makes};
ghost use Rattle.dhcp_wire.specs.Fault.{Rose};
ghost use Rattle.dhcp_stream.specs.Whole.{HasGone, most_bytes};
ghost use Rattle.dhcp_tool.specs.Job.{AnswersPrinting};
ghost use Rattle.dhcp_tool.specs.Texts.{AnswersScript, AnswersText};
ghost use Rattle.dhcp_tool.specs.Words.{AsksForRun};
ghost use Rattle.dhcp_output.specs.Output.{summary_text};
ghost use Rattle.dhcp_script.specs.Demo.{most_rounds};
ghost use Rattle.dhcp_script.specs.Script.{IsScript, is_valid, script_text};
ghost use Rattle.dhcp_script.specs.declared.script.Script.{Script};
ghost use Rattle.dhcp_replay.specs.Promises.{KeepsPromisesOf};
ghost use Rattle.dhcp_replay.specs.Replayed.{events_of, outputs_of};
ghost use Rattle.dhcp_replay.specs.Request.{AsksFor, AsksForNothing};
ghost use Rattle.dhcp_replay.specs.Tool.{
  demo_summary,
  job_of,
  Ends,
  printed,
  scripts,
  scripts_v1,
};
ghost use Rattle.dhcp_replay.specs.declared.request.Request.{Request};
ghost use Rattle.dhcp_replay.specs.declared.request.Request.TheVariants.{Demo};

use crate::request::{Request, request_of};
use crate::{print_script, replay};
use dhcp_output::print_summary;
use dhcp_script::{Script, demo_script, read_script, upgrade};
use dhcp_stream::{Sink, Source};
use dhcp_tool::{Status, ToolRequest, out_of_memory, run_tool};
use dhcp_wire::{Bytes, DhcpError};
use std::alloc::Global;

/// Does what the words ask for, and returns the exit status. `run` runs the script that the source
/// holds, and writes the text of what is reported of its client; `upgrade` writes the text in
/// version 2 of the script whose text in version 1 the source holds; `demo` and a number from 1 to
/// 2,000 writes the summary of a demonstration of so many rounds, and reads nothing. With every
/// status but 0 and 4 nothing is written. At most 16,777,217 bytes are read, whatever the status.
pub fn replay_tool<S: Source, K: Sink>(
    alloc: Global,
    words: &[String],
    source: &mut S,
    sink: &mut K,
) -> u8
    // The headline: the text of a valid script, of at most 16 MiB, is answered by the text of what
    // is reported of its client, unless out of memory or the source or the sink fails.
    ensures headline { (script : Script) → AsksForRun (map string_bytes words.now)
        → IsScript script
        → is_valid script ≡ true
        → S.left source.old ≡ Some (script_text script)
        → length (script_text script) ≤ most_bytes
        → ¬ (Rose (S.faults source.old) (S.faults source.new))
        → ¬ (Rose (K.faults sink.old) (K.faults sink.new))
        → (result ≡ 5)
        ⊎ ((result ≡ 0) × Appends (K.taken sink.old) (K.taken sink.new) (printed script)) }

    // What each status says, for each of the three requests, and which answers are owed.
    ensures ends { (request : Request) → AsksFor (map string_bytes words.now) request →
        Ends request result (record {
          left = S.left source.old;
          left_after = S.left source.new;
          faults = S.faults source.old;
          faults_after = S.faults source.new;
          taken = K.taken sink.old;
          taken_after = K.taken sink.new;
          sink_faults = K.faults sink.old;
          sink_faults_after = K.faults sink.new;
        }) }
    ensures wrong_words { (result ≡ 1) ↔ AsksForNothing (map string_bytes words.now) }
    ensures invalid { result ≡ 7 → AsksForRun (map string_bytes words.now) }
    ensures no_other { result ≤ 7 }

    // Nothing is read or written for other words, nothing is read for a demonstration, and nothing
    // is written with any status but 0 and 4.
    ensures untouched { result ≡ 1 → (source.new ≡ source.old) × (sink.new ≡ sink.old) }
    ensures nothing_read { (rounds : ℕ) → AsksFor (map string_bytes words.now) (Demo rounds) →
        source.new ≡ source.old }
    ensures goes_on { HasGone (most_bytes + 1) (S.left source.old) (S.left source.new) }
    ensures nothing_written { result ≢ 0 → result ≢ 4 → sink.new ≡ sink.old }
{
    run_tool::<Request, S, K>(alloc, words, source, sink)
}

impl ToolRequest for Request {
    ghost use Rattle.dhcp_script.specs.declared.script.Script.{Script};
    ghost use Rattle.dhcp_replay.specs.Request.{AsksFor};
    ghost use Rattle.dhcp_replay.specs.Tool.{job_of};
    ghost use Rattle.dhcp_replay.specs.RequestLaws.{one_request};

    ghost Script = { Script };

    ghost AsksFor = { AsksFor };

    ghost job = { job_of };

    fn of_words(words: &[String]) -> Option<Self> {
        request_of(words)
    }

    fn reads(&self) -> bool {
        match self {
            Request::Run | Request::Upgrade => true,
            Request::Demo(_) => false,
        }
    }

    fn answer(&self, alloc: Global, input: Bytes) -> Result<Bytes, Status> {
        match self {
            Request::Run => run_answer(alloc, input),
            Request::Upgrade => upgrade_answer(alloc, input.as_slice()),
            Request::Demo(rounds) => demo_answer(alloc, *rounds),
        }
    }

    ghost one_request = { one_request };
}

// The text in version 2 of the script with these bytes as its text in version 1, or the status.
fn upgrade_answer(alloc: Global, bytes: &[u8]) -> Result<Bytes, Status>
    ensures { AnswersText scripts_v1 result bytes.now }
{
    match upgrade(alloc, bytes) {
        Ok(Some(text)) => Ok(text),
        Ok(None) => Err(Status::NoScript),
        Err(error) => Err(out_of_memory(error)),
    }
}

// The summary of a demonstration of so many rounds, or the status.
fn demo_answer(alloc: Global, rounds: u32) -> Result<Bytes, Status>
    requires some { 1 ≤ rounds }
    requires few { rounds ≤ most_rounds }
    ensures { AnswersPrinting (demo_summary rounds) result }
{
    match summary_of(alloc, rounds) {
        Ok(text) => Ok(text),
        Err(error) => Err(out_of_memory(error)),
    }
}

// The summary of a demonstration of so many rounds.
#[tactic(auto, unfolding(crate::specs::Tool::demo_summary))]
fn summary_of(alloc: Global, rounds: u32) -> Result<Bytes, DhcpError>
    requires some { 1 ≤ rounds }
    requires few { rounds ≤ most_rounds }
    ensures { Makes (λ text. text) result (demo_summary rounds) }
{
    let script = demo_script(alloc, rounds)?;
    let summary = summary_for(alloc, &script);
    drop(script);
    summary
}

// The summary of a script.
fn summary_for(alloc: Global, script: &Script) -> Result<Bytes, DhcpError>
    requires { is_valid script.now ≡ true }
    ensures { Makes (λ text. text) result
        (summary_text (length (events_of script.now)) (outputs_of script.now)) }
{
    let replayed = replay(alloc, script)?;
    print_summary(alloc, event_count(script), replayed.outputs())
}

// How many events a script has.
fn event_count(script: &Script) -> usize
    ensures { result ≡ length (events_of script.now) }
{
    match script {
        Script::V4(script) => script.events.len(),
        Script::V6(script) => script.events.len(),
    }
}

// The text to print for the script whose text was read, or the status. It is put where the input
// was, which saves memory, and the time to come by it.
fn run_answer(alloc: Global, input: Bytes) -> Result<Bytes, Status>
    ensures { AnswersText scripts result input }
{
    match read_script(alloc, input.as_slice()) {
        Ok(Some(script)) => script_answer(alloc, script, input),
        Ok(None) => Err(Status::NoScript),
        Err(error) => Err(out_of_memory(error)),
    }
}

// The text to print for a script, put where these bytes were, or the status.
fn script_answer(alloc: Global, script: Script, room: Bytes) -> Result<Bytes, Status>
    ensures { AnswersScript scripts result script }
{
    if !script.is_valid() {
        drop(script);
        return Err(Status::Invalid);
    }
    match text_for(alloc, script, room) {
        Ok(text) => Ok(text),
        Err(error) => Err(out_of_memory(error)),
    }
}

// The text to print for a valid script, put where these bytes were.
#[tactic(auto, unfolding(crate::specs::Tool::printed, dhcp_output::specs::Output::outputs_text))]
fn text_for(alloc: Global, script: Script, room: Bytes) -> Result<Bytes, DhcpError>
    requires { is_valid script ≡ true }
    ensures text { Makes (λ text. text) result (printed script) }
    ensures promises { OnOk result (KeepsPromisesOf script) }
{
    let mut text = empty_text(room);
    print_script(alloc, script, &mut text)?;
    text.push_str("ok\n")?;
    Ok(Bytes::from(text.into_bytes()))
}

// An empty text where these bytes were.
fn empty_text(room: Bytes) -> String
    ensures { string_bytes result ≡ [] }
{
    let mut room = room.into_vec();
    room.clear();
    String::from_utf8(room).unwrap()
}
