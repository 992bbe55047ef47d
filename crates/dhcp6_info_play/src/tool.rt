//! The program: a script comes in, and what is reported of its client goes out.

ghost use Rattle.std.specs.Prelude.{◌≡◌, ◌+◌, ◌≢◌, ◌≤◌, ◌⊎◌, ◌↔◌, Some, OnOk, length, map, string_bytes, true};
ghost use Rattle.std.specs.Io.KnownBytes.{Appends};
ghost use Rattle.dhcp_wire.specs.Outcome.{Makes};
ghost use Rattle.dhcp_wire.specs.Fault.{Rose};
ghost use Rattle.dhcp_stream.specs.Whole.{HasGone, most_bytes};
ghost use Rattle.dhcp_tool.specs.Ends.{EndsReading};
ghost use Rattle.dhcp_tool.specs.Texts.{AnswersScript, AnswersText};
ghost use Rattle.dhcp_tool.specs.Words.{AsksForRun};
ghost use Rattle.dhcp_script.specs.Script6.{is_valid};
ghost use Rattle.dhcp_script.specs.declared.script6.Script6.{Script6};
ghost use Rattle.dhcp6_info_play.specs.InfoScript.{IsInfoScript, info_script_text};
ghost use Rattle.dhcp6_info_play.specs.Promises.{KeepsPromisesOf};
ghost use Rattle.dhcp6_info_play.specs.Tool.{info_scripts, printed};

use crate::info_script::read_info_script;
use crate::replayed::replay_info;
use dhcp_output::print_outputs;
use dhcp_script::Script6;
use dhcp_stream::{Sink, Source};
use dhcp_tool::{Status, ToolRequest, is_run, out_of_memory, run_tool};
use dhcp_wire::{Bytes, DhcpError};
use std::alloc::Global;

/// For the word `run`, plays the script that the source holds, writes the text of what is reported
/// of its client, and returns the exit status. With every status but 0 and 4 nothing is written. At
/// most 16,777,217 bytes are read, whatever the status.
pub fn info_tool<S: Source, K: Sink>(
    alloc: Global,
    words: &[String],
    source: &mut S,
    sink: &mut K,
) -> u8
    // The text of a valid script, of at most 16 MiB, is answered by the text of what its history
    // reports, unless out of memory or the source or the sink fails.
    ensures information_history { (script : Script6) → AsksForRun (map string_bytes words.now)
        → IsInfoScript script
        → is_valid script ≡ true
        → S.left source.old ≡ Some (info_script_text script)
        → length (info_script_text script) ≤ most_bytes
        → ¬ (Rose (S.faults source.old) (S.faults source.new))
        → ¬ (Rose (K.faults sink.old) (K.faults sink.new))
        → (result ≡ 5)
        ⊎ ((result ≡ 0) × Appends (K.taken sink.old) (K.taken sink.new) (printed script)) }

    // What each status says, and which answers are owed.
    ensures ends { AsksForRun (map string_bytes words.now) →
        EndsReading info_scripts result (record {
          left = S.left source.old;
          left_after = S.left source.new;
          faults = S.faults source.old;
          faults_after = S.faults source.new;
          taken = K.taken sink.old;
          taken_after = K.taken sink.new;
          sink_faults = K.faults sink.old;
          sink_faults_after = K.faults sink.new;
        }) }
    ensures wrong_words { (result ≡ 1) ↔ ¬ (AsksForRun (map string_bytes words.now)) }
    ensures no_other { result ≤ 7 }

    // Nothing is read or written for other words, and nothing is written with any status but 0 and
    // 4.
    ensures untouched { result ≡ 1 → (source.new ≡ source.old) × (sink.new ≡ sink.old) }
    ensures goes_on { HasGone (most_bytes + 1) (S.left source.old) (S.left source.new) }
    ensures nothing_written { result ≢ 0 → result ≢ 4 → sink.new ≡ sink.old }
{
    run_tool::<Run, S, K>(alloc, words, source, sink)
}

/// The one request of the program: what is reported of the client of a script.
#[derive(Debug, Drop)]
pub struct Run;

impl ToolRequest for Run {
    ghost use Rattle.std.specs.Prelude.{refl};
    ghost use Rattle.dhcp_tool.specs.Job.{Reads};
    ghost use Rattle.dhcp_tool.specs.Words.{AsksForRun};
    ghost use Rattle.dhcp_script.specs.declared.script6.Script6.{Script6};
    ghost use Rattle.dhcp6_info_play.specs.Tool.{info_scripts};

    ghost Script = { Script6 };

    ghost AsksFor = { λ words request. AsksForRun words };

    ghost job = { λ request. Reads info_scripts };

    fn of_words(words: &[String]) -> Option<Self> {
        if is_run(words) { Some(Run) } else { None }
    }

    fn reads(&self) -> bool {
        true
    }

    fn answer(&self, alloc: Global, input: Bytes) -> Result<Bytes, Status> {
        text_answer(alloc, input.as_slice())
    }

    ghost one_request = { λ words a b asks_for_a asks_for_b. refl };
}

// The text to print for the script with these bytes as its text, or the status.
fn text_answer(alloc: Global, bytes: &[u8]) -> Result<Bytes, Status>
    ensures { AnswersText info_scripts result bytes.now }
{
    match read_info_script(alloc, bytes) {
        Ok(Some(script)) => {
            let answer = script_answer(alloc, &script);
            drop(script);
            answer
        }
        Ok(None) => Err(Status::NoScript),
        Err(error) => Err(out_of_memory(error)),
    }
}

// The text to print for a script, or the status.
fn script_answer(alloc: Global, script: &Script6) -> Result<Bytes, Status>
    ensures { AnswersScript info_scripts result script.now }
{
    if !script.is_valid() {
        return Err(Status::Invalid);
    }
    match text_for(alloc, script) {
        Ok(text) => Ok(text),
        Err(error) => Err(out_of_memory(error)),
    }
}

// The text to print for a valid script.
#[tactic(auto, unfolding(crate::specs::Tool::printed))]
fn text_for(alloc: Global, script: &Script6) -> Result<Bytes, DhcpError>
    requires { is_valid script.now ≡ true }
    ensures text { Makes (λ text. text) result (printed script.now) }
    ensures promises { OnOk result (KeepsPromisesOf script.now) }
{
    let outputs = replay_info(alloc, script)?;
    print_outputs(alloc, outputs.as_slice())
}
