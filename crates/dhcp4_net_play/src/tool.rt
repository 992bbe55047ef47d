//! The program: the script of a network comes in, and what the network reports goes out.

ghost use Rattle.std.specs.Prelude.{◌≡◌, ◌+◌, ◌≢◌, ◌≤◌, ◌⊎◌, ◌↔◌, Some, length, map, string_bytes, true};
ghost use Rattle.std.specs.Io.KnownBytes.{Appends};
ghost use Rattle.dhcp_wire.specs.Fault.{Rose};
ghost use Rattle.dhcp_stream.specs.Whole.{HasGone, most_bytes};
ghost use Rattle.dhcp_tool.specs.Ends.{EndsReading};
ghost use Rattle.dhcp_tool.specs.Texts.{AnswersScript, AnswersText};
ghost use Rattle.dhcp_tool.specs.Words.{AsksForRun};
ghost use Rattle.dhcp4_net.specs.declared.script.NetScript.{NetScript};
ghost use Rattle.dhcp4_net_play.specs.NetScript.{IsNetScript, net_script_text};
ghost use Rattle.dhcp4_net_play.specs.Tool.{
  AnswersRun,
  KeepsOneAddressIn,
  is_valid,
  net_scripts,
  printed,
  status_of,
};

use crate::net_script::read_net_script;
use crate::output::print_net_outputs;
use dhcp_stream::{Sink, Source};
use dhcp_tool::{Status, ToolRequest, is_run, out_of_memory, run_tool};
use dhcp_wire::{Bytes, DhcpError, ErrorKind};
use dhcp4_net::{NetScript, run_net};
use std::alloc::Global;

/// For the word `run`, runs the network whose script the source holds, writes the text of what it
/// reports, and returns the exit status. With every status but 0 and 4 nothing is written. At most
/// 16,777,217 bytes are read, whatever the status.
pub fn net_tool<S: Source, K: Sink>(
    alloc: Global,
    words: &[String],
    source: &mut S,
    sink: &mut K,
) -> u8
    // The text of a valid script, of at most 16 MiB, is answered by the text of what its network
    // reports, unless out of memory or the source or the sink fails.
    ensures network { (script : NetScript) → AsksForRun (map string_bytes words.now)
        → IsNetScript script
        → is_valid script ≡ true
        → S.left source.old ≡ Some (net_script_text script)
        → length (net_script_text script) ≤ most_bytes
        → ¬ (Rose (S.faults source.old) (S.faults source.new))
        → ¬ (Rose (K.faults sink.old) (K.faults sink.new))
        → (result ≡ 5)
        ⊎ ((result ≡ 0) × Appends (K.taken sink.old) (K.taken sink.new) (printed script)) }
    // In a network that was run no address has two holders at one moment.
    ensures one_address { (script : NetScript) → result ≡ 0
        → IsNetScript script
        → S.left source.old ≡ Some (net_script_text script)
        → KeepsOneAddressIn script }

    // What each status says, and which answers are owed.
    ensures ends { AsksForRun (map string_bytes words.now) →
        EndsReading net_scripts result (record {
          left = S.left source.old;
          left_after = S.left source.new;
          faults = S.faults source.old;
          faults_after = S.faults source.new;
          taken = K.taken sink.old;
          taken_after = K.taken sink.new;
          sink_faults = K.faults sink.old;
          sink_faults_after = K.faults sink.new;
        }) }
    ensures wrong_words { (result ≡ 1) ↔ ¬ (AsksForRun (map string_bytes words.now)) }
    ensures no_other { result ≤ 7 }

    // Nothing is read or written for other words, and nothing is written with any status but 0 and
    // 4.
    ensures untouched { result ≡ 1 → (source.new ≡ source.old) × (sink.new ≡ sink.old) }
    ensures goes_on { HasGone (most_bytes + 1) (S.left source.old) (S.left source.new) }
    ensures nothing_written { result ≢ 0 → result ≢ 4 → sink.new ≡ sink.old }
{
    run_tool::<Run, S, K>(alloc, words, source, sink)
}

/// The one request of the program: what the network of a script reports.
#[derive(Debug, Drop)]
pub struct Run;

impl ToolRequest for Run {
    ghost use Rattle.std.specs.Prelude.{refl};
    ghost use Rattle.dhcp_tool.specs.Job.{Reads};
    ghost use Rattle.dhcp_tool.specs.Words.{AsksForRun};
    ghost use Rattle.dhcp4_net.specs.declared.script.NetScript.{NetScript};
    ghost use Rattle.dhcp4_net_play.specs.Tool.{net_scripts};

    ghost Script = { NetScript };

    ghost AsksFor = { λ words request. AsksForRun words };

    ghost job = { λ request. Reads net_scripts };

    fn of_words(words: &[String]) -> Option<Self> {
        if is_run(words) { Some(Run) } else { None }
    }

    fn reads(&self) -> bool {
        true
    }

    fn answer(&self, alloc: Global, input: Bytes) -> Result<Bytes, Status> {
        text_answer(alloc, input.as_slice())
    }

    ghost one_request = { λ words a b asks_for_a asks_for_b. refl };
}

// The text to print for the script with these bytes as its text, or the status.
fn text_answer(alloc: Global, bytes: &[u8]) -> Result<Bytes, Status>
    ensures { AnswersText net_scripts result bytes.now }
{
    match read_net_script(alloc, bytes) {
        Ok(Some(script)) => script_answer(alloc, &script),
        Ok(None) => Err(Status::NoScript),
        Err(error) => Err(out_of_memory(error)),
    }
}

// The text to print for a script, or the status.
fn script_answer(alloc: Global, script: &NetScript) -> Result<Bytes, Status>
    ensures { AnswersScript net_scripts result script.now }
{
    match text_for(alloc, script) {
        Ok(text) => Ok(text),
        Err(error) => Err(status_of(error.kind())),
    }
}

// The status of an error: out of memory, or that of a script that is not valid.
fn status_of(kind: ErrorKind) -> Status
    ensures { result ≡ status_of kind }
{
    match kind {
        ErrorKind::OutOfMemory => Status::NoMemory,
        _ => Status::Invalid,
    }
}

// The text to print for a script; `InvalidArgument` if and only if it is not valid. Out of memory
// is the only other error.
fn text_for(alloc: Global, script: &NetScript) -> Result<Bytes, DhcpError>
    ensures { AnswersRun result script.now }
{
    let outputs = run_net(alloc, script)?;
    print_net_outputs(alloc, outputs.as_slice())
}
