//! The program: a capture file comes in, and the report on it goes out.

ghost use Rattle.std.specs.Prelude.{◌≡◌, ◌+◌, ◌≢◌, ◌≤◌, ◌⊎◌, ◌↔◌, ℕ, List, Some, length, map, string_bytes};
ghost use Rattle.std.specs.Io.KnownBytes.{Appends};
ghost use Rattle.dhcp_wire.specs.Fault.{Rose};
ghost use Rattle.dhcp_stream.specs.Whole.{HasGone, most_bytes};
ghost use Rattle.dhcp_tool.specs.Ends.{EndsReading};
ghost use Rattle.dhcp_inspect.specs.Header.{IsCapture};
ghost use Rattle.dhcp_inspect.specs.Tool.{AsksForReport, captures, report};

use crate::report::inspect;
use dhcp_stream::{Sink, Source};
use dhcp_tool::{Status, ToolRequest, out_of_memory, run_tool};
use dhcp_wire::Bytes;
use std::alloc::Global;

/// Reads the capture file that the source holds, writes the report on it, and returns the exit
/// status. There are no words. With every status but 0 and 4 nothing is written. At most 16,777,217
/// bytes are read, whatever the status.
pub fn inspect_tool<S: Source, K: Sink>(
    alloc: Global,
    words: &[String],
    source: &mut S,
    sink: &mut K,
) -> u8
    // Every record once: a capture file of at most 16 MiB is answered by exactly the report on it,
    // unless out of memory or the source or the sink fails.
    ensures every_record_once { (file : List ℕ) → AsksForReport (map string_bytes words.now)
        → IsCapture file
        → S.left source.old ≡ Some file
        → length file ≤ most_bytes
        → ¬ (Rose (S.faults source.old) (S.faults source.new))
        → ¬ (Rose (K.faults sink.old) (K.faults sink.new))
        → (result ≡ 5)
        ⊎ ((result ≡ 0) × Appends (K.taken sink.old) (K.taken sink.new) (report file)) }

    // Every other file of at most 16 MiB is refused by status 2, unless out of memory or the source
    // fails.
    ensures no_capture { (file : List ℕ) → AsksForReport (map string_bytes words.now)
        → ¬ (IsCapture file)
        → S.left source.old ≡ Some file
        → length file ≤ most_bytes
        → ¬ (Rose (S.faults source.old) (S.faults source.new))
        → (result ≡ 5) ⊎ (result ≡ 2) }

    // What each status says, and which answers are owed.
    ensures ends { AsksForReport (map string_bytes words.now) →
        EndsReading captures result (record {
          left = S.left source.old;
          left_after = S.left source.new;
          faults = S.faults source.old;
          faults_after = S.faults source.new;
          taken = K.taken sink.old;
          taken_after = K.taken sink.new;
          sink_faults = K.faults sink.old;
          sink_faults_after = K.faults sink.new;
        }) }
    ensures wrong_words { (result ≡ 1) ↔ ¬ (AsksForReport (map string_bytes words.now)) }
    ensures no_other { result ≤ 6 }

    // Nothing is read or written for words, and nothing is written with any status but 0 and 4.
    ensures untouched { result ≡ 1 → (source.new ≡ source.old) × (sink.new ≡ sink.old) }
    ensures goes_on { HasGone (most_bytes + 1) (S.left source.old) (S.left source.new) }
    ensures nothing_written { result ≢ 0 → result ≢ 4 → sink.new ≡ sink.old }
{
    run_tool::<Inspection, S, K>(alloc, words, source, sink)
}

/// The one request of the program: a report on the file that the source holds.
#[derive(Debug, Drop)]
pub struct Inspection;

impl ToolRequest for Inspection {
    ghost use Rattle.std.specs.Prelude.{ℕ, List, refl};
    ghost use Rattle.dhcp_tool.specs.Job.{Reads};
    ghost use Rattle.dhcp_inspect.specs.Tool.{AsksForReport, captures};

    ghost Script = { List ℕ };

    ghost AsksFor = { λ words request. AsksForReport words };

    ghost job = { λ request. Reads captures };

    fn of_words(words: &[String]) -> Option<Self> {
        if words.is_empty() {
            Some(Inspection)
        } else {
            None
        }
    }

    fn reads(&self) -> bool {
        true
    }

    fn answer(&self, alloc: Global, input: Bytes) -> Result<Bytes, Status> {
        match inspect(alloc, input.as_slice()) {
            Ok(Some(text)) => Ok(text),
            Ok(None) => Err(Status::NoScript),
            Err(error) => Err(out_of_memory(error)),
        }
    }

    ghost one_request = { λ words a b asks_for_a asks_for_b. refl };
}
