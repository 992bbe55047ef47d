//! A program: the words ask for something, what the source holds is answered by a text, or by a
//! status, and the sink takes the text.

ghost use Rattle.std.specs.Prelude.{◌≡◌, ◌≢◌, ◌≤◌, ◌↔◌, ◌+◌, map, string_bytes, false};
ghost use Rattle.dhcp_stream.specs.Whole.{HasGone, most_bytes};
ghost use Rattle.dhcp_tool.specs.Ends.{EndsJob, Writes};
ghost use Rattle.dhcp_tool.specs.Input.{ReadsInput};
ghost use Rattle.dhcp_tool.specs.Job.{AnswersJob, is_reading};
ghost use Rattle.dhcp_tool.specs.Status.{status_number};
ghost use Rattle.dhcp_tool.specs.Words.{AsksForNothing, IsAskedFor};

use crate::{Status, ToolRequest, out_of_memory};
use dhcp_stream::{Sink, Source, Whole, read_whole, write_whole};
use dhcp_wire::Bytes;
use std::alloc::Global;

/// Does what the words ask for, and returns the exit status. Nothing is read or written for words
/// that ask for nothing, nothing is read for a request that reads nothing, and nothing is written
/// with any status but 0 and 4. At most 16,777,217 bytes are read, whatever the status.
pub fn run_tool<R: ToolRequest, S: Source, K: Sink>(
    alloc: Global,
    words: &[String],
    source: &mut S,
    sink: &mut K,
) -> u8
    // What each status says of what the words ask for, and which answers are owed.
    ensures ends { (request : R) → R.AsksFor (map string_bytes words.now) request →
        EndsJob (R.job request) result (record {
          left = S.left source.old;
          left_after = S.left source.new;
          faults = S.faults source.old;
          faults_after = S.faults source.new;
          taken = K.taken sink.old;
          taken_after = K.taken sink.new;
          sink_faults = K.faults sink.old;
          sink_faults_after = K.faults sink.new;
        }) }
    ensures wrong_words { (result ≡ 1) ↔ AsksForNothing R.AsksFor (map string_bytes words.now) }
    ensures asked { result ≢ 1 → (request : R) × R.AsksFor (map string_bytes words.now) request }
    ensures no_other { result ≤ 7 }

    ensures untouched { result ≡ 1 → (source.new ≡ source.old) × (sink.new ≡ sink.old) }
    ensures nothing_read { (request : R) → R.AsksFor (map string_bytes words.now) request →
        is_reading (R.job request) ≡ false → source.new ≡ source.old }
    ensures goes_on { HasGone (most_bytes + 1) (S.left source.old) (S.left source.new) }
    ensures nothing_written { result ≢ 0 → result ≢ 4 → sink.new ≡ sink.old }
{
    match R::of_words(words) {
        None => Status::WrongWords.into(),
        Some(request) => carry_out(alloc, &request, source, sink).into(),
    }
}

// Does what is asked for.
#[tactic(auto, using(crate::proofs::EndsLemmas::carried_out))]
fn carry_out<R: ToolRequest, S: Source, K: Sink>(
    alloc: Global,
    request: &R,
    source: &mut S,
    sink: &mut K,
) -> Status
    requires { IsAskedFor R.AsksFor request.now }
    ensures ends { EndsJob (R.job request.now) (status_number result) (record {
      left = S.left source.old;
      left_after = S.left source.new;
      faults = S.faults source.old;
      faults_after = S.faults source.new;
      taken = K.taken sink.old;
      taken_after = K.taken sink.new;
      sink_faults = K.faults sink.old;
      sink_faults_after = K.faults sink.new;
    }) }
    ensures asked { status_number result ≢ 1 }
    ensures nothing_read { is_reading (R.job request.now) ≡ false → source.new ≡ source.old }
    ensures goes_on { HasGone (most_bytes + 1) (S.left source.old) (S.left source.new) }
    ensures nothing_written { status_number result ≢ 0 → status_number result ≢ 4 →
        sink.new ≡ sink.old }
{
    match text_of(alloc, request, source) {
        Ok(text) => print(sink, text.as_slice()),
        Err(status) => status,
    }
}

// The text to print for a request, or the status.
#[tactic(auto, using(crate::proofs::EndsLemmas::answered))]
fn text_of<R: ToolRequest, S: Source>(
    alloc: Global,
    request: &R,
    source: &mut S,
) -> Result<Bytes, Status>
    requires { IsAskedFor R.AsksFor request.now }
    ensures answers { AnswersJob (R.job request.now) result (S.left source.old)
        (S.left source.new) (S.faults source.old) (S.faults source.new) }
    ensures nothing_read { is_reading (R.job request.now) ≡ false → source.new ≡ source.old }
    ensures goes_on { HasGone (most_bytes + 1) (S.left source.old) (S.left source.new) }
{
    if !request.reads() {
        return request.answer(alloc, Bytes::new(alloc));
    }
    match input(alloc, source) {
        Ok(bytes) => request.answer(alloc, bytes),
        Err(status) => Err(status),
    }
}

/// What the source holds, or the status: `ReadFault` only if the source's count of faults rose,
/// `TooLong` where more than 16,777,216 bytes are left, or out of memory. At most one byte more is
/// read, whatever it returns.
pub fn input<S: Source>(alloc: Global, source: &mut S) -> Result<Bytes, Status>
    ensures reads { ReadsInput result (S.left source.old) (S.left source.new)
        (S.faults source.old) (S.faults source.new) }
    ensures goes_on { HasGone (most_bytes + 1) (S.left source.old) (S.left source.new) }
{
    match read_whole(alloc, source) {
        Ok(Whole::All(bytes)) => Ok(bytes),
        Ok(Whole::Failed) => Err(Status::ReadFault),
        Ok(Whole::TooLong) => Err(Status::TooLong),
        Err(error) => Err(out_of_memory(error)),
    }
}

/// Writes the text, and returns the status: `Done` where the sink took all of it, else
/// `WriteFault`, only if the sink's count of faults rose. Does not allocate.
pub fn print<K: Sink>(sink: &mut K, text: &[u8]) -> Status
    ensures { Writes text.now (status_number result) (K.taken sink.old) (K.taken sink.new)
        (K.faults sink.old) (K.faults sink.new) }
{
    if write_whole(sink, text) {
        Status::Done
    } else {
        Status::WriteFault
    }
}
