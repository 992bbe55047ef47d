//! The program: a message comes in as a line of hex, and what is made of it goes out as another.

ghost use Rattle.std.specs.Prelude.{◌≡◌, ◌+◌, ◌≢◌, ◌≤◌, map, string_bytes};
ghost use Rattle.dhcp_stream.specs.Whole.{HasGone, most_bytes};
ghost use Rattle.dhcp_tool.specs.Ends.{EndsReading};
ghost use Rattle.dhcp_tool.specs.Input.{AnswersSource};
ghost use Rattle.dhcp_tool.specs.Job.{AnswersPrinting};
ghost use Rattle.dhcp_tool.specs.Status.{status_number};
ghost use Rattle.dhcp_tool.specs.Texts.{AnswersText};
ghost use Rattle.dhcp6_relay.specs.Request.{AsksFor, AsksForNothing};
ghost use Rattle.dhcp6_relay.specs.Tool.{AnswersMessage, hex_line, messages, status_of};
ghost use Rattle.dhcp6_relay.specs.declared.request.Request.{Request};

use crate::RelayError;
use crate::line::{line_of, read_line};
use crate::request::Request;
use dhcp_stream::{Sink, Source};
use dhcp_tool::{Status, input, out_of_memory, print};
use dhcp_wire::Bytes;
use std::alloc::Global;

/// Does what the words ask for, and returns the exit status. `wrap`, with the address of a link,
/// the address of a peer and an interface id, writes the Relay-forward of the message that the
/// source holds; `reply`, with an answer, the Relay-reply that brings it back along the
/// Relay-forward that the source holds; `unwrap` the message inside the relay message that it
/// holds. Messages are lines of lower-case hex, `-` for no bytes. The status is `Invalid` if and
/// only if the message is refused, as `wrap_forward`, `reply_along` or `parse_relay` refuses it.
/// With every status but 0 and 4 nothing is written. At most 16,777,217 bytes are read, whatever
/// the status.
pub fn relay_tool<S: Source, K: Sink>(
    alloc: Global,
    words: &[String],
    source: &mut S,
    sink: &mut K,
) -> u8
    // What each status says, for each of the three requests, and which answers are owed.
    ensures ends { (request : Request) → AsksFor (map string_bytes words.now) request →
        EndsReading (messages request) result (record {
          left = S.left source.old;
          left_after = S.left source.new;
          faults = S.faults source.old;
          faults_after = S.faults source.new;
          taken = K.taken sink.old;
          taken_after = K.taken sink.new;
          sink_faults = K.faults sink.old;
          sink_faults_after = K.faults sink.new;
        }) }
    ensures wrong_words { result ≡ 1 → AsksForNothing (map string_bytes words.now) }
    ensures asked { result ≢ 1 → result ≢ 5 →
        (request : Request) × AsksFor (map string_bytes words.now) request }
    ensures no_other { result ≤ 7 }

    // Nothing is read or written for other words, and nothing is written with any status but 0 and
    // 4.
    ensures untouched { AsksForNothing (map string_bytes words.now) →
        (source.new ≡ source.old) × (sink.new ≡ sink.old) }
    ensures goes_on { HasGone (most_bytes + 1) (S.left source.old) (S.left source.new) }
    ensures nothing_written { result ≢ 0 → result ≢ 4 → sink.new ≡ sink.old }
{
    match Request::of_words(alloc, words) {
        Ok(Some(request)) => carry_out(alloc, &request, source, sink).into(),
        Ok(None) => Status::WrongWords.into(),
        Err(error) => out_of_memory(error).into(),
    }
}

// Does what is asked for.
fn carry_out<S: Source, K: Sink>(
    alloc: Global,
    request: &Request,
    source: &mut S,
    sink: &mut K,
) -> Status
    ensures ends { EndsReading (messages request.now) (status_number result) (record {
      left = S.left source.old;
      left_after = S.left source.new;
      faults = S.faults source.old;
      faults_after = S.faults source.new;
      taken = K.taken sink.old;
      taken_after = K.taken sink.new;
      sink_faults = K.faults sink.old;
      sink_faults_after = K.faults sink.new;
    }) }
    ensures asked { status_number result ≢ 1 }
    ensures goes_on { HasGone (most_bytes + 1) (S.left source.old) (S.left source.new) }
    ensures nothing_written { status_number result ≢ 0 → status_number result ≢ 4 →
        sink.new ≡ sink.old }
{
    match text_of(alloc, request, source) {
        Ok(text) => print(sink, text.as_slice()),
        Err(status) => status,
    }
}

// The text to print for a request, or the status.
fn text_of<S: Source>(alloc: Global, request: &Request, source: &mut S) -> Result<Bytes, Status>
    ensures answers { AnswersSource (messages request.now) result (S.left source.old)
        (S.left source.new) (S.faults source.old) (S.faults source.new) }
    ensures goes_on { HasGone (most_bytes + 1) (S.left source.old) (S.left source.new) }
{
    match input(alloc, source) {
        Ok(bytes) => line_for(alloc, request, bytes.as_slice()),
        Err(status) => Err(status),
    }
}

// The line to print for the text of a message, or the status.
fn line_for(alloc: Global, request: &Request, text: &[u8]) -> Result<Bytes, Status>
    ensures { AnswersText (messages request.now) result text.now }
{
    match read_line(alloc, text) {
        Ok(Some(message)) => line_for_message(alloc, request, message.as_slice()),
        Ok(None) => Err(Status::NoScript),
        Err(error) => Err(out_of_memory(error)),
    }
}

// The line to print for a message, or the status.
fn line_for_message(alloc: Global, request: &Request, message: &[u8]) -> Result<Bytes, Status>
    ensures { AnswersMessage request.now result message.now }
{
    match request.result_for(alloc, message) {
        Ok(bytes) => line_to_print(alloc, bytes.as_slice()),
        Err(error) => Err(status_of(error)),
    }
}

// The line of hex of some bytes, or the status.
fn line_to_print(alloc: Global, bytes: &[u8]) -> Result<Bytes, Status>
    ensures { AnswersPrinting (hex_line bytes.now) result }
{
    match line_of(alloc, bytes) {
        Ok(text) => Ok(text),
        Err(error) => Err(out_of_memory(error)),
    }
}

// The status where a message is refused, or out of memory.
fn status_of(error: RelayError) -> Status
    ensures { result ≡ status_of error }
{
    match error {
        RelayError::OutOfMemory => Status::NoMemory,
        _ => Status::Invalid,
    }
}
