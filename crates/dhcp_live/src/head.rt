//! The head of a script: its lines up to and with that of `start`.

ghost use Rattle.std.specs.Prelude.{◌≡◌, ◌↔◌, ◌++◌, IsTrue, Some, []};
ghost use Rattle.dhcp_wire.specs.Outcome.{Makes};
ghost use Rattle.dhcp_stream.specs.Reading.{GivesReading};
ghost use Rattle.dhcp_script.specs.Script.{IsScript, script_text};
ghost use Rattle.dhcp_script.specs.declared.script.Script.{Script};
ghost use Rattle.dhcp_replay.specs.Replayed.{events_of};
ghost use Rattle.dhcp_live.specs.Tool.{HearsHead, ReadsHead, end_line, is_last_of_head};

use dhcp_dialogue::{Dialogue, MAX_LINE};
use dhcp_script::{Script, read_script};
use dhcp_stream::TextReader;
use dhcp_tool::{Status, out_of_memory};
use dhcp_wire::{Bytes, DhcpError};
use std::alloc::Global;

/// Hears the lines of the head of a script, or returns the status with which the program ends.
pub fn hear_head<D: Dialogue>(alloc: Global, dialogue: &mut D) -> Result<Bytes, Status>
    ensures { HearsHead D.moves result dialogue.old dialogue.new }
{
    let mut head = Vec::new(alloc);
    let mut line = Vec::new(alloc);
    'lines: while head.len() <= MAX_LINE {
        dialogue.hear(&mut line)?;
        if head.extend_from_slice(line.as_slice()).is_err() {
            return Err(Status::NoMemory);
        }
        if is_last(line.as_slice()) {
            return Ok(Bytes::from(head));
        }
    }
    Err(Status::TooLong)
}

// Whether a line is the last one of a head.
fn is_last(line: &[u8]) -> bool
    ensures { result ≡ is_last_of_head line.now }
{
    TextReader::new(line).skip(b"start ")
}

/// The script that has this head, or the status: `NoScript` or `NoMemory`.
pub fn read_head(alloc: Global, head: &[u8]) -> Result<Script, Status>
    ensures { ReadsHead head.now result }
{
    match read_text(alloc, head) {
        Ok(Some(script)) => {
            let is_head = has_no_events(&script);
            is_head.then_some(script).ok_or(Status::NoScript)
        }
        Ok(None) => Err(Status::NoScript),
        Err(error) => Err(out_of_memory(error)),
    }
}

// Whether a script has no events.
fn has_no_events(script: &Script) -> bool
    ensures { IsTrue result ↔ (events_of script.now ≡ []) }
{
    match script {
        Script::V4(script) => script.events.is_empty(),
        Script::V6(script) => script.events.is_empty(),
    }
}

// The script whose text is a head and the line `end`, if there is one.
fn read_text(alloc: Global, head: &[u8]) -> Result<Option<Script>, DhcpError>
    ensures reading { GivesReading script_text IsScript result (head.now ++ end_line) }
    ensures one { (script : Script) → IsScript script → script_text script ≡ head.now ++ end_line →
        Makes (λ read. read) result (Some script) }
{
    let text = with_end(alloc, head)?;
    read_script(alloc, text.as_slice())
}

// A head, and the line `end`.
fn with_end(alloc: Global, head: &[u8]) -> Result<Bytes, DhcpError>
    ensures { Makes (λ text. text) result (head.now ++ end_line) }
{
    let mut text = head.to_vec(alloc)?;
    text.extend_from_slice(b"end\n")?;
    Ok(Bytes::from(text))
}
