//! The lines of a life that a program is told one by one.

ghost use Rattle.std.specs.Prelude.{◌≡◌, Some};
ghost use Rattle.dhcp_wire.specs.Outcome.{Makes};
ghost use Rattle.dhcp_stream.specs.Reading.{GivesReading};
ghost use Rattle.dhcp_stream.specs.TextReader.{Finds, Takes};
ghost use Rattle.dhcp_script.specs.LiveLine.{IsLiveLine, live_line_text};
ghost use Rattle.dhcp_script.specs.LiveLineReader.{live_line_at, live_line_in};

use crate::Event;
use crate::life::read_event;
use crate::script::reader::at_end;
use dhcp_stream::{ReadError, TextReader};
use dhcp_wire::{DhcpError, Sequence};
use std::alloc::{AllocError, Global};

/// A line of a life that goes on.
#[derive(Debug, PartialEq, Drop)]
pub enum LiveLine {
    /// An event, as in a script.
    Event(Event),
    /// Further random words, behind those that are left.
    Words(Sequence<u32>),
    /// The last line.
    End,
}

/// What a line says, its line feed included. None if and only if it is no such line; out of memory
/// is the only error.
pub fn read_live_line(alloc: Global, line: &[u8]) -> Result<Option<LiveLine>, DhcpError>
    ensures reading { GivesReading live_line_text IsLiveLine result line.now }
    ensures one { (said : LiveLine) → IsLiveLine said → live_line_text said ≡ line.now →
        Makes (λ read. read) result (Some said) }
{
    match read_whole_line(alloc, line) {
        Ok(said) => Ok(Some(said)),
        Err(ReadError::Malformed) => Ok(None),
        Err(ReadError::OutOfMemory) => Err(DhcpError::from(AllocError)),
    }
}

// Reads a line, which is the whole text.
#[tactic(auto, unfolding(crate::specs::LiveLineReader::live_line_in))]
fn read_whole_line(alloc: Global, line: &[u8]) -> Result<LiveLine, ReadError>
    ensures { Finds result (live_line_in line.now) }
{
    let mut text = TextReader::new(line);
    let said = read_line(alloc, &mut text)?;
    at_end(&text, said)
}

// Reads a line from the front of a text.
#[tactic(auto, unfolding(crate::specs::LiveLineReader::live_line_at))]
fn read_line(alloc: Global, text: &mut TextReader) -> Result<LiveLine, ReadError>
    ensures { Takes result text.new (live_line_at text.old) }
{
    if text.skip(b"at ") {
        return Ok(LiveLine::Event(read_event(alloc, text)?));
    }
    if text.skip(b"words ") {
        return Ok(LiveLine::Words(text.words(alloc, b'\n')?));
    }
    text.tag(b"end\n")?;
    Ok(LiveLine::End)
}
