//! What a script of either family has after its configuration, and its reader.

pub mod printer;

ghost use Rattle.std.specs.Prelude.{◌≡◌};
ghost use Rattle.dhcp_stream.specs.TextReader.{Takes};
ghost use Rattle.dhcp_script.specs.LifeReader.{event_at, events_at, life_at, what_at, call_in};

use crate::field::flag;
use crate::{Event, EventWhat};
use dhcp_stream::{ReadError, TextReader};
use dhcp_wire::Sequence;
use std::alloc::Global;

/// What scripts of both families have after their configuration: random words, and what happens
/// when.
#[derive(Drop)]
pub struct Life {
    /// The random words that the client draws, in order; after the last one each is 0.
    pub words: Sequence<u32>,
    /// The moment at which the client begins, in milliseconds.
    pub start: u64,
    /// The events, in the order in which they happen.
    pub events: Sequence<Event>,
}

/// Reads the lines from `words` to `end`. `Malformed` only if the text does not go on with them;
/// out of memory is the only other error.
#[tactic(auto, unfolding(crate::specs::LifeReader::life_at))]
pub fn read_life(alloc: Global, text: &mut TextReader) -> Result<Life, ReadError>
    ensures { Takes result text.new (life_at text.old) }
{
    text.tag(b"words ")?;
    let words = text.words(alloc, b'\n')?;
    text.tag(b"start ")?;
    let start = text.number(u64::MAX, b'\n')?;
    let events = read_events(alloc, text)?;
    Ok(Life {
        words,
        start,
        events,
    })
}

// Reads the lines of the events, and the last line, `end`.
fn read_events(alloc: Global, text: &mut TextReader) -> Result<Sequence<Event>, ReadError>
    ensures { Takes result text.new (events_at text.old) }
{
    let mut events = Vec::new(alloc);
    'lines: while text.skip(b"at ") {
        events.push(read_event(alloc, text)?)?;
    }
    text.tag(b"end\n")?;
    Ok(Sequence::from(events))
}

/// Reads an event, after `at `: its moment in milliseconds, `refuse` or `ok`, and what happens.
/// `Malformed` only if the text does not go on with it; out of memory is the only other error.
#[tactic(auto, unfolding(crate::specs::LifeReader::event_at))]
pub fn read_event(alloc: Global, text: &mut TextReader) -> Result<Event, ReadError>
    ensures { Takes result text.new (event_at text.old) }
{
    let moment = text.number(u64::MAX, b' ')?;
    let refuse = flag(text.field(b' ')?, b"refuse", b"ok")?;
    let what = read_what(alloc, text)?;
    Ok(Event {
        moment,
        refuse,
        what,
    })
}

// Reads what happens at an event, to the end of the line.
#[tactic(auto, unfolding(crate::specs::LifeReader::what_at))]
fn read_what(alloc: Global, text: &mut TextReader) -> Result<EventWhat, ReadError>
    ensures { Takes result text.new (what_at text.old) }
{
    if text.skip(b"frame ") {
        return Ok(EventWhat::Frame(text.hex(alloc, b'\n')?));
    }
    if text.skip(b"payload ") {
        return Ok(EventWhat::Payload(text.hex(alloc, b'\n')?));
    }
    let field = text.field(b'\n')?;
    call(field).ok_or(ReadError::Malformed)
}

// What happens without a packet: `none`, `release` or `cleanup`; none for any other field.
fn call(field: &[u8]) -> Option<EventWhat>
    ensures { result ≡ call_in field.now }
{
    if field == b"none".as_slice() {
        Some(EventWhat::Nothing)
    } else if field == b"release".as_slice() {
        Some(EventWhat::Release)
    } else if field == b"cleanup".as_slice() {
        Some(EventWhat::CleanUp)
    } else {
        None
    }
}
