//! The printer of what a script of either family has after its configuration.

ghost use Rattle.std.specs.Prelude.{◌≡◌, ◌++◌, OnOk, string_bytes};
ghost use Rattle.std.specs.List.{flat_map};
ghost use Rattle.dhcp_script.specs.Field.{flag_text};
ghost use Rattle.dhcp_script.specs.Life.{event_line, life_text, what_text};

use crate::hex_text::{push_hex, push_numbers};
use crate::{Event, EventWhat};
use dhcp_wire::Sequence;
use std::alloc::AllocError;

/// Puts the lines from `words` to `end` at the end of a text. After an error, which is out of
/// memory, a part of them may be there.
pub fn push_life(
    text: &mut String,
    words: &Sequence<u32>,
    start: u64,
    events: &Sequence<Event>,
) -> Result<(), AllocError>
    ensures { OnOk result (string_bytes text.new
        ≡ string_bytes text.old ++ life_text words.now start events.now) }
{
    text.push_str("words ")?;
    push_numbers(text, words.as_slice())?;
    write!(text, "\nstart {start}\n")?;
    push_events(text, events.as_slice())?;
    text.push_str("end\n")
}

// Puts the lines of events at the end of a text.
fn push_events(text: &mut String, events: &[Event]) -> Result<(), AllocError>
    ensures { OnOk result (string_bytes text.new
        ≡ string_bytes text.old ++ flat_map event_line events.now) }
{
    for event in events {
        push_event(text, event)?;
    }
    Ok(())
}

// Puts the line of an event at the end of a text.
fn push_event(text: &mut String, event: &Event) -> Result<(), AllocError>
    ensures { OnOk result (string_bytes text.new
        ≡ string_bytes text.old ++ event_line event.now) }
{
    let moment = event.moment;
    write!(text, "at {moment} ")?;
    push_flag(text, event.refuse, "refuse", "ok")?;
    text.push(' ')?;
    push_what(text, &event.what)?;
    text.push('\n')
}

/// Puts the word for a flag that is set, or that for one that is not, at the end of a text. Out of
/// memory is the only error.
pub fn push_flag(text: &mut String, flag: bool, set: &str, unset: &str) -> Result<(), AllocError>
    ensures { OnOk result (string_bytes text.new
        ≡ string_bytes text.old ++ flag_text set.now unset.now flag) }
{
    text.push_str(if flag { set } else { unset })
}

// Puts what happens at an event at the end of a text; the bytes of a packet are in hex.
fn push_what(text: &mut String, what: &EventWhat) -> Result<(), AllocError>
    ensures { OnOk result (string_bytes text.new
        ≡ string_bytes text.old ++ what_text what.now) }
{
    match what {
        EventWhat::Nothing => text.push_str("none"),
        EventWhat::Frame(bytes) => {
            text.push_str("frame ")?;
            push_hex(text, bytes.as_slice())
        }
        EventWhat::Payload(bytes) => {
            text.push_str("payload ")?;
            push_hex(text, bytes.as_slice())
        }
        EventWhat::Release => text.push_str("release"),
        EventWhat::CleanUp => text.push_str("cleanup"),
    }
}
