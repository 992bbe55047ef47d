//! What a client answers to an event, and its text.

ghost use Rattle.std.specs.Prelude.{◌≡◌, ◌++◌, OnOk, codes, map, string_bytes};
ghost use Rattle.dhcp_output.specs.Output.{plain_output};
ghost use Rattle.dhcp_live.specs.Answer.{
  answer_text,
  dropped_line,
  reason_line,
  dropped_text,
  listening_text,
  moment_text,
};

use crate::{Dropped, PlainVerdict};
use dhcp_output::{Output, push_outputs};
use dhcp_verdict::PacketVerdict;
use dhcp_wire::Sequence;
use std::alloc::{AllocError, Global};

/// What a client says to an event: what it reports, what the packet of the event is to it, and how
/// it stands then. `PacketVerdict::Answer` is something else: a packet that answers the client.
#[derive(Drop)]
pub struct EventReply {
    /// What is reported of the event, in order.
    pub outputs: Sequence<Output>,
    /// What the packet of the event is to the client, if there is one and no change of state is
    /// reported.
    pub dropped: Option<Dropped>,
    /// The moment, in milliseconds, of the next event that is needed if no packet comes; none if an
    /// error is kept.
    pub next: Option<u64>,
    /// Whether a packet that comes is read.
    pub is_listening: bool,
    /// How many random words are left.
    pub words_left: usize,
}

/// Puts what a client says to an event at the end of a text: a line for each output; a line
/// `dropped`, with the number of the event and the reason, if `dropped` has a packet that is no
/// answer to the client; and then a line for the carrier, `next`, the moment or `never`,
/// `listening` or `deaf`, and how many words are left. After an error, which is out of memory, a
/// part of it may be there.
#[tactic(auto, unfolding(crate::specs::Answer::answer_text))]
pub fn push_answer(alloc: Global, text: &mut String, answer: &EventReply) -> Result<(), AllocError>
    ensures { OnOk result (string_bytes text.new ≡ string_bytes text.old
        ++ answer_text (map plain_output answer.now.outputs) answer.now.dropped answer.now.next
        answer.now.is_listening answer.now.words_left) }
{
    push_outputs(alloc, text, answer.outputs.as_slice())?;
    push_dropped(text, answer.dropped)?;
    push_next(text, answer.next)?;
    let listening = listening_word(answer.is_listening);
    let left = answer.words_left;
    write!(text, " {listening} {left}\n")
}

// Puts the line of a packet at the end of a text, if there is one that is no answer.
fn push_dropped(text: &mut String, dropped: Option<Dropped>) -> Result<(), AllocError>
    ensures { OnOk result (string_bytes text.new
        ≡ string_bytes text.old ++ dropped_text dropped) }
{
    match dropped {
        Some(dropped) => push_verdict(text, dropped.number, dropped.verdict),
        None => Ok(()),
    }
}

// Puts the line of the packet of the event of this number at the end of a text; none of an answer.
fn push_verdict(text: &mut String, number: u32, verdict: PlainVerdict) -> Result<(), AllocError>
    ensures { OnOk result (string_bytes text.new
        ≡ string_bytes text.old ++ dropped_line number verdict) }
{
    match verdict {
        PacketVerdict::Answer => Ok(()),
        PacketVerdict::NoOpenAttempt => push_reason(text, number, "no-open-attempt"),
        PacketVerdict::OtherCarrier => push_reason(text, number, "other-carrier"),
        PacketVerdict::NoFrame => push_reason(text, number, "no-frame"),
        PacketVerdict::NoMessage => push_reason(text, number, "no-message"),
        PacketVerdict::OtherTransactionId => push_reason(text, number, "other-transaction-id"),
        PacketVerdict::OtherType(Some(kind)) => {
            write!(text, "dropped {number} other-type {kind}\n")
        }
        PacketVerdict::OtherType(None) => push_reason(text, number, "other-type none"),
        PacketVerdict::OtherServer => push_reason(text, number, "other-server"),
        PacketVerdict::NoLease(kind) => write!(text, "dropped {number} no-lease {kind}\n"),
    }
}

// Puts the line of a packet that was no answer, for this reason, at the end of a text.
fn push_reason(text: &mut String, number: u32, reason: &str) -> Result<(), AllocError>
    ensures { OnOk result (string_bytes text.new
        ≡ string_bytes text.old ++ reason_line number reason.now) }
{
    write!(text, "dropped {number} {reason}\n")
}

// Puts the moment of the next event at the end of a text.
fn push_next(text: &mut String, next: Option<u64>) -> Result<(), AllocError>
    ensures { OnOk result (string_bytes text.new
        ≡ string_bytes text.old ++ (codes "next " ++ moment_text next)) }
{
    match next {
        Some(moment) => write!(text, "next {moment}"),
        None => text.push_str("next never"),
    }
}

// The word that says whether a packet is read.
fn listening_word(is_listening: bool) -> &'static str
    ensures { result.now ≡ listening_text is_listening }
{
    if is_listening { "listening" } else { "deaf" }
}
