//! An attempt: what a client sends, and what answers it.

ghost use Rattle.std.specs.Prelude.{◌≡◌, ◌≤◌, ◌<◌, ◌^◌, ◌⊎◌, true, false, not, Some, None, is_some, Ok, OnOk, OnErr, IfOk, IfSome};
ghost use Rattle.dhcp_clock.specs.declared.link.Handed.{Handed};
ghost use Rattle.dhcp_clock.specs.declared.link.Packet.{Packet};
ghost use Rattle.dhcp_clock.specs.Link.{Gives, Hands, HandsOver, with_message, without_packet};
ghost use Rattle.dhcp_wire.specs.Fault.{HasCause};
ghost use Rattle.dhcp_history.specs.Machine.{is_unpolled, is_pausing, has_open_attempt, receive};
ghost use Rattle.dhcp_history.specs.Client.{view_of, view_with};
ghost use Rattle.dhcp_history.specs.Seen.{seen};
ghost use Rattle.dhcp_history.specs.Traced.{Hears, Transmits};
ghost use Rattle.dhcp_history.specs.Run.{
  input_of,
  sent_by,
  WhereKnown,
  HasReceived,
  HasTransmitted,
  PacketMayAnswer,
  IsShut,
  IsUnsent,
};

use crate::machine::exchange_at;
use crate::{AttemptStart, Client, NewAttempt, Phase, Rules, Standing};
use dhcp_clock::{DhcpLink, Handed, Sent, Words};
use std::alloc::AllocError;

/// Hands a message to a link as its kind asks: a frame, or a payload over IPv4 or IPv6.
pub fn send<L: DhcpLink>(link: &mut L, message: Handed) -> Sent
    ensures hands_over { HandsOver message result (L.shown link.old) (L.shown link.new) }
    ensures moved { L.moves (Hands message result) link.old link.new }
    ensures faults { HasCause (result ≡ Sent.Refused) (L.faults link.old) (L.faults link.new) }
{
    match message {
        Handed::Frame(bytes) => link.send_frame(bytes),
        Handed::Udp4(from, to, bytes) => link.send_udp4(from, to, bytes),
        Handed::Udp6(from, index, bytes) => link.send_udp6(from, index, bytes),
    }
}

// Whether a client has sent nothing yet in its state.
fn is_pausing(phase: Phase) -> bool
    ensures { result ≡ is_pausing phase }
{
    phase == Phase::Pausing
}

// Whether an attempt is open.
fn has_open_attempt(phase: Phase) -> bool
    ensures { result ≡ has_open_attempt phase }
{
    phase == Phase::Listening
}

// Step 5: an attempt of a client that stands so once it was polled. When out of memory the client
// is unchanged.
pub(crate) fn transmit<R: Rules, W: Words, L: DhcpLink>(
    rules: &R,
    client: &mut Client<R::State, R::Exchange>,
    begun: Standing<R::Exchange>,
    now: u64,
    words: &mut W,
    link: &mut L,
) -> Result<(), AllocError>
    requires moment { now < 2 ^ 60 }
    requires small { begun.entered < 2 ^ 60 }
    ensures transmitted { OnOk result (WhereKnown
        (W.left words.old) (L.shown link.old) (λ available before.
        HasTransmitted (R.protocol rules.now) now (view_with client.old begun available)
        (view_of client.new) (W.left words.new) before (L.shown link.new))) }
    ensures traced { OnOk result (Transmits (R.protocol rules.now) W.gives L.moves now
        (view_with client.old begun) (view_of client.new)
        words.old words.new link.old link.new) }
    ensures state { client.new.state ≡ client.old.state }
    ensures timeout { client.new.timeout_sec ≡ client.old.timeout_sec }
    ensures moment { OnOk result (client.new.last_moment ≡ now) }
    ensures unchanged { OnErr result (IsUnsent client.old client.new
        (L.shown link.old) (L.shown link.new)) }
    ensures unmade { OnErr result ((link.new ≡ link.old)
        ⊎ ((message : Handed) × L.moves (Hands message Sent.NoMemory) link.old link.new)) }
    ensures quiet { OnErr result (IfSome (L.shown link.old)
        (λ before. L.shown link.new ≡ Some before)) }
    ensures sent { OnOk result (IfSome (L.shown link.old) (λ before. (message : Handed)
        × (L.shown link.new ≡ Some (with_message message (sent_by before.refuses) before)))) }
    ensures armed { OnOk result (is_some client.new.standing.deadline ≡ true) }
    ensures listens { OnOk result (IfSome (L.shown link.old) (λ before.
        has_open_attempt client.new.standing.phase ≡ not before.refuses)) }
    ensures later { L.faults link.old ≤ L.faults link.new }
{
    let start = AttemptStart {
        is_first: is_pausing(begun.phase),
        entered: begun.entered,
        now,
    };
    let exchange = exchange_at(rules, begun, now);
    let NewAttempt {
        wait,
        message,
        exchange,
    } = rules.attempt(&client.state, exchange, start, words)?;
    let phase = match send(link, message) {
        Sent::Taken => Phase::Listening,
        Sent::Refused => Phase::Resting,
        Sent::NoMemory => return Err(AllocError),
    };
    client.standing = Standing {
        exchange,
        entered: begun.entered,
        phase,
        deadline: Some(now + wait),
    };
    client.last_moment = now;
    Ok(())
}

// Steps 6 and 7: a client that listens takes the packet that waits. When out of memory the client
// is unchanged, and the packet may be lost.
pub(crate) fn receive<R: Rules, W: Words, L: DhcpLink>(
    rules: &R,
    client: &mut Client<R::State, R::Exchange>,
    now: u64,
    words: &mut W,
    link: &mut L,
) -> Result<Option<R::PublicState>, AllocError>
    requires { now < 2 ^ 60 }
    ensures received { IfOk result (λ change. WhereKnown
        (W.left words.old) (L.shown link.old) (λ available before.
        HasReceived (R.protocol rules.now)
        (receive (R.protocol rules.now) now (input_of before.waiting) None
        (view_of client.old available))
        change (view_of client.new) (W.left words.new) before (L.shown link.new))) }
    ensures traced { IfOk result (λ change. Hears (R.protocol rules.now) W.gives L.moves
        (has_open_attempt client.old.standing.phase) now change
        (view_of client.old) (view_of client.new) words.old words.new link.old link.new) }
    ensures timeout { client.new.timeout_sec ≡ client.old.timeout_sec }
    ensures moment { client.new.last_moment ≡ client.old.last_moment }
    ensures state { OnErr result (client.new.state ≡ client.old.state) }
    ensures standing { OnErr result (client.new.standing ≡ client.old.standing) }
    ensures needed { OnErr result (PacketMayAnswer (R.may_answer rules.now)
        client.old (L.shown link.old)) }
    ensures lost { OnErr result
        ((packet : Packet) × L.moves (Gives (Some packet)) link.old link.new) }
    ensures still { result ≡ Ok None → client.new.state ≡ client.old.state }
    ensures reported { IfOk result (λ change. IfSome change (λ reported.
        reported ≡ (R.protocol rules.now).public_state client.new.state)) }
    ensures stays { ((client.new.standing ≡ client.old.standing)
        × (client.new.state ≡ client.old.state))
        ⊎ (is_unpolled client.new.standing.phase ≡ true) }
    ensures shut { has_open_attempt client.old.standing.phase ≡ false → IsShut result
        client.old.standing
        (seen client.old (W.left words.old) (L.shown link.old) (L.faults link.old))
        (seen client.new (W.left words.new) (L.shown link.new) (L.faults link.new)) }
    ensures packet { IfSome (L.shown link.old) (λ before.
        (L.shown link.new ≡ Some before) ⊎ (L.shown link.new ≡ Some (without_packet before))) }
    ensures later { L.faults link.old ≤ L.faults link.new }
{
    if !has_open_attempt(client.standing.phase) {
        return Ok(None);
    }
    let Some(packet) = link.receive() else {
        return Ok(None);
    };
    let Some(answer) = rules.reading(&client.state, client.standing.exchange, packet, words)? else {
        return Ok(None);
    };
    let mut exchange = client.standing.exchange;
    let reported = rules.after_answer(&mut client.state, answer, now, &mut exchange)?;
    client.standing = Standing::unpolled(exchange);
    Ok(Some(reported))
}
